//! The items of an entry.
use crate::item::Item;
use smallvec::SmallVec;
use std::alloc::{AllocError, Global};
use std::marker::Model;

/// The items of an entry, in order, which contracts see as their list. One lies in the value itself, more of them in memory of
/// their own.
pub struct Items {
    items: SmallVec<Item, 1, Global>,
}

// Written out: what becomes of a derived drop's parts is followed in each proof that has such a value to its end.
impl Drop for Items {
    fn drop(self) {
        let Items { items: _ } = self;
    }
}

impl Model for Items {
    ghost use Rattle.std.specs.Prelude.{List};
    ghost use Rattle.relay_aliasfile.specs.declared.item.Item.{Item};

    ghost Value = { List Item };

    ghost view = { λ a. a.items.items };
}

ghost use Rattle.std.specs.Prelude.{◌≡◌, ◌++◌, ◌∷◌, [], ◌==◌, length, OnOk, OnErr};

impl Items {
    /// No items, without taking memory.
    pub fn new(alloc: Global) -> Items
        ensures { result ≡ [] }
    {
        Items {
            items: SmallVec::new(alloc),
        }
    }

    /// These items, without copying them where there is more than one.
    pub(crate) fn of(items: Vec<Item>) -> Items
        ensures { result ≡ items.items }
    {
        Items {
            items: SmallVec::from_vec(items),
        }
    }

    /// Puts an item at the end. `Err` where memory runs out; the items are then as they were.
    pub fn push(&mut self, item: Item) -> Result<(), AllocError>
        ensures ok { OnOk result (self.new ≡ self.old ++ item ∷ []) }
        ensures err { OnErr result (self.new ≡ self.old) }
    {
        self.items.push(item)?;
        Ok(())
    }

    /// The items in place.
    pub fn as_slice(&self) -> &[Item]
        ensures { result.now ≡ self.now }
    {
        self.items.as_slice()
    }

    /// How many items there are.
    pub fn len(&self) -> usize
        ensures { result ≡ length self.now }
    {
        self.as_slice().len()
    }

    /// Whether there is none.
    pub fn is_empty(&self) -> bool
        ensures { result ≡ (length self.now == 0) }
    {
        self.as_slice().is_empty()
    }
}
