//! A list in a field of a public type, which contracts see as that list.
use std::marker::Model;

/// A list of values, in order, in memory of its own.
pub struct Seq<T> {
    items: Vec<T>,
}

// Written out: what becomes of a derived drop's parts is followed in each proof that has such a value to its end.
impl<T: Drop> Drop for Seq<T> {
    fn drop(self) {
        let Seq { items: _ } = self;
    }
}

impl<T> Model for Seq<T> {
    ghost use Rattle.std.specs.Prelude.{List};

    ghost Value = { List T };

    ghost view = { λ a. a.items.items };
}

impl<T> Seq<T> {
    ghost use Rattle.std.specs.Prelude.{◌≡◌, ◌==◌, length};

    /// The list, without taking memory.
    pub fn of(items: Vec<T>) -> Self
        ensures { result ≡ items.items }
    {
        Seq { items }
    }

    /// The values in place.
    pub fn as_slice(&self) -> &[T]
        ensures { result.now ≡ self.now }
    {
        self.items.as_slice()
    }

    /// The values as a `Vec`, without taking memory.
    pub fn into_vec(self) -> Vec<T>
        ensures { result.items ≡ self }
    {
        let Seq { items } = self;
        items
    }

    /// How many values there are.
    pub fn len(&self) -> usize
        ensures { result ≡ length self.now }
    {
        self.as_slice().len()
    }

    /// Whether there is none.
    pub fn is_empty(&self) -> bool
        ensures { result ≡ (length self.now == 0) }
    {
        self.as_slice().is_empty()
    }
}
