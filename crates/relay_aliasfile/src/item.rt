//! What an entry or an include file lists.
use relay_text::{Address, Text};
use std::alloc::Global;
use std::default::MadeWith;

/// One item of a list (aliases(5), "The right-hand side"; local(8)).
#[derive(Drop)]
pub enum Item {
    /// A local part without a domain, without quotes and escapes, in the case as spelled.
    Bare(Text),
    /// An address with a domain.
    Full(Address),
    /// The path of an include file, which begins with `/`.
    Include(Text),
    /// A command, with its `|`.
    Command(Text),
    /// The path of a file, which begins with `/`.
    File(Text),
}

/// A bare name of no bytes, which takes no memory. It fills the places of a short list that hold no item.
impl MadeWith<Global> for Item {
    ghost use Rattle.std.specs.Prelude.{◌≡◌, []};
    ghost use Rattle.relay_aliasfile.specs.declared.item.Item.TheVariants.{Bare};

    ghost is_made_with = { λ item. item ≡ Bare [] };

    fn made_with(alloc: Global) -> Item {
        Item::Bare(Text::made_with(alloc))
    }
}

impl Item {
    ghost use Rattle.std.specs.Prelude.{◌≡◌, option_map};
    ghost use Rattle.relay_aliasfile.specs.IncludeNames.{included_path};

    /// The path of an include item.
    pub(crate) fn included_path(&self) -> Option<&[u8]>
        ensures { option_map (λ path. path.now) result ≡ included_path self.now }
    {
        match self {
            Item::Include(path) => Some(path.as_bytes()),
            Item::Bare(_) => None,
            Item::Full(_) => None,
            Item::Command(_) => None,
            Item::File(_) => None,
        }
    }
}
