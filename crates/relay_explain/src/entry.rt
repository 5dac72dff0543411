//! What has items.
use relay_text::Text;

/// An entry by its name, or an include file by its path.
#[derive(Drop)]
pub enum Entry {
    Alias(Text),
    Include(Text),
}

ghost use Rattle.std.specs.Prelude.{◌≡◌, ◌++◌, OnOk};
ghost use Rattle.relay_wire.specs.Findings.{after_spaces};
ghost use Rattle.relay_explain.specs.ExplanationText.{entry_words};

use relay_wire::{put_name, put_word};
use std::alloc::AllocError;

impl Entry {
    pub(crate) fn put(&self, out: &mut Vec<u8>) -> Result<(), AllocError>
        ensures { OnOk result (out.new.items ≡ out.old.items ++ after_spaces (entry_words self.now)) }
    {
        match self {
            Entry::Alias(name) => {
                put_word(b"alias", out)?;
                put_name(name.as_bytes(), out)
            }
            Entry::Include(path) => {
                put_word(b"include", out)?;
                put_word(path.as_bytes(), out)
            }
        }
    }
}
