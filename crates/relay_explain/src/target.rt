//! What names and items stand for.
use relay_text::{Address, Text};

/// What a name or an item stands for.
#[derive(Drop)]
pub enum Target {
    /// The entry of this name.
    Alias(Text),
    /// The include file of this path.
    Include(Text),
    /// A mailbox or a remote address.
    To(Address),
    /// A local name that is neither an entry nor a mailbox.
    Missing(Text),
    /// The path of an include file that isn't there.
    NoInclude(Text),
    /// A command, with its `|`.
    Command(Text),
    /// The path of a file.
    File(Text),
}

ghost use Rattle.std.specs.Prelude.{◌≡◌, ◌++◌, OnOk};
ghost use Rattle.relay_wire.specs.Findings.{after_spaces};
ghost use Rattle.relay_explain.specs.ExplanationText.{target_words};

use relay_wire::{put_name, put_path, put_word};
use std::alloc::AllocError;

impl Target {
    pub(crate) fn put(&self, out: &mut Vec<u8>) -> Result<(), AllocError>
        ensures { OnOk result (out.new.items ≡ out.old.items ++ after_spaces (target_words self.now)) }
    {
        match self {
            Target::Alias(name) => {
                put_word(b"alias", out)?;
                put_name(name.as_bytes(), out)
            }
            Target::Include(path) => {
                put_word(b"include", out)?;
                put_word(path.as_bytes(), out)
            }
            Target::To(address) => {
                put_word(b"to", out)?;
                put_path(Some(address), out)
            }
            Target::Missing(name) => {
                put_word(b"missing", out)?;
                put_name(name.as_bytes(), out)
            }
            Target::NoInclude(path) => {
                put_word(b"noinclude", out)?;
                put_word(path.as_bytes(), out)
            }
            Target::Command(text) => {
                put_word(b"command", out)?;
                put_word(text.as_bytes(), out)
            }
            Target::File(path) => {
                put_word(b"file", out)?;
                put_word(path.as_bytes(), out)
            }
        }
    }
}
