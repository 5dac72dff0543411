//! Items where they stand.
use crate::entry::Entry;
use relay_text::Text;

/// An item of an entry or an include file.
#[derive(Drop)]
pub struct Listed {
    pub entry: Entry,
    /// The number of its line, from 1; of the first one where an entry has several.
    pub line: usize,
    /// Its number among the items of its list, from 1.
    pub item: usize,
    /// As it stands there, without the white space at its ends.
    pub text: Text,
}

ghost use Rattle.std.specs.Prelude.{◌≡◌, ◌++◌, ◌∷◌, [], codes, decimal, OnOk};
ghost use Rattle.relay_wire.specs.Findings.{after_spaces};
ghost use Rattle.relay_explain.specs.ExplanationText.{listed_text, place_words};

use relay_wire::{put_number, put_word};
use std::alloc::AllocError;

impl Listed {
    /// Writes the line, the number and the text.
    fn put_place(&self, out: &mut Vec<u8>) -> Result<(), AllocError>
        ensures { OnOk result (out.new.items ≡ out.old.items ++ after_spaces (place_words self.now.line self.now.item self.now.text)) }
    {
        put_word(b"line", out)?;
        put_number(self.line, out)?;
        put_word(b"item", out)?;
        put_number(self.item, out)?;
        put_word(self.text.as_bytes(), out)
    }

    pub(crate) fn put(&self, out: &mut Vec<u8>) -> Result<(), AllocError>
        ensures { OnOk result (out.new.items ≡ out.old.items ++ listed_text self.now) }
    {
        self.entry.put(out)?;
        self.put_place(out)
    }
}
