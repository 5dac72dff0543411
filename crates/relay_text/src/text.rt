//! A text in a field of a public type, which contracts see as its bytes.
use crate::inline_bytes::InlineBytes;
use std::alloc::{AllocError, Global};
use std::default::MadeWith;
use std::marker::Model;

/// Bytes, of any value. Up to 46 of them lie in the value itself, more in memory of their own.
pub struct Text {
    bytes: InlineBytes<(), 46>,
}

// Written out: what becomes of a derived drop's parts is followed in each proof that has such a value to its end.
impl Drop for Text {
    fn drop(self) {
        let Text { bytes: _ } = self;
    }
}

impl Model for Text {
    ghost use Rattle.std.specs.Prelude.{List, ℕ};

    ghost Value = { List ℕ };

    ghost view = { λ a. a.bytes.bytes };
}

/// No bytes, which takes no memory. It fills the places of a short list that hold no text.
impl MadeWith<Global> for Text {
    ghost use Rattle.std.specs.Prelude.{◌≡◌, []};

    ghost is_made_with = { λ text. text ≡ [] };

    fn made_with(_: Global) -> Text {
        Text {
            bytes: InlineBytes::empty(()),
        }
    }
}

impl Text {
    ghost use Rattle.std.specs.Prelude.{◌≡◌, ◌==◌, ◌++◌, length, IfOk, OnOk, OnErr};
    ghost use Rattle.relay_text.specs.Bytes.{folded};

    /// The text, without taking memory.
    pub fn of(bytes: Vec<u8>) -> Self
        ensures { result ≡ bytes.items }
    {
        Text {
            bytes: InlineBytes::of((), bytes),
        }
    }

    /// The text of these bytes.
    pub(crate) fn of_inline(bytes: InlineBytes<(), 46>) -> Self
        ensures { result ≡ bytes.bytes }
    {
        Text { bytes }
    }

    /// A text of the same bytes. `Err` where memory runs out.
    pub fn copy_of(alloc: Global, bytes: &[u8]) -> Result<Self, AllocError>
        ensures { IfOk result (λ text. text ≡ bytes.now) }
    {
        Ok(Text {
            bytes: InlineBytes::copy_of(alloc, (), bytes)?,
        })
    }

    /// A text of the same bytes, ASCII capitals in lower case. `Err` where memory runs out.
    pub fn folded_copy_of(alloc: Global, bytes: &[u8]) -> Result<Self, AllocError>
        ensures { IfOk result (λ text. text ≡ folded bytes.now) }
    {
        let mut text = Text::copy_of(alloc, bytes)?;
        text.fold();
        Ok(text)
    }

    /// Puts ASCII capitals into lower case.
    pub fn fold(&mut self)
        ensures { self.new ≡ folded self.old }
    {
        self.bytes.fold_from(0);
    }

    /// Puts bytes at the end. `Err` where memory runs out; the text is then as it was.
    pub fn append(&mut self, alloc: Global, more: &[u8]) -> Result<(), AllocError>
        ensures ok { OnOk result (self.new ≡ self.old ++ more.now) }
        ensures err { OnErr result (self.new ≡ self.old) }
    {
        self.bytes.append(alloc, more)
    }

    /// The bytes in place.
    pub fn as_bytes(&self) -> &[u8]
        ensures { result.now ≡ self.now }
    {
        self.bytes.as_slice()
    }

    /// The bytes as a `Vec`. `Err` where memory runs out.
    pub fn into_bytes(self, alloc: Global) -> Result<Vec<u8>, AllocError>
        ensures { IfOk result (λ bytes. bytes.items ≡ self) }
    {
        let Text { bytes } = self;
        bytes.into_vec(alloc)
    }

    /// How many bytes there are.
    pub fn len(&self) -> usize
        ensures { result ≡ length self.now }
    {
        self.as_bytes().len()
    }

    /// Whether there is none.
    pub fn is_empty(&self) -> bool
        ensures { result ≡ (length self.now == 0) }
    {
        self.as_bytes().is_empty()
    }
}
