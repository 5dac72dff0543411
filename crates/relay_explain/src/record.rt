//! Mail exchangers, and what becomes of them.
use relay_text::Text;

/// What becomes of a mail exchanger (RFC 5321 section 5.1).
#[derive(Clone, Copy, Debug, PartialEq, Eq)]
pub enum Fate {
    /// It is a host to try.
    Host,
    /// An earlier record has the same host and preference.
    Repeated,
    /// It is the relay itself.
    Own,
    /// It doesn't come before the relay itself.
    Discarded,
    /// It is the null MX (RFC 7505).
    Null,
}

/// A record of the table of mail exchangers for the name that is looked up.
#[derive(Drop)]
pub struct Record {
    /// The number of its line, from 1.
    pub line: usize,
    pub preference: u16,
    pub host: Text,
    pub fate: Fate,
}

ghost use Rattle.std.specs.Prelude.{◌≡◌, ◌++◌, OnOk};
ghost use Rattle.relay_wire.specs.PlanText.{line};
ghost use Rattle.relay_explain.specs.ExplanationText.{fate_word, record_text, record_line};

use relay_wire::{put_number, put_word};
use std::alloc::AllocError;

impl Fate {
    fn word(self) -> &'static [u8]
        ensures { result.now ≡ fate_word self }
    {
        match self {
            Fate::Host => b"host",
            Fate::Repeated => b"repeated",
            Fate::Own => b"own",
            Fate::Discarded => b"discarded",
            Fate::Null => b"null",
        }
    }
}

impl Record {
    #[tactic(auto, unfolding(crate::specs::ExplanationText::record_text))]
    fn put(&self, out: &mut Vec<u8>) -> Result<(), AllocError>
        ensures { OnOk result (out.new.items ≡ out.old.items ++ record_text self.now) }
    {
        put_number(self.line, out)?;
        put_number(usize::from(self.preference), out)?;
        put_word(self.host.as_bytes(), out)?;
        put_word(self.fate.word(), out)
    }

    pub(crate) fn put_line(&self, out: &mut Vec<u8>) -> Result<(), AllocError>
        ensures { OnOk result (out.new.items ≡ out.old.items ++ line (record_line self.now)) }
    {
        out.extend_from_slice(b"record mx line")?;
        self.put(out)?;
        out.push(b'\n')?;
        Ok(())
    }
}
