//! The physical lines of a text that aren't ignored.
ghost use Rattle.std.specs.Prelude.{◌+◌, ◌^◌, ◌<◌, length};

use crate::plain::PlainText;
use crate::scan::{cut_line, is_ignored};

/// A physical line without its end, under its number from 1. Ignored lines count too.
#[derive(Clone, Copy)]
pub struct KeptLine<'a> {
    /// The number of the line in its text, from 1.
    pub number: usize,
    /// Its bytes, without the LF and one CR before it.
    pub text: &'a [u8],
}

/// A physical line that is a text without quotes and nothing else, under its number.
#[derive(Drop)]
pub struct PlainLine<'a> {
    /// The number of the line in its text, from 1.
    pub number: usize,
    /// What the line is.
    pub text: PlainText<'a>,
}

/// A reader over the physical lines of a text that passes the ignored ones: those that are empty, of white space alone, or a comment
/// (aliases(5)). It takes no memory.
#[derive(Clone, Copy)]
pub struct KeptLines<'a> {
    rest: &'a [u8],
    passed: usize,
    ghost counted: { passed + length rest.now < 2 ^ 64 },
}

impl<'a> KeptLines<'a> {
    ghost use Rattle.std.specs.Prelude.{◌≡◌, ◌∷◌, [], IfSome, IfNone, IsTrue, is_none, not};
    ghost use Rattle.relay_text.specs.Lines.{kept_lines};
    ghost use Rattle.relay_text.specs.PlainTexts.{is_open_text};
    ghost use Rattle.relay_text.specs.KeptLines.{begins_plain, kept_line, kept_rest, plain_line};

    /// A reader that begins at the first line, which has the number 1.
    pub fn new(bytes: &'a [u8]) -> Self
        ensures { kept_rest result ≡ kept_lines bytes.now }
    {
        KeptLines {
            rest: bytes,
            passed: 0,
        }
    }

    /// The next line that isn't ignored; `None` at the end, and again from then on. Each byte is read once.
    pub fn next_line(&mut self) -> Option<KeptLine<'a>>
        ensures none { IfNone result (kept_rest self.old ≡ []) }
        ensures ended { IfNone result (kept_rest self.new ≡ []) }
        ensures some { IfSome result (λ line. kept_rest self.old ≡ kept_line line ∷ kept_rest self.new) }
    {
        while let Some((text, rest)) = cut_line(self.rest) {
            self.rest = rest;
            self.passed += 1;
            if !is_ignored(text) {
                return Some(KeptLine {
                    number: self.passed,
                    text,
                });
            }
        }
        None
    }

    /// The next line where it begins with a text without quotes, is no comment, and its LF follows that text at once; else nothing is read.
    pub fn next_plain(&mut self) -> Option<PlainLine<'a>>
        ensures none { IfNone result (kept_rest self.new ≡ kept_rest self.old) }
        ensures some { IfSome result (λ line. kept_rest self.old ≡ plain_line line ∷ kept_rest self.new) }
        ensures open { IfSome result (λ line. IsTrue (is_open_text line.text)) }
        ensures read { is_none result ≡ not (begins_plain self.old.rest.now) }
    {
        let text = PlainText::at_front(self.rest)?;
        let len = text.text().len();
        if len == self.rest.len() || self.rest[len] != b'\n' || self.rest[0] == b'#' {
            return None;
        }
        self.rest = &self.rest[len + 1..];
        self.passed += 1;
        let number = self.passed;
        Some(PlainLine { number, text })
    }
}

impl<'a> Iterator for KeptLines<'a> {
    type Item = KeptLine<'a>;

    ghost use Rattle.std.specs.Iterator.{YieldsFirstBy, item_count};
    ghost use Rattle.relay_text.specs.KeptLines.{kept_line, kept_rest};

    ghost next_gives = { YieldsFirstBy kept_line kept_rest };

    ghost remaining = { item_count kept_rest };

    fn next(&mut self) -> Option<KeptLine<'a>> {
        self.next_line()
    }
}
