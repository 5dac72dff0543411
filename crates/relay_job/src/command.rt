//! Commands of an envelope.
use crate::place::Place;
use relay_text::{Address, TextFault, begins_with_word, parse_path, same_bytes, trimmed_end};
use std::alloc::{AllocError, Global};

/// A line of an envelope that isn't of white space alone: its number, and its text as it stands for itself.
#[derive(Clone, Copy)]
pub struct Command<'a> {
    pub number: usize,
    pub text: &'a [u8],
}

ghost use Rattle.std.specs.Prelude.{◌≡◌, ◌<◌, true, [], ◌∷◌, codes, length, IsTrue, IfOk, IfSome, IfNone};
ghost use Rattle.std.specs.List.{list_all};
ghost use Rattle.relay_text.specs.Bytes.{is_white, begins_with_word};
ghost use Rattle.relay_text.specs.Addresses.{is_origin};
ghost use Rattle.relay_job.specs.JobText.{command_path, sender_in, recipient_in};
ghost use Rattle.relay_job.specs.JobParts.{line_in, commands_at};

/// Whether a text is of white space alone.
fn is_blank(text: &[u8]) -> bool
    ensures { result ≡ list_all is_white text.now }
{
    text.iter().all(|byte| *byte == b' ' || *byte == b'\t')
}

/// Whether a line begins with `RCPT TO:`, as nearly every line of an envelope does.
fn begins_with_capitals(line: &[u8]) -> bool
    ensures { result ≡ true → begins_with_word (codes "rcpt to:") line.now ≡ true }
{
    match line.split_first_chunk::<8>() {
        Some((front, _)) => same_bytes(front, b"RCPT TO:"),
        None => false,
    }
}

/// The path that stands behind a command's word; `None` where none does.
fn path_behind(
    alloc: Global,
    word: &[u8],
    origin: &[u8],
    line: &[u8],
) -> Result<Option<Option<Address>>, AllocError>
    requires origin { IsTrue (is_origin origin.now) }
    requires word { begins_with_word word.now line.now ≡ true }
    ensures { IfOk result (λ path. path ≡ command_path word.now origin.now line.now) }
{
    match parse_path(alloc, trimmed_end(&line[word.len()..]), origin) {
        Ok(path) => Ok(Some(path)),
        Err(TextFault::Memory) => Err(AllocError),
        Err(_) => Ok(None),
    }
}

impl<'a> Command<'a> {
    /// The next command of a section, and the place behind it.
    pub(crate) fn split_from(section: &Place<'a>) -> Option<(Command<'a>, Place<'a>)>
        ensures none { IfNone result (commands_at section.now ≡ []) }
        ensures lines { IfSome result (λ split. commands_at section.now ≡ line_in split.0 ∷ commands_at split.1) }
        ensures shorter { IfSome result (λ split. length split.1.rest.now < length section.now.rest.now) }
    {
        let mut place = *section;
        while let Some((line, after)) = place.split_content() {
            let text = line.content_text();
            if !is_blank(text) {
                let number = line.number;
                return Some((Command { number, text }, after));
            }
            place = after;
        }
        None
    }

    /// The path of the sender that the command names; `None` where it names none.
    pub(crate) fn sender(
        &self,
        alloc: Global,
        origin: &[u8],
    ) -> Result<Option<Option<Address>>, AllocError>
        requires { IsTrue (is_origin origin.now) }
        ensures { IfOk result (λ path. path ≡ sender_in origin.now self.now.text.now) }
    {
        let word = b"mail from:";
        if !begins_with_word(word, self.text) {
            return Ok(None);
        }
        path_behind(alloc, word, origin, self.text)
    }

    /// The recipient that the command names; `None` where it names none.
    pub(crate) fn recipient(
        &self,
        alloc: Global,
        origin: &[u8],
    ) -> Result<Option<Address>, AllocError>
        requires { IsTrue (is_origin origin.now) }
        ensures { IfOk result (λ recipient. recipient ≡ recipient_in origin.now self.now.text.now) }
    {
        let word = b"rcpt to:";
        if !begins_with_capitals(self.text) && !begins_with_word(word, self.text) {
            return Ok(None);
        }
        match path_behind(alloc, word, origin, self.text)? {
            Some(path) => Ok(path),
            None => Ok(None),
        }
    }
}
