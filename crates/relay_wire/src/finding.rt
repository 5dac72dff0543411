//! What a plan reports.
ghost use Rattle.std.specs.Prelude.{◌≡◌, [], ◌∷◌, ◌++◌, Some, codes, decimal, length, take, IfOk, OnOk, OnErr};
ghost use Rattle.relay_text.specs.Addresses.{local_text_of, path_text_of};
ghost use Rattle.relay_wire.specs.Findings.{after_spaces, spaced, place_words, reason_words, line_word, line_words, finding_text_of};

use crate::words::text_put;
use itoa::Buffer;
use relay_text::{Address, Text, write_local, write_path};
use std::alloc::{AllocError, Global};

/// Where an item or a recipient stands.
#[derive(Drop)]
pub enum Place {
    /// The entry of this name.
    Alias(Text),
    /// The include file of this path.
    Include(Text),
    /// The envelope of the message.
    Envelope,
}

/// Why an address has no route.
#[derive(Drop)]
pub enum Reason {
    /// The domain has neither mail exchangers nor an address (RFC 5321 section 5).
    Domain,
    /// No mail exchanger is left before the relay itself (RFC 5321 section 5).
    MxSelf,
    /// No known transport, or no nexthop of its forms (transport(5) of Postfix).
    Transport,
    /// The transport table refuses the address, with a text that may be empty.
    Refused(Text),
    /// The domain takes no mail (RFC 7505).
    NullMx,
}

/// What is wrong with a line of a file.
#[derive(Clone, Copy, Debug, PartialEq, Eq)]
pub enum LineWord {
    /// The line is not of its file's form.
    BadLine,
    /// One of its items is not of the forms of aliases(5).
    BadItem,
    /// An earlier line has the same key.
    Duplicate,
    /// The line names nothing.
    Empty,
}

/// One line of the report.
#[derive(Drop)]
pub enum Finding {
    /// A local name that is neither an entry nor a mailbox.
    Missing(Text, Place),
    /// The path of an include file that isn't there.
    NoInclude(Text, Place),
    /// The path of a file that an item names (aliases(5) of Postfix, `/file/name`).
    File(Text, Place),
    /// A command that an item names, from its `|` on (aliases(5) of Postfix, `|command`).
    Command(Text, Place),
    /// The name of an entry that is reached, and of whose items none is good.
    EmptyAlias(Text),
    /// The path of an include file that is reached, and of whose items none is good.
    EmptyInclude(Text),
    /// The name of an entry that is on a loop.
    LoopAlias(Text),
    /// The path of an include file that is on a loop.
    LoopInclude(Text),
    /// An address without a route.
    Unrouted(Address, Reason),
    /// A line, from 1, of the alias file.
    Aliases(usize, LineWord),
    /// A line, from 1, of the include file of this path.
    Include(Text, usize, LineWord),
    /// A line, from 1, of the mailbox table.
    Mailboxes(usize, LineWord),
    /// A line, from 1, of the table of mail exchangers.
    Mx(usize, LineWord),
    /// A line, from 1, of the transport table.
    Transport(usize, LineWord),
}

impl LineWord {
    // How a line of the report spells it, with the space before it.
    fn text(self) -> &'static [u8]
        ensures { result.now ≡ 32 ∷ line_word self }
    {
        match self {
            LineWord::BadLine => b" badline",
            LineWord::BadItem => b" baditem",
            LineWord::Duplicate => b" duplicate",
            LineWord::Empty => b" empty",
        }
    }
}

impl Reason {
    // The word that a finding has for it, with a space before it, and what the transport table says of it, which may be nothing. Where
    // it says something, the word has a space behind it too.
    fn words(&self) -> (&'static [u8], &[u8])
        ensures { result.0.now ++ result.1.now ≡ after_spaces (reason_words self.now) }
    {
        match self {
            Reason::Domain => (b" domain", b""),
            Reason::MxSelf => (b" mxself", b""),
            Reason::Transport => (b" transport", b""),
            Reason::Refused(text) if text.is_empty() => (b" refused", b""),
            Reason::Refused(text) => (b" refused ", text.as_bytes()),
            Reason::NullMx => (b" nullmx", b""),
        }
    }
}

// Writes words, and a text behind them.
fn put_text(words: &[u8], text: &[u8], out: &mut Vec<u8>) -> Result<(), AllocError>
    ensures ok { OnOk result (out.new.items ≡ out.old.items ++ (words.now ++ text.now)) }
    ensures kept { take (length out.old.items) out.new.items ≡ out.old.items }
{
    out.extend_from_slice(words)?;
    out.extend_from_slice(text)
}

// Writes words, and a name behind them, in the one spelling of a local part.
fn put_local(words: &[u8], name: &[u8], out: &mut Vec<u8>) -> Result<(), AllocError>
    ensures ok { OnOk result (out.new.items ≡ out.old.items ++ (words.now ++ local_text_of name.now)) }
    ensures kept { take (length out.old.items) out.new.items ≡ out.old.items }
{
    out.extend_from_slice(words)?;
    write_local(name, out)
}

// Writes words, the number of a line behind them, and what is wrong with the line.
fn put_fault(
    words: &[u8],
    number: usize,
    word: LineWord,
    out: &mut Vec<u8>,
) -> Result<(), AllocError>
    ensures ok { OnOk result (out.new.items ≡ out.old.items ++ (words.now ++ spaced (decimal number ∷ line_word word ∷ []))) }
    ensures kept { take (length out.old.items) out.new.items ≡ out.old.items }
{
    out.extend_from_slice(words)?;
    out.extend_from_slice(Buffer::new().format(number).as_bytes())?;
    out.extend_from_slice(word.text())
}

// Writes where an item or a recipient stands.
fn put_place(place: &Place, out: &mut Vec<u8>) -> Result<(), AllocError>
    ensures ok { OnOk result (out.new.items ≡ out.old.items ++ after_spaces (place_words place.now)) }
    ensures kept { take (length out.old.items) out.new.items ≡ out.old.items }
{
    match place {
        Place::Alias(name) => put_local(b" in alias ", name.as_bytes(), out),
        Place::Include(path) => put_text(b" in include ", path.as_bytes(), out),
        Place::Envelope => out.extend_from_slice(b" in envelope"),
    }
}

// Writes words, the text of an item behind them, and where it stands.
fn put_item(words: &[u8], text: &[u8], place: &Place, out: &mut Vec<u8>) -> Result<(), AllocError>
    ensures ok { OnOk result (out.new.items ≡ out.old.items ++ (words.now ++ spaced (text.now ∷ place_words place.now))) }
    ensures kept { take (length out.old.items) out.new.items ≡ out.old.items }
{
    put_text(words, text, out)?;
    put_place(place, out)
}

// Writes words, a name that is missing behind them, and where it stands.
fn put_missing(
    words: &[u8],
    name: &[u8],
    place: &Place,
    out: &mut Vec<u8>,
) -> Result<(), AllocError>
    ensures ok { OnOk result (out.new.items ≡ out.old.items ++ (words.now ++ spaced (local_text_of name.now ∷ place_words place.now))) }
    ensures kept { take (length out.old.items) out.new.items ≡ out.old.items }
{
    put_local(words, name, out)?;
    put_place(place, out)
}

/// Puts why an address has no route at the end, in the words of a finding, each with a space before it. `Err` where memory runs out; then
/// some front of them stands behind what was there.
pub fn put_reason(reason: &Reason, out: &mut Vec<u8>) -> Result<(), AllocError>
    ensures { OnOk result (out.new.items ≡ out.old.items ++ after_spaces (reason_words reason.now)) }
{
    let (word, text) = reason.words();
    put_text(word, text, out)
}

// Writes words, an address without a route behind them, and why it has none.
fn put_unrouted(
    words: &[u8],
    address: &Address,
    reason: &Reason,
    out: &mut Vec<u8>,
) -> Result<(), AllocError>
    ensures ok { OnOk result (out.new.items ≡ out.old.items ++ (words.now ++ path_text_of (Some address.now) ++ after_spaces (reason_words reason.now))) }
    ensures kept { take (length out.old.items) out.new.items ≡ out.old.items }
{
    let (word, text) = reason.words();
    out.extend_from_slice(words)?;
    write_path(Some(address), out)?;
    put_text(word, text, out)
}

// Writes the words of a finding on an include file, its path behind them, the number of a line, and what is wrong with the line.
fn put_include_fault(
    path: &[u8],
    number: usize,
    word: LineWord,
    out: &mut Vec<u8>,
) -> Result<(), AllocError>
    ensures ok { OnOk result (out.new.items ≡ out.old.items ++ spaced (codes "finding" ∷ codes "include" ∷ path.now ∷ line_words number word)) }
    ensures kept { take (length out.old.items) out.new.items ≡ out.old.items }
{
    put_text(b"finding include ", path, out)?;
    put_fault(b" line ", number, word, out)
}

// Writes the line of a finding. The words with which each other kind begins stand here alone, each kind's in one piece. Where memory runs out,
// some front of the line stands behind what was there.
fn put_finding(finding: &Finding, out: &mut Vec<u8>) -> Result<(), AllocError>
    ensures ok { OnOk result (out.new.items ≡ out.old.items ++ finding_text_of finding.now) }
    ensures kept { take (length out.old.items) out.new.items ≡ out.old.items }
{
    match finding {
        Finding::Missing(name, place) => {
            put_missing(b"finding missing ", name.as_bytes(), place, out)
        }
        Finding::NoInclude(path, place) => {
            put_item(b"finding noinclude ", path.as_bytes(), place, out)
        }
        Finding::File(path, place) => put_item(b"finding file ", path.as_bytes(), place, out),
        Finding::Command(text, place) => put_item(b"finding command ", text.as_bytes(), place, out),
        Finding::EmptyAlias(name) => put_local(b"finding empty alias ", name.as_bytes(), out),
        Finding::EmptyInclude(path) => put_text(b"finding empty include ", path.as_bytes(), out),
        Finding::LoopAlias(name) => put_local(b"finding loop alias ", name.as_bytes(), out),
        Finding::LoopInclude(path) => put_text(b"finding loop include ", path.as_bytes(), out),
        Finding::Unrouted(address, reason) => {
            put_unrouted(b"finding unrouted ", address, reason, out)
        }
        Finding::Aliases(number, word) => put_fault(b"finding aliases line ", *number, *word, out),
        Finding::Include(path, number, word) => {
            put_include_fault(path.as_bytes(), *number, *word, out)
        }
        Finding::Mailboxes(number, word) => {
            put_fault(b"finding mailboxes line ", *number, *word, out)
        }
        Finding::Mx(number, word) => put_fault(b"finding mx line ", *number, *word, out),
        Finding::Transport(number, word) => {
            put_fault(b"finding transport line ", *number, *word, out)
        }
    }
}

/// Puts the line of a finding, without its end, at the end. `Err` where memory runs out; `out` is then as it was.
pub(crate) fn put_finding_line(finding: &Finding, out: &mut Vec<u8>) -> Result<(), AllocError>
    ensures ok { OnOk result (out.new.items ≡ out.old.items ++ finding_text_of finding.now) }
    ensures err { OnErr result (out.new.items ≡ out.old.items) }
{
    let before = out.len();
    let put = put_finding(finding, out);
    if put.is_err() {
        out.truncate(before);
    }
    put
}

// Most lines are no longer than this many bytes, and take memory once.
const USUAL_LEN: usize = 64;

/// The line of a finding, without its end: words with one space between each two, an alias's name in the one spelling of a local
/// part, an address as a path.
pub fn finding_line(alloc: Global, finding: &Finding) -> Result<Text, AllocError>
    ensures { IfOk result (λ line. line ≡ finding_text_of finding.now) }
{
    let mut line = Vec::with_capacity(alloc, USUAL_LEN)?;
    let put = put_finding_line(finding, &mut line);
    text_put(put, line)
}
