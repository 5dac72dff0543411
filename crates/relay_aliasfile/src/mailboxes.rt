//! Mailbox files.
ghost use Rattle.std.specs.Prelude.{◌≡◌, IfOk};
ghost use Rattle.std.specs.Str.{bytes_eq};
ghost use Rattle.relay_text.specs.Bytes.{firsts};
ghost use Rattle.relay_aliasfile.specs.MailboxFiles.{mailbox_file_of};

use crate::distinct::distinct_texts;
use crate::fault::LineFault;
use crate::mailbox_lines::MailboxLines;
use relay_halves::{PartRead, about_lines, read_by};
use relay_text::{Seq, Text};
use std::alloc::{AllocError, Global};
use std::thread::Threads;

/// The local names that have a mailbox, and the lines at fault.
#[derive(Drop)]
pub struct MailboxFile {
    /// Folded, each by its first place.
    pub names: Seq<Text>,
    /// Lines that name no mailbox, by their numbers.
    pub faults: Seq<LineFault>,
}

/// The names of a mailbox file: one on each line that isn't ignored, white space round it trimmed, spelled as the local part of an
/// address is (RFC 5321 section 4.1.2), and folded. Repeats are dropped without a fault; any other line is `BadLine`.
pub fn parse_mailboxes(alloc: Global, bytes: &[u8]) -> Result<MailboxFile, AllocError>
    ensures { IfOk result (λ file. file ≡ mailbox_file_of bytes.now) }
{
    let lines = MailboxLines::read(alloc, 0, 0, bytes)?;
    distinct_names(alloc, lines)
}

/// The same by so many threads, where the text is long. `Err` where memory runs out.
pub fn parse_mailboxes_by<R: Threads + Sync>(
    rt: &R,
    alloc: Global,
    workers: usize,
    bytes: &[u8],
) -> Result<MailboxFile, AllocError>
    ensures { IfOk result (λ file. file ≡ mailbox_file_of bytes.now) }
{
    let lines = read_by(rt, alloc, workers, about_lines(bytes), 0, bytes)?;
    distinct_names(alloc, lines)
}

/// The file of these lines: each of their names by its first place.
fn distinct_names(alloc: Global, lines: MailboxLines) -> Result<MailboxFile, AllocError>
    ensures { IfOk result (λ file. file ≡ record { names = firsts bytes_eq lines.names.items; faults = lines.faults.items }) }
{
    Ok(MailboxFile {
        names: distinct_texts(alloc, lines.names)?,
        faults: Seq::of(lines.faults),
    })
}
