//! The recipients that an envelope's commands name, read by one thread or by several.
ghost use Rattle.std.specs.Prelude.{◌<◌, ◌≤◌, ◌∷◌, ◌++◌, [], ℕ, List, IsTrue, IfOk, IfErr, OnOk};
ghost use Rattle.std.specs.Thread.{IsSync};
ghost use Rattle.relay_text.specs.Addresses.{is_origin};
ghost use Rattle.relay_text.specs.declared.lines.Line.{Line};
ghost use Rattle.relay_job.specs.JobParts.{commands_at, line_in, first_bad_recipient, AreRecipientsOf, HasNamed, Stops};
ghost use Rattle.relay_job.specs.Places.{IsWithinSection};

use crate::command::Command;
use crate::fault::RunFault;
use crate::place::Place;
use relay_text::Address;
use std::alloc::Global;
use std::thread::{Threads, join};

/// Of how many bytes of an envelope one is a recipient's line: few lines are longer, and where many are shorter, their memory grows.
const BYTES_FOR_RECIPIENT: usize = 64;

/// How many bytes a thread reads at least: starting one takes as long as reading some kilobytes, a small part of this.
const BYTES_FOR_THREAD: usize = 65_536;

/// The recipients of the commands behind a place. BadEnvelope has the first that names none.
pub(crate) fn read_recipients(
    alloc: Global,
    section: Place<'_>,
    origin: &[u8],
) -> Result<Vec<Address>, RunFault>
    requires { IsTrue (is_origin origin.now) }
    ensures ok { IfOk result (λ recipients. AreRecipientsOf origin.now (commands_at section.entry) recipients.items) }
    ensures err { IfErr result (Stops (first_bad_recipient origin.now (commands_at section.entry))) }
{
    let mut recipients = Vec::with_capacity(alloc, section.rest.len() / BYTES_FOR_RECIPIENT)?;
    let mut place = section;
    while let Some((command, after)) = Command::split_from(&place) {
        add_recipient(alloc, &command, origin, &mut recipients)?;
        place = after;
    }
    Ok(recipients)
}

/// Adds the recipient that a command names. BadEnvelope has the command's number, where it names none.
fn add_recipient(
    alloc: Global,
    command: &Command<'_>,
    origin: &[u8],
    recipients: &mut Vec<Address>,
) -> Result<(), RunFault>
    requires { IsTrue (is_origin origin.now) }
    ensures ok { OnOk result (HasNamed origin.now (line_in command.now) recipients.old.items recipients.new.items) }
    ensures err { IfErr result (Stops (first_bad_recipient origin.now (line_in command.now ∷ []))) }
{
    match command.recipient(alloc, origin)? {
        Some(address) => Ok(recipients.push(address)?),
        None => Err(RunFault::BadEnvelope(command.number)),
    }
}

/// How many of so many workers read so many bytes, so that each has enough to read.
pub(crate) fn workers_for(workers: usize, len: usize) -> usize
    ensures few { result ≤ workers }
    ensures some { 0 < result → 0 < len }
{
    workers.min(len / BYTES_FOR_THREAD)
}

/// How many of so many bytes go to the front workers, where each of all reads as many.
fn front_len(len: usize, workers: usize, front: usize) -> usize
    requires some { 0 < len }
    requires front { front < workers }
    ensures { result < len }
{
    len / workers * front
}

/// The same where the section goes on to the text's end, by so many threads, this one among them. The second half of the workers reads
/// the last lines in a new thread, and each half is halved again.
#[cycle(halves)]
fn read_halves<R: Threads + Sync>(
    rt: &R,
    alloc: Global,
    workers: usize,
    section: Place<'_>,
    origin: &[u8],
) -> Result<Vec<Address>, RunFault>
    requires origin { IsTrue (is_origin origin.now) }
    requires within { IsWithinSection section }
    ensures ok { IfOk result (λ recipients. AreRecipientsOf origin.now (commands_at section.entry) recipients.items) }
    ensures err { IfErr result (Stops (first_bad_recipient origin.now (commands_at section.entry))) }
{
    let readers = workers_for(workers, section.rest.len());
    if readers < 2 {
        return read_recipients(alloc, section, origin);
    }
    let share = readers / 2;
    let own = readers - share;
    let (front, back) = section.split_behind(front_len(section.rest.len(), readers, own));
    let read_back = || -> Result<Vec<Address>, RunFault>
        requires { IsSync R.row × IsTrue (is_origin origin.now) × IsWithinSection back }
        ensures { IfOk result (λ recipients. AreRecipientsOf origin.entry.now (commands_at back.entry) recipients.items) × IfErr result (Stops (first_bad_recipient origin.entry.now (commands_at back.entry))) }
    { read_halves(rt, alloc, share, back, origin) };
    let read_front = || -> Result<Vec<Address>, RunFault>
        requires { IsSync R.row × IsTrue (is_origin origin.now) × IsWithinSection front }
        ensures { IfOk result (λ recipients. AreRecipientsOf origin.entry.now (commands_at front.entry) recipients.items) × IfErr result (Stops (first_bad_recipient origin.entry.now (commands_at front.entry))) }
    { read_halves(rt, alloc, own, front, origin) };
    let (there, here) = join(rt, read_back, read_front);
    both(here, there)
}

/// The recipients of a front part and of what stands behind it. The first part's fault comes first.
fn both(
    here: Result<Vec<Address>, RunFault>,
    there: Result<Vec<Address>, RunFault>,
) -> Result<Vec<Address>, RunFault>
    ensures { (origin : List ℕ) (front back : List Line)
        → IfOk here (λ recipients. AreRecipientsOf origin front recipients.items) → IfErr here (Stops (first_bad_recipient origin front))
        → IfOk there (λ recipients. AreRecipientsOf origin back recipients.items) → IfErr there (Stops (first_bad_recipient origin back))
        → IfOk result (λ recipients. AreRecipientsOf origin (front ++ back) recipients.items) × IfErr result (Stops (first_bad_recipient origin (front ++ back))) }
{
    let mut recipients = here?;
    let mut more = there?;
    recipients.append(&mut more)?;
    Ok(recipients)
}

/// What `read_recipients` reads, by so many threads, this one among them. A line that begins with `%%` names no recipient, and where one
/// stands there this one reads up to it by itself.
pub(crate) fn read_recipients_by<R: Threads + Sync>(
    rt: &R,
    alloc: Global,
    workers: usize,
    section: Place<'_>,
    origin: &[u8],
) -> Result<Vec<Address>, RunFault>
    requires { IsTrue (is_origin origin.now) }
    ensures ok { IfOk result (λ recipients. AreRecipientsOf origin.now (commands_at section.entry) recipients.items) }
    ensures err { IfErr result (Stops (first_bad_recipient origin.now (commands_at section.entry))) }
{
    match section.plain() {
        Some(plain) => read_halves(rt, alloc, workers, plain, origin),
        None => read_recipients(alloc, section, origin),
    }
}
