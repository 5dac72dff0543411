//! The envelope of a job.
use crate::command::Command;
use crate::fault::RunFault;
use crate::place::Place;
use crate::reason::Reason;
use crate::recipient_reading::{read_recipients, read_recipients_by};
use relay_text::{Address, Seq};
use std::alloc::{AllocError, Global};
use std::thread::Threads;

/// The sender, none for the null path, and the recipients of an envelope (RFC 5321 section 4.1.1).
#[derive(Drop)]
pub struct Envelope {
    pub sender: Option<Address>,
    pub recipients: Seq<Address>,
}

ghost use Rattle.std.specs.Prelude.{◌≡◌, ◌<◌, ℕ, Some, length, IsTrue, IfOk, IfErr};
ghost use Rattle.relay_text.specs.Addresses.{is_origin};
ghost use Rattle.relay_job.specs.Reasons.{BreaksEnvelope};
ghost use Rattle.relay_job.specs.JobParts.{commands_at, first_bad_command, bad_envelope_at, HasSender, IsEnvelopeAt, Stops};

/// The sender that the first command behind a heading names, and the place behind that command. BadEnvelope as from `Envelope::read`.
fn read_sender<'a>(
    alloc: Global,
    section: Place<'a>,
    origin: &[u8],
) -> Result<(Option<Address>, Place<'a>), RunFault>
    requires { IsTrue (is_origin origin.now) }
    ensures ok { IfOk result (λ read. HasSender origin.now (commands_at section.entry) read.0 (commands_at read.1)) }
    ensures err { IfErr result (Stops (bad_envelope_at origin.now section.entry)) }
{
    let Some((command, behind)) = Command::split_from(&section) else {
        return Err(RunFault::BadEnvelope(section.line));
    };
    let path = command.sender(alloc, origin)?;
    let Some(sender) = path else {
        return Err(RunFault::BadEnvelope(command.number));
    };
    Ok((sender, behind))
}

impl Envelope {
    /// The envelope behind a heading. BadEnvelope has the first line that isn't `MAIL FROM:` and a path, or after it `RCPT TO:` and
    /// an address's path; where there are fewer than two lines, the heading's line.
    pub(crate) fn read(
        alloc: Global,
        section: Place<'_>,
        origin: &[u8],
    ) -> Result<Envelope, RunFault>
        requires { IsTrue (is_origin origin.now) }
        ensures ok { IfOk result (IsEnvelopeAt origin.now section.entry) }
        ensures err { IfErr result (Stops (bad_envelope_at origin.now section.entry)) }
    {
        let (sender, behind) = read_sender(alloc, section, origin)?;
        let recipients = read_recipients(alloc, behind, origin)?;
        Envelope::of(section.line, sender, recipients)
    }

    /// The same, its recipients by so many threads, this one among them.
    pub(crate) fn read_by<R: Threads + Sync>(
        rt: &R,
        alloc: Global,
        workers: usize,
        section: Place<'_>,
        origin: &[u8],
    ) -> Result<Envelope, RunFault>
        requires { IsTrue (is_origin origin.now) }
        ensures ok { IfOk result (IsEnvelopeAt origin.now section.entry) }
        ensures err { IfErr result (Stops (bad_envelope_at origin.now section.entry)) }
    {
        let (sender, behind) = read_sender(alloc, section, origin)?;
        let recipients = read_recipients_by(rt, alloc, workers, behind, origin)?;
        Envelope::of(section.line, sender, recipients)
    }

    /// That of a sender and recipients. BadEnvelope has the heading's line, where there are none.
    fn of(
        heading: usize,
        sender: Option<Address>,
        recipients: Vec<Address>,
    ) -> Result<Envelope, RunFault>
        ensures ok { IfOk result (λ envelope. (envelope.sender ≡ sender) × (envelope.recipients ≡ recipients.items) × (0 < length recipients.items)) }
        ensures err { IfErr result (λ fault. (fault ≡ RunFault.BadEnvelope heading) × (length recipients.items ≡ 0)) }
    {
        if recipients.is_empty() {
            return Err(RunFault::BadEnvelope(heading));
        }
        Ok(Envelope {
            sender,
            recipients: Seq::of(recipients),
        })
    }

    /// The rule of envelopes that the one behind a heading breaks, where it breaks one.
    pub(crate) fn reason(
        alloc: Global,
        section: Place<'_>,
        origin: &[u8],
    ) -> Result<Reason, AllocError>
        requires { IsTrue (is_origin origin.now) }
        ensures { IfOk result (λ reason. (number : ℕ) → first_bad_command origin.now section.entry.line (commands_at section.entry) ≡ Some number → BreaksEnvelope origin.now number section.entry.line (commands_at section.entry) reason) }
    {
        let Some((command, after)) = Command::split_from(&section) else {
            return Ok(Reason::TooFewCommands);
        };
        let path = command.sender(alloc, origin)?;
        let Some(_sender) = path else {
            return Ok(Reason::NotSender);
        };
        match Command::split_from(&after) {
            Some(_) => Ok(Reason::NotRecipient),
            None => Ok(Reason::TooFewCommands),
        }
    }
}
