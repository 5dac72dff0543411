//! Arguments that several commands take.
use crate::argument::Argument;
use crate::arguments::{
    ALIASES, CUT, ENVELOPE, FROM, MAILBOXES, MAX_BYTES, MAX_NAMES, MAX_OWNERS, MAX_PAIRS, MX,
    SETTINGS, TO, TRANSPORT, WORKERS,
};
use clap::Command;
use std::alloc::{AllocError, Global};

/// The groups of them.
pub(crate) enum Group {
    /// How the work on a job is done, and how much it takes.
    Work,
    /// An envelope in place of the job's own.
    Envelope,
    /// Files that lie apart. Each has the name of its section.
    Files,
}

const WORK: [Argument; 6] = [WORKERS, CUT, MAX_BYTES, MAX_NAMES, MAX_OWNERS, MAX_PAIRS];

const SENDER_AND_RECIPIENTS: [Argument; 2] = [FROM, TO];

const FILES: [Argument; 6] = [SETTINGS, ALIASES, MAILBOXES, TRANSPORT, MX, ENVELOPE];

/// A command that takes these arguments too.
pub(crate) fn with_arguments<'a>(
    alloc: Global,
    mut command: Command<'a>,
    arguments: &[Argument],
) -> Result<Command<'a>, AllocError> {
    for argument in arguments {
        command = command.arg(argument.to_clap(alloc))?;
    }
    Ok(command)
}

impl Group {
    /// A command that takes the arguments of this group too.
    pub(crate) fn add_to<'a>(
        &self,
        alloc: Global,
        command: Command<'a>,
    ) -> Result<Command<'a>, AllocError> {
        match self {
            Group::Work => with_arguments(alloc, command, &WORK),
            Group::Envelope => with_arguments(alloc, command, &SENDER_AND_RECIPIENTS),
            Group::Files => with_arguments(alloc, command, &FILES),
        }
    }
}
