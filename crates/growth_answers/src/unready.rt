//! Why a case didn't begin.
ghost use Rattle.std.specs.Prelude.{◌≡◌, ◌↔◌, Ok, Err};
ghost use Rattle.growth_answers.specs.declared.unready.Unready.TheVariants.{NoMemory};

use crate::answer::Answer;
use crate::seen::Seen;
use relay_job::RunFault;
use relay_rounds::ReachFault;
use relay_routes::Unrouted;
use relay_tables::TableFault;
use relay_text::TextFault;
use std::alloc::{AllocError, AllocFailed};

/// Why the inputs of a call aren't there.
#[derive(Clone, Copy, Debug, PartialEq, Eq)]
pub enum Unready {
    /// Memory ran out.
    NoMemory,
    /// They aren't what the example says.
    Wrong,
}

impl From<AllocError> for Unready {
    ghost from_gives = { λ _ unready. unready ≡ NoMemory };

    fn from(_error: AllocError) -> Unready {
        Unready::NoMemory
    }
}

impl<T: Drop> From<AllocFailed<T>> for Unready {
    ghost from_gives = { λ _ unready. unready ≡ NoMemory };

    fn from(_error: AllocFailed<T>) -> Unready {
        Unready::NoMemory
    }
}

impl From<TextFault> for Unready {
    ghost use Rattle.relay_text.specs.declared.fault.TextFault.TheVariants.{Memory};

    ghost from_gives = { λ fault unready. unready ≡ NoMemory ↔ fault ≡ Memory };

    fn from(fault: TextFault) -> Unready {
        match fault {
            TextFault::Memory => Unready::NoMemory,
            _ => Unready::Wrong,
        }
    }
}

impl From<TableFault> for Unready {
    ghost use Rattle.relay_tables.specs.declared.fault.TableFault.TheVariants.{Memory};

    ghost from_gives = { λ fault unready. unready ≡ NoMemory ↔ fault ≡ Memory };

    fn from(fault: TableFault) -> Unready {
        match fault {
            TableFault::Memory => Unready::NoMemory,
            _ => Unready::Wrong,
        }
    }
}

impl From<ReachFault> for Unready {
    ghost use Rattle.relay_rounds.specs.declared.fault.ReachFault.TheVariants.{Memory};

    ghost from_gives = { λ fault unready. unready ≡ NoMemory ↔ fault ≡ Memory };

    fn from(fault: ReachFault) -> Unready {
        match fault {
            ReachFault::Memory => Unready::NoMemory,
            _ => Unready::Wrong,
        }
    }
}

impl From<RunFault> for Unready {
    ghost use Rattle.relay_job.specs.declared.fault.RunFault.TheVariants.{Memory};

    ghost from_gives = { λ fault unready. unready ≡ NoMemory ↔ fault ≡ Memory };

    fn from(fault: RunFault) -> Unready {
        match fault {
            RunFault::Memory => Unready::NoMemory,
            _ => Unready::Wrong,
        }
    }
}

impl From<Unrouted> for Unready {
    ghost use Rattle.relay_routes.specs.declared.unrouted.Unrouted.TheVariants.{Memory};

    ghost from_gives = { λ reason unready. unready ≡ NoMemory ↔ reason ≡ Memory };

    fn from(reason: Unrouted) -> Unready {
        match reason {
            Unrouted::Memory => Unready::NoMemory,
            _ => Unready::Wrong,
        }
    }
}

/// How a case went of which the first call was refused, after the same call with inputs of its own.
pub fn made_anew(second: Result<Answer, Unready>) -> Result<Seen, Unready>
    ensures right { second ≡ Ok Answer.Right → result ≡ Ok Seen.Recovered }
    ensures refused { second ≡ Ok Answer.Refused → result ≡ Ok Seen.RefusedTwice }
    ensures changed { second ≡ Ok Answer.Changed → result ≡ Ok Seen.Changed }
    ensures wrong { second ≡ Ok Answer.Wrong → result ≡ Ok Seen.Wrong }
    ensures no_memory { second ≡ Err Unready.NoMemory → result ≡ Ok Seen.RefusedTwice }
    ensures other_inputs { second ≡ Err Unready.Wrong → result ≡ Err Unready.Wrong }
{
    match second {
        Ok(answer) => Ok(Seen::at_last(answer)),
        Err(Unready::NoMemory) => Ok(Seen::RefusedTwice),
        Err(Unready::Wrong) => Err(Unready::Wrong),
    }
}
