//! What all parts of a call are handed.
ghost use Rattle.std.specs.Prelude.{◌≡◌};
ghost use Rattle.relay_planning.specs.Limits.{AreOptions, AreLimits};

use crate::options::{Limits, Options};
use std::alloc::Global;

/// The threads, what is asked of them, and how much a job may have.
#[derive(Drop)]
pub struct Crew<'a, G, R> {
    pub rt: &'a R,
    pub alloc: Global,
    pub options: Options,
    pub limits: Limits,
    pub gate: &'a G,
    ghost asked: { AreOptions options },
    ghost limited: { AreLimits limits },
}

impl<'a, G, R> Crew<'a, G, R> {
    /// What a search of the call is handed.
    pub fn of_search(&self) -> relay_rounds::Crew<'a, G, R>
        ensures workers { result.workers ≡ self.now.options.workers }
        ensures cut { result.cut ≡ self.now.options.cut }
    {
        relay_rounds::Crew {
            rt: self.rt,
            alloc: self.alloc,
            workers: self.options.workers,
            cut: self.options.cut,
            salt: (self.options.key & 0xFFFF_FFFF_FFFF_FFFF) as u64,
            gate: self.gate,
        }
    }

    /// What work that several threads share is handed.
    pub fn of_shares(&self) -> relay_sharing::Crew<'a, R>
        ensures { result.workers ≡ self.now.options.workers }
    {
        let workers = self.options.workers;
        relay_sharing::Crew {
            rt: self.rt,
            alloc: self.alloc,
            workers,
        }
    }
}
