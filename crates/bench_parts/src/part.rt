//! The parts that are timed.
use crate::watch::Watch;
use crate::{chains, loops, rounds, routes};
use anyhow::Result;
use std::rt::Clock;
use std::thread::Threads;

#[derive(Clone, Copy)]
pub enum Part {
    /// How fast `relay_chains` takes and finds keys and texts, beside std's `HashMap`.
    Chains,
    /// How fast `relay_rounds` searches paths and a wide graph, beside a plain search.
    Rounds,
    /// How long the steps from an alias file to its loops take, for several shapes of files.
    Loops,
    /// How fast `relay_routes` reads tables and finds routes in them.
    Routes,
}

impl Part {
    pub const ALL: [Part; 4] = [Part::Chains, Part::Rounds, Part::Loops, Part::Routes];

    pub fn name(self) -> &'static str {
        match self {
            Part::Chains => "chains",
            Part::Rounds => "rounds",
            Part::Loops => "loops",
            Part::Routes => "routes",
        }
    }

    /// How many things it takes where no times are wanted.
    pub fn few(self) -> u32 {
        match self {
            Part::Loops => 100,
            _ => 1000,
        }
    }

    pub fn run<R: Clock + Print + AllocGlobal + Threads + Sync>(
        self,
        watch: &Watch<R>,
        shape: Option<&str>,
    ) -> Result<()> {
        match self {
            Part::Chains => chains::run(watch),
            Part::Rounds => rounds::run(watch),
            Part::Loops => loops::run(watch, shape),
            Part::Routes => routes::run(watch),
        }
    }
}
