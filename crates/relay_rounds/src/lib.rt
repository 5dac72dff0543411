//! All keys that can be reached, in rounds, by several threads.
//!
//! A [`Steps`] names for each key the list of its next keys. [`reach`] gives all keys that some chain of steps from a root ends in, by the
//! threads of a [`Crew`].
//! A round offers the next keys of all keys that were new in the round before, with their repeats. Threads claim them, so that each is won
//! once (`relay_claims`); the winners that aren't settled yet are new, and are settled, as bits. Where one thread would work alone, since
//! there is one worker or one piece, it settles each key as it comes to it, and nothing is claimed.
//!
//! The way through the modules: `reaching` has the rounds. `alone` is a round of one thread. One of several is `winning`, whose threads
//! (`workers`, each a `worker`) win keys and look them up, and then `settling`, which settles the new ones (`settled`, in `part`s of
//! `shard`s) and looks for their next keys (`expanding`). Lists of keys are shared by rayon.
#![tactic(auto)]

mod alone;
mod bits;
mod block;
mod crew;
mod expanding;
mod fault;
mod gate;
mod kept;
mod part;
mod reaching;
mod settled;
mod settling;
mod shard;
mod shares;
mod spread;
mod steps;
mod winning;
mod worker;
mod workers;
mod zeros;

pub use crew::Crew;
pub use fault::ReachFault;
pub use gate::{Gate, NoGate};
pub use reaching::reach;
pub use relay_chains::Key;
pub use steps::Steps;
