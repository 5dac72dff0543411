//! How the work on a job is done.
use relay_planning::{Limits, Options};

/// The options of a run, and how much it takes.
#[derive(Clone, Copy)]
pub struct Work {
    pub options: Options,
    pub limits: Limits,
}
