//! What a run is asked for.
ghost use Rattle.std.specs.Prelude.{◌≡◌, IfOk};
ghost use Rattle.relay_planning.specs.Written.{text_in};

use relay_chains::TextKey;
use relay_text::Text;
use relay_wire::plan::plan_text;
use relay_wire::{Plan, json_text, wire_text};
use std::alloc::{AllocError, Global};

/// What a plan is written as.
#[derive(Clone, Copy, Debug, PartialEq, Eq)]
pub enum Form {
    /// Its transactions and findings, a line each.
    Plan,
    /// The commands of each transaction (RFC 5321 section 3.3; RFC 2033).
    Wire,
    /// One JSON object on a line (RFC 8259), in ASCII.
    Json,
}

impl Form {
    /// A plan as it is written. `Err` where memory runs out.
    pub fn text_of(self, alloc: Global, plan: &Plan) -> Result<Text, AllocError>
        ensures { IfOk result (λ text. text ≡ text_in self plan.now) }
    {
        match self {
            Form::Plan => plan_text(alloc, plan),
            Form::Wire => wire_text(alloc, plan),
            Form::Json => json_text(alloc, plan),
        }
    }
}

/// How the answer is written, and how the work is divided and texts are hashed, which changes no byte of the answer.
#[derive(Clone, Copy)]
pub struct Options {
    pub form: Form,
    /// How many threads share a piece of work, from 1 to 64. With 1 none is started; two pieces side by side may have as many each.
    pub workers: usize,
    /// How many pairs of sender and node a thread takes at once, from 1 to 1,048,576.
    pub cut: usize,
    /// What texts are hashed under. Who writes jobs must not know it: he could write one that takes a time that grows with the square of its
    /// length. Draw it once from the system's source of random bytes.
    pub key: TextKey,
}

/// How much a run takes.
#[derive(Clone, Copy, Debug, PartialEq, Eq)]
pub struct Limits {
    /// How many bytes a job has at most, up to 67,108,864.
    pub bytes: usize,
    /// How many names: aliases, include files and all that they and the recipients lead to, reached or not. Up to 16,777,216.
    pub names: usize,
    /// How many aliases with an owner, up to 65,535.
    pub owners: usize,
    /// How many pairs of a sender and a name that is reached under it, up to 16,777,216.
    pub pairs: usize,
}

impl Default for Limits {
    /// As much as a run may ever take.
    fn default() -> Limits
        ensures { result ≡ record { bytes = 67108864; names = 16777216; owners = 65535; pairs = 16777216 } }
    {
        Limits {
            bytes: 67_108_864,
            names: 16_777_216,
            owners: 65_535,
            pairs: 16_777_216,
        }
    }
}
