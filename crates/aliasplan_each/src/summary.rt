//! What a run over many envelopes sums up.
use relay_envelopes::EnvelopeCounts;

/// The numbers of an answer's first line and of its last.
#[derive(Clone, Copy, Debug, PartialEq, Eq)]
pub struct EachSummary {
    /// How many findings the files and tables have.
    pub findings: usize,
    pub counts: EnvelopeCounts,
}
