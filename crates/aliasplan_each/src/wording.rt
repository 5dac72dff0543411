//! What is written of each envelope.
use aliasplan::Form;

/// How the block of an envelope is written that has a plan.
#[derive(Clone, Copy, Debug, PartialEq, Eq)]
pub struct Wording {
    /// What its plan is written as.
    pub form: Form,
    /// Whether it says what is returned to which sender, and for which recipient.
    pub returns: bool,
}
