//! The kinds of answer to a job.
use crate::expansion::Expansion;
use crate::scope::Scope;
use relay_explain::Asked;

/// What is written of a job.
#[derive(Clone, Copy)]
pub enum Output<'a> {
    /// The text of its plan, in the form that the options name.
    Text,
    /// The same, with whom to tell of what can't be delivered.
    Returns,
    /// The domains that it asks for.
    Domains,
    /// What is wrong with its files and tables.
    Check(Scope),
    /// Why a name or an address is in its plan, or isn't.
    Explain(&'a Asked),
    /// What names and addresses expand to.
    Expand(&'a Expansion),
}
