//! All that the program can be asked for.
use crate::detail::Detail;
use crate::expansion::Expansion;
use crate::named_job::NamedJob;
use crate::output::Output;
use crate::scope::Scope;
use crate::work::Work;
use relay_explain::Asked;
use relay_gather::Paths;
use relay_job::RunFault;
use relay_text::Text;

/// What the command line asks for.
#[derive(Drop)]
pub enum Request {
    /// A plan of a job.
    Plan(Work, Output<'static>, NamedJob, Detail),
    /// The plans of envelopes, with returns where the output is that, by the tables in the file of the first path, or where there is none, by
    /// those in front of the envelopes. These are in the file of the second path, or on standard input where there is none.
    Each(Work, Output<'static>, Option<Text>, Option<Text>, Detail),
    /// The domains that a job asks for.
    Domains(Work, NamedJob, Detail),
    /// What is wrong with a job's files and tables.
    Check(Work, Scope, NamedJob, Detail),
    /// Why a name or an address is in a job's plan, or isn't.
    Explain(Work, Asked, NamedJob, Detail),
    /// What names and addresses expand to by a job's files and tables.
    Expand(Work, Expansion, NamedJob, Detail),
    /// A job of the files of these paths.
    Gather(Paths, Detail),
    /// The help or the version, which is printed.
    Help,
    /// Something else, as is said on standard error.
    Unknown,
    /// Words that can't be read for want of memory, help that can't be written, or a key for the hashes of texts that can't be drawn.
    Fault(RunFault),
}
