//! The job that words name.
use relay_gather::Paths;
use relay_text::Text;

/// Where a job comes from.
#[derive(Drop)]
pub enum JobSource {
    /// Standard input.
    Input,
    /// The file of this path.
    File(Text),
    /// The files of these paths, of which it is gathered.
    Apart(Paths),
}

/// A job by its name.
#[derive(Drop)]
pub struct NamedJob {
    pub source: JobSource,
    /// The section of the envelope that stands in place of the job's own, where words say one.
    pub envelope: Option<Text>,
}
