//! Jobs.
use crate::envelope::Envelope;
use crate::job_files::JobFiles;
use crate::settings::Settings;
use relay_text::{Address, Seq, Text};

/// An include file (aliases(5) of Postfix, `:include:`), as its section holds it.
#[derive(Drop)]
pub struct JobInclude {
    /// The path, which begins with `/`.
    pub path: Text,
    pub bytes: Text,
}

/// What a job's text says: the settings, the bytes of the sections with aliases, include files, mailboxes and tables, and the
/// envelope. A section's bytes have each leading `%%` undone; a section that isn't there has none.
#[derive(Drop)]
pub struct Job {
    pub settings: Settings,
    /// The alias file (aliases(5) of Postfix).
    pub aliases: Text,
    /// The include files in the order of their headings, each path once.
    pub includes: Seq<JobInclude>,
    pub mailboxes: Text,
    /// The transport table (transport(5) of Postfix).
    pub transport: Text,
    /// The mail exchangers of domains (RFC 5321 section 5).
    pub mx: Text,
    /// The envelope's sender, none for the null path.
    pub sender: Option<Address>,
    pub recipients: Seq<Address>,
}

impl Job {
    ghost use Rattle.relay_job.specs.Jobs.{IsJobOf};

    /// That of settings, files and an envelope.
    pub(crate) fn of(settings: Settings, files: JobFiles, envelope: Envelope) -> Job
        ensures { IsJobOf settings files envelope result }
    {
        let Envelope { sender, recipients } = envelope;
        Job {
            settings,
            aliases: files.aliases,
            includes: files.includes,
            mailboxes: files.mailboxes,
            transport: files.transport,
            mx: files.mx,
            sender,
            recipients,
        }
    }
}
