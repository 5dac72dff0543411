//! A job whose envelope may be kept apart from its tables.
use relay_job::{Envelope, Job, Settings};
use relay_text::Address;
use std::marker::Model;

/// Settings, files and tables, which may be kept for many envelopes, and one envelope. A transaction of any transport takes a recipient.
///
/// Contracts see it as the job of these files and tables and of this envelope.
#[derive(Drop)]
pub struct JobView<'a> {
    /// The settings, files and tables of this job; of its envelope nothing.
    tables: &'a Job,
    sender: Option<&'a Address>,
    recipients: &'a [Address],
}

impl<'a> Model for JobView<'a> {
    ghost use Rattle.std.specs.Prelude.{◌<◌, option_map};
    ghost use Rattle.relay_routes.specs.declared.transport.Transport.{Transport};
    ghost use Rattle.relay_job.specs.declared.job.Job.{Job};
    ghost use Rattle.relay_job.specs.Envelopes.{with_envelope};
    ghost use Rattle.relay_job.specs.Settings.{limit_of};

    ghost Value = { Job };

    ghost invariant = { λ a. (t : Transport) → 0 < limit_of a.tables.now.settings t };

    ghost view = { λ a. with_envelope a.tables.now (record { sender = option_map (λ s. s.now) a.sender; recipients = a.recipients.now }) };
}

ghost use Rattle.std.specs.Prelude.{◌≡◌, ◌<◌, option_map};
ghost use Rattle.relay_routes.specs.declared.transport.Transport as names;
ghost use Rattle.relay_job.specs.Envelopes.{with_envelope};
ghost use Rattle.relay_job.specs.Settings.{limit_of};

impl<'a> JobView<'a> {
    /// A job as it stands.
    pub fn of(job: &'a Job) -> JobView<'a>
        requires { (t : names.Transport) → 0 < limit_of job.now.settings t }
        ensures { result ≡ job.now }
    {
        JobView {
            tables: job,
            sender: job.sender.as_ref(),
            recipients: job.recipients.as_slice(),
        }
    }

    /// The job of these tables and this envelope.
    pub fn joined(tables: &'a Job, envelope: &'a Envelope) -> JobView<'a>
        requires { (t : names.Transport) → 0 < limit_of tables.now.settings t }
        ensures { result ≡ with_envelope tables.now envelope.now }
    {
        JobView {
            tables,
            sender: envelope.sender.as_ref(),
            recipients: envelope.recipients.as_slice(),
        }
    }

    /// Of the tables, whatever the envelope.
    pub fn settings(&self) -> &'a Settings
        ensures settings { result.now ≡ self.now.settings }
        ensures batches { (t : names.Transport) → 0 < limit_of result.now t }
    {
        &self.tables.settings
    }

    /// `None` for the null sender.
    pub fn sender(&self) -> Option<&'a Address>
        ensures { option_map (λ s. s.now) result ≡ self.now.sender }
    {
        self.sender
    }

    /// In the envelope's order, repeats included.
    pub fn recipients(&self) -> &'a [Address]
        ensures { result.now ≡ self.now.recipients }
    {
        self.recipients
    }
}
