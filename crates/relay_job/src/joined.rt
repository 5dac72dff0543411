//! What tables and an envelope's section are as one text.
ghost use Rattle.std.specs.Prelude.{◌≡◌, ◌+◌, ℕ, List, length, Ok, Err};
ghost use Rattle.relay_text.specs.Lines.{raw_lines};
ghost use Rattle.relay_job.specs.declared.envelope.Envelope as envelopes;
ghost use Rattle.relay_job.specs.declared.fault.RunFault.TheVariants.{BadEnvelope};
ghost use Rattle.relay_job.specs.declared.job.Job as jobs;
ghost use Rattle.relay_job.specs.JobText.{job_of};
ghost use Rattle.relay_job.specs.Tables.{tables_of};
ghost use Rattle.relay_job.specs.Envelopes.{envelope_of, with_envelope, joined_text, EndsWithLine, HasNoEnvelope, HasNoHeading};

/// Tables and an envelope's section, put together as one text, are the job of these tables and this envelope. Where the section is at
/// fault the text is too, at the same line of the section behind its heading.
pub fn joined_envelopes()
    ensures ok { (front section : List ℕ) (tables : jobs.Job) (envelope : envelopes.Envelope) → EndsWithLine front → HasNoEnvelope front → HasNoHeading section → tables_of front ≡ Ok tables → envelope_of tables.settings.origin section ≡ Ok envelope → job_of (joined_text front section) ≡ Ok (with_envelope tables envelope) }
    ensures refused { (front section : List ℕ) (tables : jobs.Job) (line : ℕ) → EndsWithLine front → HasNoEnvelope front → HasNoHeading section → tables_of front ≡ Ok tables → envelope_of tables.settings.origin section ≡ Err (BadEnvelope line) → job_of (joined_text front section) ≡ Err (BadEnvelope (length (raw_lines front) + 1 + line)) }
{}
