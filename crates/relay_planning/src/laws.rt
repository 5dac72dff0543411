//! What callers may take for granted of the jobs that they parsed.
ghost use Rattle.std.specs.Prelude.{ℕ, ◌≤◌, ◌<◌};
ghost use Rattle.relay_routes.specs.declared.transport.Transport as names;
ghost use Rattle.relay_job.specs.declared.job.Job as jobs;
ghost use Rattle.relay_job.specs.JobAnswers.{IsJobWithin};
ghost use Rattle.relay_job.specs.Settings.{limit_of};
ghost use Rattle.relay_job.specs.Tables.{AreTablesWithin};
ghost use Rattle.relay_planning.specs.Readable.{IsReadable};

use relay_aliasfile::file_counts;
use relay_job::{parsed_jobs, parsed_tables};

/// The files and tables of a job can be read where it is a text of at most 67,108,864 bytes, with an envelope or without, and a transaction
/// by a text's settings takes a recipient, whatever its transport.
pub fn parsed_is_readable()
    ensures jobs { (bytes : ℕ) (job : jobs.Job) → bytes ≤ 67108864 → IsJobWithin bytes job → IsReadable job }
    ensures job_batches { (bytes : ℕ) (job : jobs.Job) → IsJobWithin bytes job → (t : names.Transport) → 0 < limit_of job.settings t }
    ensures tables { (bytes : ℕ) (tables : jobs.Job) → bytes ≤ 67108864 → AreTablesWithin bytes tables → IsReadable tables }
    ensures table_batches { (bytes : ℕ) (tables : jobs.Job) → AreTablesWithin bytes tables → (t : names.Transport) → 0 < limit_of tables.settings t }
{
    parsed_jobs();
    parsed_tables();
    file_counts();
}
