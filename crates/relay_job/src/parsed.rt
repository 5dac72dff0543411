//! What parsed jobs are.
ghost use Rattle.std.specs.Prelude.{◌≡◌, ◌≢◌, ◌+◌, ◌≤◌, ℕ, List, length, Ok, All, AllPairs, IsTrue};
ghost use Rattle.relay_text.specs.Bytes.{folded};
ghost use Rattle.relay_text.specs.Addresses.{is_origin};
ghost use Rattle.relay_routes.specs.declared.transport.Transport as transports;
ghost use Rattle.relay_job.specs.declared.job.Job as jobs;
ghost use Rattle.relay_job.specs.Settings.{limit_of};
ghost use Rattle.relay_job.specs.JobText.{job_of};
ghost use Rattle.relay_job.specs.Tables.{tables_of};
ghost use Rattle.relay_job.specs.JobSizes.{include_size, job_size};

/// What holds of every job that a text is: each include file has a path of its own, the origin and the local domains are folded, each
/// transaction takes a recipient, and the job is no larger than its text, which has a heading for each include file.
pub fn parsed_jobs()
    ensures paths { (text : List ℕ) (job : jobs.Job) → job_of text ≡ Ok job → AllPairs (λ a b. a.path ≢ b.path) job.includes }
    ensures origin { (text : List ℕ) (job : jobs.Job) → job_of text ≡ Ok job → IsTrue (is_origin job.settings.origin) }
    ensures destinations { (text : List ℕ) (job : jobs.Job) → job_of text ≡ Ok job → All (λ domain. folded domain ≡ domain) job.settings.destinations }
    ensures limits { (text : List ℕ) (job : jobs.Job) → job_of text ≡ Ok job → (transport : transports.Transport) → 1 ≤ limit_of job.settings transport }
    ensures sizes { (text : List ℕ) (job : jobs.Job) → job_of text ≡ Ok job → job_size job + length job.includes ≤ length text }
    ensures includes { (text : List ℕ) (job : jobs.Job) → job_of text ≡ Ok job → All (λ i. include_size i ≤ length text) job.includes }
{}

/// The same of the files and tables that a text has, whatever its envelope is.
pub fn parsed_tables()
    ensures paths { (text : List ℕ) (tables : jobs.Job) → tables_of text ≡ Ok tables → AllPairs (λ a b. a.path ≢ b.path) tables.includes }
    ensures origin { (text : List ℕ) (tables : jobs.Job) → tables_of text ≡ Ok tables → IsTrue (is_origin tables.settings.origin) }
    ensures destinations { (text : List ℕ) (tables : jobs.Job) → tables_of text ≡ Ok tables → All (λ domain. folded domain ≡ domain) tables.settings.destinations }
    ensures limits { (text : List ℕ) (tables : jobs.Job) → tables_of text ≡ Ok tables → (transport : transports.Transport) → 1 ≤ limit_of tables.settings transport }
    ensures sizes { (text : List ℕ) (tables : jobs.Job) → tables_of text ≡ Ok tables → job_size tables + length tables.includes ≤ length text }
    ensures includes { (text : List ℕ) (tables : jobs.Job) → tables_of text ≡ Ok tables → All (λ i. include_size i ≤ length text) tables.includes }
{}
