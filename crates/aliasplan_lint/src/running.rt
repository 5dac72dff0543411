//! What is wrong with files, told by their lines, from a job's text to what is written.
ghost use Rattle.std.specs.Prelude.{◌≡◌, ◌≢◌, ◌≤◌, false, true, length, option_map, Err, IfOk, IfErr};
ghost use Rattle.std.specs.Io.KnownBytes.{Keeps};
ghost use Rattle.relay_job.specs.Tables.{AreTablesWithin};
ghost use Rattle.relay_planning.specs.Limits.{IsRefused};
ghost use Rattle.aliasplan.specs.Checks.{to_each_alias};
ghost use Rattle.aliasplan_lint.specs.Runs.{AreFindings, IsLinted, RefusesLint, WritesLint};

use crate::linting::{LintText, text_of};
use crate::options::{LintCounts, LintOptions};
use aliasplan::{
    Crew, Gate, Job, RunFault, Sink, check_aliases, check_texts, notes, parse_tables, write_text,
};
use relay_gather::Origins;
use relay_text::{Seq, Text};
use std::thread::Threads;

/// The lines of findings.
fn findings_of<G: Gate, R: Threads + Sync>(
    crew: &Crew<G, R>,
    tables: Job,
    aliases: bool,
) -> Result<Seq<Text>, RunFault>
    requires { AreTablesWithin crew.now.limits.bytes tables }
    ensures lines { IfOk result (AreFindings crew.now.limits aliases tables) }
    ensures refused { IfErr result (IsRefused crew.now.limits (to_each_alias tables)) }
{
    if aliases {
        return check_aliases(crew, tables);
    }
    Ok(check_texts(crew.alloc, crew.options.key, &tables, crew.limits)?)
}

/// What is told of the text of a job.
fn lint_input<G: Gate, R: Threads + Sync>(
    crew: &Crew<G, R>,
    input: &[u8],
    origins: Option<&Origins>,
    options: &LintOptions,
) -> Result<LintText, RunFault>
    requires { length input.now ≤ crew.now.limits.bytes }
    ensures told { IfOk result (IsLinted crew.now.limits options.now (option_map (λ o. o.now) origins.entry) input.now) }
    ensures refused { IfErr result (RefusesLint crew.now.limits input.now) }
{
    let alloc = crew.alloc;
    let job = parse_tables(alloc, input)?;
    let tables = parse_tables(alloc, input)?;
    let findings = findings_of(crew, tables, options.aliases)?;
    let notes = notes(alloc, &job.settings)?;
    let found = (findings.as_slice(), notes.as_slice());
    Ok(text_of(alloc, crew.options.key, (&job, origins), options, found)?)
}

/// Writes what is wrong with the files and tables of a job's text and nothing else, each finding of their check at the line of its file; an
/// envelope may stand with them, which isn't looked at. All of the text is there before the first write. Answers how much is told.
///
/// Where the text was gathered from files, `origins` says which of its lines are those of which file, else lines are those of its sections.
///
/// BadJob and BadSetting come as from `parse_job`; TooManyNames, TooManyOwners and TooManyPairs where aliases are asked for, as from
/// `plan_job` of the null sender's message to every alias. Write leaves a front of the text.
pub fn run_lint<S: Sink, G: Gate, R: Threads + Sync>(
    crew: &Crew<G, R>,
    input: &[u8],
    origins: Option<&Origins>,
    options: &LintOptions,
    writer: &mut S,
) -> Result<LintCounts, RunFault>
    requires input { length input.now ≤ crew.now.limits.bytes }
    requires writer { S.has_failed writer.old ≡ false }
    ensures tells { IfOk result (WritesLint crew.now.limits options.now (option_map (λ o. o.now) origins.entry) input.now (S.contents writer.old) (S.contents writer.new)) }
    ensures refuses { IfErr result (λ fault. fault ≢ RunFault.Write → RefusesLint crew.now.limits input.now fault) }
    // Write exactly where the writer failed.
    ensures write { (result ≡ Err RunFault.Write → S.has_failed writer.new ≡ true) × (result ≢ Err RunFault.Write → S.has_failed writer.new ≡ false) }
    // Every refusal but Write writes nothing.
    ensures nothing { IfErr result (λ fault. fault ≢ RunFault.Write → Keeps (S.contents writer.old) (S.contents writer.new)) }
{
    let LintText { text, counts } = lint_input(crew, input, origins, options)?;
    match write_text(writer, text.as_bytes()) {
        Ok(()) => Ok(counts),
        Err(_) => Err(RunFault::Write),
    }
}
