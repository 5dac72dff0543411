//! What is wrong with files and tables before a message comes.
//!
//! `check_texts` judges their lines; `check_aliases` also finds where every alias leads, as if the null sender wrote to all of them;
//! `notes` says which settings Postfix reads otherwise.
ghost use Rattle.std.specs.Prelude.{◌≡◌, ◌<◌, ℕ, List, IfOk, IfErr, OnOk};
ghost use Rattle.relay_text.specs.Bytes.{has_text};
ghost use Rattle.relay_routes.specs.declared.transport.Transport as names;
ghost use Rattle.relay_job.specs.Settings.{limit_of};
ghost use Rattle.relay_job.specs.Tables.{AreTablesWithin};
ghost use Rattle.aliasplan.specs.Checks.{to_each_alias, AreLines, notes_of};
ghost use Rattle.relay_planning.specs.Delivery.{directory_of, routing_of};
ghost use Rattle.relay_planning.specs.Limits.{AreLimits, IsWithin, IsRefused};
ghost use Rattle.relay_planning.specs.Report.{texts, IsFindingLine, IsLineOf};
ghost use Rattle.relay_planning.specs.Texts.{has_fault_line};

use relay_chains::TextKey;
use relay_job::{Job, RunFault, Settings};
use relay_planning::{Crew, JobView, Limits, Lookup, parsed_is_readable, plan_by_lookup};
use relay_rounds::Gate;
use relay_tables::Tables;
use relay_text::{Seq, Text, same_bytes};
use relay_wire::FindingLines;
use std::alloc::{AllocError, Global};
use std::thread::Threads;

/// Makes a job of these files and tables, which are read, that of the null sender who writes to every alias.
fn write_to_each_alias(alloc: Global, tables: &mut Job, read: &Tables) -> Result<(), AllocError>
    requires { read.now ≡ directory_of tables.old }
    ensures { OnOk result (tables.new ≡ to_each_alias tables.old) }
{
    let recipients = read.alias_addresses(alloc)?;
    tables.sender = None;
    tables.recipients = Seq::of(recipients);
    Ok(())
}

/// The lines of findings that say which lines of the files and tables are at fault, in the order of their bytes, each once; texts are hashed
/// under the key. `Err` where memory runs out.
pub fn check_texts(
    alloc: Global,
    key: TextKey,
    tables: &Job,
    limits: Limits,
) -> Result<Seq<Text>, AllocError>
    requires limits { AreLimits limits }
    requires tables { AreTablesWithin limits.bytes tables.now }
    ensures { IfOk result (AreLines (IsLineOf tables.now texts)) }
{
    parsed_is_readable();
    let _ = limits;
    let mut lines = FindingLines::new(alloc);
    match Lookup::read(alloc, key, tables, &mut lines) {
        Ok(lookup) => {
            // The lines alone are asked for.
            drop(lookup);
            lines.into_seq(alloc)
        }
        Err(error) => Err(error),
    }
}

/// The lines of all that is found in a job whose files and tables are read. Their lines that are at fault are given.
fn findings_of<G: Gate, R: Threads + Sync>(
    crew: &Crew<G, R>,
    job: &Job,
    lookup: Lookup,
    lines: FindingLines,
) -> Result<Seq<Text>, RunFault>
    requires batches { (t : names.Transport) → 0 < limit_of job.now.settings t }
    requires tables { lookup.tables ≡ directory_of job.now }
    requires router { lookup.router ≡ routing_of job.now }
    requires lines { (q : List ℕ) → has_text lines q ≡ has_fault_line job.now q }
    ensures lines { IfOk result (AreLines (IsFindingLine job.now)) }
    ensures within { OnOk result (IsWithin crew.now.limits job.now) }
    ensures refused { IfErr result (IsRefused crew.now.limits job.now) }
{
    match plan_by_lookup(crew, &JobView::of(job), lookup, lines) {
        Ok(plan) => Ok(plan.findings),
        Err(fault) => Err(fault),
    }
}

/// The same where the null sender writes to every alias of these files and tables.
fn findings_of_aliases<G: Gate, R: Threads + Sync>(
    crew: &Crew<G, R>,
    tables: &mut Job,
    lookup: Lookup,
    lines: FindingLines,
) -> Result<Seq<Text>, RunFault>
    requires batches { (t : names.Transport) → 0 < limit_of tables.old.settings t }
    requires tables { lookup.tables ≡ directory_of tables.old }
    requires router { lookup.router ≡ routing_of tables.old }
    requires lines { (q : List ℕ) → has_text lines q ≡ has_fault_line tables.old q }
    ensures lines { IfOk result (AreLines (IsFindingLine (to_each_alias tables.old))) }
    ensures within { OnOk result (IsWithin crew.now.limits (to_each_alias tables.old)) }
    ensures refused { IfErr result (IsRefused crew.now.limits (to_each_alias tables.old)) }
{
    match write_to_each_alias(crew.alloc, tables, &lookup.tables) {
        Ok(()) => findings_of(crew, &*tables, lookup, lines),
        Err(_) => {
            drop(lookup);
            Err(RunFault::Memory)
        }
    }
}

/// The lines of all that is found where the null sender writes to every alias of these files and tables.
fn findings_of_tables<G: Gate, R: Threads + Sync>(
    crew: &Crew<G, R>,
    tables: &mut Job,
) -> Result<Seq<Text>, RunFault>
    requires { AreTablesWithin crew.now.limits.bytes tables.old }
    ensures lines { IfOk result (AreLines (IsFindingLine (to_each_alias tables.old))) }
    ensures within { OnOk result (IsWithin crew.now.limits (to_each_alias tables.old)) }
    ensures refused { IfErr result (IsRefused crew.now.limits (to_each_alias tables.old)) }
{
    parsed_is_readable();
    let mut lines = FindingLines::new(crew.alloc);
    match Lookup::read_by(crew, &*tables, &mut lines) {
        Ok(lookup) => findings_of_aliases(crew, tables, lookup, lines),
        Err(_) => Err(RunFault::Memory),
    }
}

/// The same lines, and with them those of all that is found where the null sender writes to every alias: loops, missing names and include
/// files, items that aren't delivered to, entries without good items, and addresses without a route.
///
/// The errors are those of `plan_job` of that message. The form of the options is not regarded, and neither the number of threads nor
/// how the work is cut changes the answer.
pub fn check_aliases<G: Gate, R: Threads + Sync>(
    crew: &Crew<G, R>,
    tables: Job,
) -> Result<Seq<Text>, RunFault>
    requires { AreTablesWithin crew.now.limits.bytes tables }
    ensures lines { IfOk result (AreLines (IsFindingLine (to_each_alias tables))) }
    ensures within { OnOk result (IsWithin crew.now.limits (to_each_alias tables)) }
    ensures refused { IfErr result (IsRefused crew.now.limits (to_each_alias tables)) }
{
    let mut tables = tables;
    let findings = findings_of_tables(crew, &mut tables);
    drop(tables);
    findings
}

/// Whether mydestination has myorigin.
fn has_origin(settings: &Settings) -> bool
    ensures { result ≡ has_text settings.now.destinations settings.now.origin }
{
    let origin = settings.origin.as_bytes();
    settings
        .destinations
        .as_slice()
        .iter()
        .any(|domain| same_bytes(origin, domain.as_bytes()))
}

/// A line for each setting that Postfix reads otherwise, which is no fault: names at myorigin are local here, and there only where
/// mydestination has it (postconf(5)). `Err` where memory runs out.
pub fn notes(alloc: Global, settings: &Settings) -> Result<Seq<Text>, AllocError>
    ensures { IfOk result (λ notes. notes ≡ notes_of settings.now) }
{
    if has_origin(settings) {
        return Ok(Seq::of(Vec::new(alloc)));
    }
    let note = Text::copy_of(alloc, b"note myorigin isn't in mydestination")?;
    let notes = Vec::from_array(alloc, [note])?;
    Ok(Seq::of(notes))
}
