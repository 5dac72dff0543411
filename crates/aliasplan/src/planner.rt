//! Settings, files and tables, read once for many envelopes.
use relay_job::Job;
use relay_planning::{Crew, JobView, Limits, Lookup, parsed_is_readable};
use relay_tables::TableCounts;
use relay_text::{Seq, Text};
use std::marker::Model;

/// Settings, files and tables, read once for many envelopes. A plan takes the time and memory of what its envelope reaches, and not of
/// the tables, unless these have nearly as many names as the limits allow; several threads can plan at once.
///
/// Contracts see it as the job of these files and tables without an envelope.
#[derive(Drop)]
pub struct Planner {
    /// Its envelope isn't looked at.
    tables: Job,
    read: TablesRead,
}

/// What files and tables say.
#[derive(Drop)]
struct TablesRead {
    lookup: Lookup,
    counts: TableCounts,
    /// The lines that are at fault.
    findings: Seq<Text>,
}

impl Model for Planner {
    ghost use Rattle.relay_job.specs.declared.job.Job.{Job};
    ghost use Rattle.relay_job.specs.Tables.{without_envelope};
    ghost use Rattle.aliasplan.specs.Planners.{IsReady};

    ghost Value = { Job };

    ghost view = { λ a. without_envelope a.tables };

    ghost invariant = { λ a. IsReady (without_envelope a.tables) a.read.lookup a.read.counts a.read.findings };
}

ghost use Rattle.std.specs.Prelude.{◌≡◌, ◌<◌, ℕ, List, [], length, IsTrue, IfOk, IfErr, OnOk};
ghost use Rattle.relay_text.specs.Addresses.{is_origin};
ghost use Rattle.relay_text.specs.Bytes.{has_text};
ghost use Rattle.relay_routes.specs.declared.transport.Transport as names;
ghost use Rattle.relay_tables.specs.Graphs.{nodes_of};
ghost use Rattle.relay_job.specs.Envelopes.{with_envelope};
ghost use Rattle.relay_job.specs.Settings.{limit_of};
ghost use Rattle.relay_job.specs.Tables.{without_envelope, AreTablesWithin};
ghost use Rattle.aliasplan.specs.Checks.{AreLines};
ghost use Rattle.relay_planning.specs.Delivery.{directory_of, routing_of};
ghost use Rattle.relay_planning.specs.Limits.{owned_count, AreLimits, IsRefused, IsWithin};
ghost use Rattle.aliasplan.specs.Outcomes.{AreTableCountsWithin, HasRefusedTables};
ghost use Rattle.aliasplan.specs.Planners.{AreRead};
ghost use Rattle.aliasplan.specs.Returns.{AreReturnsOf, IsReturnedWithin, IsUnreturned};
ghost use Rattle.relay_planning.specs.Plans.{IsFewest, IsOwnPlanOf, IsSoundFor};
ghost use Rattle.relay_planning.specs.Report.{texts, IsLineOf};
ghost use Rattle.relay_planning.specs.Texts.{has_fault_line};

use crate::enveloping::{plan_envelope, returns_envelope};
use crate::returned::Returned;
use relay_chains::TextKey;
use relay_job::{Envelope, RunFault, Settings, parsed_tables};
use relay_rounds::Gate;
use relay_tables::{TableFault, Tables};
use relay_wire::{FindingLines, Plan};
use std::alloc::Global;
use std::thread::Threads;

/// How many names and owners the tables of a job have, whatever its envelope.
fn counts_of(
    alloc: Global,
    job: &Job,
    tables: &Tables,
    limits: Limits,
) -> Result<TableCounts, RunFault>
    requires tables { tables.now ≡ directory_of job.now }
    requires limits { AreLimits limits }
    ensures names { IfOk result (λ counts. counts.names ≡ length (nodes_of (directory_of job.now) [])) }
    ensures owners { IfOk result (λ counts. counts.owners ≡ owned_count job.now) }
    ensures within { OnOk result (AreTableCountsWithin limits job.now) }
    ensures refused { IfErr result (HasRefusedTables limits job.now) }
{
    let _ = job;
    match TableCounts::of(alloc, tables, limits.names, limits.owners) {
        Ok(counts) => Ok(counts),
        Err(TableFault::TooManyNames) => Err(RunFault::TooManyNames),
        Err(TableFault::TooManyOwners) => Err(RunFault::TooManyOwners),
        Err(TableFault::Memory) => Err(RunFault::Memory),
    }
}

/// How many names and owners the tables of a job have, and the lines that are at fault, which are given.
fn counted_and_found(
    alloc: Global,
    job: &Job,
    tables: &Tables,
    lines: FindingLines,
    limits: Limits,
) -> Result<(TableCounts, Seq<Text>), RunFault>
    requires tables { tables.now ≡ directory_of job.now }
    requires lines { (q : List ℕ) → has_text lines q ≡ has_fault_line job.now q }
    requires limits { AreLimits limits }
    ensures names { IfOk result (λ both. both.0.names ≡ length (nodes_of (directory_of job.now) [])) }
    ensures owners { IfOk result (λ both. both.0.owners ≡ owned_count job.now) }
    ensures findings { IfOk result (λ both. AreLines (IsLineOf (without_envelope job.now) texts) both.1) }
    ensures within { OnOk result (AreTableCountsWithin limits job.now) }
    ensures refused { IfErr result (HasRefusedTables limits job.now) }
{
    let Ok(findings) = lines.into_seq(alloc) else {
        return Err(RunFault::Memory);
    };
    match counts_of(alloc, job, tables, limits) {
        Ok(counts) => Ok((counts, findings)),
        Err(fault) => Err(fault),
    }
}

impl TablesRead {
    /// What the files and tables of a job say, which are read. Their lines that are at fault are given.
    fn of_lookup(
        alloc: Global,
        job: &Job,
        lookup: Lookup,
        lines: FindingLines,
        limits: Limits,
    ) -> Result<TablesRead, RunFault>
        requires tables { lookup.tables ≡ directory_of job.now }
        requires router { lookup.router ≡ routing_of job.now }
        requires lines { (q : List ℕ) → has_text lines q ≡ has_fault_line job.now q }
        requires limits { AreLimits limits }
        requires batches { (t : names.Transport) → 0 < limit_of job.now.settings t }
        ensures read { IfOk result (λ read. AreRead (without_envelope job.now) read.lookup read.counts) }
        ensures findings { IfOk result (λ read. AreLines (IsLineOf (without_envelope job.now) texts) read.findings) }
        ensures within { OnOk result (AreTableCountsWithin limits job.now) }
        ensures refused { IfErr result (HasRefusedTables limits job.now) }
    {
        match counted_and_found(alloc, job, &lookup.tables, lines, limits) {
            Ok((counts, findings)) => Ok(TablesRead {
                lookup,
                counts,
                findings,
            }),
            Err(fault) => {
                drop(lookup);
                Err(fault)
            }
        }
    }

    /// What the files and tables of a job say, whatever its envelope.
    fn of(alloc: Global, key: TextKey, job: &Job, limits: Limits) -> Result<TablesRead, RunFault>
        requires limits { AreLimits limits }
        requires tables { AreTablesWithin limits.bytes job.now }
        ensures read { IfOk result (λ read. AreRead (without_envelope job.now) read.lookup read.counts) }
        ensures findings { IfOk result (λ read. AreLines (IsLineOf (without_envelope job.now) texts) read.findings) }
        ensures within { OnOk result (AreTableCountsWithin limits job.now) }
        ensures refused { IfErr result (HasRefusedTables limits job.now) }
    {
        parsed_is_readable();
        let mut lines = FindingLines::new(alloc);
        match Lookup::read(alloc, key, job, &mut lines) {
            Ok(lookup) => TablesRead::of_lookup(alloc, job, lookup, lines, limits),
            Err(_) => Err(RunFault::Memory),
        }
    }

    /// The same by a crew, within its limits.
    fn by_crew<G: Gate, R: Threads + Sync>(
        crew: &Crew<G, R>,
        job: &Job,
    ) -> Result<TablesRead, RunFault>
        requires tables { AreTablesWithin crew.now.limits.bytes job.now }
        ensures read { IfOk result (λ read. AreRead (without_envelope job.now) read.lookup read.counts) }
        ensures findings { IfOk result (λ read. AreLines (IsLineOf (without_envelope job.now) texts) read.findings) }
        ensures within { OnOk result (AreTableCountsWithin crew.now.limits job.now) }
        ensures refused { IfErr result (HasRefusedTables crew.now.limits job.now) }
    {
        parsed_is_readable();
        let mut lines = FindingLines::new(crew.alloc);
        match Lookup::read_by(crew, job, &mut lines) {
            Ok(lookup) => TablesRead::of_lookup(crew.alloc, job, lookup, lines, crew.limits),
            Err(_) => Err(RunFault::Memory),
        }
    }
}

impl Planner {
    /// Reads files and tables, whose texts are hashed under the key; an envelope that they come with isn't looked at.
    ///
    /// `TooManyNames` and `TooManyOwners` come in this order, exactly where the tables alone have more than `limits` takes; `Memory`
    /// where a growth was refused.
    pub fn new(
        alloc: Global,
        key: TextKey,
        tables: Job,
        limits: Limits,
    ) -> Result<Planner, RunFault>
        requires limits { AreLimits limits }
        requires tables { AreTablesWithin limits.bytes tables }
        ensures tables { IfOk result (λ planner. planner ≡ without_envelope tables) }
        ensures within { OnOk result (AreTableCountsWithin limits tables) }
        ensures refused { IfErr result (HasRefusedTables limits tables) }
    {
        parsed_tables();
        match TablesRead::of(alloc, key, &tables, limits) {
            Ok(read) => Ok(Planner { tables, read }),
            Err(fault) => {
                drop(tables);
                Err(fault)
            }
        }
    }

    /// The same by a crew, which shares the work where files and tables are long; key and limits are the crew's.
    pub fn by_crew<G: Gate, R: Threads + Sync>(
        crew: &Crew<G, R>,
        tables: Job,
    ) -> Result<Planner, RunFault>
        requires tables { AreTablesWithin crew.now.limits.bytes tables }
        ensures tables { IfOk result (λ planner. planner ≡ without_envelope tables) }
        ensures within { OnOk result (AreTableCountsWithin crew.now.limits tables) }
        ensures refused { IfErr result (HasRefusedTables crew.now.limits tables) }
    {
        parsed_tables();
        match TablesRead::by_crew(crew, &tables) {
            Ok(read) => Ok(Planner { tables, read }),
            Err(fault) => {
                drop(tables);
                Err(fault)
            }
        }
    }

    /// The lines of files and tables that are at fault, in the order of their bytes, each once.
    pub fn findings(&self) -> &[Text]
        ensures { AreLines (IsLineOf self.now texts) result.now }
    {
        self.read.findings.as_slice()
    }

    /// The settings that are read. Their origin is a domain, by which `parse_envelope` can be asked.
    pub fn settings(&self) -> &Settings
        ensures settings { result.now ≡ self.now.settings }
        ensures origin { IsTrue (is_origin result.now.origin) }
    {
        &self.tables.settings
    }

    /// The plan of one envelope, as `plan_job` makes it of these tables and the envelope, but for the lines of `findings`, which it
    /// leaves out.
    ///
    /// The errors are those of `plan_job`, in the same order, and neither the number of threads nor how the work is cut changes the
    /// answer. The form of the options is not regarded.
    pub fn plan<G: Gate, R: Threads + Sync>(
        &self,
        crew: &Crew<G, R>,
        envelope: &Envelope,
    ) -> Result<Plan, RunFault>
        ensures plan { IfOk result (IsOwnPlanOf (with_envelope self.now envelope.now)) }
        ensures sound { IfOk result (λ plan. IsSoundFor (with_envelope self.now envelope.now) plan.transactions) }
        ensures fewest { IfOk result (λ plan. IsFewest (with_envelope self.now envelope.now) plan.transactions) }
        ensures within { OnOk result (IsWithin crew.now.limits (with_envelope self.now envelope.now)) }
        ensures refused { IfErr result (IsRefused crew.now.limits (with_envelope self.now envelope.now)) }
    {
        let job = JobView::joined(&self.tables, envelope);
        plan_envelope(crew, &job, &self.read.lookup, self.read.counts)
    }

    /// The same with what is returned to which sender, as `returns` makes it of these tables and the envelope.
    ///
    /// The errors are those of `returns`, in the same order.
    pub fn returns<G: Gate, R: Threads + Sync>(
        &self,
        crew: &Crew<G, R>,
        envelope: &Envelope,
    ) -> Result<Returned, RunFault>
        ensures plan { IfOk result (λ returned. IsOwnPlanOf (with_envelope self.now envelope.now) returned.plan) }
        ensures sound { IfOk result (λ returned. IsSoundFor (with_envelope self.now envelope.now) returned.plan.transactions) }
        ensures fewest { IfOk result (λ returned. IsFewest (with_envelope self.now envelope.now) returned.plan.transactions) }
        ensures returns { IfOk result (λ returned. AreReturnsOf (with_envelope self.now envelope.now) returned.returns) }
        ensures within { OnOk result (IsReturnedWithin crew.now.limits (with_envelope self.now envelope.now)) }
        ensures refused { IfErr result (IsUnreturned crew.now.limits (with_envelope self.now envelope.now)) }
    {
        let job = JobView::joined(&self.tables, envelope);
        returns_envelope(crew, &job, &self.read.lookup, self.read.counts)
    }
}
