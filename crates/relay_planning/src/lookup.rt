//! What a job's names and addresses are looked up in, by what its files and tables say.
use relay_routes::Router;
use relay_tables::Tables;

/// What names stand for, and what routes addresses.
#[derive(Drop)]
pub struct Lookup {
    pub tables: Tables,
    pub router: Router,
    /// The key of the hashes of names, domains and nexthops.
    pub key: TextKey,
}

ghost use Rattle.std.specs.Prelude.{◌≡◌, map, IsOk, IfOk, OnOk};
ghost use Rattle.std.specs.Thread.{IsSync};
ghost use Rattle.relay_aliasfile.specs.AliasFiles.{alias_file_of};
ghost use Rattle.relay_aliasfile.specs.MailboxFiles.{mailbox_file_of};
ghost use Rattle.relay_routes.specs.Transports.{transport_table_of};
ghost use Rattle.relay_routes.specs.Exchanges.{mx_table_of};
ghost use Rattle.relay_planning.specs.Delivery.{directory_of, entry_of_include, local_of, routing_of};
ghost use Rattle.relay_planning.specs.Findings.{ReportsWhere};
ghost use Rattle.relay_planning.specs.Parsed.{AreParsed};
ghost use Rattle.relay_planning.specs.Readable.{IsReadable};
ghost use Rattle.relay_planning.specs.Texts.{is_file_line, is_name_line, is_route_line, has_fault_line};

use crate::both::{beside, both_of};
use crate::crew::Crew;
use crate::includes::{read_includes, read_includes_by};
use crate::job_file::JobFile;
use crate::parsed::Parsed;
use crate::routing::{push_copies, route_settings_of};
use crate::table::Table;
use crate::texts::{report_file, report_file_by, report_table};
use relay_aliasfile::{AliasFile, MailboxFile};
use relay_chains::TextKey;
use relay_job::{Job, Settings};
use relay_rounds::Gate;
use relay_routes::{MxTable, RouteSettings, TransportTable};
use relay_tables::{IncludeEntry, Local, parsed_files};
use relay_text::{Seq, Text};
use relay_wire::{FindingLines, KeptFindings};
use std::alloc::{AllocError, Global};
use std::thread::Threads;

/// Which domains are local, and how a local name is read.
fn local_of(alloc: Global, settings: &Settings) -> Result<Local, AllocError>
    ensures { IfOk result (λ local. local ≡ local_of settings.now) }
{
    let mut domains = Vec::with_capacity(alloc, settings.destinations.as_slice().len())?;
    push_copies(alloc, settings.destinations.as_slice(), &mut domains)?;
    Ok(Local {
        origin: Text::copy_of(alloc, settings.origin.as_bytes())?,
        domains: Seq::of(domains),
        delimiter: settings.delimiter,
        expand: settings.expand,
    })
}

/// Adds the lines of the alias file and the mailbox file that are at fault.
fn report_files<K: KeptFindings>(
    alloc: Global,
    parsed: &Parsed,
    lines: &mut FindingLines<K>,
) -> Result<(), AllocError>
    ensures { OnOk result (ReportsWhere lines.old lines.new (is_file_line parsed.now.aliases.faults parsed.now.mailboxes.faults)) }
{
    let aliases = parsed.aliases.faults.as_slice();
    let mailboxes = parsed.mailboxes.faults.as_slice();
    report_file(alloc, JobFile::Aliases, aliases, lines)?;
    report_file(alloc, JobFile::Mailboxes, mailboxes, lines)
}

/// The same by a crew, which shares the work where there are many.
fn report_files_by<R: Threads + Sync, K: KeptFindings + Send + Drop>(
    crew: &relay_sharing::Crew<'_, R>,
    parsed: &Parsed,
    lines: &mut FindingLines<K>,
) -> Result<(), AllocError>
    ensures { OnOk result (ReportsWhere lines.old lines.new (is_file_line parsed.now.aliases.faults parsed.now.mailboxes.faults)) }
{
    let aliases = parsed.aliases.faults.as_slice();
    let mailboxes = parsed.mailboxes.faults.as_slice();
    report_file_by(crew, JobFile::Aliases, aliases, lines)?;
    report_file_by(crew, JobFile::Mailboxes, mailboxes, lines)
}

/// The include files of a job. Adds the lines of its files that are at fault, of which the alias file and the mailbox file are parsed.
fn read_files<K: KeptFindings>(
    alloc: Global,
    job: &Job,
    parsed: &Parsed,
    lines: &mut FindingLines<K>,
) -> Result<Vec<IncludeEntry>, AllocError>
    ensures includes { IfOk result (λ includes. includes.items ≡ map entry_of_include job.now.includes) }
    ensures lines { OnOk result (ReportsWhere lines.old lines.new (is_name_line parsed.now.aliases.faults parsed.now.mailboxes.faults job.now.includes)) }
{
    report_files(alloc, parsed, lines)?;
    read_includes(alloc, job.includes.as_slice(), lines)
}

/// The same by a crew, which shares the work where the files are long, or many lines at fault.
fn read_files_by<R: Threads + Sync, K: KeptFindings + Send + Drop>(
    crew: &relay_sharing::Crew<'_, R>,
    job: &Job,
    parsed: &Parsed,
    lines: &mut FindingLines<K>,
) -> Result<Vec<IncludeEntry>, AllocError>
    ensures includes { IfOk result (λ includes. includes.items ≡ map entry_of_include job.now.includes) }
    ensures lines { OnOk result (ReportsWhere lines.old lines.new (is_name_line parsed.now.aliases.faults parsed.now.mailboxes.faults job.now.includes)) }
{
    report_files_by(crew, parsed, lines)?;
    read_includes_by(crew, job.includes.as_slice(), lines)
}

/// Adds the lines of the tables that are at fault.
fn report_routes<K: KeptFindings>(
    alloc: Global,
    transports: &TransportTable,
    exchanges: &MxTable,
    lines: &mut FindingLines<K>,
) -> Result<(), AllocError>
    ensures { OnOk result (ReportsWhere lines.old lines.new (is_route_line transports.now.faults exchanges.now.faults)) }
{
    report_table(alloc, Table::Transport, transports.faults(), lines)?;
    report_table(alloc, Table::Mx, exchanges.faults(), lines)
}

/// What a job's settings say of names and of routes.
#[derive(Drop)]
struct TableSettings {
    local: Local,
    routes: RouteSettings,
}

/// What the settings of a job say of these. `Err` where memory runs out.
fn table_settings_of(alloc: Global, job: &Job) -> Result<TableSettings, AllocError>
    ensures local { IfOk result (λ settings. settings.local ≡ local_of job.now.settings) }
    ensures routes { IfOk result (λ settings. settings.routes ≡ (routing_of job.now).settings) }
{
    let local = local_of(alloc, &job.settings)?;
    let (local, routes) = beside(local, route_settings_of(alloc, job))?;
    Ok(TableSettings { local, routes })
}

/// What the settings of a job say of names and of routes. Adds the lines of its tables that are at fault, which are parsed.
fn read_settings<K: KeptFindings>(
    alloc: Global,
    job: &Job,
    parsed: &Parsed,
    lines: &mut FindingLines<K>,
) -> Result<TableSettings, AllocError>
    ensures local { IfOk result (λ settings. settings.local ≡ local_of job.now.settings) }
    ensures routes { IfOk result (λ settings. settings.routes ≡ (routing_of job.now).settings) }
    ensures lines { OnOk result (ReportsWhere lines.old lines.new (is_route_line parsed.now.transports.faults parsed.now.exchanges.faults)) }
{
    report_routes(alloc, &parsed.transports, &parsed.exchanges, lines)?;
    table_settings_of(alloc, job)
}

/// What names stand for, found under a key.
fn tables_of(
    alloc: Global,
    job: &Job,
    key: TextKey,
    local: Local,
    files: (AliasFile, MailboxFile),
    includes: Vec<IncludeEntry>,
) -> Result<Tables, AllocError>
    requires job { IsReadable job.now }
    requires local { local ≡ local_of job.now.settings }
    requires aliases { files.0 ≡ alias_file_of job.now.aliases }
    requires includes { includes.items ≡ map entry_of_include job.now.includes }
    requires mailboxes { files.1 ≡ mailbox_file_of job.now.mailboxes }
    ensures { IfOk result (λ tables. tables ≡ directory_of job.now) }
{
    parsed_files();
    let _ = job;
    let (aliases, mailboxes) = files;
    Tables::build(alloc, key, local, aliases, includes, mailboxes)
}

impl Lookup {
    /// What names stand for, and what routes addresses, by what is parsed and what a job says beside it, under a key.
    fn joined(
        alloc: Global,
        job: &Job,
        key: TextKey,
        parsed: Parsed,
        settings: TableSettings,
        includes: Vec<IncludeEntry>,
    ) -> Result<Lookup, AllocError>
        requires job { IsReadable job.now }
        requires parsed { AreParsed job.now parsed }
        requires local { settings.local ≡ local_of job.now.settings }
        requires routes { settings.routes ≡ (routing_of job.now).settings }
        requires includes { includes.items ≡ map entry_of_include job.now.includes }
        ensures tables { IfOk result (λ lookup. lookup.tables ≡ directory_of job.now) }
        ensures router { IfOk result (λ lookup. lookup.router ≡ routing_of job.now) }
    {
        let Parsed {
            aliases,
            mailboxes,
            transports,
            exchanges,
        } = parsed;
        let TableSettings { local, routes } = settings;
        let tables = tables_of(alloc, job, key, local, (aliases, mailboxes), includes);
        let router = Router::new(alloc, routes, transports, exchanges);
        let (tables, router) = both_of(tables, router)?;
        Ok(Lookup {
            tables,
            router,
            key,
        })
    }

    /// What the files and tables of a job say, which are parsed, under a key. Adds the lines of the tables that are at fault, where the
    /// include files were read. `Err` where memory runs out.
    fn of<K: KeptFindings>(
        alloc: Global,
        job: &Job,
        key: TextKey,
        parsed: Parsed,
        includes: Result<Vec<IncludeEntry>, AllocError>,
        lines: &mut FindingLines<K>,
    ) -> Result<Lookup, AllocError>
        requires job { IsReadable job.now }
        requires parsed { AreParsed job.now parsed }
        requires includes { IfOk includes (λ includes. includes.items ≡ map entry_of_include job.now.includes) }
        ensures tables { IfOk result (λ lookup. lookup.tables ≡ directory_of job.now) }
        ensures router { IfOk result (λ lookup. lookup.router ≡ routing_of job.now) }
        ensures read { OnOk result (IsOk includes) }
        ensures lines { OnOk result (ReportsWhere lines.old lines.new (is_route_line parsed.transports.faults parsed.exchanges.faults)) }
    {
        let files = beside(parsed, includes)?;
        let settings = read_settings(alloc, job, &files.0, lines);
        let ((parsed, includes), settings) = beside(files, settings)?;
        Lookup::joined(alloc, job, key, parsed, settings, includes)
    }

    /// What the files and tables of a job say, whose texts are hashed under the key. Adds the lines of those that are at fault. `Err` where
    /// memory runs out.
    pub fn read<K: KeptFindings>(
        alloc: Global,
        key: TextKey,
        job: &Job,
        lines: &mut FindingLines<K>,
    ) -> Result<Lookup, AllocError>
        requires job { IsReadable job.now }
        ensures tables { IfOk result (λ lookup. lookup.tables ≡ directory_of job.now) }
        ensures router { IfOk result (λ lookup. lookup.router ≡ routing_of job.now) }
        ensures lines { OnOk result (ReportsWhere lines.old lines.new (has_fault_line job.now)) }
    {
        let parsed = Parsed::one_by_one(alloc, key, job)?;
        let includes = read_files(alloc, job, &parsed, lines);
        Lookup::of(alloc, job, key, parsed, includes, lines)
    }

    /// The same by a crew, which shares the work where files and tables are long, or many lines at fault.
    pub fn read_by<G: Gate, R: Threads + Sync, K: KeptFindings + Send + Drop>(
        crew: &Crew<G, R>,
        job: &Job,
        lines: &mut FindingLines<K>,
    ) -> Result<Lookup, AllocError>
        requires job { IsReadable job.now }
        ensures tables { IfOk result (λ lookup. lookup.tables ≡ directory_of job.now) }
        ensures router { IfOk result (λ lookup. lookup.router ≡ routing_of job.now) }
        ensures lines { OnOk result (ReportsWhere lines.old lines.new (has_fault_line job.now)) }
    {
        let shares = crew.of_shares();
        let parsed = Parsed::by_crew(&shares, crew.options.key, job)?;
        let includes = read_files_by(&shares, job, &parsed, lines);
        Lookup::of(crew.alloc, job, crew.options.key, parsed, includes, lines)
    }
}
