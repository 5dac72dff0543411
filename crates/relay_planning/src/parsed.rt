//! What each of a job's files and tables says, before they are joined.
use relay_aliasfile::{AliasFile, MailboxFile};
use relay_routes::{MxTable, TransportTable};

/// The alias file, the mailbox file and both tables of a job. Its include files aren't here: each is parsed where its faults are reported.
#[derive(Drop)]
pub(crate) struct Parsed {
    pub(crate) aliases: AliasFile,
    pub(crate) mailboxes: MailboxFile,
    pub(crate) transports: TransportTable,
    pub(crate) exchanges: MxTable,
}

ghost use Rattle.std.specs.Prelude.{◌≡◌, Ok, IfOk};
ghost use Rattle.std.specs.Thread.{IsSync};
ghost use Rattle.relay_aliasfile.specs.AliasFiles.{alias_file_of};
ghost use Rattle.relay_aliasfile.specs.MailboxFiles.{mailbox_file_of};
ghost use Rattle.relay_routes.specs.Transports.{transport_table_of};
ghost use Rattle.relay_routes.specs.Exchanges.{mx_table_of};
ghost use Rattle.relay_planning.specs.Parsed.{AreParsed};

use crate::both::{beside, both_of};
use relay_aliasfile::{parse_aliases, parse_aliases_by, parse_mailboxes, parse_mailboxes_by};
use relay_chains::TextKey;
use relay_job::Job;
use relay_sharing::Crew;
use std::alloc::{AllocError, Global};
use std::thread::{Threads, join};

// From so many bytes on a text is long: starting a thread takes as long as parsing some kilobytes, a small part of this.
const LONG_TEXT: usize = 65_536;

/// Both files of names, each by all of a crew.
fn name_files<R: Threads + Sync>(
    crew: &Crew<'_, R>,
    aliases: &[u8],
    mailboxes: &[u8],
) -> Result<(AliasFile, MailboxFile), AllocError>
    ensures { IfOk result (λ files. (files.0 ≡ alias_file_of aliases.now) × (files.1 ≡ mailbox_file_of mailboxes.now)) }
{
    let aliases = parse_aliases_by(crew.rt, crew.alloc, crew.workers, aliases)?;
    let mailboxes = parse_mailboxes_by(crew.rt, crew.alloc, crew.workers, mailboxes);
    beside(aliases, mailboxes)
}

/// Both files of names, one after the other.
fn name_files_in_turn(
    alloc: Global,
    aliases: &[u8],
    mailboxes: &[u8],
) -> Result<(AliasFile, MailboxFile), AllocError>
    ensures { IfOk result (λ files. (files.0 ≡ alias_file_of aliases.now) × (files.1 ≡ mailbox_file_of mailboxes.now)) }
{
    let aliases = parse_aliases(alloc, aliases)?;
    beside(aliases, parse_mailboxes(alloc, mailboxes))
}

/// Both tables of routes, one after the other.
fn route_tables_in_turn(
    alloc: Global,
    key: TextKey,
    transport: &[u8],
    mx: &[u8],
) -> Result<(TransportTable, MxTable), AllocError>
    ensures { IfOk result (λ tables. (tables.0 ≡ transport_table_of transport.now) × (tables.1 ≡ mx_table_of mx.now)) }
{
    let transports = TransportTable::parse(alloc, key, transport)?;
    beside(transports, MxTable::parse(alloc, key, mx))
}

/// Both tables of routes, one after the other, each by all of a crew.
fn route_tables_by_all<R: Threads + Sync>(
    crew: &Crew<'_, R>,
    key: TextKey,
    transport: &[u8],
    mx: &[u8],
) -> Result<(TransportTable, MxTable), AllocError>
    ensures { IfOk result (λ tables. (tables.0 ≡ transport_table_of transport.now) × (tables.1 ≡ mx_table_of mx.now)) }
{
    let Crew { rt, alloc, workers } = *crew;
    let transports = TransportTable::parse_by(rt, alloc, key, workers, transport)?;
    beside(transports, MxTable::parse_by(rt, alloc, key, workers, mx))
}

/// Both tables of routes, each by half of a crew; the table of exchangers in a new thread.
fn route_tables_by_halves<R: Threads + Sync>(
    crew: &Crew<'_, R>,
    key: TextKey,
    transport: &[u8],
    mx: &[u8],
) -> Result<(TransportTable, MxTable), AllocError>
    ensures { IfOk result (λ tables. (tables.0 ≡ transport_table_of transport.now) × (tables.1 ≡ mx_table_of mx.now)) }
{
    let Crew { rt, alloc, workers } = *crew;
    let half = workers / 2;
    let others = workers - half;
    let (there, here) = join(
        rt,
        || -> Result<MxTable, AllocError>
            requires { IsSync R.row }
            ensures { IfOk result (λ table. table ≡ mx_table_of mx.entry.now) }
        { MxTable::parse_by(rt, alloc, key, half, mx) },
        || -> Result<TransportTable, AllocError>
            requires { IsSync R.row }
            ensures { IfOk result (λ table. table ≡ transport_table_of transport.entry.now) }
        { TransportTable::parse_by(rt, alloc, key, others, transport) },
    );
    both_of(here, there)
}

/// Both tables of routes by a crew: side by side where both are long, since one thread alone links the lines of a table.
fn route_tables<R: Threads + Sync>(
    crew: &Crew<'_, R>,
    key: TextKey,
    transport: &[u8],
    mx: &[u8],
) -> Result<(TransportTable, MxTable), AllocError>
    ensures { IfOk result (λ tables. (tables.0 ≡ transport_table_of transport.now) × (tables.1 ≡ mx_table_of mx.now)) }
{
    if crew.workers >= 2 && transport.len().min(mx.len()) >= LONG_TEXT {
        route_tables_by_halves(crew, key, transport, mx)
    } else {
        route_tables_by_all(crew, key, transport, mx)
    }
}

impl Parsed {
    /// What was parsed of a job's files and tables.
    fn of_both(
        both: Result<((AliasFile, MailboxFile), (TransportTable, MxTable)), AllocError>,
    ) -> Result<Parsed, AllocError>
        ensures { IfOk result (λ parsed. both ≡ Ok ((parsed.aliases, parsed.mailboxes), (parsed.transports, parsed.exchanges))) }
    {
        let ((aliases, mailboxes), (transports, exchanges)) = both?;
        Ok(Parsed {
            aliases,
            mailboxes,
            transports,
            exchanges,
        })
    }

    /// Parses one text after another; the tables' texts are hashed under the key. `Err` where memory runs out.
    pub(crate) fn one_by_one(alloc: Global, key: TextKey, job: &Job) -> Result<Parsed, AllocError>
        ensures { IfOk result (AreParsed job.now) }
    {
        let aliases = job.aliases.as_bytes();
        let mailboxes = job.mailboxes.as_bytes();
        let mx = job.mx.as_bytes();
        let files = name_files_in_turn(alloc, aliases, mailboxes)?;
        let tables = route_tables_in_turn(alloc, key, job.transport.as_bytes(), mx);
        Parsed::of_both(beside(files, tables))
    }

    /// Parses the files of names and then the tables of routes, all by a crew. `Err` where memory runs out.
    pub(crate) fn by_crew<R: Threads + Sync>(
        crew: &Crew<'_, R>,
        key: TextKey,
        job: &Job,
    ) -> Result<Parsed, AllocError>
        ensures { IfOk result (AreParsed job.now) }
    {
        let aliases = job.aliases.as_bytes();
        let mailboxes = job.mailboxes.as_bytes();
        let transport = job.transport.as_bytes();
        let mx = job.mx.as_bytes();
        let files = name_files(crew, aliases, mailboxes)?;
        Parsed::of_both(beside(files, route_tables(crew, key, transport, mx)))
    }
}
