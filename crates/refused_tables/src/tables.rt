//! Names and owners.
ghost use Rattle.std.specs.Prelude.{◌≡◌, ◌≢◌, ◌<◌, ◌-◌, ◌^◌, length, AllPairs, IsTrue, IfOk};
ghost use Rattle.std.specs.List.{list_all};
ghost use Rattle.relay_tables.specs.Parts.{is_good_include};

use crate::inputs::{LONG_OWNED, OWNED, Sources, sources_of, tables};
use crate::lending::{made, tried};
use growth_answers::inputs::is_address;
use growth_answers::{Answer, Teller, Unready, call, case};
use relay_aliasfile::parse_include;
use relay_tables::{IncludeEntry, Tables, parsed_files};
use relay_text::{Address, Text};
use std::alloc::{AllocError, Global};

/// One include file, `/l`, which lists joe.
fn one_include(alloc: Global) -> Result<Vec<IncludeEntry>, AllocError>
    ensures few { IfOk result (λ includes. length includes.items < 2 ^ 32 - 2) }
    ensures distinct { IfOk result (λ includes. AllPairs (λ a b. a.path ≢ b.path) includes.items) }
    ensures items { IfOk result (λ includes. IsTrue (list_all is_good_include includes.items)) }
{
    parsed_files();
    let items = parse_include(alloc, b"joe\n")?.items;
    let path = Text::of(Vec::from_slice(alloc, b"/l")?);
    let includes = Vec::from_array(alloc, [IncludeEntry { path, items }])?;
    Ok(includes)
}

/// Whether the first alias has no owner, the second has the third as owner, and there is one include file.
fn are_tables(tables: &Tables) -> bool {
    tables.aliases().len() == 3
        && tables.includes().len() == 1
        && tables.owner_of(0).is_none()
        && tables.owner_of(1) == Some(2)
}

fn builds_tables(alloc: Global) -> Result<Answer, Unready> {
    let includes = one_include(alloc)?;
    let Sources {
        local,
        aliases,
        mailboxes,
    } = sources_of(alloc, false, OWNED)?;
    let tables = Tables::build(alloc, 0, local, aliases, includes, mailboxes);
    Ok(made(tables, are_tables))
}

/// What the sender of the second of three aliases, which has an owner, answers.
fn sent(alloc: Global, tables: &Tables, local: &[u8]) -> Answer {
    if tables.aliases().len() != 3 || tables.owner_of(1).is_none() {
        return Answer::Wrong;
    }
    made(tables.owner_sender(alloc, 1), |sender| {
        is_address(sender, local, b"example.org")
    })
}

fn sent_by_owner(alloc: Global, tables: &Tables) -> Answer {
    sent(alloc, tables, b"owner-inner-alias-with-a-long-name")
}

fn sent_expanded(alloc: Global, tables: &Tables) -> Answer {
    sent(
        alloc,
        tables,
        b"local-part-that-does-not-lie-in-the-value-itself",
    )
}

/// Whether these are the aliases of the long file, at the origin.
fn are_aliases(addresses: &Vec<Address>) -> bool {
    match addresses.as_slice() {
        [outer, inner, owner] => {
            is_address(outer, b"outer", b"example.org")
                && is_address(inner, b"inner-alias-with-a-long-name", b"example.org")
                && is_address(owner, b"owner-inner-alias-with-a-long-name", b"example.org")
        }
        _ => false,
    }
}

fn listed(alloc: Global, tables: &Tables) -> Answer {
    made(tables.alias_addresses(alloc), are_aliases)
}

pub(crate) fn tell<R: Print + AllocGlobal>(teller: &mut Teller<'_, R>) {
    let alloc = teller.rt.alloc();
    call!(teller, "Tables::build", builds_tables(alloc));
    case!(
        teller,
        "Tables::owner_sender",
        tried(alloc, tables(alloc, false, LONG_OWNED), sent_by_owner)
    );
    case!(
        teller,
        "Tables::owner_sender, expanded",
        tried(alloc, tables(alloc, true, LONG_OWNED), sent_expanded)
    );
    case!(
        teller,
        "Tables::alias_addresses",
        tried(alloc, tables(alloc, false, LONG_OWNED), listed)
    );
}
