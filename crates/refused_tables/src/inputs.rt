//! Tables, messages and graphs that calls are lent. The origin is `example.org`, names aren't split, and joe has a mailbox.
ghost use Rattle.std.specs.Prelude.{◌≡◌, ◌<◌, ◌-◌, ◌^◌, length, All, IsTrue, IfOk};
ghost use Rattle.std.specs.List.{list_all};
ghost use Rattle.relay_text.specs.Bytes.{folded};
ghost use Rattle.relay_text.specs.Addresses.{is_origin};
ghost use Rattle.relay_tables.specs.Parts.{is_good_entry};

use crate::lending::of_both;
use growth_answers::inputs::address;
use growth_answers::{Unready, both};
use relay_aliasfile::{AliasFile, MailboxFile, parse_aliases, parse_mailboxes};
use relay_tables::{Graph, Local, Tables, parsed_files};
use relay_text::{Address, Seq, Text};
use std::alloc::Global;

/// A list in a list, of which the inner one has an owner.
pub(crate) const OWNED: &[u8] =
    b"outer: inner, kim@example.net\ninner: kim@example.net, lee@example.net\nowner-inner: joe\n";

/// The same where the owner's name and what it stands for are longer than lies in a value.
pub(crate) const LONG_OWNED: &[u8] =
    b"outer: kim@example.net\ninner-alias-with-a-long-name: kim@example.net\nowner-inner-alias-with-a-long-name: local-part-that-does-not-lie-in-the-value-itself\n";

#[tactic(auto, unfolding(relay_text::specs::Addresses::is_origin, relay_text::specs::Addresses::is_domain))]
fn local(alloc: Global, expand: bool) -> Result<Local, Unready>
    ensures origin { IfOk result (λ local. IsTrue (is_origin local.origin)) }
    ensures domains { IfOk result (λ local. All (λ domain. folded domain ≡ domain) local.domains) }
{
    Ok(Local {
        origin: Text::of(Vec::from_slice(alloc, b"example.org")?),
        domains: Seq::of(Vec::new(alloc)),
        delimiter: None,
        expand,
    })
}

/// An alias file, in which each name is good.
fn alias_file(alloc: Global, text: &[u8]) -> Result<AliasFile, Unready>
    ensures entries { IfOk result (λ file. IsTrue (list_all is_good_entry file.entries)) }
    ensures few { IfOk result (λ file. length file.entries < 2 ^ 32 - 2) }
{
    parsed_files();
    let file = parse_aliases(alloc, text)?;
    if file.entries.len() > 1000 {
        return Err(Unready::Wrong);
    }
    Ok(file)
}

/// A mailbox file, which lists joe.
fn mailbox_file(alloc: Global) -> Result<MailboxFile, Unready>
    ensures few { IfOk result (λ file. length file.names < 2 ^ 32 - 2) }
{
    let file = parse_mailboxes(alloc, b"joe\n")?;
    if file.names.len() > 1000 {
        return Err(Unready::Wrong);
    }
    Ok(file)
}

/// What tables are built of beside include files.
#[derive(Drop)]
pub(crate) struct Sources {
    pub local: Local,
    pub aliases: AliasFile,
    pub mailboxes: MailboxFile,
}

pub(crate) fn sources_of(alloc: Global, expand: bool, aliases: &[u8]) -> Result<Sources, Unready>
    ensures origin { IfOk result (λ sources. IsTrue (is_origin sources.local.origin)) }
    ensures domains { IfOk result (λ sources. All (λ domain. folded domain ≡ domain) sources.local.domains) }
    ensures entries { IfOk result (λ sources. IsTrue (list_all is_good_entry sources.aliases.entries)) }
    ensures few_entries { IfOk result (λ sources. length sources.aliases.entries < 2 ^ 32 - 2) }
    ensures few_mailboxes { IfOk result (λ sources. length sources.mailboxes.names < 2 ^ 32 - 2) }
{
    let files = both(mailbox_file(alloc), alias_file(alloc, aliases));
    let (local, (mailboxes, aliases)) = both(local(alloc, expand), files)?;
    Ok(Sources {
        local,
        aliases,
        mailboxes,
    })
}

/// The tables of an alias file without include files.
pub(crate) fn tables(alloc: Global, expand: bool, aliases: &[u8]) -> Result<Tables, Unready> {
    let Sources {
        local,
        aliases,
        mailboxes,
    } = sources_of(alloc, expand, aliases)?;
    let tables = Tables::build(alloc, 0, local, aliases, Vec::new(alloc), mailboxes)?;
    Ok(tables)
}

/// A message from `a@example.com`.
#[derive(Drop)]
pub(crate) struct Message {
    pub sender: Address,
    pub recipients: Vec<Address>,
}

fn recipients(alloc: Global, to: &[u8]) -> Result<Vec<Address>, Unready> {
    let recipients = Vec::from_array(alloc, [address(alloc, to)?])?;
    Ok(recipients)
}

/// A message to this local address.
pub(crate) fn message_to(alloc: Global, to: &[u8]) -> Result<Message, Unready> {
    let sender = address(alloc, b"a@example.com")?;
    let recipients = recipients(alloc, to)?;
    Ok(Message { sender, recipients })
}

fn graph_of(alloc: Global, tables: &Tables, message: &Message) -> Result<Graph, Unready> {
    let graph = Graph::build(
        alloc,
        tables,
        Some(&message.sender),
        &message.recipients,
        1000,
        10,
    )?;
    Ok(graph)
}

/// The graph of an alias file and a message to this local address.
pub(crate) fn graph(alloc: Global, aliases: &[u8], to: &[u8]) -> Result<Graph, Unready> {
    let tables = tables(alloc, false, aliases);
    let message = message_to(alloc, to);
    of_both(
        tables,
        message,
        |tables, message| graph_of(alloc, tables, message),
    )
}
