//! The nodes that names, addresses and items lead to.
ghost use Rattle.std.specs.Prelude.{◌≡◌, ◌<◌, ◌∷◌, [], length, slice_get, Some, IfOk, IfSome, IsTrue};
ghost use Rattle.relay_text.specs.Bytes.{folded};
ghost use Rattle.relay_tables.specs.Parts.{is_local_part, is_good_item};
ghost use Rattle.relay_tables.specs.Targets.{address_target, include_number, include_target, item_target, name_target, node_named, resolved};
ghost use Rattle.relay_tables.specs.Numbering.{node_of, Numbers, HasGoodAddress};

use crate::fault::TableFault;
use crate::folded_name::{has_capitals, write_folded};
use crate::lead::Lead;
use crate::numbering::Numbering;
use crate::tables::Tables;
use crate::target::Target;
use relay_aliasfile::Item;
use relay_text::{Address, same_bytes};

// What a folded name leads to in a parent.
fn lead_named<'a>(tables: &'a Tables, name: &'a [u8], parent: Option<u32>) -> Lead<'a>
    requires name { folded name.now ≡ name.now }
    requires local { IsTrue (is_local_part name.now) }
    requires parent { IfSome parent (λ number. number < length tables.now.aliases) }
    ensures lead { node_of result ≡ node_named tables.now name.now (resolved tables.now name.now parent) }
    ensures good { HasGoodAddress (node_of result) }
{
    match tables.resolve(name, parent) {
        Target::Alias(number) => Lead::Alias(number),
        Target::Mailbox => Lead::Mailbox(name, tables.origin()),
        Target::Missing => Lead::Missing(name),
    }
}

// The same of a local address without capitals. Where it is written as its own mailbox is, it is copied in one piece.
fn lead_written<'a>(tables: &'a Tables, address: &'a Address, parent: Option<u32>) -> Lead<'a>
    requires name { folded address.now.local ≡ address.now.local }
    requires parent { IfSome parent (λ number. number < length tables.now.aliases) }
    ensures lead { node_of result ≡ node_named tables.now address.now.local (resolved tables.now address.now.local parent) }
    ensures good { HasGoodAddress (node_of result) }
{
    match lead_named(tables, address.local(), parent) {
        Lead::Mailbox(_, origin) if same_bytes(address.domain(), origin) => Lead::Written(address),
        lead => lead,
    }
}

// What the path of an include item leads to.
fn lead_included<'a>(tables: &Tables, path: &'a [u8]) -> Lead<'a>
    ensures lead { node_of result ≡ include_target tables.now path.now (include_number tables.now path.now) }
    ensures good { HasGoodAddress (node_of result) }
{
    match tables.include_of(path) {
        Some(number) => Lead::Include(number),
        None => Lead::NoInclude(path),
    }
}

// The number of what a local name leads to in a parent; its folded name goes into `name` where that's another.
fn number_name(
    tables: &Tables,
    local: &[u8],
    parent: Option<u32>,
    names: &mut Numbering,
    name: &mut Vec<u8>,
) -> Result<u32, TableFault>
    requires local { IsTrue (is_local_part local.now) }
    requires parent { IfSome parent (λ number. number < length tables.now.aliases) }
    ensures number { IfOk result (λ number. slice_get names.new.nodes number ≡ Some (name_target tables.now parent local.now)) }
    ensures numbers { Numbers names.old (name_target tables.now parent local.now ∷ []) result names.new }
{
    if !has_capitals(local) {
        return names.number(lead_named(tables, local, parent));
    }
    write_folded(local, name)?;
    names.number(lead_named(tables, name, parent))
}

/// The number of what an address leads to in a parent.
#[inline(always)]
pub(crate) fn number_address(
    tables: &Tables,
    address: &Address,
    parent: Option<u32>,
    names: &mut Numbering,
    name: &mut Vec<u8>,
) -> Result<u32, TableFault>
    requires parent { IfSome parent (λ number. number < length tables.now.aliases) }
    ensures number { IfOk result (λ number. slice_get names.new.nodes number ≡ Some (address_target tables.now parent address.now)) }
    ensures numbers { Numbers names.old (address_target tables.now parent address.now ∷ []) result names.new }
{
    let local = address.local();
    if !tables.is_local(address) {
        return names.number(Lead::Remote(address));
    }
    if !has_capitals(local) {
        return names.number(lead_written(tables, address, parent));
    }
    number_name(tables, local, parent, names, name)
}

/// The number of what an item leads to in a parent.
#[inline(always)]
pub(crate) fn number_item(
    tables: &Tables,
    item: &Item,
    parent: Option<u32>,
    names: &mut Numbering,
    name: &mut Vec<u8>,
) -> Result<u32, TableFault>
    requires item { IsTrue (is_good_item item.now) }
    requires parent { IfSome parent (λ number. number < length tables.now.aliases) }
    ensures number { IfOk result (λ number. slice_get names.new.nodes number ≡ Some (item_target tables.now parent item.now)) }
    ensures numbers { Numbers names.old (item_target tables.now parent item.now ∷ []) result names.new }
{
    match item {
        Item::Bare(local) => number_name(tables, local.as_bytes(), parent, names, name),
        Item::Full(address) => number_address(tables, address, parent, names, name),
        Item::Include(path) => names.number(lead_included(tables, path.as_bytes())),
        Item::Command(text) => names.number(Lead::Command(text.as_bytes())),
        Item::File(path) => names.number(Lead::File(path.as_bytes())),
    }
}
