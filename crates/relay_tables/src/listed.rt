//! What an alias or an include file lists.
ghost use Rattle.std.specs.Prelude.{◌≡◌, ◌<◌, ◌+◌, length, map, slice_get, option_map, Some, IfSome, IsTrue};
ghost use Rattle.std.specs.List.{list_all};
ghost use Rattle.relay_tables.specs.declared.node.Node.TheVariants.{Alias, Include};
ghost use Rattle.relay_tables.specs.Parts.{is_good_item};
ghost use Rattle.relay_tables.specs.Targets.{item_target, targets_of};
ghost use Rattle.relay_tables.specs.Graphs.{entry_nodes};

use crate::node::Node;
use crate::tables::Tables;
use relay_aliasfile::Item;

/// Items, and the alias that they stand in.
#[derive(Clone, Copy)]
pub(crate) struct Listed<'a> {
    pub(crate) items: &'a [Item],
    pub(crate) parent: Option<u32>,
}

/// The items of an alias or an include file of the tables; nothing else has any.
pub(crate) fn items_of<'a>(tables: &'a Tables, node: &Node) -> Listed<'a>
    ensures targets { targets_of tables.now node.now ≡ map (item_target tables.now result.parent) result.items.now }
    ensures good { IsTrue (list_all is_good_item result.items.now) }
    ensures parent { IfSome result.parent (λ number. number < length tables.now.aliases) }
{
    match node {
        Node::Alias(number) => alias_list(tables, *number),
        Node::Include(number) => include_list(tables, *number),
        _ => Listed {
            items: &[],
            parent: None,
        },
    }
}

// The items of an alias of the tables.
fn alias_list(tables: &Tables, number: u32) -> Listed<'_>
    ensures targets { targets_of tables.now (Alias number) ≡ map (item_target tables.now result.parent) result.items.now }
    ensures good { IsTrue (list_all is_good_item result.items.now) }
    ensures parent { IfSome result.parent (λ alias. alias < length tables.now.aliases) }
{
    match tables.aliases().get(number as usize) {
        Some(entry) => Listed {
            items: entry.items.as_slice(),
            parent: Some(number),
        },
        None => Listed {
            items: &[],
            parent: None,
        },
    }
}

// The items of an include file of the tables.
fn include_list(tables: &Tables, number: u32) -> Listed<'_>
    ensures targets { targets_of tables.now (Include number) ≡ map (item_target tables.now result.parent) result.items.now }
    ensures good { IsTrue (list_all is_good_item result.items.now) }
    ensures parent { IfSome result.parent (λ alias. alias < length tables.now.aliases) }
{
    match tables.includes().get(number as usize) {
        Some(include) => Listed {
            items: include.items.as_slice(),
            parent: None,
        },
        None => Listed {
            items: &[],
            parent: None,
        },
    }
}

/// How many aliases and include files there are.
pub(crate) fn entry_count(tables: &Tables) -> usize
    ensures { result ≡ length tables.now.aliases + length tables.now.includes }
{
    tables.aliases().len() + tables.includes().len()
}

/// What an entry lists, by its number: that of an alias, or behind all aliases that of an include file.
pub(crate) fn list_of(tables: &Tables, number: usize) -> Listed<'_>
    requires { number < length tables.now.aliases + length tables.now.includes }
    ensures targets { option_map (targets_of tables.now) (slice_get (entry_nodes tables.now) number) ≡ Some (map (item_target tables.now result.parent) result.items.now) }
    ensures good { IsTrue (list_all is_good_item result.items.now) }
    ensures parent { IfSome result.parent (λ number. number < length tables.now.aliases) }
{
    let aliases = tables.aliases().len();
    if number < aliases {
        alias_list(tables, number as u32)
    } else {
        include_list(tables, (number - aliases) as u32)
    }
}
