//! What nodes are to a reader of an explanation.
ghost use Rattle.std.specs.Prelude.{◌≡◌, Some, IsSome, IfOk, IfSome};
ghost use Rattle.relay_tables.specs.declared.node.Node as nodes;
ghost use Rattle.relay_tables.specs.Directory.{Directory};
ghost use Rattle.relay_explain.specs.declared.entry.Entry.TheVariants as entries;
ghost use Rattle.relay_explain.specs.declared.target.Target.TheVariants as targets;
ghost use Rattle.aliasplan_explain.specs.Targets.{entry_at, target_at};

use relay_explain::{Entry, Target};
use relay_tables::{Node, Tables};
use relay_text::Text;
use std::alloc::{AllocError, Global};

/// The entry by its name, or the include file by its path, that a node is.
pub(crate) fn entry_of(
    alloc: Global,
    tables: &Tables,
    node: &Node,
) -> Result<Option<Entry>, AllocError>
    ensures { IfOk result (λ entry. entry ≡ entry_at tables.now node.now) }
{
    match node {
        Node::Alias(number) => match tables.aliases().get(*number as usize) {
            Some(entry) => {
                let name = Text::copy_of(alloc, entry.name.as_bytes())?;
                Ok(Some(Entry::Alias(name)))
            }
            None => Ok(None),
        },
        Node::Include(number) => match tables.includes().get(*number as usize) {
            Some(entry) => {
                let path = Text::copy_of(alloc, entry.path.as_bytes())?;
                Ok(Some(Entry::Include(path)))
            }
            None => Ok(None),
        },
        _ => Ok(None),
    }
}

/// The name of the alias that a node is, in place; `None` where it is none.
pub(crate) fn alias_name<'a>(tables: &'a Tables, node: &Node) -> Option<&'a [u8]>
    ensures { IfSome result (λ name. (entry_at tables.now node.now ≡ Some (entries.Alias name.now)) × (target_at tables.now node.now ≡ Some (targets.Alias name.now))) }
{
    let Node::Alias(number) = node else {
        return None;
    };
    match tables.aliases().get(*number as usize) {
        Some(entry) => Some(entry.name.as_bytes()),
        None => None,
    }
}

// The target that an entry or an include file is.
fn target_of_entry(entry: Entry) -> Target
    ensures { (d : Directory) (node : nodes.Node) → entry_at d node ≡ Some entry → target_at d node ≡ Some result }
{
    match entry {
        Entry::Alias(name) => Target::Alias(name),
        Entry::Include(path) => Target::Include(path),
    }
}

/// The target that a node is.
pub(crate) fn target_of(alloc: Global, tables: &Tables, node: &Node) -> Result<Target, AllocError>
    requires { IsSome (target_at tables.now node.now) }
    ensures { IfOk result (λ target. target_at tables.now node.now ≡ Some target) }
{
    match node {
        Node::Alias(_) | Node::Include(_) => match entry_of(alloc, tables, node)? {
            Some(entry) => Ok(target_of_entry(entry)),
            None => unreachable!(),
        },
        Node::Mailbox(address) | Node::Remote(address) => Ok(Target::To(address.copy(alloc)?)),
        Node::Missing(name) => Ok(Target::Missing(Text::copy_of(alloc, name.as_bytes())?)),
        Node::NoInclude(path) => Ok(Target::NoInclude(Text::copy_of(alloc, path.as_bytes())?)),
        Node::Command(text) => Ok(Target::Command(Text::copy_of(alloc, text.as_bytes())?)),
        Node::File(path) => Ok(Target::File(Text::copy_of(alloc, path.as_bytes())?)),
    }
}
