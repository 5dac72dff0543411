//! What the next steps of a trail will read, read for many steps at once.
//!
//! The nodes of a trail lie apart in memory, and so do their entries and lines. A step waits for each of them, one after another. Read by
//! themselves for a block of steps, with little between, they are waited for at the same time, and the steps find them at hand.
ghost use Rattle.std.specs.Prelude.{◌<◌, length, All};

use crate::grounds::Grounds;
use relay_tables::Node;
use std::alloc::AllocError;

/// So many steps are a block: what they read has room in a processor's own cache.
pub(crate) const BLOCK: usize = 256;

// The likely place of the line of the entry of a number. Each entry has a line, so as many lines stand before its own as entries before
// it, and at most as many more as there are lines without an entry. The lengths are read as well: the texts are what the step is made of.
fn likely_line(grounds: &Grounds<'_>, number: usize) -> usize {
    let aliases = grounds.basis.lookup.tables.aliases();
    let lines = grounds.alias_lines;
    let Some(entry) = aliases.get(number) else {
        return 0;
    };
    let start = number.min(lines.len());
    let spare = lines.len().saturating_sub(aliases.len());
    let end = start + spare.min(lines.len() - start);
    let near = &lines[start..lines.len().min(end + 1)];
    match near.binary_search_by_key(&entry.line, |line| line.number) {
        Ok(place) if near[place].text.len() > entry.name.len() => start + place,
        _ => 0,
    }
}

// The numbers of the entries that the first nodes are, 0 where one is none.
fn entry_numbers(
    grounds: &Grounds<'_>,
    nodes: &[u32],
    numbers: &mut Vec<usize>,
) -> Result<(), AllocError>
    requires { All (λ n. n < length grounds.now.basis.now.graph.nodes) nodes.now }
{
    numbers.clear();
    for node in nodes.iter().take(BLOCK) {
        let number = match grounds.basis.graph.node(*node) {
            Node::Alias(number) => *number as usize,
            _ => 0,
        };
        numbers.push(number)?;
    }
    Ok(())
}

/// The likely places of the lines of the first nodes, of at most a block.
pub(crate) fn places_ahead(
    grounds: &Grounds<'_>,
    nodes: &[u32],
    places: &mut Vec<usize>,
) -> Result<(), AllocError>
    requires { All (λ n. n < length grounds.now.basis.now.graph.nodes) nodes.now }
{
    entry_numbers(grounds, nodes, places)?;
    for place in places.iter_mut() {
        *place = likely_line(grounds, *place);
    }
    Ok(())
}
