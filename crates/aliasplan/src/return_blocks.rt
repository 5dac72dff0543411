//! The blocks of the senders to whom something is returned.
ghost use Rattle.std.specs.Prelude.{◌≡◌, ◌<◌, ◌++◌, All, length, slice_get, Some, option_copied, IfOk, OnOk};
ghost use Rattle.relay_text.specs.TextSets.{text_cmp, IsAscendingBy};
ghost use Rattle.relay_tables.specs.Senders.{Sender};
ghost use Rattle.aliasplan.specs.ReturnLines.{block_of, blocks_from};

use relay_returns::Return;
use relay_tables::Graph;
use relay_text::{Address, TextSet};
use std::alloc::{AllocError, Global};

/// A sender's address of its own.
fn copied(alloc: Global, sender: Option<&Address>) -> Result<Option<Address>, AllocError>
    ensures { IfOk result (λ copy. copy ≡ option_copied sender.entry) }
{
    match sender {
        Some(address) => Ok(Some(address.copy(alloc)?)),
        None => Ok(None),
    }
}

/// Adds the block of a sender's number, where it has lines.
fn add_block(
    alloc: Global,
    graph: &Graph,
    number: u32,
    lines: TextSet,
    blocks: &mut Vec<Return>,
) -> Result<(), AllocError>
    requires { number < length graph.now.senders }
    ensures block { OnOk result ((sender : Sender) → slice_get graph.now.senders number ≡ Some sender → blocks.new.items ≡ blocks.old.items ++ block_of sender lines) }
    ensures ascending { OnOk result (IsAscendingBy text_cmp lines) }
{
    let lines = lines.into_seq(alloc)?;
    if lines.is_empty() {
        return Ok(());
    }
    let sender = copied(alloc, graph.sender(number))?;
    blocks.push(Return { sender, lines })?;
    Ok(())
}

/// The blocks of the senders that have lines, in the order of the senders' numbers.
pub(crate) fn blocks_of(
    alloc: Global,
    graph: &Graph,
    lists: Vec<TextSet>,
) -> Result<Vec<Return>, AllocError>
    requires { length lists.items ≡ length graph.now.senders }
    ensures blocks { IfOk result (λ blocks. blocks.items ≡ blocks_from graph.now.senders lists.items) }
    ensures ascending { OnOk result (All (IsAscendingBy text_cmp) lists.items) }
{
    // For what the call says alone: senders have numbers.
    let _ = graph.nodes();
    let mut blocks = Vec::new(alloc);
    let mut number: usize = 0;
    for lines in lists {
        add_block(alloc, graph, number as u32, lines, &mut blocks)?;
        number += 1;
    }
    Ok(blocks)
}
