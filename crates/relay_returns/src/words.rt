//! The lines of blocks, written.
ghost use Rattle.std.specs.Prelude.{◌≡◌, ◌++◌, OnOk};
ghost use Rattle.relay_wire.specs.PlanText.{line};
ghost use Rattle.relay_returns.specs.Returns.{block_text, blocks_text, number_line};

use crate::block::Return;
use relay_text::write_path;
use relay_wire::{put_lines, put_number};
use std::alloc::AllocError;

// Writes the line of a block's number.
fn put_number_line(number: usize, out: &mut Vec<u8>) -> Result<(), AllocError>
    ensures { OnOk result (out.new.items ≡ out.old.items ++ line (number_line number)) }
{
    out.extend_from_slice(b"return")?;
    put_number(number, out)?;
    out.push(b'\n')?;
    Ok(())
}

// Writes a block.
fn put_block(number: usize, block: &Return, out: &mut Vec<u8>) -> Result<(), AllocError>
    ensures { OnOk result (out.new.items ≡ out.old.items ++ block_text number block.now) }
{
    put_number_line(number, out)?;
    out.extend_from_slice(b"from ")?;
    write_path(block.sender.as_ref(), out)?;
    out.push(b'\n')?;
    put_lines(block.lines.as_slice(), out)
}

/// Writes the blocks, numbered from 1.
pub(crate) fn put_blocks(returns: &[Return], out: &mut Vec<u8>) -> Result<(), AllocError>
    ensures { OnOk result (out.new.items ≡ out.old.items ++ blocks_text returns.now) }
{
    for (index, block) in returns.iter().enumerate() {
        put_block(index + 1, block, out)?;
    }
    Ok(())
}
