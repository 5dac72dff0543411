//! Plans with blocks as JSON objects.
ghost use Rattle.std.specs.Prelude.{◌≡◌, ◌++◌, map, IfOk, OnOk};
ghost use Rattle.std.specs.List.{enumerate_from};
ghost use Rattle.relay_wire.specs.Json.{with_commas};
ghost use Rattle.relay_returns.specs.Returns.{block_json, returned_json_text_of, returned_members, returns_member};

use crate::block::Return;
use relay_text::Text;
use relay_wire::{
    Plan, put_json_comma, put_json_findings, put_json_front, put_json_key, put_json_number,
    put_json_path, put_json_string, put_json_strings,
};
use std::alloc::{AllocError, Global};

// Puts a block.
fn put_block(
    alloc: Global,
    number: usize,
    block: &Return,
    out: &mut Vec<u8>,
) -> Result<(), AllocError>
    ensures { OnOk result (out.new.items ≡ out.old.items ++ block_json number block.now) }
{
    put_json_key(b'{', b"return", out)?;
    put_json_number(number, out)?;
    put_json_key(b',', b"from", out)?;
    put_json_path(alloc, block.sender.as_ref(), out)?;
    put_json_key(b',', b"lines", out)?;
    put_json_strings(block.lines.as_slice(), out)?;
    out.push(b'}')?;
    Ok(())
}

// Puts blocks, numbered from 1, with commas between them.
fn put_numbered(alloc: Global, returns: &[Return], out: &mut Vec<u8>) -> Result<(), AllocError>
    ensures { OnOk result (out.new.items ≡ out.old.items ++ with_commas (map (λ r. block_json r.0 r.1) (enumerate_from 1 returns.now))) }
{
    for (index, block) in returns.iter().enumerate() {
        put_json_comma(index, out)?;
        put_block(alloc, index + 1, block, out)?;
    }
    Ok(())
}

// Puts the member that has the blocks.
fn put_returns(alloc: Global, returns: &[Return], out: &mut Vec<u8>) -> Result<(), AllocError>
    ensures { OnOk result (out.new.items ≡ out.old.items ++ returns_member returns.now) }
{
    put_json_string(b"returns", out)?;
    out.extend_from_slice(b":[")?;
    put_numbered(alloc, returns, out)?;
    out.push(b']')?;
    Ok(())
}

/// Puts the members of the object of `returned_json_text` at the end, with commas between them. `Err` where memory runs out.
pub fn put_returned_json_members(
    alloc: Global,
    plan: &Plan,
    returns: &[Return],
    out: &mut Vec<u8>,
) -> Result<(), AllocError>
    ensures { OnOk result (out.new.items ≡ out.old.items ++ with_commas (returned_members plan.now returns.now)) }
{
    put_json_front(alloc, plan, out)?;
    out.push(b',')?;
    put_returns(alloc, returns, out)?;
    out.push(b',')?;
    put_json_findings(plan.findings.as_slice(), out)
}

/// The object of `json_text` with the blocks in a member `returns` before `findings`, which is there without any too: of each block its number
/// `return`, the path `from` and the strings `lines`. `Err` where memory runs out.
pub fn returned_json_text(
    alloc: Global,
    plan: &Plan,
    returns: &[Return],
) -> Result<Text, AllocError>
    ensures { IfOk result (λ text. text ≡ returned_json_text_of plan.now returns.now) }
{
    let mut out = Vec::new(alloc);
    out.push(b'{')?;
    put_returned_json_members(alloc, plan, returns, &mut out)?;
    out.extend_from_slice(b"}\n")?;
    Ok(Text::of(out))
}
