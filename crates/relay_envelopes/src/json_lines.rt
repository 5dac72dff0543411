//! The lines of an answer to many envelopes as JSON objects. `Err` where memory runs out; then some front of what was to come stands behind
//! what was there.
ghost use Rattle.std.specs.Prelude.{◌≡◌, ◌∷◌, ◌++◌, [], codes, OnOk};
ghost use Rattle.relay_wire.specs.Json.{json_object};
ghost use Rattle.relay_envelopes.specs.EachJson.{counts_json, done_json, line_end, number_member, pair_begun, pair_json, planned_json, refused_json, tables_json};

use crate::counts::EnvelopeCounts;
use crate::refusal::Refusal;
use relay_text::Text;
use relay_wire::{
    Plan, put_json_findings, put_json_key, put_json_members, put_json_number, put_json_string,
};
use std::alloc::{AllocError, Global};

/// Puts the beginning of an object at the end: two members that are strings.
pub fn put_json_pair(
    name: &[u8],
    text: &[u8],
    reason: &[u8],
    words: &[u8],
    out: &mut Vec<u8>,
) -> Result<(), AllocError>
    ensures { OnOk result (out.new.items ≡ out.old.items ++ pair_begun name.now text.now reason.now words.now) }
{
    put_json_key(b'{', name, out)?;
    put_json_string(text, out)?;
    put_json_key(b',', reason, out)?;
    put_json_string(words, out)
}

/// Puts the end of an object and of its line at the end.
pub fn put_json_end(out: &mut Vec<u8>) -> Result<(), AllocError>
    ensures { OnOk result (out.new.items ≡ out.old.items ++ codes "}\n") }
{
    out.push(b'}')?;
    out.push(b'\n')?;
    Ok(())
}

/// The same, and before it the number of a line at fault as the last member.
pub fn put_json_line_end(number: usize, out: &mut Vec<u8>) -> Result<(), AllocError>
    ensures { OnOk result (out.new.items ≡ out.old.items ++ line_end number) }
{
    put_json_key(b',', b"line", out)?;
    put_json_number(number, out)?;
    put_json_end(out)
}

// Puts the object of an envelope that is refused for no line of its own.
fn put_reason(id: &[u8], words: &[u8], out: &mut Vec<u8>) -> Result<(), AllocError>
    ensures { OnOk result (out.new.items ≡ out.old.items ++ pair_json (codes "envelope") id.now (codes "refused") words.now) }
{
    put_json_pair(b"envelope", id, b"refused", words, out)?;
    put_json_end(out)
}

// Puts the object of an envelope that is refused for a line of its own.
fn put_bad_envelope(id: &[u8], number: usize, out: &mut Vec<u8>) -> Result<(), AllocError>
    ensures { OnOk result (out.new.items ≡ out.old.items ++ refused_json id.now (Refusal.BadEnvelope number)) }
{
    put_json_pair(b"envelope", id, b"refused", b"bad envelope", out)?;
    put_json_line_end(number, out)
}

/// Puts the object of a refused envelope at the end.
pub fn put_refused_json(id: &[u8], refusal: Refusal, out: &mut Vec<u8>) -> Result<(), AllocError>
    ensures { OnOk result (out.new.items ≡ out.old.items ++ refused_json id.now refusal) }
{
    match refusal {
        Refusal::BadEnvelope(number) => put_bad_envelope(id, number, out),
        Refusal::TooManyNames => put_reason(id, b"too many names", out),
        Refusal::TooManyOwners => put_reason(id, b"too many owners", out),
        Refusal::TooManyPairs => put_reason(id, b"too many pairs", out),
        Refusal::TooLong => put_reason(id, b"too long", out),
    }
}

/// Puts the object of an envelope with its plan at the end.
pub fn put_planned_json(
    alloc: Global,
    id: &[u8],
    plan: &Plan,
    out: &mut Vec<u8>,
) -> Result<(), AllocError>
    ensures { OnOk result (out.new.items ≡ out.old.items ++ planned_json id.now plan.now) }
{
    put_json_key(b'{', b"envelope", out)?;
    put_json_string(id, out)?;
    out.push(b',')?;
    put_json_members(alloc, plan, out)?;
    put_json_end(out)
}

// Puts the object of how many findings files and tables have.
fn put_findings_count(findings: usize, out: &mut Vec<u8>) -> Result<(), AllocError>
    ensures { OnOk result (out.new.items ≡ out.old.items ++ json_object (number_member (codes "findings") findings ∷ [])) }
{
    put_json_key(b'{', b"findings", out)?;
    put_json_number(findings, out)?;
    out.push(b'}')?;
    Ok(())
}

/// Puts the first object of an answer at the end: how many findings the files and tables have, and their words.
pub fn put_tables_json(findings: &[Text], out: &mut Vec<u8>) -> Result<(), AllocError>
    ensures { OnOk result (out.new.items ≡ out.old.items ++ tables_json findings.now) }
{
    put_json_key(b'{', b"tables", out)?;
    put_findings_count(findings.len(), out)?;
    out.push(b',')?;
    put_json_findings(findings, out)?;
    put_json_end(out)
}

// Puts the object of what became of the envelopes.
fn put_counts(counts: &EnvelopeCounts, out: &mut Vec<u8>) -> Result<(), AllocError>
    ensures { OnOk result (out.new.items ≡ out.old.items ++ json_object (counts_json counts.now)) }
{
    put_json_key(b'{', b"envelopes", out)?;
    put_json_number(counts.envelopes, out)?;
    put_json_key(b',', b"planned", out)?;
    put_json_number(counts.planned, out)?;
    put_json_key(b',', b"refused", out)?;
    put_json_number(counts.refused, out)?;
    put_json_key(b',', b"findings", out)?;
    put_json_number(counts.findings, out)?;
    out.push(b'}')?;
    Ok(())
}

/// Puts the last object of an answer at the end, without which the answer was cut off.
pub fn put_done_json(counts: &EnvelopeCounts, out: &mut Vec<u8>) -> Result<(), AllocError>
    ensures { OnOk result (out.new.items ≡ out.old.items ++ done_json counts.now) }
{
    put_json_key(b'{', b"done", out)?;
    put_counts(counts, out)?;
    put_json_end(out)
}
