//! The lines of an answer in the form that is asked for. `Err` where memory runs out; then some front of what was to come stands behind
//! what was there.
ghost use Rattle.std.specs.Prelude.{◌≡◌, ◌++◌, OnOk};
ghost use Rattle.relay_wire.specs.PlanText.{line};
ghost use Rattle.relay_envelopes.specs.EachText.{envelope_line, refusal_line};
ghost use Rattle.relay_planning.specs.Written.{text_in};
ghost use Rattle.aliasplan.specs.Returns.{returned_text_in};
ghost use Rattle.aliasplan_each.specs.Forms.{tables_text_in, planned_text_in, refused_text_in, returned_block_in, done_text_in};

use aliasplan::{Form, Returned};
use relay_envelopes::{
    EnvelopeCounts, Refusal, put_done_json, put_envelope, put_planned_json, put_refusal,
    put_refused_json, put_tables_json,
};
use relay_returns::put_returned_json_members;
use relay_text::Text;
use relay_wire::{Plan, put_json_key, put_json_string};
use std::alloc::{AllocError, Global};

/// Puts the findings of files and tables at the end.
pub(crate) fn put_tables(form: Form, findings: &[Text], out: &mut Vec<u8>) -> Result<(), AllocError>
    ensures { OnOk result (out.new.items ≡ out.old.items ++ tables_text_in form findings.now) }
{
    match form {
        Form::Plan | Form::Wire => relay_envelopes::put_tables(findings, out),
        Form::Json => put_tables_json(findings, out),
    }
}

// Puts the line of an envelope and its plan.
fn put_plan_lines(
    alloc: Global,
    form: Form,
    id: &[u8],
    plan: &Plan,
    out: &mut Vec<u8>,
) -> Result<(), AllocError>
    ensures { OnOk result (out.new.items ≡ out.old.items ++ (line (envelope_line id.now) ++ text_in form plan.now)) }
{
    put_envelope(id, out)?;
    let text = form.text_of(alloc, plan)?;
    let added = out.extend_from_slice(text.as_bytes());
    drop(text);
    added?;
    Ok(())
}

/// Puts an envelope with its plan at the end.
pub(crate) fn put_planned(
    alloc: Global,
    form: Form,
    id: &[u8],
    plan: &Plan,
    out: &mut Vec<u8>,
) -> Result<(), AllocError>
    ensures { OnOk result (out.new.items ≡ out.old.items ++ planned_text_in form id.now plan.now) }
{
    match form {
        Form::Plan | Form::Wire => put_plan_lines(alloc, form, id, plan, out),
        Form::Json => put_planned_json(alloc, id, plan, out),
    }
}

// Puts the line of an envelope and its plan with returns.
fn put_returned_lines(
    alloc: Global,
    form: Form,
    id: &[u8],
    returned: &Returned,
    out: &mut Vec<u8>,
) -> Result<(), AllocError>
    ensures { OnOk result (out.new.items ≡ out.old.items ++ (line (envelope_line id.now) ++ returned_text_in form returned.now.plan returned.now.returns)) }
{
    put_envelope(id, out)?;
    let text = returned.text_of(alloc, form)?;
    let added = out.extend_from_slice(text.as_bytes());
    drop(text);
    added?;
    Ok(())
}

// Puts the object of an envelope with its plan and returns.
fn put_returned_json(
    alloc: Global,
    id: &[u8],
    returned: &Returned,
    out: &mut Vec<u8>,
) -> Result<(), AllocError>
    ensures { OnOk result (out.new.items ≡ out.old.items ++ returned_block_in Form.Json id.now returned.now.plan returned.now.returns) }
{
    put_json_key(b'{', b"envelope", out)?;
    put_json_string(id, out)?;
    out.push(b',')?;
    put_returned_json_members(alloc, &returned.plan, returned.returns.as_slice(), out)?;
    out.extend_from_slice(b"}\n")
}

/// Puts an envelope with its plan and its returns at the end.
pub(crate) fn put_returned(
    alloc: Global,
    form: Form,
    id: &[u8],
    returned: &Returned,
    out: &mut Vec<u8>,
) -> Result<(), AllocError>
    ensures { OnOk result (out.new.items ≡ out.old.items ++ returned_block_in form id.now returned.now.plan returned.now.returns) }
{
    match form {
        Form::Plan | Form::Wire => put_returned_lines(alloc, form, id, returned, out),
        Form::Json => put_returned_json(alloc, id, returned, out),
    }
}

// Puts the line of an envelope and that of its refusal.
fn put_refused_lines(id: &[u8], refusal: Refusal, out: &mut Vec<u8>) -> Result<(), AllocError>
    ensures { OnOk result (out.new.items ≡ out.old.items ++ (line (envelope_line id.now) ++ line (refusal_line refusal))) }
{
    put_envelope(id, out)?;
    put_refusal(refusal, out)
}

/// Puts an envelope that is refused at the end.
pub(crate) fn put_refused(
    form: Form,
    id: &[u8],
    refusal: Refusal,
    out: &mut Vec<u8>,
) -> Result<(), AllocError>
    ensures { OnOk result (out.new.items ≡ out.old.items ++ refused_text_in form id.now refusal) }
{
    match form {
        Form::Plan | Form::Wire => put_refused_lines(id, refusal, out),
        Form::Json => put_refused_json(id, refusal, out),
    }
}

/// Puts the last line at the end.
pub(crate) fn put_done(
    form: Form,
    counts: &EnvelopeCounts,
    out: &mut Vec<u8>,
) -> Result<(), AllocError>
    ensures { OnOk result (out.new.items ≡ out.old.items ++ done_text_in form counts.now) }
{
    match form {
        Form::Plan | Form::Wire => relay_envelopes::put_done(counts, out),
        Form::Json => put_done_json(counts, out),
    }
}
