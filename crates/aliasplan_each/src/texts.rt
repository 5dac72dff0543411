//! The texts of envelopes' plans.
ghost use Rattle.std.specs.Prelude.{◌≡◌, true, false, IfOk, IfErr};
ghost use Rattle.relay_job.specs.JobAnswers.{Answers};
ghost use Rattle.relay_envelopes.specs.Envelopes.{section_in};
ghost use Rattle.aliasplan_each.specs.Blocks.{section_envelope, IsPlanned, IsPlannedWith, IsReturned, IsSectionFault};

use crate::forms::{put_planned, put_returned};
use crate::wording::Wording;
use aliasplan::{Crew, Envelope, Form, Gate, Plan, Planner, Returned, RunFault};
use relay_envelopes::EnvelopeSection;
use relay_job::parse_envelope;
use std::alloc::{AllocError, Global};
use std::thread::Threads;

/// The block of an envelope that is planned, and how many findings its plan has.
#[derive(Drop)]
pub(crate) struct PlannedText {
    pub(crate) text: Vec<u8>,
    pub(crate) findings: usize,
}

impl PlannedText {
    ghost use Rattle.std.specs.Prelude.{◌≡◌, length, IfOk};
    ghost use Rattle.aliasplan_each.specs.Forms.{planned_text_in, returned_block_in};

    fn of_plan(alloc: Global, form: Form, id: &[u8], plan: &Plan) -> Result<PlannedText, AllocError>
        ensures text { IfOk result (λ it. it.text.items ≡ planned_text_in form id.now plan.now) }
        ensures findings { IfOk result (λ it. it.findings ≡ length plan.now.findings) }
    {
        let mut text = Vec::new(alloc);
        put_planned(alloc, form, id, plan, &mut text)?;
        let findings = plan.findings.as_slice().len();
        Ok(PlannedText { text, findings })
    }

    fn of_returned(
        alloc: Global,
        form: Form,
        id: &[u8],
        returned: &Returned,
    ) -> Result<PlannedText, AllocError>
        ensures text { IfOk result (λ it. it.text.items ≡ returned_block_in form id.now returned.now.plan returned.now.returns) }
        ensures findings { IfOk result (λ it. it.findings ≡ length returned.now.plan.findings) }
    {
        let mut text = Vec::new(alloc);
        put_returned(alloc, form, id, returned, &mut text)?;
        let findings = returned.plan.findings.as_slice().len();
        Ok(PlannedText { text, findings })
    }
}

// The envelope of a section, or what is wrong with the section.
fn envelope_of<G: Gate, R: Threads + Sync>(
    crew: &Crew<G, R>,
    planner: &Planner,
    section: EnvelopeSection<'_>,
) -> Result<Envelope, RunFault>
    ensures { Answers result (section_envelope crew.now.limits planner.now (section_in section.entry)) }
{
    if section.bytes.len() > crew.limits.bytes {
        return Err(RunFault::TooLong);
    }
    let origin = planner.settings().origin.as_bytes();
    parse_envelope(crew.alloc, section.bytes, origin)
}

// The text of an envelope's plan by the tables, or what is wrong with the envelope.
fn plan_text<G: Gate, R: Threads + Sync>(
    crew: &Crew<G, R>,
    form: Form,
    planner: &Planner,
    section: EnvelopeSection<'_>,
) -> Result<PlannedText, RunFault>
    ensures planned { IfOk result (λ it. IsPlanned crew.now.limits form planner.now (section_in section.entry) it.text.items it.findings) }
    ensures refused { IfErr result (IsSectionFault crew.now.limits false planner.now (section_in section.entry)) }
{
    let envelope = envelope_of(crew, planner, section)?;
    let plan = planner.plan(crew, &envelope);
    drop(envelope);
    let plan = plan?;
    let written = PlannedText::of_plan(crew.alloc, form, section.id, &plan);
    drop(plan);
    let written = written?;
    Ok(written)
}

// The same, with what is returned to which sender.
fn returned_text<G: Gate, R: Threads + Sync>(
    crew: &Crew<G, R>,
    form: Form,
    planner: &Planner,
    section: EnvelopeSection<'_>,
) -> Result<PlannedText, RunFault>
    ensures planned { IfOk result (λ it. IsReturned crew.now.limits form planner.now (section_in section.entry) it.text.items it.findings) }
    ensures refused { IfErr result (IsSectionFault crew.now.limits true planner.now (section_in section.entry)) }
{
    let envelope = envelope_of(crew, planner, section)?;
    let returned = planner.returns(crew, &envelope);
    drop(envelope);
    let returned = returned?;
    let written = PlannedText::of_returned(crew.alloc, form, section.id, &returned);
    drop(returned);
    let written = written?;
    Ok(written)
}

/// The text of an envelope's plan by the tables, in this wording, or what is wrong with the envelope.
pub(crate) fn planned_text<G: Gate, R: Threads + Sync>(
    crew: &Crew<G, R>,
    wording: Wording,
    planner: &Planner,
    section: EnvelopeSection<'_>,
) -> Result<PlannedText, RunFault>
    ensures planned { IfOk result (λ it. IsPlannedWith crew.now.limits wording.form planner.now wording.returns (section_in section.entry) it.text.items it.findings) }
    ensures refused { IfErr result (IsSectionFault crew.now.limits wording.returns planner.now (section_in section.entry)) }
{
    let Wording { form, returns } = wording;
    if returns {
        returned_text(crew, form, planner, section)
    } else {
        plan_text(crew, form, planner, section)
    }
}
