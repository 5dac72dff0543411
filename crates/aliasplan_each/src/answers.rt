//! The blocks of envelopes.
ghost use Rattle.std.specs.Prelude.{◌≡◌, Some, IfOk};
ghost use Rattle.aliasplan_each.specs.Blocks.{IsEnvelopeFault, refusal_of};

use crate::forms::put_refused;
use crate::texts::{PlannedText, planned_text};
use crate::wording::Wording;
use aliasplan::{Crew, Form, Gate, Planner, RunFault};
use relay_envelopes::{EnvelopeCounts, EnvelopeSection, Refusal};
use std::alloc::{AllocError, Global};
use std::thread::Threads;

// Why an envelope with a fault is refused. `Err` where memory ran out.
fn refusal_of(fault: RunFault) -> Result<Refusal, AllocError>
    requires { IsEnvelopeFault fault }
    ensures { IfOk result (λ refusal. refusal_of fault ≡ Some refusal) }
{
    match fault {
        RunFault::BadEnvelope(line) => Ok(Refusal::BadEnvelope(line)),
        RunFault::TooManyNames => Ok(Refusal::TooManyNames),
        RunFault::TooManyOwners => Ok(Refusal::TooManyOwners),
        RunFault::TooManyPairs => Ok(Refusal::TooManyPairs),
        RunFault::TooLong => Ok(Refusal::TooLong),
        RunFault::Memory => Err(AllocError),
        RunFault::Read | RunFault::BadJob(_) | RunFault::BadSetting(_) | RunFault::Write =>
            unreachable!(),
    }
}

/// The answer as far as it is made, and what became of the envelopes so far.
#[derive(Drop)]
pub(crate) struct Answers {
    pub(crate) text: Vec<u8>,
    pub(crate) counts: EnvelopeCounts,
}

impl Answers {
    ghost use Rattle.std.specs.Prelude.{◌≡◌, ◌++◌, [], OnOk};
    ghost use Rattle.relay_envelopes.specs.EachText.{with_planned, with_refused};
    ghost use Rattle.relay_envelopes.specs.Envelopes.{section_in};
    ghost use Rattle.aliasplan_each.specs.Blocks.{Grows, no_counts};
    ghost use Rattle.aliasplan_each.specs.Forms.{refused_text_in};

    /// Nothing yet, without taking memory.
    pub(crate) fn none(alloc: Global) -> Answers
        ensures text { result.text.items ≡ [] }
        ensures counts { result.counts ≡ no_counts }
    {
        Answers {
            text: Vec::new(alloc),
            counts: EnvelopeCounts::none(),
        }
    }

    // Adds an envelope with its plan, and counts it.
    fn add_plan(&mut self, planned: PlannedText) -> Result<(), AllocError>
        ensures text { OnOk result (self.new.text.items ≡ self.old.text.items ++ planned.text.items) }
        ensures counts { OnOk result (self.new.counts ≡ with_planned self.old.counts planned.findings) }
    {
        let PlannedText { text, findings } = planned;
        let added = self.text.extend_from_slice(&text);
        drop(text);
        added?;
        self.counts = self.counts.with_planned(findings);
        Ok(())
    }

    // Adds an envelope that is refused, and counts it.
    fn add_refusal(&mut self, form: Form, id: &[u8], refusal: Refusal) -> Result<(), AllocError>
        ensures text { OnOk result (self.new.text.items ≡ self.old.text.items ++ refused_text_in form id.now refusal) }
        ensures counts { OnOk result (self.new.counts ≡ with_refused self.old.counts) }
    {
        put_refused(form, id, refusal, &mut self.text)?;
        self.counts = self.counts.with_refused();
        Ok(())
    }

    /// Adds the block of an envelope: its plan by the tables in this wording, or why it is refused. `Err` where memory runs out.
    pub(crate) fn add<G: Gate, R: Threads + Sync>(
        &mut self,
        crew: &Crew<G, R>,
        wording: Wording,
        planner: &Planner,
        section: EnvelopeSection<'_>,
    ) -> Result<(), AllocError>
        ensures { OnOk result (Grows crew.now.limits wording planner.now (section_in section.entry) self.old.text.items self.new.text.items self.old.counts self.new.counts) }
    {
        match planned_text(crew, wording, planner, section) {
            Ok(planned) => self.add_plan(planned),
            Err(fault) => self.add_refusal(wording.form, section.id, refusal_of(fault)?),
        }
    }
}
