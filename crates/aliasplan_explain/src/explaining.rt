//! Why an address is in a job's plan, or isn't.
ghost use Rattle.std.specs.Prelude.{◌≡◌, [], ℕ, List, Some, length, IfOk, IfErr, IsSome, OnOk};
ghost use Rattle.relay_text.specs.Bytes.{has_text};
ghost use Rattle.relay_wire.specs.declared.plan.Plan as plans;
ghost use Rattle.relay_job.specs.JobAnswers.{IsJobWithin};
ghost use Rattle.relay_planning.specs.Limits.{IsWithin, IsRefused};
ghost use Rattle.relay_planning.specs.Delivery.{directory_of};
ghost use Rattle.relay_planning.specs.Plans.{IsPlanOf, IsSoundFor};
ghost use Rattle.relay_planning.specs.Texts.{has_fault_line};
ghost use Rattle.aliasplan_explain.specs.Chains.{LeadToAsked};
ghost use Rattle.aliasplan_explain.specs.Decisions.{decision_of};
ghost use Rattle.aliasplan_explain.specs.Grounds.{IsBasisOf, IsReadingOf};
ghost use Rattle.aliasplan_explain.specs.Targets.{stands_for, target_at, IsAskedFor};
ghost use Rattle.aliasplan_explain.specs.Tellings.{AreToldFor, IsTellingOf};
ghost use Rattle.aliasplan_explain.specs.Unreached.{unreached_of};

use crate::asking::stands_for;
use crate::both::with_or_fault;
use crate::chains::Chains;
use crate::deciding::decision_of;
use crate::grounds::Grounds;
use crate::planned::plan_beside;
use crate::reading::Reading;
use crate::targets::target_of;
use crate::telling::told_for;
use crate::unreached::unreached_of;
use aliasplan::{Crew, Gate, Job, RunFault};
use relay_explain::{Asked, Decision, Listed, Target, Telling, Told};
use relay_planning::{JobView, parsed_is_readable};
use relay_tables::Node;
use relay_text::Seq;
use relay_wire::{FindingLines, Plan};
use std::alloc::{AllocError, Global};
use std::thread::Threads;

// Where there are no answers, the items that lead to the node.
fn unreached_beside(
    alloc: Global,
    grounds: &Grounds<'_>,
    node: &Node,
    answers: &Seq<Told>,
) -> Result<Seq<Listed>, AllocError>
    requires { IsBasisOf grounds.now.job.now grounds.now.basis.now }
    ensures none { IfOk result (λ listed. answers.now ≡ [] → listed ≡ unreached_of grounds.now.job.now node.now) }
    ensures some { IfOk result (λ listed. (answers.now ≡ [] → ⊥) → listed ≡ []) }
{
    if answers.is_empty() {
        unreached_of(alloc, grounds, node)
    } else {
        Ok(Seq::of(Vec::new(alloc)))
    }
}

// What the asked name or address stands for as a recipient.
fn recipient_target(
    alloc: Global,
    grounds: &Grounds<'_>,
    asked: &Asked,
) -> Result<Target, AllocError>
    requires { IsBasisOf grounds.now.job.now grounds.now.basis.now }
    ensures { IfOk result (λ target. target_at (directory_of grounds.now.job.now) (stands_for (directory_of grounds.now.job.now) asked.now) ≡ Some target) }
{
    let node = stands_for(alloc, grounds, asked)?;
    target_of(alloc, &grounds.basis.lookup.tables, &node)
}

// The question, and the target that the asked name or address stands for as a recipient.
fn asked_with_target(
    alloc: Global,
    grounds: &Grounds<'_>,
    asked: &Asked,
) -> Result<(Asked, Target), AllocError>
    requires { IsBasisOf grounds.now.job.now grounds.now.basis.now }
    ensures asked { IfOk result (λ both. both.0 ≡ asked.now) }
    ensures stands { IfOk result (λ both. target_at (directory_of grounds.now.job.now) (stands_for (directory_of grounds.now.job.now) asked.now) ≡ Some both.1) }
{
    let copy = asked.copy(alloc)?;
    with_or_fault(copy, recipient_target(alloc, grounds, asked))
}

// The target that a node is, and what decides where it goes.
fn target_with_decision(
    alloc: Global,
    grounds: &Grounds<'_>,
    node: &Node,
) -> Result<(Target, Option<Decision>), AllocError>
    requires made { IsBasisOf grounds.now.job.now grounds.now.basis.now }
    requires target { IsSome (target_at (directory_of grounds.now.job.now) node.now) }
    ensures target { IfOk result (λ both. target_at (directory_of grounds.now.job.now) node.now ≡ Some both.0) }
    ensures decision { IfOk result (λ both. both.1 ≡ decision_of grounds.now.job.now node.now) }
{
    let target = target_of(alloc, &grounds.basis.lookup.tables, node)?;
    with_or_fault(target, decision_of(alloc, grounds, node))
}

// What is told of a node that is asked for, by these answers.
fn telling_by(
    alloc: Global,
    grounds: &Grounds<'_>,
    plan: &Plan,
    asked: &Asked,
    node: &Node,
    answers: Seq<Told>,
) -> Result<Telling, AllocError>
    requires made { IsBasisOf grounds.now.job.now grounds.now.basis.now }
    requires node { IsAskedFor grounds.now.job.now asked.now node.now }
    requires answers { AreToldFor grounds.now.job.now plan.now grounds.now.recipient_lines.now node.now answers }
    ensures { IfOk result (IsTellingOf grounds.now.job.now plan.now grounds.now.recipient_lines.now asked.now) }
{
    let _ = plan;
    let unreached = unreached_beside(alloc, grounds, node, &answers)?;
    let question = asked_with_target(alloc, grounds, asked)?;
    let aim = target_with_decision(alloc, grounds, node)?;
    let (asked, stands_for) = question;
    let (target, decision) = aim;
    Ok(Telling {
        asked,
        target,
        decision,
        answers,
        stands_for,
        unreached,
    })
}

// What is told of the node that chains lead to, by the job's plan.
fn telling_along(
    alloc: Global,
    grounds: &Grounds<'_>,
    plan: &Plan,
    asked: &Asked,
    chains: Chains,
) -> Result<Telling, AllocError>
    requires made { IsBasisOf grounds.now.job.now grounds.now.basis.now }
    requires sound { IsSoundFor grounds.now.job.now plan.now.transactions }
    requires chains { LeadToAsked grounds.now.job.now grounds.now.basis.now.graph grounds.now.recipient_lines.now asked.now chains }
    ensures { IfOk result (IsTellingOf grounds.now.job.now plan.now grounds.now.recipient_lines.now asked.now) }
{
    let Chains { node, lines } = chains;
    match told_for(alloc, grounds, plan, &node, lines) {
        Ok(answers) => {
            let telling = telling_by(alloc, grounds, plan, asked, &node, answers);
            drop(node);
            telling
        }
        Err(error) => {
            drop(node);
            Err(error)
        }
    }
}

// What is told of a job. The lines of its files and tables that are at fault are given.
fn telling_of<G: Gate, R: Threads + Sync>(
    crew: &Crew<G, R>,
    view: &JobView<'_>,
    grounds: &Grounds<'_>,
    asked: &Asked,
    lines: FindingLines,
) -> Result<Telling, AllocError>
    requires made { IsBasisOf grounds.now.job.now grounds.now.basis.now }
    requires view { view.now ≡ grounds.now.job.now }
    requires lines { (q : List ℕ) → has_text lines q ≡ has_fault_line grounds.now.job.now q }
    ensures { IfOk result (λ telling. (plan : plans.Plan) × IsPlanOf grounds.now.job.now plan × IsTellingOf grounds.now.job.now plan grounds.now.recipient_lines.now asked.now telling) }
{
    let planned = plan_beside(crew, view, grounds, asked, lines)?;
    let (chains, plan) = planned;
    let telling = telling_along(crew.alloc, grounds, &plan, asked, chains);
    drop(plan);
    telling
}

// What is told of a job that is read. The lines of its files and tables that are at fault are given.
fn telling_from<G: Gate, R: Threads + Sync>(
    crew: &Crew<G, R>,
    job: &Job,
    recipient_lines: &[usize],
    reading: &Reading,
    asked: &Asked,
    faults: FindingLines,
) -> Result<Telling, RunFault>
    requires job { IsJobWithin crew.now.limits.bytes job.now }
    requires lines { length recipient_lines.now ≡ length job.now.recipients }
    requires reading { IsReadingOf job.now reading.now }
    requires faults { (q : List ℕ) → has_text faults q ≡ has_fault_line job.now q }
    ensures telling { IfOk result (λ telling. (plan : plans.Plan) × IsPlanOf job.now plan × IsTellingOf job.now plan recipient_lines.now asked.now telling) }
    ensures memory { IfErr result (λ fault. fault ≡ RunFault.Memory) }
{
    parsed_is_readable();
    let grounds = Grounds::new(job, recipient_lines, &reading.basis, &reading.alias_lines);
    match telling_of(crew, &JobView::of(job), &grounds, asked, faults) {
        Ok(telling) => Ok(telling),
        Err(_) => Err(RunFault::Memory),
    }
}

/// Why a name or an address is reached by a job's message, or isn't: for each sender under which it is reached, the least of the shortest
/// chains of items that lead there, where the sender comes from, what decides the route and its hosts, and the transaction of the job's
/// plan that has it (local(8), aliases(5) and transport(5) of Postfix; RFC 5321 section 5.1). Where it isn't reached, the items that lead
/// there, and what it stands for as a recipient.
///
/// `recipient_lines` has the number of each recipient's line, as `recipient_lines` of relay_job gives them. An address is asked for as the
/// mailbox or the remote address that it is, where mail is delivered there, else as what it stands for as a recipient; a name is asked for
/// as what it stands for. The errors are those of `plan_job`, in the same order, and neither the number of threads nor how the work is cut
/// changes the answer.
pub fn explain<G: Gate, R: Threads + Sync>(
    crew: &Crew<G, R>,
    job: &Job,
    recipient_lines: &[usize],
    asked: &Asked,
) -> Result<Telling, RunFault>
    requires job { IsJobWithin crew.now.limits.bytes job.now }
    requires lines { length recipient_lines.now ≡ length job.now.recipients }
    ensures explained { IfOk result (λ telling. (plan : plans.Plan) × IsPlanOf job.now plan × IsTellingOf job.now plan recipient_lines.now asked.now telling) }
    ensures within { OnOk result (IsWithin crew.now.limits job.now) }
    ensures refused { IfErr result (IsRefused crew.now.limits job.now) }
{
    let read = Reading::of(crew, job)?;
    let (reading, faults) = read;
    let telling = telling_from(crew, job, recipient_lines, &reading, asked, faults);
    drop(reading);
    telling
}
