//! A job that is read, the plan of a message to one mailbox, and the domains of lists.
use crate::devices::Page;
use crate::jobs::{FIRST_JOB, LISTS_JOB, LISTS_RETURN};
use crate::running::{LIMITS, OPTIONS, crew};
use aliasplan::{
    Finding, Job, NoGate, Place, PlanWithFindings, Returned, RunFault, domains, parse_job,
    plan_job, plan_with_findings, read_job, returns,
};
use growth_answers::inputs::{are_texts, is_address};
use growth_answers::{Answer, Seen, Teller, Unready, call, case, judged};
use relay_routes::Transport;
use relay_text::{Seq, Text};
use relay_wire::{Plan, Planned};
use std::alloc::Global;
use std::thread::Threads;

fn reads_a_job(alloc: Global) -> Result<Answer, Unready> {
    match read_job(alloc, &mut Page::new(FIRST_JOB), 1000) {
        Ok(text) => Ok(judged(text, |text| text.as_bytes() == FIRST_JOB)),
        Err(RunFault::Memory) => Ok(Answer::Refused),
        Err(_) => Ok(Answer::Wrong),
    }
}

fn is_transaction(planned: &Planned) -> bool {
    planned
        .from
        .as_ref()
        .is_some_and(|from| is_address(from, b"a", b"example.net"))
        && planned.transport == Transport::Lmtp
        && planned.nexthop.as_bytes() == b"unix:mbox".as_slice()
        && are_texts(planned.hosts.as_slice(), &[b"unix:mbox"])
        && matches!(planned.to.as_slice(), [to] if is_address(to, b"joe", b"example.org"))
}

fn is_plan(plan: &Plan) -> bool {
    plan.hostname.as_bytes() == b"relay.example.org".as_slice()
        && matches!(plan.transactions.as_slice(), [planned] if is_transaction(planned))
        && plan.findings.is_empty()
}

/// Whether the first job's message is planned, without a finding.
pub(crate) fn is_planned(plan: Result<Plan, RunFault>) -> Answer {
    match plan {
        Ok(plan) => judged(plan, is_plan),
        Err(RunFault::Memory) => Answer::Refused,
        Err(_) => Answer::Wrong,
    }
}

fn plans_a_job<R: Threads + Sync>(rt: &R, alloc: Global) -> Result<Seen, Unready> {
    let job = parse_job(alloc, FIRST_JOB)?;
    Ok(
        match is_planned(plan_job(rt, alloc, &job, OPTIONS, LIMITS, &NoGate)) {
            Answer::Refused => Seen::at_last(is_planned(plan_job(
                rt, alloc, &job, OPTIONS, LIMITS, &NoGate,
            ))),
            answer => Seen::at_once(answer),
        },
    )
}

/// Whether these are the findings of the lists, in the order of their lines.
fn are_lists_findings(findings: &[Finding]) -> bool {
    match findings {
        [
            Finding::LoopAlias(east),
            Finding::LoopAlias(west),
            Finding::Missing(bob, Place::Alias(list)),
        ] => {
            east.as_bytes() == b"east".as_slice()
                && west.as_bytes() == b"west".as_slice()
                && bob.as_bytes() == b"bob".as_slice()
                && list.as_bytes() == b"west".as_slice()
        }
        _ => false,
    }
}

fn is_lists_plan(reported: &PlanWithFindings) -> bool {
    reported.plan.transactions.len() == 5
        && reported.plan.findings.len() == 3
        && are_lists_findings(&reported.findings)
}

fn are_values(reported: Result<PlanWithFindings, RunFault>) -> Answer {
    match reported {
        Ok(reported) => judged(reported, is_lists_plan),
        Err(RunFault::Memory) => Answer::Refused,
        Err(_) => Answer::Wrong,
    }
}

fn plans_with_findings<R: Threads + Sync>(rt: &R, alloc: Global) -> Result<Seen, Unready> {
    let job = parse_job(alloc, LISTS_JOB)?;
    let crew = crew(rt, alloc);
    Ok(match are_values(plan_with_findings(&crew, &job)) {
        Answer::Refused => Seen::at_last(are_values(plan_with_findings(&crew, &job))),
        answer => Seen::at_once(answer),
    })
}

fn is_bobs_return(returned: &Returned) -> bool {
    matches!(
        returned.returns.as_slice(),
        [block] if are_texts(block.lines.as_slice(), &[LISTS_RETURN])
    )
}

/// Whether bob is missing, and nothing else is returned.
pub(crate) fn are_returns(returned: Result<Returned, RunFault>) -> Answer {
    match returned {
        Ok(returned) => judged(returned, is_bobs_return),
        Err(RunFault::Memory) => Answer::Refused,
        Err(_) => Answer::Wrong,
    }
}

fn returns_what_is_lost<R: Threads + Sync>(rt: &R, alloc: Global) -> Result<Seen, Unready> {
    let job = parse_job(alloc, LISTS_JOB)?;
    let crew = crew(rt, alloc);
    Ok(match are_returns(returns(&crew, &job)) {
        Answer::Refused => Seen::at_last(are_returns(returns(&crew, &job))),
        answer => Seen::at_once(answer),
    })
}

fn are_domains(domains: Result<Seq<Text>, RunFault>) -> Answer {
    match domains {
        Ok(domains) => judged(domains, |domains| {
            are_texts(domains.as_slice(), &[b"example.com", b"example.net"])
        }),
        Err(RunFault::Memory) => Answer::Refused,
        Err(_) => Answer::Wrong,
    }
}

fn finds_domains<R: Threads + Sync>(rt: &R, alloc: Global) -> Result<Seen, Unready> {
    let job = parse_job(alloc, LISTS_JOB)?;
    let crew = crew(rt, alloc);
    Ok(match are_domains(domains(&crew, &job)) {
        Answer::Refused => Seen::at_last(are_domains(domains(&crew, &job))),
        answer => Seen::at_once(answer),
    })
}

pub(crate) fn tell<R: Print + AllocGlobal + Threads + Sync>(teller: &mut Teller<'_, R>) {
    let rt = teller.rt;
    let alloc = rt.alloc();
    call!(teller, "read_job", reads_a_job(alloc));
    case!(teller, "plan_job", plans_a_job(rt, alloc));
    case!(teller, "plan_with_findings", plans_with_findings(rt, alloc));
    case!(teller, "domains", finds_domains(rt, alloc));
    case!(teller, "returns", returns_what_is_lost(rt, alloc));
}
