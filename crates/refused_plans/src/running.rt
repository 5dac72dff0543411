//! Runs from a job's bytes to its plan's and to its domains', one after another in one process.
ghost use Rattle.std.specs.Prelude.{◌≡◌, false};

use crate::devices::{Page, Paper};
use crate::jobs::{
    EQUAL_PLAN, FIRST_JOB, FIRST_PLAN, LISTS_DOMAINS, LISTS_JOB, LISTS_PLAN,
    LISTS_PLAN_WITH_RETURNS, MAILBOXES_JOB, MAILBOXES_PLAN, OWNERS_JOB, OWNERS_PLAN,
    equal_items_job,
};
use aliasplan::{Crew, Form, Limits, NoGate, Options, RunFault, run, run_domains, run_returns};
use growth_answers::{Answer, Seen, Teller, Unready, case};
use std::alloc::Global;
use std::thread::Threads;

pub const OPTIONS: Options = Options {
    form: Form::Plan,
    workers: 2,
    cut: 2,
    key: 0,
};

pub const LIMITS: Limits = Limits {
    bytes: 200_000,
    names: 1000,
    owners: 100,
    pairs: 1000,
};

/// What the parts of a call are handed.
pub(crate) fn crew<R: Threads + Sync>(rt: &R, alloc: Global) -> Crew<'_, NoGate, R>
    ensures { result.limits.bytes ≡ 200000 }
{
    Crew {
        rt,
        alloc,
        options: OPTIONS,
        limits: LIMITS,
        gate: &NoGate,
    }
}

/// What a run answers; where it's refused, nothing is written.
fn answered<R: Threads + Sync>(
    rt: &R,
    alloc: Global,
    job: &[u8],
    plan: &[u8],
    paper: &mut Paper,
) -> Answer
    requires { paper.old.failed ≡ false }
{
    let mut page = Page::new(job);
    match run(rt, alloc, &mut page, paper, OPTIONS, LIMITS, &NoGate) {
        Ok(_) => Answer::given(paper.text.as_slice() == plan),
        Err(RunFault::Memory) => Answer::refused(paper.text.is_empty()),
        Err(_) => Answer::Wrong,
    }
}

/// The same, again where it's refused.
fn answered_at_last<R: Threads + Sync>(
    rt: &R,
    alloc: Global,
    job: &[u8],
    plan: &[u8],
) -> Result<Seen, Unready> {
    let mut paper = Paper::new(alloc)?;
    let mut second = Paper::new(alloc)?;
    Ok(match answered(rt, alloc, job, plan, &mut paper) {
        Answer::Refused => Seen::at_last(answered(rt, alloc, job, plan, &mut second)),
        answer => Seen::at_once(answer),
    })
}

/// Behind a run that was refused, each later one is right.
fn runs_jobs<R: Threads + Sync>(rt: &R, alloc: Global) -> Result<Seen, Unready> {
    let equal_items = equal_items_job(alloc)?;
    let mut seen = Seen::Answered;
    for (job, plan) in [
        (FIRST_JOB, FIRST_PLAN),
        (LISTS_JOB, LISTS_PLAN),
        (OWNERS_JOB, OWNERS_PLAN),
        (MAILBOXES_JOB, MAILBOXES_PLAN),
        (equal_items.as_slice(), EQUAL_PLAN),
    ] {
        seen = seen.max(answered_at_last(rt, alloc, job, plan)?);
        if !seen.is_answered() {
            break;
        }
    }
    Ok(seen)
}

/// What a run answers that says what is returned of lists; where it's refused, nothing is written.
fn returned<R: Threads + Sync>(rt: &R, alloc: Global, paper: &mut Paper) -> Answer
    requires { paper.old.failed ≡ false }
{
    let mut page = Page::new(LISTS_JOB);
    match run_returns(&crew(rt, alloc), &mut page, paper) {
        Ok(_) => Answer::given(paper.text.as_slice() == LISTS_PLAN_WITH_RETURNS),
        Err(RunFault::Memory) => Answer::refused(paper.text.is_empty()),
        Err(_) => Answer::Wrong,
    }
}

fn says_what_is_returned<R: Threads + Sync>(rt: &R, alloc: Global) -> Result<Seen, Unready> {
    let mut paper = Paper::new(alloc)?;
    let mut second = Paper::new(alloc)?;
    Ok(match returned(rt, alloc, &mut paper) {
        Answer::Refused => Seen::at_last(returned(rt, alloc, &mut second)),
        answer => Seen::at_once(answer),
    })
}

/// What a run answers that names the domains of lists; where it's refused, nothing is written.
fn named<R: Threads + Sync>(rt: &R, alloc: Global, paper: &mut Paper) -> Answer
    requires { paper.old.failed ≡ false }
{
    let mut page = Page::new(LISTS_JOB);
    match run_domains(&crew(rt, alloc), &mut page, paper) {
        Ok(()) => Answer::given(paper.text.as_slice() == LISTS_DOMAINS),
        Err(RunFault::Memory) => Answer::refused(paper.text.is_empty()),
        Err(_) => Answer::Wrong,
    }
}

fn names_domains<R: Threads + Sync>(rt: &R, alloc: Global) -> Result<Seen, Unready> {
    let mut paper = Paper::new(alloc)?;
    let mut second = Paper::new(alloc)?;
    Ok(match named(rt, alloc, &mut paper) {
        Answer::Refused => Seen::at_last(named(rt, alloc, &mut second)),
        answer => Seen::at_once(answer),
    })
}

pub(crate) fn tell<R: Print + AllocGlobal + Threads + Sync>(teller: &mut Teller<'_, R>) {
    let rt = teller.rt;
    let alloc = rt.alloc();
    case!(teller, "run", runs_jobs(rt, alloc));
    case!(teller, "run_domains", names_domains(rt, alloc));
    case!(teller, "run_returns", says_what_is_returned(rt, alloc));
}
