//! Why dan of the include file is in the plan of the lists.
ghost use Rattle.std.specs.Prelude.{◌≡◌, false};

use crate::devices::{Page, Paper};
use crate::jobs::LISTS_JOB;
use crate::running::crew;
use aliasplan::{RunFault, parse_job};
use aliasplan_explain::{explain, run_explain};
use growth_answers::inputs::address;
use growth_answers::{Answer, Seen, Teller, Unready, case, judged};
use relay_explain::{Asked, Outcome, Telling};
use relay_job::{each_recipient_has_line, recipient_lines};
use std::alloc::Global;
use std::thread::Threads;

const DAN: &[u8] = b"dan@example.net";

const EXPLANATION: &[u8] = b"explain <dan@example.net> answers 1\n\
    answer 1 to <dan@example.net>\n\
    step envelope line 2 <club@example.org> is alias club\n\
    step alias club line 1 item 1 :include:/lists/club is include /lists/club\n\
    step include /lists/club line 4 item 1 dan@example.net is to <dan@example.net>\n\
    from <owner-club@example.org> alias owner-club line 2\n\
    route setting default_transport smtp\n\
    via smtp example.net\n\
    lookup mx example.net\n\
    record mx line 1 10 mx1.example.net host\n\
    record mx line 2 20 mx2.example.net host\n\
    transaction 5\n\
    end\n";

/// Whether the one answer names the last transaction.
fn names_last(telling: &Telling) -> bool {
    matches!(
        telling.answers.as_slice(),
        [answer] if matches!(answer.outcome, Some(Outcome::Transaction(5)))
    )
}

fn is_explained(telling: Result<Telling, RunFault>) -> Answer {
    match telling {
        Ok(telling) => judged(telling, names_last),
        Err(RunFault::Memory) => Answer::Refused,
        Err(_) => Answer::Wrong,
    }
}

fn explains<R: Threads + Sync>(rt: &R, alloc: Global) -> Result<Seen, Unready> {
    each_recipient_has_line();
    let dan = Asked::Address(address(alloc, DAN)?);
    let lines = recipient_lines(alloc, LISTS_JOB)?;
    let job = parse_job(alloc, LISTS_JOB)?;
    let crew = crew(rt, alloc);
    Ok(match is_explained(explain(&crew, &job, &lines, &dan)) {
        Answer::Refused => Seen::at_last(is_explained(explain(&crew, &job, &lines, &dan))),
        answer => Seen::at_once(answer),
    })
}

/// What a run answers; where it's refused, nothing is written.
fn written<R: Threads + Sync>(rt: &R, alloc: Global, dan: &Asked, paper: &mut Paper) -> Answer
    requires { paper.old.failed ≡ false }
{
    let mut page = Page::new(LISTS_JOB);
    match run_explain(&crew(rt, alloc), &mut page, paper, dan) {
        Ok(in_plan) => Answer::given(in_plan && paper.text.as_slice() == EXPLANATION),
        Err(RunFault::Memory) => Answer::refused(paper.text.is_empty()),
        Err(_) => Answer::Wrong,
    }
}

fn writes_why<R: Threads + Sync>(rt: &R, alloc: Global) -> Result<Seen, Unready> {
    let dan = Asked::Address(address(alloc, DAN)?);
    let mut paper = Paper::new(alloc)?;
    let mut second = Paper::new(alloc)?;
    Ok(match written(rt, alloc, &dan, &mut paper) {
        Answer::Refused => Seen::at_last(written(rt, alloc, &dan, &mut second)),
        answer => Seen::at_once(answer),
    })
}

pub(crate) fn tell<R: Print + AllocGlobal + Threads + Sync>(teller: &mut Teller<'_, R>) {
    let rt = teller.rt;
    let alloc = rt.alloc();
    case!(teller, "explain", explains(rt, alloc));
    case!(teller, "run_explain", writes_why(rt, alloc));
}
