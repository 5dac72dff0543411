//! Many envelopes by tables that are read once.
ghost use Rattle.std.specs.Prelude.{◌≡◌, false};

use crate::devices::{Page, Paper};
use crate::jobs::{FIRST_PLAN, LISTS_JOB};
use crate::planning::{are_returns, is_planned};
use crate::running::{LIMITS, crew};
use aliasplan::{Form, Planner, RunFault, parse_tables};
use aliasplan_each::{EachSummary, TablesSource, Wording, run_beside, run_each};
use growth_answers::inputs::is_address;
use growth_answers::{Answer, Seen, Teller, Unready, call, case, judged, lent, twice};
use relay_envelopes::{envelopes_place, find_envelopes};
use relay_job::{Envelope, parse_envelope};
use relay_text::Text;
use std::alloc::Global;
use std::thread::Threads;

/// The settings and the mailbox of the first job.
const FIRST_TABLES: &[u8] = b"%settings\n\
    myhostname = relay.example.org\n\
    myorigin = example.org\n\
    mydestination = example.org, localhost\n\
    mailbox_transport = lmtp:unix:mbox\n\
    %mailboxes\n\
    joe\n";

/// The first job's envelope, and one that has no sender.
const ENVELOPES: &[u8] = b"%envelope m1\n\
    MAIL FROM:<a@example.net>\n\
    RCPT TO:<joe@example.org>\n\
    %envelope m2\n\
    RCPT TO:<joe@example.org>\n";

/// The first job's envelope.
const FIRST_ENVELOPE: &[u8] = b"MAIL FROM:<a@example.net>\n\
    RCPT TO:<joe@example.org>\n";

const ANSWER_FRONT: &[u8] = b"tables 0 findings\n\
    envelope m1\n";

const ANSWER_END: &[u8] = b"envelope m2\n\
    refused line 1 bad envelope\n\
    done 2 envelopes 1 planned 1 refused 0 findings\n";

/// The envelope of the lists' job.
const LISTS_ENVELOPE: &[u8] = b"MAIL FROM:<editor@example.com>\n\
    RCPT TO:<club@example.org>\n\
    RCPT TO:<east@example.org>\n";

const PLANS: Wording = Wording {
    form: Form::Plan,
    returns: false,
};

const RETURNS: Wording = Wording {
    form: Form::Plan,
    returns: true,
};

fn is_lists_envelope(envelope: &Envelope) -> bool {
    envelope
        .sender
        .as_ref()
        .is_some_and(|sender| is_address(sender, b"editor", b"example.com"))
        && matches!(
            envelope.recipients.as_slice(),
            [club, east] if is_address(club, b"club", b"example.org") && is_address(east, b"east", b"example.org")
        )
}

#[tactic(auto, unfolding(relay_text::specs::Addresses::is_origin, relay_text::specs::Addresses::is_domain))]
fn reads_an_envelope(alloc: Global) -> Result<Answer, Unready> {
    match parse_envelope(alloc, LISTS_ENVELOPE, b"example.org") {
        Ok(envelope) => Ok(judged(envelope, is_lists_envelope)),
        Err(RunFault::Memory) => Ok(Answer::Refused),
        Err(_) => Ok(Answer::Wrong),
    }
}

fn finds_envelopes(alloc: Global) -> Result<Answer, Unready> {
    match find_envelopes(alloc, envelopes_place(ENVELOPES)) {
        Ok(sections) => Ok(Answer::given(matches!(
            sections.as_slice(),
            [first, second] if first.line == 1 && first.id == b"m1".as_slice() && second.line == 4 && second.bytes.len() == 26
        ))),
        Err(RunFault::Memory) => Ok(Answer::Refused),
        Err(_) => Ok(Answer::Wrong),
    }
}

fn makes_a_planner(alloc: Global) -> Result<Answer, Unready> {
    let tables = parse_tables(alloc, FIRST_TABLES)?;
    match Planner::new(alloc, 0, tables, LIMITS) {
        Ok(planner) => Ok(judged(planner, |planner| planner.findings().is_empty())),
        Err(RunFault::Memory) => Ok(Answer::Refused),
        Err(_) => Ok(Answer::Wrong),
    }
}

/// What a planner answers to the first envelope, and again where it's refused.
fn planned<R: Threads + Sync>(
    rt: &R,
    alloc: Global,
    planner: &Planner,
    envelope: &Envelope,
) -> Seen {
    let crew = crew(rt, alloc);
    twice!(is_planned(planner.plan(&crew, envelope)))
}

#[tactic(auto, unfolding(relay_text::specs::Addresses::is_origin, relay_text::specs::Addresses::is_domain))]
fn plans_an_envelope<R: Threads + Sync>(rt: &R, alloc: Global) -> Result<Seen, Unready> {
    let envelope = parse_envelope(alloc, FIRST_ENVELOPE, b"example.org")?;
    let tables = parse_tables(alloc, FIRST_TABLES)?;
    let planner = Planner::new(alloc, 0, tables, LIMITS)?;
    lent(
        planner,
        |planner| Ok(planned(rt, alloc, planner, &envelope)),
    )
}

/// What a planner returns of the lists' envelope, and again where it's refused.
fn returned<R: Threads + Sync>(
    rt: &R,
    alloc: Global,
    planner: &Planner,
    envelope: &Envelope,
) -> Seen {
    let crew = crew(rt, alloc);
    twice!(are_returns(planner.returns(&crew, envelope)))
}

#[tactic(auto, unfolding(relay_text::specs::Addresses::is_origin, relay_text::specs::Addresses::is_domain))]
fn returns_of_an_envelope<R: Threads + Sync>(rt: &R, alloc: Global) -> Result<Seen, Unready> {
    let envelope = parse_envelope(alloc, LISTS_ENVELOPE, b"example.org")?;
    let tables = parse_tables(alloc, LISTS_JOB)?;
    let planner = Planner::new(alloc, 0, tables, LIMITS)?;
    lent(
        planner,
        |planner| Ok(returned(rt, alloc, planner, &envelope)),
    )
}

/// Whether the whole answer is written.
fn is_whole(text: &[u8]) -> bool {
    match text.strip_prefix(ANSWER_FRONT) {
        Some(rest) => rest.strip_prefix(FIRST_PLAN) == Some(ANSWER_END),
        None => false,
    }
}

fn is_answer(answer: Result<EachSummary, RunFault>, paper: &Paper) -> Answer {
    match answer {
        Ok(summary) => Answer::given(summary.counts.planned == 1 && is_whole(&paper.text)),
        Err(RunFault::Memory) => Answer::Refused,
        Err(_) => Answer::Wrong,
    }
}

/// What a run answers; where it's refused, nothing is written.
fn written<R: Threads + Sync>(
    rt: &R,
    alloc: Global,
    wording: Wording,
    text: &[u8],
    paper: &mut Paper,
) -> Answer
    requires { paper.old.failed ≡ false }
{
    let mut page = Page::new(text);
    let answer = run_each(&crew(rt, alloc), wording, &mut page, paper);
    match is_answer(answer, paper) {
        Answer::Refused => Answer::refused(paper.text.is_empty()),
        answer => answer,
    }
}

fn writes_plans<R: Threads + Sync>(
    rt: &R,
    alloc: Global,
    wording: Wording,
) -> Result<Seen, Unready> {
    let mut text = Vec::from_slice(alloc, FIRST_TABLES)?;
    text.extend_from_slice(ENVELOPES)?;
    let mut paper = Paper::new(alloc)?;
    let mut second = Paper::new(alloc)?;
    Ok(match written(rt, alloc, wording, &text, &mut paper) {
        Answer::Refused => Seen::at_last(written(rt, alloc, wording, &text, &mut second)),
        answer => Seen::at_once(answer),
    })
}

/// A source of the first tables, again and again.
#[derive(Drop)]
struct FirstTables;

impl TablesSource for FirstTables {
    ghost use Rattle.aliasplan_each.specs.Given.{unknown};

    ghost coming = { λ source k. unknown };

    fn fetch(&mut self, alloc: Global, max: usize) -> Result<Text, RunFault> {
        if FIRST_TABLES.len() > max {
            return Err(RunFault::TooLong);
        }
        Ok(Text::copy_of(alloc, FIRST_TABLES)?)
    }
}

/// Where a run beside tables is refused, a front of the answer is written.
fn writes_plans_beside<R: Threads + Sync>(rt: &R, alloc: Global) -> Result<Answer, Unready> {
    let mut paper = Paper::new(alloc)?;
    let tables = parse_tables(alloc, FIRST_TABLES)?;
    let mut page = Page::new(ENVELOPES);
    let answer = run_beside(
        &crew(rt, alloc),
        PLANS,
        tables,
        &mut FirstTables,
        &mut page,
        &mut paper,
    );
    Ok(is_answer(answer, &paper))
}

/// What a run answers that is to read its tables anew first. Where memory runs out for that, it goes on with the old ones.
fn is_changed(answer: Result<EachSummary, RunFault>, paper: &Paper) -> Answer {
    match answer {
        Ok(summary) => match paper.text.strip_prefix(b"tables 0 findings\ntables ") {
            Some([b'o', b'k', b' ', ..]) => Answer::given(summary.counts.planned == 1),
            _ => Answer::refused(summary.counts.planned == 1),
        },
        Err(RunFault::Memory) => Answer::Refused,
        Err(_) => Answer::Wrong,
    }
}

fn changes_tables<R: Threads + Sync>(rt: &R, alloc: Global) -> Result<Answer, Unready> {
    let mut paper = Paper::new(alloc)?;
    let tables = parse_tables(alloc, FIRST_TABLES)?;
    let mut text = Vec::from_slice(alloc, b"%tables\n")?;
    text.extend_from_slice(ENVELOPES)?;
    let mut page = Page::new(&text);
    let answer = run_beside(
        &crew(rt, alloc),
        PLANS,
        tables,
        &mut FirstTables,
        &mut page,
        &mut paper,
    );
    Ok(is_changed(answer, &paper))
}

pub(crate) fn tell<R: Print + AllocGlobal + Threads + Sync>(teller: &mut Teller<'_, R>) {
    let rt = teller.rt;
    let alloc = rt.alloc();
    call!(teller, "parse_envelope", reads_an_envelope(alloc));
    call!(teller, "find_envelopes", finds_envelopes(alloc));
    call!(teller, "Planner::new", makes_a_planner(alloc));
    case!(teller, "Planner::plan", plans_an_envelope(rt, alloc));
    case!(
        teller,
        "Planner::returns",
        returns_of_an_envelope(rt, alloc)
    );
    case!(teller, "run_each", writes_plans(rt, alloc, PLANS));
    case!(
        teller,
        "run_each and returns",
        writes_plans(rt, alloc, RETURNS)
    );
    call!(teller, "run_beside", writes_plans_beside(rt, alloc));
    call!(teller, "run_beside and %tables", changes_tables(rt, alloc));
}
