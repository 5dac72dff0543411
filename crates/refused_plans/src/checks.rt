//! What is wrong with files and tables.
use crate::jobs::LISTS_JOB;
use crate::running::{LIMITS, crew};
use aliasplan::{RunFault, check_aliases, check_texts, notes, own_names, parse_tables};
use growth_answers::inputs::are_texts;
use growth_answers::{Answer, Seen, Teller, Unready, call, case, judged, lent, twice};
use relay_text::{Seq, Text};
use std::alloc::{AllocError, Global};
use std::thread::Threads;

/// An alias file with a bad line, and an origin that mydestination hasn't.
const FAULTY: &[u8] = b"%settings\n\
    myorigin = example.org\n\
    mydestination = localhost\n\
    %aliases\n\
    no colon\n";

/// Whether lines are these.
fn are_lines(lines: &Result<Seq<Text>, AllocError>, wanted: &[u8]) -> Answer {
    match lines {
        Ok(lines) => Answer::given(are_texts(lines.as_slice(), &[wanted])),
        Err(_) => Answer::Refused,
    }
}

fn checks_lines(alloc: Global) -> Result<Seen, Unready> {
    let tables = parse_tables(alloc, FAULTY)?;
    Ok(twice!({
        are_lines(
            &check_texts(alloc, 0, &tables, LIMITS),
            b"finding aliases line 1 badline",
        )
    }))
}

fn notes_a_setting(alloc: Global) -> Result<Seen, Unready> {
    let tables = parse_tables(alloc, FAULTY)?;
    lent(tables, |tables| {
        Ok(twice!({
            are_lines(
                &notes(alloc, &tables.settings),
                b"note myorigin isn't in mydestination",
            )
        }))
    })
}

fn names_the_relay(alloc: Global) -> Result<Seen, Unready> {
    let tables = parse_tables(alloc, FAULTY)?;
    lent(tables, |tables| {
        Ok(twice!(match own_names(alloc, &tables.settings) {
            Ok(names) => judged(names, |names| {
                are_texts(
                    names.as_slice(),
                    &[b"localhost", b"example.org", b"localhost"],
                )
            }),
            Err(_) => Answer::Refused,
        }))
    })
}

/// The whole of the findings of lists, or of a refusal.
fn follows_aliases<R: Threads + Sync>(rt: &R, alloc: Global) -> Result<Answer, Unready> {
    let tables = parse_tables(alloc, LISTS_JOB)?;
    match check_aliases(&crew(rt, alloc), tables) {
        Ok(lines) => Ok(judged(lines, |lines| {
            are_texts(
                lines.as_slice(),
                &[
                    b"finding loop alias east",
                    b"finding loop alias west",
                    b"finding missing bob in alias west",
                ],
            )
        })),
        Err(RunFault::Memory) => Ok(Answer::Refused),
        Err(_) => Ok(Answer::Wrong),
    }
}

pub(crate) fn tell<R: Print + AllocGlobal + Threads + Sync>(teller: &mut Teller<'_, R>) {
    let rt = teller.rt;
    let alloc = rt.alloc();
    case!(teller, "check_texts", checks_lines(alloc));
    case!(teller, "notes", notes_a_setting(alloc));
    case!(teller, "own_names", names_the_relay(alloc));
    call!(teller, "check_aliases", follows_aliases(rt, alloc));
}
