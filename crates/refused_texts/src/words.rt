//! Words, lines and findings, as a plan's text has them, put behind an `x` that stands there already.
use crate::inputs::texts;
use crate::telling::tell_of_call;
use growth_answers::inputs::{address, are_texts};
use growth_answers::{Answer, Teller, Unready, call, judged};
use relay_sharing::Crew;
use relay_text::{Address, Seq, Text};
use relay_wire::{
    Finding, FindingLines, KeptFindings, LineWord, Reason, put_count, put_lines, put_name,
    put_number, put_path, put_reason, put_word,
};
use std::alloc::{AllocError, Global};
use std::thread::Threads;

/// What a call answered that puts something at the end, and what stands there then.
fn put(answer: Result<(), AllocError>, out: Vec<u8>, wanted: &[u8]) -> Answer {
    let is_right = out.as_slice() == wanted;
    drop(out);
    match answer {
        Ok(()) => Answer::given(is_right),
        Err(_) => Answer::Refused,
    }
}

fn puts_a_word(alloc: Global) -> Result<Answer, Unready> {
    let mut out = Vec::from_slice(alloc, b"x")?;
    let answer = put_word(b"word", &mut out);
    Ok(put(answer, out, b"x word"))
}

fn puts_a_number(alloc: Global) -> Result<Answer, Unready> {
    let mut out = Vec::from_slice(alloc, b"x")?;
    let answer = put_number(120, &mut out);
    Ok(put(answer, out, b"x 120"))
}

fn puts_a_name(alloc: Global) -> Result<Answer, Unready> {
    let mut out = Vec::from_slice(alloc, b"x")?;
    let answer = put_name(b"a b", &mut out);
    Ok(put(answer, out, b"x \"a b\""))
}

fn path_is_put(alloc: Global, joe: &Address) -> Result<Answer, Unready> {
    let mut out = Vec::from_slice(alloc, b"x")?;
    let answer = put_path(Some(joe), &mut out);
    Ok(put(answer, out, b"x <joe@example.org>"))
}

fn puts_a_path(alloc: Global) -> Result<Answer, Unready> {
    let joe = address(alloc, b"joe")?;
    let answer = path_is_put(alloc, &joe);
    drop(joe);
    answer
}

fn puts_a_count(alloc: Global) -> Result<Answer, Unready> {
    let mut out = Vec::from_slice(alloc, b"x")?;
    let answer = put_count(2, b"findings", &mut out);
    Ok(put(answer, out, b"x 2 findings"))
}

fn lines_are_put(alloc: Global, lines: &[Text]) -> Result<Answer, Unready> {
    let mut out = Vec::from_slice(alloc, b"x")?;
    let answer = put_lines(lines, &mut out);
    Ok(put(answer, out, b"xa\nb\n"))
}

fn puts_lines(alloc: Global) -> Result<Answer, Unready> {
    let lines = texts(alloc, &[b"a", b"b"])?;
    let answer = lines_are_put(alloc, &lines);
    drop(lines);
    answer
}

fn reason_is_put(alloc: Global, reason: &Reason) -> Result<Answer, Unready> {
    let mut out = Vec::from_slice(alloc, b"x")?;
    let answer = put_reason(reason, &mut out);
    Ok(put(answer, out, b"x refused gone away"))
}

fn puts_a_reason(alloc: Global) -> Result<Answer, Unready> {
    let reason = Reason::Refused(Text::copy_of(alloc, b"gone away")?);
    let answer = reason_is_put(alloc, &reason);
    drop(reason);
    answer
}

/// Adds the lines of two findings in the other order than that of lines.
fn add_two<K: KeptFindings>(lines: &mut FindingLines<K>) -> Result<(), AllocError> {
    lines.add(Finding::Transport(2, LineWord::Duplicate))?;
    lines.add(Finding::Aliases(3, LineWord::BadLine))
}

/// The lines of two findings, which are brought in the other order.
fn added(alloc: Global) -> Result<FindingLines, AllocError> {
    let mut lines = FindingLines::new(alloc);
    add_two(&mut lines)?;
    Ok(lines)
}

/// What is answered where the lines of the two findings are asked for.
fn answer_of(lines: Result<Seq<Text>, AllocError>) -> Answer {
    match lines {
        Ok(lines) => judged(lines, |lines| {
            are_texts(
                lines.as_slice(),
                &[
                    b"finding aliases line 3 badline",
                    b"finding transport line 2 duplicate",
                ],
            )
        }),
        Err(_) => Answer::Refused,
    }
}

/// The lines of two findings.
pub(crate) fn two_findings(alloc: Global) -> Result<FindingLines, Unready> {
    let lines = added(alloc)?;
    Ok(lines)
}

fn gathers_findings(alloc: Global) -> Result<Answer, Unready> {
    let lines = added(alloc)?;
    Ok(answer_of(lines.into_seq(alloc)))
}

fn gathers_by_crew<R: Threads + Sync>(crew: &Crew<'_, R>) -> Result<Answer, Unready> {
    let lines = added(crew.alloc)?;
    Ok(answer_of(lines.into_seq_by(crew)))
}

/// The line of a finding by itself, in room that is taken for it.
fn line_of(alloc: Global, finding: Finding) -> Result<FindingLines, AllocError> {
    let mut lines: FindingLines = FindingLines::empty(alloc);
    let Ok(()) = lines.reserve(1) else {
        drop(finding);
        return Err(AllocError);
    };
    lines.add(finding)?;
    Ok(lines)
}

fn appends_findings(alloc: Global) -> Result<Answer, Unready> {
    let mut lines = line_of(alloc, Finding::Transport(2, LineWord::Duplicate))?;
    let more = line_of(alloc, Finding::Aliases(3, LineWord::BadLine))?;
    match lines.append(more) {
        Ok(()) => Ok(answer_of(lines.into_seq(alloc))),
        Err(_) => Ok(Answer::Refused),
    }
}

/// Two findings beside their lines, of which one comes twice.
fn kept(alloc: Global) -> Result<FindingLines<Vec<Finding>>, AllocError> {
    let mut lines = FindingLines::with_findings(alloc);
    add_two(&mut lines)?;
    lines.add(Finding::Aliases(3, LineWord::BadLine))?;
    Ok(lines)
}

fn are_kept(findings: &[Finding]) -> bool {
    findings.len() == 2
        && matches!(&findings[0], Finding::Aliases(3, LineWord::BadLine))
        && matches!(&findings[1], Finding::Transport(2, LineWord::Duplicate))
}

fn gathers_values(alloc: Global) -> Result<Answer, Unready> {
    let lines = kept(alloc)?;
    match lines.into_found(alloc) {
        Ok(found) => Ok(judged(found, |found| are_kept(&found.findings))),
        Err(_) => Ok(Answer::Refused),
    }
}

/// The lines of faults from line 40 to 200, which are in order up to 99, and then again.
fn numbered(alloc: Global) -> Result<FindingLines, AllocError> {
    let mut lines = FindingLines::new(alloc);
    for line in 40..201 {
        lines.add(Finding::Transport(line, LineWord::Duplicate))?;
    }
    Ok(lines)
}

fn merges_findings(alloc: Global) -> Result<Answer, Unready> {
    let lines = numbered(alloc)?;
    match lines.into_seq(alloc) {
        Ok(lines) => Ok(judged(lines, |lines| {
            let lines = lines.as_slice();
            let rise = lines
                .windows(2)
                .all(|pair| pair[0].as_bytes() < pair[1].as_bytes());
            lines.len() == 161 && rise
        })),
        Err(_) => Ok(Answer::Refused),
    }
}

pub(crate) fn tell<R: Print + AllocGlobal + Threads + Sync>(teller: &mut Teller<'_, R>) {
    tell_of_call(teller, "put_word", puts_a_word);
    tell_of_call(teller, "put_number", puts_a_number);
    tell_of_call(teller, "put_name", puts_a_name);
    tell_of_call(teller, "put_path", puts_a_path);
    tell_of_call(teller, "put_count", puts_a_count);
    tell_of_call(teller, "put_lines", puts_lines);
    tell_of_call(teller, "put_reason", puts_a_reason);
    tell_of_call(teller, "FindingLines::into_seq", gathers_findings);
    tell_of_call(teller, "FindingLines::into_seq merges", merges_findings);
    tell_of_call(teller, "FindingLines::into_found", gathers_values);
    tell_of_call(teller, "FindingLines::append", appends_findings);
    let crew = Crew {
        rt: teller.rt,
        alloc: teller.rt.alloc(),
        workers: 2,
    };
    call!(teller, "FindingLines::into_seq_by", gathers_by_crew(&crew));
}
