//! What is asked for, a step, and why kim is not reached: a list that would lead there is not.
use crate::inputs::one;
use crate::telling::{tell_of_call, tell_of_case};
use crate::texts::LONG;
use growth_answers::inputs::{address, is_address};
use growth_answers::{Answer, Seen, Teller, Unready, both, judged, lent, twice};
use relay_explain::{
    Asked, Entry, Listed, Mention, Step, Target, Telling, put_alias_step, telling_text,
};
use relay_text::{Seq, Text, TextFault};
use std::alloc::Global;

const EXPLANATION: &[u8] = b"explain kim answers 0\n\
    unreached alias club line 3 item 2 kim\n\
    stands for missing kim\n\
    end\n";

const STEP: &[u8] = b"step alias club line 3 item 2 kim is missing kim\n";

const ALIAS_STEP: &[u8] = b"step alias club line 3 item 2 staff is alias team\n";

const ASKED: &[u8] = b"<local-part-that-does-not-lie-in-the-value-itself@Example.NET>";

/// Whether the address of the long local part at this domain is asked for.
fn is_long_at(asked: &Asked, domain: &[u8]) -> bool {
    matches!(asked, Asked::Address(address) if is_address(address, LONG, domain))
}

fn reads_what_is_asked(alloc: Global) -> Result<Answer, Unready> {
    Ok(match Asked::parse(alloc, ASKED) {
        Ok(asked) => judged(asked, |asked| is_long_at(asked, b"example.net")),
        Err(TextFault::Memory) => Answer::Refused,
        Err(_) => Answer::Wrong,
    })
}

fn is_copied(alloc: Global, asked: &Asked) -> Answer {
    match asked.copy(alloc) {
        Ok(copy) => judged(copy, |copy| is_long_at(copy, b"example.org")),
        Err(_) => Answer::Refused,
    }
}

fn copies_what_is_asked(alloc: Global) -> Result<Seen, Unready> {
    let asked = Asked::Address(address(alloc, LONG)?);
    lent(asked, |asked| Ok(twice!(is_copied(alloc, asked))))
}

fn kim(alloc: Global) -> Result<Text, Unready> {
    Ok(Text::copy_of(alloc, b"kim")?)
}

fn missing_kim(alloc: Global) -> Result<Target, Unready> {
    Ok(Target::Missing(kim(alloc)?))
}

fn club(alloc: Global) -> Result<Text, Unready> {
    Ok(Text::copy_of(alloc, b"club")?)
}

/// The item of a list that nobody writes to.
fn listed(alloc: Global) -> Result<Listed, Unready> {
    let (club, kim) = both(club(alloc), kim(alloc))?;
    Ok(Listed {
        entry: Entry::Alias(club),
        line: 3,
        item: 2,
        text: kim,
    })
}

fn asked_for_kim(alloc: Global) -> Result<Asked, Unready> {
    Ok(Asked::Name(address(alloc, b"kim")?))
}

fn unreached(alloc: Global) -> Result<Vec<Listed>, Unready> {
    let listed = one(alloc, listed(alloc)?)?;
    Ok(listed)
}

fn telling(alloc: Global) -> Result<Telling, Unready> {
    let targets = both(missing_kim(alloc), missing_kim(alloc));
    let ends = both(asked_for_kim(alloc), unreached(alloc));
    let ((target, stands_for), (asked, unreached)) = both(targets, ends)?;
    Ok(Telling {
        asked,
        target,
        decision: None,
        answers: Seq::of(Vec::new(alloc)),
        stands_for,
        unreached: Seq::of(unreached),
    })
}

/// Whether the text is the explanation, in one piece.
fn is_explanation(pieces: &Seq<Text>) -> bool {
    matches!(pieces.as_slice(), [text] if text.as_bytes() == EXPLANATION)
}

fn writes_what_is_told(alloc: Global) -> Result<Answer, Unready> {
    Ok(match telling_text(alloc, telling(alloc)?) {
        Ok(pieces) => judged(pieces, is_explanation),
        Err(_) => Answer::Refused,
    })
}

fn step(alloc: Global) -> Result<Step, Unready> {
    let (listed, target) = both(listed(alloc), missing_kim(alloc))?;
    Ok(Step {
        mention: Mention::Item(listed),
        target,
    })
}

fn is_step(alloc: Global, step: &Step) -> Answer {
    let mut line = Vec::new(alloc);
    match step.put_line(&mut line) {
        Ok(()) => Answer::given(line.as_slice() == STEP),
        Err(_) => Answer::Refused,
    }
}

fn writes_a_step(alloc: Global) -> Result<Answer, Unready> {
    let step = step(alloc)?;
    lent(step, |step| Ok(is_step(alloc, step)))
}

fn writes_a_step_between_aliases(alloc: Global) -> Result<Answer, Unready> {
    let mut line = Vec::new(alloc);
    Ok(
        match put_alias_step(b"club", 3, 2, b"staff", b"team", &mut line) {
            Ok(()) => Answer::given(line.as_slice() == ALIAS_STEP),
            Err(_) => Answer::Refused,
        },
    )
}

pub(crate) fn tell<R: Print + AllocGlobal>(teller: &mut Teller<'_, R>) {
    tell_of_call(teller, "Asked::parse", reads_what_is_asked);
    tell_of_case(teller, "Asked::copy", copies_what_is_asked);
    tell_of_call(teller, "Step::put_line", writes_a_step);
    tell_of_call(teller, "put_alias_step", writes_a_step_between_aliases);
    tell_of_call(teller, "telling_text", writes_what_is_told);
}
