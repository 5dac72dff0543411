//! Explanations, with the lines of their steps.
use crate::asked::Asked;
use crate::decision::Decision;
use crate::listed::Listed;
use crate::target::Target;
use crate::told::Told;
use relay_text::Seq;

/// Why what is asked for is reached, or isn't. A chain may have a million steps, which take many times the room of their lines: so each
/// answer has these.
#[derive(Drop)]
pub struct Telling {
    pub asked: Asked,
    /// What is reached, where it is.
    pub target: Target,
    /// What decides where it goes, where it is an address.
    pub decision: Option<Decision>,
    /// One for each sender under which it is reached.
    pub answers: Seq<Told>,
    /// What the asked name or address stands for as a recipient.
    pub stands_for: Target,
    /// The items of entries and include files that aren't reached, and that have this as their target.
    pub unreached: Seq<Listed>,
}

ghost use Rattle.std.specs.Prelude.{◌≡◌, ◌++◌, ◌+◌, length, IfOk, OnOk};
ghost use Rattle.std.specs.List.{enumerate_from};
ghost use Rattle.relay_explain.specs.Explanations.{Explanation};
ghost use Rattle.relay_explain.specs.ExplanationText.{explanation_text_of};
ghost use Rattle.relay_explain.specs.PiecedTexts.{text_of, text_so_far};
ghost use Rattle.relay_explain.specs.Tellings.{IsToldBy, told_text, told_texts};

use crate::given_by::put_from;
use crate::outcome::put_outcome;
use crate::pieced_text::PiecedText;
use crate::text::{put_answer_line, put_decision, put_first, put_why_not};
use relay_text::Text;
use std::alloc::{AllocError, Global};
use std::mem;

// Adds an answer under its number.
fn add_told(
    alloc: Global,
    target: &Target,
    decision: &Option<Decision>,
    number: usize,
    told: Told,
    pieces: &mut PiecedText,
) -> Result<(), AllocError>
    ensures { OnOk result (text_so_far pieces.new ≡ text_so_far pieces.old ++ told_text target.now decision.now number told) }
{
    let Told {
        lines,
        from,
        given_by,
        outcome,
    } = told;
    put_answer_line(number, target, &mut pieces.written)?;
    pieces.add(alloc, lines)?;
    put_from(&from, &given_by, &mut pieces.written)?;
    put_decision(decision, &mut pieces.written)?;
    put_outcome(&outcome, &mut pieces.written)
}

// Adds answers under their numbers, from 1.
fn add_all(
    alloc: Global,
    target: &Target,
    decision: &Option<Decision>,
    answers: Vec<Told>,
    pieces: &mut PiecedText,
) -> Result<(), AllocError>
    ensures { OnOk result (text_so_far pieces.new ≡ text_so_far pieces.old ++ told_texts target.now decision.now (enumerate_from 1 answers.items)) }
{
    let mut number = 0;
    for told in answers {
        number += 1;
        add_told(alloc, target, decision, number, told, pieces)?;
    }
    Ok(())
}

// The text of what is told, which the answers are taken out of.
fn taken_text(alloc: Global, telling: &mut Telling) -> Result<Seq<Text>, AllocError>
    ensures { IfOk result (λ pieces. (e : Explanation) → IsToldBy e telling.old → text_of pieces ≡ explanation_text_of e) }
{
    let count = telling.answers.len();
    let answers = mem::replace(&mut telling.answers, Seq::of(Vec::new(alloc))).into_vec();
    let mut pieces = PiecedText::new(alloc);
    put_first(&telling.asked, count, &mut pieces.written)?;
    add_all(
        alloc,
        &telling.target,
        &telling.decision,
        answers,
        &mut pieces,
    )?;
    let unreached = telling.unreached.as_slice();
    put_why_not(count, unreached, &telling.stands_for, &mut pieces.written)?;
    pieces.written.extend_from_slice(b"end\n")?;
    pieces.into_seq(alloc)
}

/// The text of the explanation that is told, in pieces, one behind the other: what is asked for and how many answers there are, the
/// answers, or where there is none the items that would lead there and what the asked name or address stands for, and `end`. Each line
/// ends with LF. The lines of steps are the pieces that were handed in, which aren't copied. `Err` where memory runs out.
pub fn telling_text(alloc: Global, telling: Telling) -> Result<Seq<Text>, AllocError>
    ensures { IfOk result (λ pieces. (e : Explanation) → IsToldBy e telling → text_of pieces ≡ explanation_text_of e) }
{
    let mut telling = telling;
    taken_text(alloc, &mut telling)
}
