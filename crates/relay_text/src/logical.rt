//! Logical lines, one after another.
use crate::kept::{KeptLine, KeptLines};
use crate::scan::is_white;
use crate::seq::Seq;
use std::alloc::{AllocError, Global};
use std::marker::Model;

/// A logical line that is lent, under the number of its first physical line (aliases(5), transport(5)).
#[derive(Clone, Copy)]
pub struct LogicalLine<'a> {
    /// The number of its first physical line, from 1; ignored lines count too.
    pub number: usize,
    /// Its physical lines in a row, without their ends; white space at their starts and ends stays.
    pub text: &'a [u8],
}

/// A reader over the logical lines of a text. One begins with text that isn't white; a line that begins with white space continues the
/// one before, past ignored lines too (aliases(5), transport(5)).
///
/// A line that no other continues is lent in place. The parts of any other are joined in a buffer of the caller's.
#[derive(Drop)]
pub struct LogicalLines<'a> {
    /// The first physical line of the next logical line.
    first: Option<KeptLine<'a>>,
    kept: KeptLines<'a>,
    orphans: Vec<usize>,
}

impl<'a> Model for LogicalLines<'a> {
    ghost use Rattle.relay_text.specs.declared.lines.Lines.{Lines};
    ghost use Rattle.relay_text.specs.LogicalLines.{kept_left, lines_in, IsAtStart};

    ghost Value = { Lines };

    ghost view = { λ a. record { lines = lines_in (kept_left a.first a.kept); orphans = a.orphans.items } };

    ghost invariant = { λ a. IsAtStart a.first a.kept };
}

ghost use Rattle.std.specs.Prelude.{◌≡◌, ◌++◌, ◌∷◌, [], false, Some, None, IfOk, OnErr, IfSome, IfNone, flat_map};
ghost use Rattle.relay_text.specs.Lines.{begins_logical_line, cut_before, logical_lines_of};
ghost use Rattle.relay_text.specs.KeptLines.{kept_line, kept_rest};
ghost use Rattle.relay_text.specs.LogicalLines.{kept_left, logical_line, IsAtStart, IsBeginning};

impl<'a> LogicalLines<'a> {
    /// A reader that begins at the first logical line. `Err` where memory runs out.
    pub fn new(alloc: Global, bytes: &'a [u8]) -> Result<LogicalLines<'a>, AllocError>
        ensures { IfOk result (λ lines. lines ≡ logical_lines_of bytes.now) }
    {
        let mut kept = KeptLines::new(bytes);
        let mut orphans = Vec::new(alloc);
        let mut first = kept.next_line();
        while let Some(line) = continuing(first) {
            orphans.push(line.number)?;
            first = kept.next_line();
        }
        Ok(LogicalLines {
            first,
            kept,
            orphans,
        })
    }

    /// The numbers of the physical lines that continue no logical line, ascending: they stand before the first one.
    pub fn orphans(&self) -> &[usize]
        ensures { result.now ≡ self.now.orphans }
    {
        self.orphans.as_slice()
    }

    /// The same where nothing else is read any more, without taking memory.
    pub(crate) fn into_orphans(self) -> Seq<usize>
        ensures { result ≡ self.entry.orphans }
    {
        let LogicalLines {
            first: _,
            kept: _,
            orphans,
        } = self;
        Seq::of(orphans)
    }

    /// The next logical line; `None` at the end, and again from then on. The parts of a line that others continue are joined in `joined`, in
    /// place of what that holds. `Err` where memory runs out for them; the lines that are left are then as they were.
    pub fn next_line<'b>(
        &mut self,
        joined: &'b mut Vec<u8>,
    ) -> Result<Option<LogicalLine<'b>>, AllocError>
    where
        'a: 'b,
        ensures none { IfOk result (λ line. IfNone line (self.old.lines ≡ [])) }
        ensures some { IfOk result (λ line. IfSome line (λ l. self.old.lines ≡ logical_line l ∷ self.new.lines)) }
        ensures err { OnErr result (self.new ≡ self.old) }
        ensures orphans { self.new.orphans ≡ self.old.orphans }
    {
        let Some(first) = self.first else {
            return Ok(None);
        };
        let mut kept = self.kept;
        let next = kept.next_line();
        if continuing(next).is_none() {
            self.first = next;
            self.kept = kept;
            return Ok(Some(LogicalLine {
                number: first.number,
                text: first.text,
            }));
        }
        let next = join(first.text, next, &mut kept, joined)?;
        self.first = next;
        self.kept = kept;
        Ok(Some(LogicalLine {
            number: first.number,
            text: joined.as_slice(),
        }))
    }
}

/// Joins the first line of a logical line and those that continue it, and gives the one behind them.
fn join<'a>(
    first: &[u8],
    next: Option<KeptLine<'a>>,
    kept: &mut KeptLines<'a>,
    joined: &mut Vec<u8>,
) -> Result<Option<KeptLine<'a>>, AllocError>
    requires ended { next ≡ None → kept_rest kept.old ≡ [] }
    ensures joined { IfOk result (λ _. joined.new.items ≡ first.now ++ flat_map (λ l. l.text) (cut_before begins_logical_line (kept_left next.entry kept.old)).before) }
    ensures left { IfOk result (λ after. (cut_before begins_logical_line (kept_left after kept.new)).pieces ≡ (cut_before begins_logical_line (kept_left next.entry kept.old)).pieces) }
    ensures started { IfOk result (λ after. IsAtStart after kept.new) }
{
    joined.clear();
    joined.extend_from_slice(first)?;
    let mut next = next;
    while let Some(line) = continuing(next) {
        joined.extend_from_slice(line.text)?;
        next = kept.next_line();
    }
    Ok(next)
}

/// The line, where it continues a logical line.
fn continuing(line: Option<KeptLine<'_>>) -> Option<KeptLine<'_>>
    ensures some { IfSome result (λ l. (line.entry ≡ Some l) × (begins_logical_line (kept_line l) ≡ false)) }
    ensures none { IfNone result (IsBeginning line.entry) }
{
    let line = line?;
    match line.text.first() {
        Some(byte) if !is_white(*byte) => None,
        _ => Some(line),
    }
}
