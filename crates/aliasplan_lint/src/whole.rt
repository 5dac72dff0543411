//! All that is told of findings.
ghost use Rattle.std.specs.Prelude.{◌≡◌, ◌<◌, ℕ, false, true, length, slice_index_or, OnOk, IfOk};
ghost use Rattle.aliasplan_lint.specs.Lints.{AreWhole};
ghost use Rattle.aliasplan_lint.specs.Marks.{AreMarked, Covers, Marks};

use crate::kind::Kind;
use crate::lint::{Lint, Spot};
use crate::section::Section;
use relay_text::Text;
use std::alloc::{AllocError, Global};

/// Lints of some of these findings, and which are told.
#[derive(Drop)]
pub(crate) struct Whole<'a> {
    pub(crate) lints: Vec<Lint<'a>>,
    pub(crate) told: Vec<bool>,
}

impl<'a> Whole<'a> {
    /// Adds a lint of the finding at a place, as what that finding is.
    fn add(&mut self, findings: &[Text], lint: Lint<'a>, place: usize) -> Result<(), AllocError>
        requires place { place < length findings.now }
        requires told { length self.old.told.items ≡ length findings.now }
        ensures { OnOk result (Marks findings.now place self.old self.new) }
    {
        let mut lint = lint;
        lint.finding = Some(place);
        lint.kind = Kind::of_line(findings[place].as_bytes());
        self.lints.push(lint)?;
        self.told[place] = true;
        Ok(())
    }

    /// Adds a lint, where it is of a finding.
    fn add_any(&mut self, findings: &[Text], lint: Lint<'a>) -> Result<(), AllocError>
        requires { AreMarked findings.now self.old }
        ensures { OnOk result (AreMarked findings.now self.new) }
    {
        let Some(place) = lint.finding else {
            return Ok(());
        };
        if place >= findings.len() {
            return Ok(());
        }
        self.add(findings, lint, place)
    }

    /// Adds those lints that are of a finding.
    fn add_all(&mut self, findings: &[Text], lints: Vec<Lint<'a>>) -> Result<(), AllocError>
        requires { AreMarked findings.now self.old }
        ensures { OnOk result (AreMarked findings.now self.new) }
    {
        for lint in lints {
            self.add_any(findings, lint)?;
        }
        Ok(())
    }

    /// Adds a lint of no place in a file of the finding at a place, unless something is told of it.
    fn add_untold(
        &mut self,
        alloc: Global,
        findings: &[Text],
        place: usize,
    ) -> Result<(), AllocError>
        requires place { place < length findings.now }
        requires marked { AreMarked findings.now self.old }
        ensures { OnOk result (Covers findings.now place self.old self.new) }
    {
        if self.told[place] {
            return Ok(());
        }
        let lint = unplaced(alloc, &findings[place])?;
        self.add(findings, lint, place)
    }

    /// Adds a lint of each finding of which nothing is told.
    fn add_others(&mut self, alloc: Global, findings: &[Text]) -> Result<(), AllocError>
        requires { AreMarked findings.now self.old }
        ensures marked { OnOk result (AreMarked findings.now self.new) }
        ensures all { OnOk result ((k : ℕ) → k < length findings.now → slice_index_or self.new.told.items k false ≡ true) }
    {
        for place in 0..findings.len() {
            self.add_untold(alloc, findings, place)?;
        }
        Ok(())
    }
}

/// A lint of no place in a file.
fn unplaced<'a>(alloc: Global, finding: &Text) -> Result<Lint<'a>, AllocError> {
    let spot = Spot {
        section: Section::Aliases,
        line: 1,
        column: None,
    };
    Ok(Lint {
        kind: Kind::BadLine,
        is_noted: false,
        spot,
        finding: None,
        subject: Text::copy_of(alloc, finding.as_bytes())?,
        reason: Text::copy_of(alloc, b"")?,
    })
}

/// Lints of findings, each as what it is, and one of each finding that has none.
pub(crate) fn whole_of<'a>(
    alloc: Global,
    findings: &[Text],
    lints: Vec<Lint<'a>>,
) -> Result<Vec<Lint<'a>>, AllocError>
    ensures { IfOk result (λ whole. AreWhole findings.now whole.items) }
{
    let mut whole = Whole {
        lints: Vec::new(alloc),
        told: vec![in alloc; false; findings.len()]?,
    };
    whole.add_all(findings, lints)?;
    whole.add_others(alloc, findings)?;
    let Whole { lints, told: _ } = whole;
    Ok(lints)
}
