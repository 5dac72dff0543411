//! What the lists and lines of a job's files may be told for.
use crate::kind::Kind;
use crate::lint::{Lint, Spot};
use crate::rules::route_rule;
use relay_text::Text;
use relay_wire::{Finding, finding_line};
use std::alloc::{AllocError, Global};

/// What is told, and of which of the check's findings something is.
#[derive(Drop)]
pub(crate) struct Lints<'a> {
    /// The lines of the check, in the order of their bytes.
    findings: &'a [Text],
    lints: Vec<Lint<'a>>,
    told: Vec<bool>,
}

/// What may be told of a place, if the check has found it.
#[derive(Clone, Copy)]
pub(crate) struct Remark<'a, 'b> {
    pub(crate) finding: &'b Finding,
    pub(crate) spot: Spot<'a>,
    pub(crate) subject: &'b [u8],
    pub(crate) reason: &'b [u8],
    /// Whether a duplicate is of another file, and so only a note.
    pub(crate) is_noted: bool,
}

/// The place of the first line that begins so, where the lines stand in the order of their bytes.
fn place_from(findings: &[Text], front: &[u8]) -> Option<usize> {
    let mut low = 0;
    let mut high = findings.len();
    while low < high {
        let middle = low + (high - low) / 2;
        if findings[middle].as_bytes() < front {
            low = middle + 1;
        } else {
            high = middle;
        }
    }
    if findings.get(low)?.as_bytes().starts_with(front) {
        Some(low)
    } else {
        None
    }
}

/// The place of a line.
fn place_of(findings: &[Text], line: &[u8]) -> Option<usize> {
    let place = place_from(findings, line)?;
    if findings.get(place)?.len() == line.len() {
        Some(place)
    } else {
        None
    }
}

impl<'a> Lints<'a> {
    /// Nothing is told of these.
    pub(crate) fn new(alloc: Global, findings: &'a [Text]) -> Result<Lints<'a>, AllocError> {
        Ok(Lints {
            findings,
            lints: Vec::new(alloc),
            told: vec![in alloc; false; findings.len()]?,
        })
    }

    /// Tells of the finding at a place.
    fn add(&mut self, lint: Lint<'a>, place: usize) -> Result<(), AllocError> {
        self.lints.push(lint)?;
        if place < self.told.len() {
            self.told[place] = true;
        }
        Ok(())
    }

    /// Tells a remark, if the check has found it.
    pub(crate) fn tell(&mut self, alloc: Global, remark: Remark<'a, '_>) -> Result<(), AllocError> {
        let line = finding_line(alloc, remark.finding)?;
        let Some(place) = place_of(self.findings, line.as_bytes()) else {
            return Ok(());
        };
        let lint = Lint {
            kind: Kind::of(remark.finding),
            is_noted: remark.is_noted,
            spot: remark.spot,
            finding: Some(place),
            subject: Text::copy_of(alloc, remark.subject)?,
            reason: Text::copy_of(alloc, remark.reason)?,
        };
        self.add(lint, place)
    }

    /// Tells of an address in angle brackets that it has no route, if the check has found so and it isn't told yet.
    pub(crate) fn tell_unrouted(
        &mut self,
        alloc: Global,
        path: &[u8],
        spot: Spot<'a>,
    ) -> Result<(), AllocError> {
        let mut front = Vec::from_slice(alloc, b"finding unrouted ")?;
        front.extend_from_slice(path)?;
        front.push(b' ')?;
        let Some(place) = place_from(self.findings, front.as_slice()) else {
            return Ok(());
        };
        if self.told.get(place) == Some(&true) {
            return Ok(());
        }
        let Some(line) = self.findings.get(place) else {
            return Ok(());
        };
        let reason = line.as_bytes().get(front.len()..).unwrap_or(&[]);
        let lint = Lint {
            kind: Kind::Unrouted,
            is_noted: false,
            spot,
            finding: Some(place),
            subject: Text::copy_of(alloc, path)?,
            reason: Text::copy_of(alloc, route_rule(reason))?,
        };
        self.add(lint, place)
    }

    /// What is told.
    pub(crate) fn into_lints(self) -> Vec<Lint<'a>> {
        let Lints {
            findings: _,
            lints,
            told: _,
        } = self;
        lints
    }
}
