//! Sections of envelopes that own their bytes.
use relay_envelopes::{EnvelopeSection, envelope_id};
use relay_job::RawLine;
use relay_text::Text;
use std::alloc::{AllocError, Global};
use std::marker::Model;

/// The section of one envelope, as far as it is read. Of one that is too long, one byte more than the limit is kept.
#[derive(Drop)]
pub(crate) struct ReadSection {
    number: usize,
    id: Text,
    lines: Vec<u8>,
}

impl Model for ReadSection {
    ghost use Rattle.relay_envelopes.specs.Sections.{Section};

    ghost Value = { Section };

    ghost view = { λ s. record { line = s.number; id = s.id; bytes = s.lines.items } };
}

impl ReadSection {
    ghost use Rattle.std.specs.Prelude.{◌≡◌, ◌<◌, ◌^◌, [], IfOk, OnOk};
    ghost use Rattle.relay_envelopes.specs.Envelopes.{section_in};
    ghost use Rattle.relay_job.specs.Places.{line_of};
    ghost use Rattle.aliasplan_each.specs.Asks.{begun_by, stray, with_more, content_of};
    ghost use Rattle.aliasplan_each.specs.Feeding.{kept};

    // The section of this ID, without a line.
    fn named(alloc: Global, number: usize, id: &[u8]) -> Result<ReadSection, AllocError>
        ensures { IfOk result (λ section. section ≡ record { line = number; id = id.now; bytes = [] }) }
    {
        Ok(ReadSection {
            number,
            id: Text::copy_of(alloc, id)?,
            lines: Vec::new(alloc),
        })
    }

    /// The section that a line begins which is no envelope's heading. `Err` where memory runs out, as in the calls below.
    pub(crate) fn stray(
        alloc: Global,
        line: &RawLine<'_>,
        max: usize,
    ) -> Result<ReadSection, AllocError>
        requires { max < 2 ^ 32 }
        ensures { IfOk result (λ section. section ≡ kept max (stray max (line_of line.now))) }
    {
        let mut section = ReadSection::named(alloc, line.number, b"?")?;
        section.add(line, max)?;
        Ok(section)
    }

    /// The section that `%envelope` begins.
    pub(crate) fn begin(
        alloc: Global,
        line: &RawLine<'_>,
        max: usize,
    ) -> Result<ReadSection, AllocError>
        requires { max < 2 ^ 32 }
        ensures { IfOk result (λ section. section ≡ kept max (begun_by max (line_of line.now))) }
    {
        match envelope_id(line.text()) {
            Some(id) => ReadSection::named(alloc, line.number, id),
            None => ReadSection::stray(alloc, line, max),
        }
    }

    /// Adds a line, in front of a heading with one more `%`, and keeps no more than `max` bytes and one.
    pub(crate) fn add(&mut self, line: &RawLine<'_>, max: usize) -> Result<(), AllocError>
        requires { max < 2 ^ 32 }
        ensures { OnOk result (self.new ≡ kept max (with_more self.old (content_of max (line_of line.now)))) }
    {
        if line.raw.len() <= max && line.is_heading() {
            self.lines.push(b'%')?;
        }
        self.lines.extend_from_slice(line.raw)?;
        self.lines.truncate(max + 1);
        Ok(())
    }

    /// The section, borrowed.
    pub(crate) fn as_section(&self) -> EnvelopeSection<'_>
        ensures { section_in result ≡ self.now }
    {
        EnvelopeSection {
            line: self.number,
            id: self.id.as_bytes(),
            bytes: &self.lines,
        }
    }
}
