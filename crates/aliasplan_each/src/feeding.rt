//! The sections of envelopes that come from a reader one after another.
use crate::pending::Pending;
use crate::read_section::ReadSection;
use aliasplan::{Feed, RunFault};
use relay_envelopes::{LineKind, line_kind};
use relay_job::RawLine;
use std::alloc::{AllocError, Global};

/// The lines that were read: those behind the last heading are its section's.
#[derive(Drop)]
pub(crate) struct Feeding {
    pending: Pending,
    /// How many lines have come.
    number: usize,
    begun: Option<ReadSection>,
    /// Whether `%tables` has come, and wasn't passed yet.
    asked: bool,
}

impl Feeding {
    ghost use Rattle.std.specs.Prelude.{◌≡◌, ◌≢◌, ◌==◌, ◌+◌, ◌-◌, ◌^◌, ◌≤◌, ◌<◌, ◌++◌, true, false, [], length, None, Ok, Err, IfOk, IfErr, OnOk, IfSome};
    ghost use Rattle.std.specs.List.{position_or_len};
    ghost use Rattle.std.specs.Io.KnownBytes.{IsAtEnd, prepend_known};
    ghost use Rattle.relay_job.specs.Places.{line_of};
    ghost use Rattle.relay_envelopes.specs.Kinds.{kind_of};
    ghost use Rattle.aliasplan.specs.Outcomes.{IsReadFault};
    ghost use Rattle.aliasplan_each.specs.Asks.{planned, with_line, asked_at, behind};
    ghost use Rattle.aliasplan_each.specs.Feeding.{turned, kept_some, LeadsKnown, room};

    /// Before the first line.
    pub(crate) fn start(alloc: Global) -> Result<Feeding, AllocError>
        ensures pending { IfOk result (λ feeding. feeding.pending ≡ []) }
        ensures number { IfOk result (λ feeding. feeding.number ≡ 0) }
        ensures begun { IfOk result (λ feeding. feeding.begun ≡ None) }
        ensures asked { IfOk result (λ feeding. feeding.asked ≡ false) }
    {
        Ok(Feeding {
            pending: Pending::none(alloc)?,
            number: 0,
            begun: None,
            asked: false,
        })
    }

    // Adds a line to the section that goes on, or begins one by it.
    fn add(&mut self, alloc: Global, line: &RawLine<'_>, max: usize) -> Result<(), AllocError>
        requires { max < 2 ^ 32 }
        ensures begun { OnOk result (self.new.begun ≡ kept_some max (with_line max self.old.begun (line_of line.now))) }
        ensures number { self.new.number ≡ self.old.number }
        ensures pending { self.new.pending ≡ self.old.pending }
        ensures asked { self.new.asked ≡ self.old.asked }
    {
        match &mut self.begun {
            Some(section) => section.add(line, max),
            None => {
                self.begun = Some(ReadSection::stray(alloc, line, max)?);
                Ok(())
            }
        }
    }

    // Takes the next line. The section that ends before it or by it is answered.
    fn take(
        &mut self,
        alloc: Global,
        raw: &[u8],
        max: usize,
    ) -> Result<Option<ReadSection>, RunFault>
        requires once { length raw.now ≤ position_or_len (λ b. b == 10) raw.now + 1 }
        requires max { max < 2 ^ 32 }
        requires asked { self.old.asked ≡ false }
        ensures given { IfOk result (λ given. planned given ++ turned self.new.asked ≡ asked_at (kind_of max (record { number = self.old.number + 1; raw = raw.now })) self.old.begun) }
        ensures begun { OnOk result (self.new.begun ≡ kept_some max (behind max (kind_of max (record { number = self.old.number + 1; raw = raw.now })) self.old.begun (record { number = self.old.number + 1; raw = raw.now }))) }
        ensures asked { OnOk result (self.new.asked ≡ true → self.new.begun ≡ None) }
        ensures number { OnOk result (self.new.number ≡ self.old.number + 1) }
        ensures within { OnOk result (self.old.number + 1 < 2 ^ 64) }
        ensures pending { self.new.pending ≡ self.old.pending }
        ensures refused { IfErr result (λ fault. fault ≢ RunFault.Memory → (fault ≡ RunFault.TooLong) × (2 ^ 64 ≤ self.old.number + 1)) }
    {
        let Some(number) = self.number.checked_add(1) else {
            return Err(RunFault::TooLong);
        };
        self.number = number;
        let line = RawLine { number, raw };
        match line_kind(&line, max) {
            LineKind::Tables => {
                self.asked = true;
                Ok(self.begun.take())
            }
            LineKind::Envelope => {
                let next = ReadSection::begin(alloc, &line, max)?;
                Ok(self.begun.replace(next))
            }
            LineKind::End if self.begun.is_some() => Ok(self.begun.take()),
            LineKind::Blank if self.begun.is_none() => Ok(None),
            LineKind::End | LineKind::Blank | LineKind::Other => {
                self.add(alloc, &line, max)?;
                Ok(None)
            }
        }
    }

    /// Whether the sections ended at `%tables`. Then those behind it are to come.
    pub(crate) fn passes_tables(&mut self) -> bool
        ensures result { result ≡ self.old.asked }
        ensures pending { self.new.pending ≡ self.old.pending }
        ensures number { self.new.number ≡ self.old.number }
        ensures begun { self.new.begun ≡ self.old.begun }
        ensures asked { self.new.asked ≡ false }
    {
        let asked = self.asked;
        self.asked = false;
        asked
    }

    /// The next section, once `%end`, `%tables` or the heading behind it has come or the reader has ended; `None` where none is to come
    /// before `%tables`, or at all.
    ///
    /// TooLong comes where there are more bytes than 64 bits can count.
    pub(crate) fn next<F: Feed>(
        &mut self,
        alloc: Global,
        reader: &mut F,
        max: usize,
    ) -> Result<Option<ReadSection>, RunFault>
        requires works { F.has_failed reader.old ≡ false }
        requires told { F.has_ended reader.old ≡ true → IsAtEnd (F.remaining reader.old) }
        requires asked { self.old.asked ≡ true → self.old.begun ≡ None }
        requires max { max < 2 ^ 32 }
        ensures given { IfOk result (λ given. LeadsKnown max self.old.number self.old.asked self.old.begun (prepend_known self.old.pending (F.remaining reader.old)) (planned given) self.new.number self.new.asked self.new.begun (prepend_known self.new.pending (F.remaining reader.new))) }
        ensures none { result ≡ Ok None → self.new.begun ≡ None }
        ensures end { result ≡ Ok None → self.new.asked ≡ false → (IsAtEnd (prepend_known self.new.pending (F.remaining reader.new))) × (F.has_ended reader.new ≡ true) }
        ensures asked { OnOk result (self.new.asked ≡ true → self.new.begun ≡ None) }
        ensures fewer { IfOk result (λ given. length (planned given) + room self.new.number self.new.asked self.new.begun ≤ room self.old.number self.old.asked self.old.begun) }
        ensures only { IfErr result IsReadFault }
        ensures long { result ≡ Err RunFault.TooLong → IfSome (prepend_known self.old.pending (F.remaining reader.old)) (λ bytes. 2 ^ 64 - 1 ≤ self.old.number + length bytes) }
        ensures told { OnOk result (F.has_ended reader.new ≡ true → IsAtEnd (F.remaining reader.new)) }
        ensures read { (result ≡ Err RunFault.Read → F.has_failed reader.new ≡ true) × (result ≢ Err RunFault.Read → F.has_failed reader.new ≡ false) }
    {
        let mut line = Vec::new(alloc);
        while !self.asked {
            if !self.pending.next_line(reader, &mut line, max)? {
                return Ok(self.begun.take());
            }
            if let Some(section) = self.take(alloc, &line, max)? {
                return Ok(Some(section));
            }
            line.clear();
        }
        Ok(None)
    }
}
