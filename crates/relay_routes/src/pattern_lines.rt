//! What the lines of a transport table say, before later lines of one pattern are dropped.
use crate::fault::{FaultKind, LineFault};
use crate::transport_line::{TransportLine, line_of};
use relay_halves::PartRead;
use relay_text::LogicalLines;
use std::alloc::{AllocError, Global};

/// The patterns and results on the lines of a text, repeats too, and its lines at fault.
#[derive(Drop)]
pub(crate) struct PatternLines {
    pub(crate) entries: Vec<TransportLine>,
    pub(crate) faults: Vec<LineFault>,
}

ghost use Rattle.std.specs.Prelude.{◌≡◌, ◌+◌, ◌^◌, ◌<◌, ◌++◌, ◌∷◌, [], All, map, option_to_list, OnOk};
ghost use Rattle.relay_routes.specs.declared.fault.FaultKind.TheVariants.{BadLine};
ghost use Rattle.relay_routes.specs.PatternLines.{bad_line, orphan_faults};
ghost use Rattle.relay_routes.specs.Transports.{fault, line_of};

impl PartRead for PatternLines {
    ghost use Rattle.relay_routes.specs.PatternLines.{AreBoth, AreRead};
    ghost use Rattle.relay_routes.specs.PatternParts.{patterns_read_on};

    ghost is_read = { AreRead };

    ghost makes = { AreBoth };

    fn read(
        alloc: Global,
        expected: usize,
        passed: usize,
        bytes: &[u8],
    ) -> Result<PatternLines, AllocError> {
        let mut lines = LogicalLines::new(alloc, bytes)?;
        let entries = Vec::with_capacity(alloc, expected)?;
        let faults: Vec<LineFault> = Vec::new(alloc);
        let mut said = PatternLines { entries, faults };
        said.add_orphans(passed, lines.orphans())?;
        let mut joined = Vec::new(alloc);
        while let Some(line) = lines.next_line(&mut joined)? {
            said.add_line(alloc, passed + line.number, line.text)?;
        }
        Ok(said)
    }

    fn append(&mut self, mut more: PatternLines) -> Result<(), AllocError> {
        self.entries.append(&mut more.entries)?;
        self.faults.append(&mut more.faults)?;
        Ok(())
    }

    ghost reads_on = { patterns_read_on };
}

impl PatternLines {
    /// Adds the lines that continue no logical line, where so many lines of the table stand before their text.
    fn add_orphans(&mut self, passed: usize, orphans: &[usize]) -> Result<(), AllocError>
        requires { All (λ n. passed + n < 2 ^ 64) orphans.now }
        ensures entries { OnOk result (self.new.entries.items ≡ self.old.entries.items) }
        ensures faults { OnOk result (self.new.faults.items ≡ self.old.faults.items ++ orphan_faults (map (λ n. passed + n) orphans.now)) }
    {
        for number in orphans {
            self.add_fault(passed + *number)?;
        }
        Ok(())
    }

    /// Adds what a line says.
    fn add_line(&mut self, alloc: Global, number: usize, text: &[u8]) -> Result<(), AllocError>
        ensures entries { OnOk result (self.new.entries.items ≡ self.old.entries.items ++ option_to_list (line_of text.now)) }
        ensures faults { OnOk result (self.new.faults.items ≡ self.old.faults.items ++ bad_line number (line_of text.now)) }
    {
        match line_of(alloc, text)? {
            Some(entry) => self.entries.push(entry)?,
            None => self.add_fault(number)?,
        }
        Ok(())
    }

    /// Adds a line that says nothing that can be read.
    fn add_fault(&mut self, line: usize) -> Result<(), AllocError>
        ensures entries { OnOk result (self.new.entries ≡ self.old.entries) }
        ensures faults { OnOk result (self.new.faults.items ≡ self.old.faults.items ++ fault line BadLine ∷ []) }
    {
        self.faults.push(LineFault {
            line,
            kind: FaultKind::BadLine,
        })?;
        Ok(())
    }
}
