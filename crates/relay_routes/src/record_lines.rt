//! What the lines of an MX table say, before their domains are numbered.
use crate::fault::{FaultKind, LineFault};
use crate::mx_line::record_in;
use crate::mx_record::MxRecord;
use relay_halves::PartRead;
use relay_text::KeptLines;
use std::alloc::{AllocError, Global};

/// The records on the lines of a text, and its lines at fault.
#[derive(Drop)]
pub(crate) struct RecordLines {
    pub(crate) records: Vec<MxRecord>,
    pub(crate) faults: Vec<LineFault>,
}

ghost use Rattle.std.specs.Prelude.{◌≡◌, ◌++◌, option_to_list, OnOk};
ghost use Rattle.relay_routes.specs.Exchanges.{record_in, faults_in};

impl PartRead for RecordLines {
    ghost use Rattle.relay_routes.specs.RecordLines.{AreBoth, AreRead};
    ghost use Rattle.relay_routes.specs.RecordParts.{records_read_on};

    ghost is_read = { AreRead };

    ghost makes = { AreBoth };

    fn read(
        alloc: Global,
        expected: usize,
        passed: usize,
        bytes: &[u8],
    ) -> Result<RecordLines, AllocError> {
        let records = Vec::with_capacity(alloc, expected)?;
        let faults: Vec<LineFault> = Vec::new(alloc);
        let mut said = RecordLines { records, faults };
        let mut lines = KeptLines::new(bytes);
        while let Some(line) = lines.next_line() {
            said.add_line(alloc, passed + line.number, line.text)?;
        }
        Ok(said)
    }

    fn append(&mut self, mut more: RecordLines) -> Result<(), AllocError> {
        self.records.append(&mut more.records)?;
        self.faults.append(&mut more.faults)?;
        Ok(())
    }

    ghost reads_on = { records_read_on };
}

impl RecordLines {
    /// Adds what a line says.
    fn add_line(&mut self, alloc: Global, number: usize, text: &[u8]) -> Result<(), AllocError>
        ensures records { OnOk result (self.new.records.items ≡ self.old.records.items ++ option_to_list (record_in (record { number = number; text = text.now }))) }
        ensures faults { OnOk result (self.new.faults.items ≡ self.old.faults.items ++ faults_in (record { number = number; text = text.now })) }
    {
        match record_in(alloc, text)? {
            Some(record) => self.records.push(record)?,
            None => self.faults.push(LineFault {
                line: number,
                kind: FaultKind::BadLine,
            })?,
        }
        Ok(())
    }
}
