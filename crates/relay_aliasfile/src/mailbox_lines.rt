//! What the lines of a mailbox file say, before repeats are dropped.
use crate::fault::{FaultKind, LineFault, add_fault};
use crate::names::folded_name;
use relay_halves::PartRead;
use relay_text::{KeptLines, Text, trimmed};
use std::alloc::{AllocError, Global};

// Behind so many names room is made for as many as are expected: a file whose lines are at fault takes none.
const FEW: usize = 64;

/// The names on the lines of a text, repeats too, and its lines at fault.
#[derive(Drop)]
pub(crate) struct MailboxLines {
    pub(crate) names: Vec<Text>,
    pub(crate) faults: Vec<LineFault>,
}

ghost use Rattle.std.specs.Prelude.{◌≡◌, ◌++◌, option_to_list, OnOk};
ghost use Rattle.relay_aliasfile.specs.MailboxFiles.{name_in, faults_in};

impl PartRead for MailboxLines {
    ghost use Rattle.relay_aliasfile.specs.MailboxLines.{AreBoth, AreRead};
    ghost use Rattle.relay_aliasfile.specs.MailboxParts.{mailboxes_read_on};

    ghost is_read = { AreRead };

    ghost makes = { AreBoth };

    fn read(
        alloc: Global,
        expected: usize,
        passed: usize,
        bytes: &[u8],
    ) -> Result<MailboxLines, AllocError> {
        let names: Vec<Text> = Vec::new(alloc);
        let faults: Vec<LineFault> = Vec::new(alloc);
        let mut said = MailboxLines { names, faults };
        let mut lines = KeptLines::new(bytes);
        while let Some(line) = lines.next_line() {
            said.make_room(expected)?;
            said.add_line(alloc, passed + line.number, line.text)?;
        }
        Ok(said)
    }

    fn append(&mut self, mut more: MailboxLines) -> Result<(), AllocError> {
        self.names.append(&mut more.names)?;
        self.faults.append(&mut more.faults)?;
        Ok(())
    }

    ghost reads_on = { mailboxes_read_on };
}

impl MailboxLines {
    /// Makes room for the names that are expected, once there are some.
    fn make_room(&mut self, expected: usize) -> Result<(), AllocError>
        ensures names { OnOk result (self.new.names.items ≡ self.old.names.items) }
        ensures faults { OnOk result (self.new.faults ≡ self.old.faults) }
    {
        if self.names.len() == FEW {
            self.names.reserve(expected)?;
        }
        Ok(())
    }

    /// Adds what a line says.
    fn add_line(&mut self, alloc: Global, number: usize, text: &[u8]) -> Result<(), AllocError>
        ensures names { OnOk result (self.new.names.items ≡ self.old.names.items ++ option_to_list (name_in (record { number = number; text = text.now }))) }
        ensures faults { OnOk result (self.new.faults.items ≡ self.old.faults.items ++ faults_in (record { number = number; text = text.now })) }
    {
        let Some(name) = folded_name(alloc, trimmed(text))? else {
            return add_fault(number, FaultKind::BadLine, &mut self.faults);
        };
        self.names.push(name)?;
        Ok(())
    }
}
