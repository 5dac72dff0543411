//! The text that is gathered.
use relay_job::RunFault;
use relay_text::{Text, split_line};
use std::alloc::Global;

/// What is gathered so far, and how many more bytes it may have.
#[derive(Drop)]
pub struct Gathered {
    bytes: Vec<u8>,
    room: usize,
}

ghost use Rattle.std.specs.Prelude.{◌≡◌, ◌++◌, [], codes, IfErr, OnOk};
ghost use Rattle.relay_gather.specs.Sections.{section_body, section_text};
ghost use Rattle.relay_gather.specs.Gathered.{written_line, Puts, Overflows};

impl Gathered {
    /// Nothing, with room for so many bytes.
    pub(crate) fn new(alloc: Global, room: usize) -> Gathered
        ensures bytes { result.bytes.items ≡ [] }
        ensures room { result.room ≡ room }
    {
        Gathered {
            bytes: Vec::new(alloc),
            room,
        }
    }

    /// The text, without taking memory.
    pub(crate) fn into_text(self) -> Text
        ensures { result ≡ self.bytes.items }
    {
        Text::of(self.bytes)
    }

    /// Puts bytes at the end, where there is room.
    fn put(&mut self, piece: &[u8]) -> Result<(), RunFault>
        ensures ok { OnOk result (Puts piece.now self.old self.new) }
        ensures err { IfErr result (Overflows piece.now self.old.room) }
    {
        if piece.len() > self.room {
            return Err(RunFault::TooLong);
        }
        self.bytes.extend_from_slice(piece)?;
        self.room -= piece.len();
        Ok(())
    }

    /// Puts a line of a file, as a job has it: one that begins with `%` has one more of it, and each ends with LF.
    fn put_line(&mut self, line: &[u8]) -> Result<(), RunFault>
        ensures ok { OnOk result (Puts (written_line line.now) self.old self.new) }
        ensures err { IfErr result (Overflows (written_line line.now) self.old.room) }
    {
        if line.starts_with(b"%") {
            self.put(b"%")?;
        }
        self.put(line)?;
        if !line.ends_with(b"\n") {
            self.put(b"\n")?;
        }
        Ok(())
    }

    /// Puts the lines of a file.
    fn put_body(&mut self, file: &[u8]) -> Result<(), RunFault>
        ensures ok { OnOk result (Puts (section_body file.now) self.old self.new) }
        ensures err { IfErr result (Overflows (section_body file.now) self.old.room) }
    {
        let mut rest = file;
        while let Some((line, after)) = split_line(rest) {
            rest = after;
            self.put_line(line)?;
        }
        Ok(())
    }

    /// Puts a section: its heading and the lines of its file.
    pub(crate) fn put_section(&mut self, heading: &[u8], file: &[u8]) -> Result<(), RunFault>
        ensures ok { OnOk result (Puts (section_text heading.now file.now) self.old self.new) }
        ensures err { IfErr result (Overflows (section_text heading.now file.now) self.old.room) }
    {
        self.put(heading)?;
        self.put(b"\n")?;
        self.put_body(file)
    }

    /// Puts the section of an include file.
    pub(crate) fn put_include(&mut self, path: &[u8], file: &[u8]) -> Result<(), RunFault>
        ensures ok { OnOk result (Puts (section_text (codes "%include " ++ path.now) file.now) self.old self.new) }
        ensures err { IfErr result (Overflows (section_text (codes "%include " ++ path.now) file.now) self.old.room) }
    {
        self.put(b"%include ")?;
        self.put_section(path, file)
    }
}
