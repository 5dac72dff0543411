//! Standard output.
use std::io;
use std::io::{ErrorKind, Write};

/// A writer to standard output that knows whether its reader has gone away.
#[derive(Drop)]
pub struct StandardOutput<W> {
    inner: W,
    has_lost_reader: bool,
}

impl<W> StandardOutput<W> {
    pub(crate) fn new(inner: W) -> StandardOutput<W> {
        StandardOutput {
            inner,
            has_lost_reader: false,
        }
    }

    /// Whether a write failed since nobody reads any more (write(2), EPIPE): the reader has what it wanted.
    pub(crate) fn has_lost_reader(&self) -> bool {
        self.has_lost_reader
    }
}

impl<W: Write> Write for StandardOutput<W> {
    fn write(&mut self, buf: &[u8]) -> io::Result<usize> {
        let answer = self.inner.write(buf);
        if let Err(error) = &answer {
            self.has_lost_reader = error.kind() == ErrorKind::BrokenPipe;
        }
        answer
    }

    fn flush(&mut self) -> io::Result<()> {
        self.inner.flush()
    }
}
