//! Readers and writers that fail, stop or go on without end. Each tells what it holds, but for the one that has no end.
ghost use Rattle.std.specs.Prelude.{false, Some, []};

use aliasplan::{Failed, Feed, Sink};

/// A reader that gives its bytes in pieces, and fails at one of its reads.
#[derive(Drop)]
pub struct Pieces<'a> {
    pub rest: &'a [u8],
    /// How many bytes a read gives at most. One gives at least a byte of those that are left, whatever this is.
    pub piece: usize,
    /// How many reads work.
    pub good_reads: usize,
    pub reads: usize,
    pub failed: bool,
    pub ended: bool,
}

impl<'a> Pieces<'a> {
    ghost use Rattle.std.specs.Prelude.{◌≡◌, false};

    pub(crate) fn new(rest: &'a [u8], piece: usize, good_reads: usize) -> Pieces<'a>
        ensures rest { result.rest.now ≡ rest.now }
        ensures failed { result.failed ≡ false }
        ensures ended { result.ended ≡ false }
    {
        Pieces {
            rest,
            piece,
            good_reads,
            reads: 0,
            failed: false,
            ended: false,
        }
    }
}

impl Feed for Pieces<'_> {
    ghost remaining = { λ p. Some p.rest.now };

    ghost has_failed = { λ p. p.failed };

    ghost has_ended = { λ p. p.ended };

    fn read(&mut self, buf: &mut [u8]) -> Result<usize, Failed> {
        self.reads = self.reads.saturating_add(1);
        if self.reads > self.good_reads {
            self.failed = true;
            return Err(Failed);
        }
        let most = self.piece.max(1).min(buf.len());
        let count = self.rest.len().min(most);
        buf[..count].copy_from_slice(&self.rest[..count]);
        self.rest = &self.rest[count..];
        if count == 0 && !buf.is_empty() {
            self.ended = true;
        }
        Ok(count)
    }

    fn failed(&self) -> bool {
        self.failed
    }

    fn ended(&self) -> bool {
        self.ended
    }
}

/// A reader that never ends: each read gives one byte.
#[derive(Drop)]
pub struct Endless {
    pub reads: usize,
    pub ended: bool,
}

impl Feed for Endless {
    ghost has_failed = { λ _. false };

    ghost has_ended = { λ e. e.ended };

    fn read(&mut self, buf: &mut [u8]) -> Result<usize, Failed> {
        self.reads = self.reads.saturating_add(1);
        match buf.first_mut() {
            Some(first) => {
                *first = b'\n';
                Ok(1)
            }
            None => Ok(0),
        }
    }

    fn failed(&self) -> bool {
        false
    }

    fn ended(&self) -> bool {
        self.ended
    }
}

/// A writer with room for some bytes, which then fails.
#[derive(Drop)]
pub struct Paper {
    pub text: Vec<u8>,
    pub room: usize,
    pub failed: bool,
}

impl Sink for Paper {
    ghost contents = { λ p. Some p.text.items };

    ghost has_failed = { λ p. p.failed };

    fn write(&mut self, buf: &[u8]) -> Result<usize, Failed> {
        let count = buf.len().min(self.room);
        if (count == 0 && !buf.is_empty()) || self.text.extend_from_slice(&buf[..count]).is_err() {
            self.failed = true;
            return Err(Failed);
        }
        self.room -= count;
        Ok(count)
    }

    fn failed(&self) -> bool {
        self.failed
    }
}

/// A std writer that takes nothing.
#[derive(Drop)]
pub struct Full;

impl std::io::Write for Full {
    ghost contents = { λ _. Some [] };

    fn write(&mut self, _buf: &[u8]) -> std::io::Result<usize> {
        Ok(0)
    }

    fn flush(&mut self) -> std::io::Result<()> {
        Ok(())
    }
}
