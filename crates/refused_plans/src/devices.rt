//! A reader and a writer that take no memory while they read and write.
use aliasplan::{Failed, Feed, Sink};
use std::alloc::{AllocError, Global};

/// A reader of a text.
#[derive(Drop)]
pub struct Page<'a> {
    rest: &'a [u8],
    ended: bool,
}

impl<'a> Page<'a> {
    ghost use Rattle.std.specs.Prelude.{◌≡◌, false};

    pub(crate) fn new(rest: &'a [u8]) -> Page<'a>
        ensures { result.ended ≡ false }
    {
        Page { rest, ended: false }
    }
}

impl Feed for Page<'_> {
    ghost use Rattle.std.specs.Prelude.{false};

    ghost has_failed = { λ _. false };

    ghost has_ended = { λ p. p.ended };

    fn read(&mut self, buf: &mut [u8]) -> Result<usize, Failed> {
        let count = self.rest.len().min(buf.len());
        buf[..count].copy_from_slice(&self.rest[..count]);
        self.rest = &self.rest[count..];
        if count == 0 && !buf.is_empty() {
            self.ended = true;
        }
        Ok(count)
    }

    fn failed(&self) -> bool {
        false
    }

    fn ended(&self) -> bool {
        self.ended
    }
}

/// A writer on a vector that has room for what is written.
#[derive(Drop)]
pub struct Paper {
    pub text: Vec<u8>,
    pub failed: bool,
}

/// How many bytes a writer has room for.
const ROOM: usize = 4096;

impl Paper {
    ghost use Rattle.std.specs.Prelude.{◌≡◌, IfOk, false};

    /// An empty one.
    pub(crate) fn new(alloc: Global) -> Result<Paper, AllocError>
        ensures { IfOk result (λ paper. paper.failed ≡ false) }
    {
        Ok(Paper {
            text: Vec::with_capacity(alloc, ROOM)?,
            failed: false,
        })
    }
}

impl Sink for Paper {
    ghost has_failed = { λ p. p.failed };

    fn write(&mut self, buf: &[u8]) -> Result<usize, Failed> {
        if self.text.extend_from_slice(buf).is_err() {
            self.failed = true;
            return Err(Failed);
        }
        Ok(buf.len())
    }

    fn failed(&self) -> bool {
        self.failed
    }
}
