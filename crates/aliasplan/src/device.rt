//! Readers and writers that tell whether they have failed or ended.
ghost use Rattle.std.specs.Prelude.{◌≡◌, ◌≢◌, ℕ, ◌≤◌, ◌<◌, List, Option, None, Bool, ◌||◌, ◌&&◌, ◌==◌, nat_lt, length, is_err, IfOk, IfErr, OnErr};
ghost use Rattle.std.specs.Io.{ReadsAtMost, WritesAtMost};
ghost use Rattle.std.specs.Io.KnownBytes.{ReadConsumes, WriteAppends, Keeps};
ghost use Rattle.std.specs.IoError.{error_kind};

use std::io;
use std::io::{ErrorKind, Read, Write};

/// A device has failed.
#[derive(Clone, Copy, Debug, PartialEq, Eq)]
pub struct Failed;

/// A reader that tells whether it has failed or ended.
pub trait Feed {
    // The bytes that reads will give from here on, where they are known.
    ghost remaining: { Self → Option (List ℕ) } = { λ _. None };

    ghost has_failed: { Self → Bool };

    ghost has_ended: { Self → Bool };

    fn read(&mut self, buf: &mut [u8]) -> Result<usize, Failed>
        ensures count { IfOk result (λ n. n ≤ length buf.new) }
        ensures bytes { ReadConsumes (remaining self.old) (remaining self.new) result buf.new }
        // An Err makes it failed, and an Ok leaves that as it was.
        ensures failed { has_failed self.new ≡ (has_failed self.old || is_err result) }
        // A read of 0 bytes into a nonempty buffer, and nothing else, makes it ended.
        ensures ended { IfOk result (λ n. has_ended self.new ≡ (has_ended self.old || ((n == 0) && nat_lt 0 (length buf.new)))) }
        ensures not_ended { OnErr result (has_ended self.new ≡ has_ended self.old) };

    fn failed(&self) -> bool
        ensures { result ≡ has_failed self.now };

    fn ended(&self) -> bool
        ensures { result ≡ has_ended self.now };
}

/// A writer that tells whether it has failed.
pub trait Sink {
    // The bytes that it holds, where they are known.
    ghost contents: { Self → Option (List ℕ) } = { λ _. None };

    ghost has_failed: { Self → Bool };

    fn write(&mut self, buf: &[u8]) -> Result<usize, Failed>
        ensures count { IfOk result (λ n. n ≤ length buf.now) }
        ensures bytes { WriteAppends (contents self.old) (contents self.new) result buf.now }
        ensures failed { has_failed self.new ≡ (has_failed self.old || is_err result) }
        // A nonempty write is answered by an Err or by at least 1 byte.
        ensures progress { IfOk result (λ n. 0 < length buf.now → 0 < n) };

    fn failed(&self) -> bool
        ensures { result ≡ has_failed self.now };
}

// A read, tried again as long as a signal interrupts it. Only after 2^64 - 1 tries that has failed.
fn read_again<R: Read>(reader: &mut R, buf: &mut [u8]) -> io::Result<usize>
    ensures count { ReadsAtMost result buf.new }
    ensures bytes { ReadConsumes (R.remaining reader.old) (R.remaining reader.new) result buf.new }
    ensures again { IfErr result (λ error. error_kind error ≢ ErrorKind.Interrupted) }
{
    for _ in 0..u64::MAX {
        match reader.read(buf) {
            Err(error) if error.kind() == ErrorKind::Interrupted => {}
            answer => return answer,
        }
    }
    Err(io::Error::from(ErrorKind::TimedOut))
}

// A write, tried again as long as a signal interrupts it. Only after 2^64 - 1 tries that has failed.
fn write_again<W: Write>(writer: &mut W, buf: &[u8]) -> io::Result<usize>
    ensures count { WritesAtMost result buf.now }
    ensures bytes { WriteAppends (W.contents writer.old) (W.contents writer.new) result buf.now }
    ensures again { IfErr result (λ error. error_kind error ≢ ErrorKind.Interrupted) }
{
    for _ in 0..u64::MAX {
        match writer.write(buf) {
            Err(error) if error.kind() == ErrorKind::Interrupted => {}
            answer => return answer,
        }
    }
    Err(io::Error::from(ErrorKind::TimedOut))
}

/// A reader or a writer of std, with what became of it so far. A signal that interrupts a read or a write fails neither.
#[derive(Drop)]
pub struct Device<T> {
    inner: T,
    failed: bool,
    ended: bool,
}

impl<T> Device<T> {
    ghost use Rattle.std.specs.Prelude.{◌≡◌, false};

    /// A device that has neither failed nor ended.
    pub fn new(inner: T) -> Device<T>
        ensures { result ≡ record { inner = inner; failed = false; ended = false } }
    {
        Device {
            inner,
            failed: false,
            ended: false,
        }
    }
}

impl<T: Read> Feed for Device<T> {
    ghost remaining = { λ d. T.remaining d.inner };

    ghost has_failed = { λ d. d.failed };

    ghost has_ended = { λ d. d.ended };

    fn read(&mut self, buf: &mut [u8]) -> Result<usize, Failed> {
        match read_again(&mut self.inner, buf) {
            Ok(count) => {
                if count == 0 && !buf.is_empty() {
                    self.ended = true;
                }
                Ok(count)
            }
            Err(_) => {
                self.failed = true;
                Err(Failed)
            }
        }
    }

    fn failed(&self) -> bool {
        self.failed
    }

    fn ended(&self) -> bool {
        self.ended
    }
}

impl<T: Write> Sink for Device<T> {
    ghost contents = { λ d. T.contents d.inner };

    ghost has_failed = { λ d. d.failed };

    fn write(&mut self, buf: &[u8]) -> Result<usize, Failed> {
        match write_again(&mut self.inner, buf) {
            Ok(count) if count > 0 || buf.is_empty() => Ok(count),
            _ => {
                self.failed = true;
                Err(Failed)
            }
        }
    }

    fn failed(&self) -> bool {
        self.failed
    }
}
