//! Readers whose first bytes are kept.
use std::io;
use std::io::Read;

/// How many bytes are kept at least, where so many are read: enough for the head of an alias file.
const ROOM: usize = 4096;

/// A reader that keeps what it gives first.
#[derive(Drop)]
pub struct Headed<R> {
    inner: R,
    head: Vec<u8>,
}

impl<R> Headed<R> {
    pub(crate) fn new(inner: R, head: Vec<u8>) -> Headed<R> {
        Headed { inner, head }
    }

    /// The first bytes that were read; where no memory was to be had, fewer.
    pub(crate) fn head(&self) -> &[u8] {
        self.head.as_slice()
    }
}

impl<R: Read> Read for Headed<R> {
    fn read(&mut self, buf: &mut [u8]) -> io::Result<usize> {
        let count = self.inner.read(buf)?;
        if self.head.len() < ROOM {
            let _ = self.head.extend_from_slice(&buf[..count]);
        }
        Ok(count)
    }
}
