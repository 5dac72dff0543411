//! Standard input.
use std::io;
use std::io::Read;

/// What the system answers for a descriptor that isn't open (errno(3), EBADF).
const NOT_OPEN: i32 = 9;

/// A reader of standard input, which reads as empty where it is closed.
#[derive(Drop)]
pub struct StandardInput<R> {
    inner: R,
}

impl<R> StandardInput<R> {
    pub(crate) fn new(inner: R) -> StandardInput<R> {
        StandardInput { inner }
    }
}

impl<R: Read> Read for StandardInput<R> {
    fn read(&mut self, buf: &mut [u8]) -> io::Result<usize> {
        match self.inner.read(buf) {
            Err(error) if error.raw_os_error() == Some(NOT_OPEN) => Ok(0),
            answer => answer,
        }
    }
}
