//! Files of the system.
ghost use Rattle.std.specs.Prelude.{◌≡◌, ◌≢◌, ◌↔◌, take, IfOk, IfErr, IfSome};
ghost use Rattle.std.specs.IoError.{error_kind};

use aliasplan::{Source, SourceFault};
use std::alloc::Global;
use std::io::{Error, ErrorKind, Read};
use std::rt::Files;
use std::{fs, io, str};

/// How much of a file is read: one byte more than a job may have, so that a longer file makes a job that is too long.
pub const MOST: u64 = 67_108_865;

/// The files of the system by their paths.
#[derive(Drop)]
pub struct FileSource<'a, R> {
    rt: &'a R,
    /// The path that was asked for last of those that gave no file.
    failed: Option<Vec<u8>>,
}

impl<'a, R> FileSource<'a, R> {
    pub(crate) fn new(rt: &'a R) -> FileSource<'a, R> {
        FileSource { rt, failed: None }
    }

    /// The path that was asked for last of those that gave no file, where there is one.
    pub(crate) fn failed(&self) -> Option<&[u8]> {
        self.failed.as_deref()
    }
}

/// Why a file can't be opened.
fn opening_fault(error: &Error) -> SourceFault
    ensures absent { (result ≡ SourceFault.Absent) ↔ (error_kind error.now ≡ ErrorKind.NotFound) }
    ensures memory { (result ≡ SourceFault.Memory) ↔ (error_kind error.now ≡ ErrorKind.OutOfMemory) }
{
    match error.kind() {
        ErrorKind::NotFound => SourceFault::Absent,
        ErrorKind::OutOfMemory => SourceFault::Memory,
        _ => SourceFault::Failed,
    }
}

/// The file of a path, opened. A path that isn't UTF-8, or has a byte of 0, fails.
pub(crate) fn open_file<R: Files>(rt: &R, path: &[u8]) -> io::Result<R::File> {
    match str::from_utf8(path) {
        Ok(path) => fs::open(rt, path),
        Err(_) => Err(Error::from(ErrorKind::InvalidInput)),
    }
}

/// The same, with the fault of a source.
pub(crate) fn open<R: Files>(rt: &R, path: &[u8]) -> Result<R::File, SourceFault> {
    open_file(rt, path).map_err(|error| opening_fault(&error))
}

/// The bytes of an open file, as many as are read. The file is there, also where the system answers a read as if it weren't.
fn bytes_of<F: Read + Drop>(alloc: Global, file: F) -> Result<Vec<u8>, SourceFault>
    ensures bytes { IfOk result (λ bytes. IfSome (F.remaining file) (λ whole. bytes.items ≡ take MOST whole)) }
    ensures there { IfErr result (λ fault. fault ≢ SourceFault.Absent) }
{
    let mut bytes = Vec::new(alloc);
    match file.take(MOST).read_to_end(&mut bytes) {
        Ok(_) => Ok(bytes),
        Err(error) if error.kind() == ErrorKind::OutOfMemory => Err(SourceFault::Memory),
        Err(_) => Err(SourceFault::Failed),
    }
}

impl<R: Files> Source for FileSource<'_, R> {
    ghost use Rattle.relay_gather.specs.Source.{unknown};

    // A file may change at any time, so nothing is told of the answers.
    ghost answer = { λ source path. unknown };

    fn fetch(&mut self, alloc: Global, path: &[u8]) -> Result<Vec<u8>, SourceFault> {
        let answer = match open(self.rt, path) {
            Ok(file) => bytes_of(alloc, file),
            Err(fault) => Err(fault),
        };
        if answer.is_err() {
            self.failed = Vec::from_slice(alloc, path).ok();
        }
        answer
    }
}
