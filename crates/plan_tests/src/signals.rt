//! Runs whose reads and writes signals interrupt.
use crate::limits::LIMITS;
use crate::plans::{FIRST_JOB, FIRST_PLAN, OPTIONS};
use aliasplan::{Device, NoGate, run};
use std::io;
use std::io::{ErrorKind, Read, Write};

/// A reader or a writer of std whose calls a signal interrupts, each other one and the first.
#[derive(Drop)]
struct Interrupted<T> {
    inner: T,
    again: bool,
}

impl<T> Interrupted<T> {
    fn new(inner: T) -> Interrupted<T> {
        Interrupted {
            inner,
            again: false,
        }
    }

    fn interrupt(&mut self) -> io::Result<()> {
        self.again = !self.again;
        if self.again {
            return Err(io::Error::from(ErrorKind::Interrupted));
        }
        Ok(())
    }
}

impl<T: Read> Read for Interrupted<T> {
    fn read(&mut self, buf: &mut [u8]) -> io::Result<usize> {
        self.interrupt()?;
        self.inner.read(buf)
    }
}

impl<T: Write> Write for Interrupted<T> {
    fn write(&mut self, buf: &[u8]) -> io::Result<usize> {
        self.interrupt()?;
        self.inner.write(buf)
    }

    fn flush(&mut self) -> io::Result<()> {
        self.inner.flush()
    }
}

#[test]
fn reads_and_writes_on_where_a_signal_interrupts(rt: HostRuntime) {
    let mut text = Vec::new(rt.alloc());
    let mut reader = Device::new(Interrupted::new(FIRST_JOB));
    let mut writer = Device::new(Interrupted::new(&mut text));
    let answer = run(
        &rt,
        rt.alloc(),
        &mut reader,
        &mut writer,
        OPTIONS,
        LIMITS,
        &NoGate,
    );
    assert!(rt; answer.is_ok(), "{answer:?}");
    assert_eq!(rt; text.as_slice(), FIRST_PLAN);
}
