//! Jobs through `run`, by example.
ghost use Rattle.relay_planning.specs.Limits.{AreOptions, AreLimits};

use crate::devices::{Endless, Full, Paper, Pieces};
use crate::limits::{LIMITS, LISTS, PLAN};
use crate::proved::blank;
use aliasplan::{Device, Form, Limits, NoGate, Options, RunFault, Summary, run};
use std::alloc::Global;
use std::process::Abort;
use std::test::Fail;
use std::thread::Threads;

pub const OPTIONS: Options = Options {
    form: Form::Plan,
    workers: 2,
    cut: 2,
    key: 0,
};

const SETTINGS: &[u8] =
    b"%settings\nmyhostname = relay.example.org\nmyorigin = example.org\nmydestination = example.org, localhost\nrecipient_delimiter = +\ndefault_destination_recipient_limit = 50\nmailbox_transport = lmtp:unix:mbox\nseed = 0\n";

pub const FIRST_JOB: &[u8] =
    b"%settings\nmyhostname = relay.example.org\nmyorigin = example.org\nmydestination = example.org, localhost\nrecipient_delimiter = +\ndefault_destination_recipient_limit = 50\nmailbox_transport = lmtp:unix:mbox\nseed = 0\n%mailboxes\njoe\n%envelope\nMAIL FROM:<a@example.net>\nRCPT TO:<joe@example.org>\n";

pub const FIRST_PLAN: &[u8] =
    b"plan 1 transactions 1 recipients 0 findings\ntransaction 1\nfrom <a@example.net>\nvia lmtp unix:mbox\nhost unix:mbox\nto <joe@example.org>\nend\n";

/// A job of the worked settings and these lines.
pub(crate) fn job_of(alloc: Global, lines: &[u8]) -> Result<Vec<u8>, Fail> {
    let mut job = Vec::from_slice(alloc, SETTINGS)?;
    job.extend_from_slice(lines)?;
    Ok(job)
}

/// What a run with these options answers, and what it wrote.
pub(crate) fn planned_by<R: AllocGlobal + Threads + Sync>(
    rt: &R,
    job: &[u8],
    options: Options,
    limits: Limits,
) -> (Result<Summary, RunFault>, Vec<u8>)
    requires options { AreOptions options }
    requires limits { AreLimits limits }
{
    let mut reader = Pieces::new(job, usize::MAX, usize::MAX);
    let mut writer = blank(rt.alloc());
    let answer = run(
        rt,
        rt.alloc(),
        &mut reader,
        &mut writer,
        options,
        limits,
        &NoGate,
    );
    (answer, writer.text)
}

/// What a run answers whose devices may fail, and what it wrote.
pub(crate) fn planned<R: AllocGlobal + Threads + Sync>(
    rt: &R,
    job: &[u8],
    piece: usize,
    good_reads: usize,
    limits: Limits,
    room: usize,
) -> (Result<Summary, RunFault>, Vec<u8>)
    requires { AreLimits limits }
{
    let mut reader = Pieces::new(job, piece, good_reads);
    let mut writer = Paper {
        text: Vec::new(rt.alloc()),
        room,
        failed: false,
    };
    let answer = run(
        rt,
        rt.alloc(),
        &mut reader,
        &mut writer,
        OPTIONS,
        limits,
        &NoGate,
    );
    let Paper { text, .. } = writer;
    (answer, text)
}

/// A job that is refused, and nothing is written.
fn expect_fault(
    rt: &(impl Abort + AllocGlobal + Threads + Sync),
    job: &[u8],
    limits: Limits,
    fault: RunFault,
)
    requires { AreLimits limits }
{
    let (answer, text) = planned(rt, job, usize::MAX, usize::MAX, limits, usize::MAX);
    assert_eq!(rt; answer, Err(fault));
    assert!(rt; text.is_empty());
}

#[test]
fn plans_the_first_job(rt: HostRuntime) {
    let (answer, text) = planned(&rt, FIRST_JOB, usize::MAX, usize::MAX, LIMITS, usize::MAX);
    let summary = Summary {
        transactions: 1,
        recipients: 1,
        findings: 0,
    };
    assert_eq!(rt; answer, Ok(summary));
    assert_eq!(rt; text.as_slice(), FIRST_PLAN);
}

#[test]
fn reads_in_any_pieces(rt: HostRuntime) {
    for piece in [1usize, 2, 7, 100] {
        let (answer, text) = planned(&rt, FIRST_JOB, piece, usize::MAX, LIMITS, usize::MAX);
        assert!(rt; answer.is_ok(), "{answer:?}");
        assert_eq!(rt; text.as_slice(), FIRST_PLAN);
    }
}

#[test]
fn answers_a_failed_read(rt: HostRuntime) {
    for good_reads in 0..FIRST_JOB.len() + 1 {
        let (answer, text) = planned(&rt, FIRST_JOB, 1, good_reads, LIMITS, usize::MAX);
        assert_eq!(rt; answer, Err(RunFault::Read), "after {good_reads} reads");
        assert!(rt; text.is_empty());
    }
}

#[test]
fn stops_reading_past_the_limit(rt: HostRuntime) {
    let whole = Limits {
        bytes: FIRST_JOB.len(),
        ..LIMITS
    };
    let (answer, _) = planned(&rt, FIRST_JOB, usize::MAX, usize::MAX, whole, usize::MAX);
    assert!(rt; answer.is_ok(), "{answer:?}");
    let less = Limits {
        bytes: FIRST_JOB.len() - 1,
        ..LIMITS
    };
    expect_fault(&rt, FIRST_JOB, less, RunFault::TooLong);
    let mut reader = Endless {
        reads: 0,
        ended: false,
    };
    let mut writer = Paper {
        text: Vec::new(rt.alloc()),
        room: usize::MAX,
        failed: false,
    };
    let answer = run(
        &rt,
        rt.alloc(),
        &mut reader,
        &mut writer,
        OPTIONS,
        Limits {
            bytes: 1000,
            ..LIMITS
        },
        &NoGate,
    );
    assert_eq!(rt; answer, Err(RunFault::TooLong));
    assert_eq!(rt; reader.reads, 1001);
    assert!(rt; writer.text.is_empty());
}

/// A job whose plan is written as far as there is room.
fn expect_fronts(rt: &(impl Abort + AllocGlobal + Threads + Sync), job: &[u8], plan: &[u8]) {
    for room in 0..plan.len() {
        let (answer, text) = planned(rt, job, usize::MAX, usize::MAX, LIMITS, room);
        assert_eq!(rt; answer, Err(RunFault::Write), "at {room} bytes");
        assert_eq!(rt; text.as_slice(), &plan[..room]);
    }
}

#[test]
fn leaves_a_front_where_a_write_fails(rt: HostRuntime) -> Result<(), Fail> {
    expect_fronts(&rt, FIRST_JOB, FIRST_PLAN);
    let job = job_of(rt.alloc(), LISTS)?;
    expect_fronts(&rt, job.as_slice(), PLAN);
    Ok(())
}

#[test]
fn answers_a_writer_that_takes_nothing(rt: HostRuntime) {
    let mut reader = Pieces::new(FIRST_JOB, usize::MAX, usize::MAX);
    let mut writer = Device::new(Full);
    let answer = run(
        &rt,
        rt.alloc(),
        &mut reader,
        &mut writer,
        OPTIONS,
        LIMITS,
        &NoGate,
    );
    assert_eq!(rt; answer, Err(RunFault::Write));
}
