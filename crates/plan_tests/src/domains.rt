//! The domains that jobs ask for, through `run_domains`, by example.
ghost use Rattle.std.specs.Prelude.{IfOk, IfErr};
ghost use Rattle.aliasplan.specs.Domains.{IsDomainText};
ghost use Rattle.relay_planning.specs.Limits.{AreOptions, AreLimits};
ghost use Rattle.aliasplan.specs.Outcomes.{Refuses};

use crate::devices::Paper;
use crate::limits::LIMITS;
use crate::plans::{FIRST_JOB, OPTIONS, job_of};
use crate::proved::blank;
use aliasplan::{Crew, Device, Form, Limits, NoGate, Options, RunFault, run_domains};
use relay_text::Text;
use std::alloc::Global;
use std::process::Abort;
use std::test::Fail;
use std::thread::Threads;

/// The lines of the domains that a job asks for. Nothing is left untold by a reader and a writer in memory.
fn asked<R: Threads + Sync>(
    rt: &R,
    alloc: Global,
    job: &[u8],
    options: Options,
    limits: Limits,
) -> Result<Text, RunFault>
    requires options { AreOptions options }
    requires limits { AreLimits limits }
    ensures text { IfOk result (IsDomainText limits job.now) }
    ensures refused { IfErr result (Refuses limits job.now) }
{
    let mut reader = Device::new(job);
    let mut writer = blank(alloc);
    let crew = Crew {
        rt,
        alloc,
        options,
        limits,
        gate: &NoGate,
    };
    run_domains(&crew, &mut reader, &mut writer)?;
    Ok(Text::of(writer.text))
}

const LISTS: &[u8] = b"%mx\n\
      example.net MX 10 mx1.example.net\n\
      %mailboxes\n\
      joe\n\
      %aliases\n\
      outer: inner, kim@Example.NET, joe\n\
      inner: kim@example.net, lee@example.com\n\
      owner-inner: pat@example.edu\n\
      unused: pat@example.info\n\
      %transport\n\
      example.gov relay:hub.example.gov:2525\n\
      example.mil :[gw.example.mil]\n\
      %envelope\n\
      MAIL FROM:<a@example.com>\n\
      RCPT TO:<outer@example.org>\n\
      RCPT TO:<kim@example.mil>\n\
      RCPT TO:<kim@example.gov>\n";

const DOMAINS: &[u8] = b"example.com\nexample.net\nhub.example.gov\n";

#[test]
fn names_the_domains_of_lists(rt: HostRuntime) -> Result<(), Fail> {
    let job = job_of(rt.alloc(), LISTS)?;
    for (workers, cut) in [(1, 1), (4, 2), (64, 1_048_576)] {
        let options = Options {
            form: Form::Wire,
            workers,
            cut,
            key: 0,
        };
        match asked(&rt, rt.alloc(), job.as_slice(), options, LIMITS) {
            Ok(text) => assert_eq!(rt; text.as_bytes(), DOMAINS),
            Err(fault) => assert!(rt; false, "{fault}"),
        }
    }
    Ok(())
}

/// What a job is refused with.
fn expect_fault(
    rt: &(impl Abort + AllocGlobal + Threads + Sync),
    job: &[u8],
    limits: Limits,
    fault: Option<RunFault>,
)
    requires { AreLimits limits }
{
    let answer = asked(rt, rt.alloc(), job, OPTIONS, limits);
    assert_eq!(rt; answer.err(), fault);
}

#[test]
fn refuses_what_a_plan_refuses(rt: HostRuntime) {
    expect_fault(&rt, b"hello", LIMITS, Some(RunFault::BadJob(1)));
    let exact = Limits {
        bytes: FIRST_JOB.len(),
        names: 1,
        owners: 0,
        pairs: 1,
    };
    expect_fault(&rt, FIRST_JOB, exact, None);
    let bytes = FIRST_JOB.len() - 1;
    let shorter = Limits { bytes, ..exact };
    expect_fault(&rt, FIRST_JOB, shorter, Some(RunFault::TooLong));
    let nameless = Limits { names: 0, ..exact };
    expect_fault(&rt, FIRST_JOB, nameless, Some(RunFault::TooManyNames));
    let pairless = Limits { pairs: 0, ..exact };
    expect_fault(&rt, FIRST_JOB, pairless, Some(RunFault::TooManyPairs));
}

#[test]
fn asks_for_nothing_where_mail_stays(rt: HostRuntime) {
    match asked(&rt, rt.alloc(), FIRST_JOB, OPTIONS, LIMITS) {
        Ok(text) => assert!(rt; text.is_empty()),
        Err(fault) => assert!(rt; false, "{fault}"),
    }
}

#[test]
fn writes_no_more_than_there_is_room_for(rt: HostRuntime) -> Result<(), Fail> {
    let job = job_of(rt.alloc(), LISTS)?;
    let mut reader = Device::new(job.as_slice());
    let mut writer = Paper {
        text: Vec::new(rt.alloc()),
        room: 15,
        failed: false,
    };
    let crew = Crew {
        rt: &rt,
        alloc: rt.alloc(),
        options: OPTIONS,
        limits: LIMITS,
        gate: &NoGate,
    };
    let answer = run_domains(&crew, &mut reader, &mut writer);
    assert_eq!(rt; answer.err(), Some(RunFault::Write));
    assert_eq!(rt; writer.text.as_slice(), &DOMAINS[..15]);
    Ok(())
}
