//! Plans behind a run that is refused in the same process.
use crate::limits::{LIMITS, LISTS, PLAN, expect_always};
use crate::plans::job_of;
use aliasplan::{Limits, RunFault};
use std::alloc::Global;
use std::process::Abort;
use std::test::Fail;
use std::thread::Threads;

/// A list in a list of mailboxes, of which the inner one has an owner.
const MAILBOXES: &[u8] = b"%mailboxes\n\
      joe\n\
      kim\n\
      lee\n\
      %aliases\n\
      outer: inner, kim\n\
      inner: kim, lee\n\
      owner-inner: joe\n\
      %envelope\n\
      MAIL FROM:<a@example.com>\n\
      RCPT TO:<outer@example.org>\n";

const MAILBOXES_PLAN: &[u8] = b"plan 2 transactions 3 recipients 0 findings\n\
      transaction 1\n\
      from <a@example.com>\n\
      via lmtp unix:mbox\n\
      host unix:mbox\n\
      to <kim@example.org>\n\
      transaction 2\n\
      from <owner-inner@example.org>\n\
      via lmtp unix:mbox\n\
      host unix:mbox\n\
      to <kim@example.org>\n\
      to <lee@example.org>\n\
      end\n";

const EQUAL_PLAN: &[u8] = b"plan 1 transactions 1 recipients 0 findings\n\
      transaction 1\n\
      from <>\n\
      via smtp example.net\n\
      host mx1.example.net\n\
      to <kim@example.net>\n\
      end\n";

/// A list of ten thousand equal items.
fn equal_items(alloc: Global) -> Result<Vec<u8>, Fail> {
    let mut job = job_of(
        alloc,
        b"%mx\nexample.net MX 10 mx1.example.net\n%aliases\nbig: kim@example.net",
    )?;
    for _ in 1..10_000 {
        job.extend_from_slice(b", kim@example.net")?;
    }
    job.extend_from_slice(b"\n%envelope\nMAIL FROM:<>\nRCPT TO:<big@example.org>\n")?;
    Ok(job)
}

/// A job of two to ten names and pairs has its plan, and has it again behind each run that is refused.
fn expect_again(rt: &(impl Abort + AllocGlobal + Threads + Sync), job: &[u8], plan: &[u8]) {
    expect_always(rt, job, LIMITS, Ok(plan));
    for (names, pairs, fault) in [
        (1, 10, RunFault::TooManyNames),
        (10, 1, RunFault::TooManyPairs),
    ] {
        let limits = Limits {
            names,
            pairs,
            ..LIMITS
        };
        expect_always(rt, job, limits, Err(fault));
        expect_always(rt, job, LIMITS, Ok(plan));
    }
}

#[test]
fn plans_are_the_same_behind_a_refused_run(rt: HostRuntime) -> Result<(), Fail> {
    for (lines, plan) in [(MAILBOXES, MAILBOXES_PLAN), (LISTS, PLAN)] {
        let job = job_of(rt.alloc(), lines)?;
        expect_again(&rt, job.as_slice(), plan);
    }
    let job = equal_items(rt.alloc())?;
    expect_again(&rt, job.as_slice(), EQUAL_PLAN);
    Ok(())
}
