//! The limits of the tests, and what limits change of a run.
ghost use Rattle.relay_planning.specs.Limits.{AreLimits};

use crate::plans::{OPTIONS, job_of, planned_by};
use aliasplan::{Limits, Options, RunFault};
use std::process::Abort;
use std::test::Fail;
use std::thread::Threads;

/// Those of the program.
pub const LIMITS: Limits = Limits {
    bytes: 67_108_864,
    names: 16_777_216,
    owners: 65_535,
    pairs: 16_777_216,
};

/// Six names, one of them with an owner; five pairs of a sender and a name are reached.
pub const LISTS: &[u8] = b"%mx\n\
      example.net MX 10 mx1.example.net\n\
      %mailboxes\n\
      joe\n\
      %aliases\n\
      outer: inner, kim@example.net\n\
      inner: kim@example.net, lee@example.net\n\
      owner-inner: joe\n\
      %envelope\n\
      MAIL FROM:<a@example.com>\n\
      RCPT TO:<outer@example.org>\n";

pub const PLAN: &[u8] = b"plan 2 transactions 3 recipients 0 findings\n\
      transaction 1\n\
      from <a@example.com>\n\
      via smtp example.net\n\
      host mx1.example.net\n\
      to <kim@example.net>\n\
      transaction 2\n\
      from <owner-inner@example.org>\n\
      via smtp example.net\n\
      host mx1.example.net\n\
      to <kim@example.net>\n\
      to <lee@example.net>\n\
      end\n";

/// The same lists, to which the owner writes.
const OWN_LISTS: &[u8] = b"%mx\n\
      example.net MX 10 mx1.example.net\n\
      %mailboxes\n\
      joe\n\
      %aliases\n\
      outer: inner, kim@example.net\n\
      inner: kim@example.net, lee@example.net\n\
      owner-inner: joe\n\
      %envelope\n\
      MAIL FROM:<owner-inner@EXAMPLE.org>\n\
      RCPT TO:<outer@example.org>\n";

const OWN_PLAN: &[u8] = b"plan 1 transactions 2 recipients 0 findings\n\
      transaction 1\n\
      from <owner-inner@example.org>\n\
      via smtp example.net\n\
      host mx1.example.net\n\
      to <kim@example.net>\n\
      to <lee@example.net>\n\
      end\n";

/// The lists with an owner that stands for the address of who writes to them.
const EXPANDED_LISTS: &[u8] = b"expand_owner_alias = yes\n\
      %mx\n\
      example.net MX 10 mx1.example.net\n\
      %mailboxes\n\
      joe\n\
      %aliases\n\
      outer: inner, kim@example.net\n\
      inner: kim@example.net, lee@example.net\n\
      owner-inner: a@example.com\n\
      %envelope\n\
      MAIL FROM:<a@example.com>\n\
      RCPT TO:<outer@example.org>\n";

const EXPANDED_PLAN: &[u8] = b"plan 1 transactions 2 recipients 0 findings\n\
      transaction 1\n\
      from <a@example.com>\n\
      via smtp example.net\n\
      host mx1.example.net\n\
      to <kim@example.net>\n\
      to <lee@example.net>\n\
      end\n";

/// No room to spare for the lists.
const LEAST: Limits = Limits {
    bytes: 1000,
    names: 6,
    owners: 1,
    pairs: 5,
};

/// By each number of workers and each cut, a job has this plan, or it's refused for this fault and nothing is written.
pub(crate) fn expect_always(
    rt: &(impl Abort + AllocGlobal + Threads + Sync),
    job: &[u8],
    limits: Limits,
    wanted: Result<&[u8], RunFault>,
)
    requires { AreLimits limits }
{
    let (plan, fault) = match wanted {
        Ok(plan) => (plan, None),
        Err(fault) => (b"".as_slice(), Some(fault)),
    };
    for workers in [1, 2, 7, 64] {
        for cut in [1, 3, 1000] {
            let options = Options {
                workers,
                cut,
                ..OPTIONS
            };
            let (answer, text) = planned_by(rt, job, options, limits);
            assert_eq!(rt; answer.err(), fault, "{workers} workers, cut {cut}");
            assert_eq!(rt; text.as_slice(), plan, "{workers} workers, cut {cut}");
        }
    }
}

#[test]
fn takes_as_many_names_owners_and_pairs_as_the_limits(rt: HostRuntime) -> Result<(), Fail> {
    let job = job_of(rt.alloc(), LISTS)?;
    expect_always(&rt, job.as_slice(), LEAST, Ok(PLAN));
    Ok(())
}

#[test]
fn refuses_more_names_owners_and_pairs(rt: HostRuntime) -> Result<(), Fail> {
    let job = job_of(rt.alloc(), LISTS)?;
    for (names, owners, pairs, fault) in [
        (5, 1, 5, RunFault::TooManyNames),
        (6, 0, 5, RunFault::TooManyOwners),
        (6, 1, 4, RunFault::TooManyPairs),
        (5, 0, 0, RunFault::TooManyNames),
        (6, 0, 0, RunFault::TooManyOwners),
    ] {
        let limits = Limits {
            bytes: 1000,
            names,
            owners,
            pairs,
        };
        expect_always(&rt, job.as_slice(), limits, Err(fault));
    }
    Ok(())
}

#[test]
fn takes_fewer_pairs_where_the_owner_writes(rt: HostRuntime) -> Result<(), Fail> {
    for (lines, plan) in [(OWN_LISTS, OWN_PLAN), (EXPANDED_LISTS, EXPANDED_PLAN)] {
        let job = job_of(rt.alloc(), lines)?;
        let limits = Limits { pairs: 4, ..LEAST };
        expect_always(&rt, job.as_slice(), limits, Ok(plan));
        let less = Limits { pairs: 3, ..LEAST };
        let fault = RunFault::TooManyPairs;
        expect_always(&rt, job.as_slice(), less, Err(fault));
    }
    Ok(())
}
