//! Plans under several keys of the hashes of texts.
use crate::limits::{LIMITS, LISTS, PLAN};
use crate::plans::{OPTIONS, job_of, planned_by};
use aliasplan::Options;
use std::process::Abort;
use std::test::Fail;
use std::thread::Threads;

// The least and the greatest key, those with one half alone, and one whose bits look drawn at random.
const KEYS: [u128; 5] = [
    0,
    0xffff_ffff_ffff_ffff,
    0xffff_ffff_ffff_ffff_0000_0000_0000_0000,
    0xffff_ffff_ffff_ffff_ffff_ffff_ffff_ffff,
    0x243f_6a88_85a3_08d3_1319_8a2e_0370_7344,
];

/// The job of the lists has its plan under this key.
fn expect_plan(rt: &(impl Abort + AllocGlobal + Threads + Sync), job: &[u8], key: u128) {
    let (answer, text) = planned_by(rt, job, Options { key, ..OPTIONS }, LIMITS);
    assert!(rt; answer.is_ok(), "{answer:?} under {key}");
    assert_eq!(rt; text.as_slice(), PLAN);
}

#[test]
fn plans_are_the_same_under_all_keys(rt: HostRuntime) -> Result<(), Fail> {
    let job = job_of(rt.alloc(), LISTS)?;
    for key in KEYS {
        expect_plan(&rt, job.as_slice(), key);
    }
    Ok(())
}
