//! Chains whose texts or keys fall into one bucket, and how hashes spread.
ghost use Rattle.std.specs.Prelude.{◌≤◌, ◌<◌, length};

use crate::compared::expect;
use relay_chains::{ChainFault, Chains, Interner, Links, TextKey, hash_text};
use std::alloc::{AllocError, Global};
use std::process::Abort;
use std::test::Fail;

fn numbered_key(number: u32) -> u64 {
    u64::from(number).wrapping_mul(0x9e37_79b9_7f4a_7c15)
}

fn insert_keys(rt: &impl Abort, set: &mut Chains, count: u32) -> Result<(), ChainFault> {
    for i in 0..count {
        let answer = set.insert(numbered_key(i))?;
        expect(rt, answer, (i, true));
    }
    Ok(())
}

fn expect_keys(rt: &impl Abort, set: &Chains, count: u32) {
    for i in 0..count {
        let key = numbered_key(i);
        expect(rt, (set.find(key), set.get(i)), (Some(i), Some(key)));
    }
}

// A count of keys in as many buckets as given, of which the first are found again.
fn fills(rt: &(impl Abort + AllocGlobal), heads: usize, count: u32, found: u32) -> Result<(), Fail>
    requires heads { 1 ≤ heads }
    requires count { count ≤ 1_000_000 }
    requires found { found ≤ count }
{
    let mut set = Chains::new(rt.alloc(), heads, count as usize)?;
    insert_keys(rt, &mut set, count)?;
    expect_keys(rt, &set, found);
    expect(rt, set.insert(1), Err(ChainFault::Full));
    Ok(())
}

#[test]
fn many_keys_in_one_bucket(rt: HostRuntime) -> Result<(), Fail> {
    fills(&rt, 1, 100_000, 1_000)
}

// `u000001@example.net` and the like.
fn numbered_text(number: u32) -> [u8; 19] {
    let mut text = *b"u000000@example.net";
    let mut rest = number;
    for place in 0..6 {
        text[6 - place] = b'0' + (rest % 10) as u8;
        rest /= 10;
    }
    text
}

#[test]
fn faults_are_told(rt: HostRuntime) -> Result<(), Fail> {
    let told = format!(in rt.alloc(); "{}, {}", ChainFault::Full, ChainFault::Memory)?;
    assert_eq!(rt; told.as_str(), "the set is full, out of memory");
    Ok(())
}

// The hash of the next number, where there are fewer than a million.
fn push_hash(rt: &impl Abort, links: &mut Links, hash: u32) -> Result<(), AllocError> {
    assert!(rt; links.len() < 1_000_000);
    links.push(hash)
}

// Three pairs of texts that agree in all bits of their hash under this key, as a search among 120,000 found them.
const KEY: TextKey = 0x243f_6a88_85a3_08d3_1319_8a2e_0370_7344;

const ALIKE: [(&[u8], &[u8]); 3] = [
    (b"u028491", b"u058711"),
    (b"u057958", b"u070436"),
    (b"u031591", b"u119822"),
];

fn expect_alike(rt: &impl Abort, first: &[u8], second: &[u8]) {
    expect(rt, hash_text(KEY, first), hash_text(KEY, second));
    let are_alike = hash_text(KEY + 1, first) == hash_text(KEY + 1, second);
    expect(rt, are_alike, false);
}

#[test]
fn hashes_are_alike_under_one_key_alone(rt: HostRuntime) {
    for (first, second) in ALIKE.iter() {
        expect_alike(&rt, first, second);
    }
}

// The second of two alike texts is not found before it is there itself.
fn intern_apart(rt: &impl Abort, set: &mut Interner) {
    for (i, (first, second)) in ALIKE.iter().enumerate() {
        let number = 2 * (i as u32);
        expect(rt, set.intern(first), Ok((number, true)));
        expect(rt, set.find(second), None);
        expect(rt, set.intern(second), Ok((number + 1, true)));
    }
}

#[test]
fn texts_of_one_hash_keep_apart(rt: HostRuntime) -> Result<(), Fail> {
    let mut set = Interner::new(rt.alloc(), KEY, 1, 6)?;
    intern_apart(&rt, &mut set);
    Ok(())
}

fn intern_alike(set: &mut Interner) -> Result<(), ChainFault> {
    for (first, second) in ALIKE.iter() {
        set.intern(first)?;
        set.intern(second)?;
    }
    Ok(())
}

fn expect_found(rt: &impl Abort, set: &Interner) {
    for (i, (first, second)) in ALIKE.iter().enumerate() {
        let number = 2 * (i as u32);
        let found = (set.find(first), set.find(second));
        expect(rt, found, (Some(number), Some(number + 1)));
    }
}

#[test]
fn texts_of_one_hash_are_found(rt: HostRuntime) -> Result<(), Fail> {
    let mut set = Interner::new(rt.alloc(), KEY, 1, 6)?;
    intern_alike(&mut set)?;
    expect_found(&rt, &set);
    Ok(())
}

// The number itself, where it has the hash.
fn find_number(links: &Links, hash: u32, number: u32) -> Option<u32> {
    links.find(hash, |found| found == number)
}

// The second of two numbers of one hash is not found before it is there itself, and the first is found first, or last where the newest is.
fn push_apart(rt: &impl Abort, links: &mut Links) -> Result<(), AllocError> {
    for (i, (first, _)) in ALIKE.iter().enumerate() {
        let number = 2 * (i as u32);
        let hash = hash_text(KEY, first);
        push_hash(rt, links, hash)?;
        expect(rt, find_number(links, hash, number + 1), None);
        push_hash(rt, links, hash)?;
        expect(rt, find_number(links, hash, number + 1), Some(number + 1));
        expect(rt, links.find(hash, |_| true), Some(number));
        expect(rt, links.find_last(hash, |_| true), Some(number + 1));
    }
    Ok(())
}

#[test]
fn links_of_one_hash_keep_apart(rt: HostRuntime) -> Result<(), Fail> {
    let mut links = Links::new(rt.alloc(), 1)?;
    push_apart(&rt, &mut links)?;
    Ok(())
}

// Pushes the hash of each text twice.
fn push_hashes(rt: &impl Abort, links: &mut Links) -> Result<(), AllocError> {
    for number in 0..100_000u32 {
        push_hash(rt, links, hash_text(KEY, &numbered_text(number % 50_000)))?;
    }
    Ok(())
}

// The number of a text is the first that has its hash, and not the newest.
fn expect_first_numbers(rt: &impl Abort, links: &Links) {
    for number in 0..50_000u32 {
        let hash = hash_text(KEY, &numbered_text(number));
        let found = links.find(hash, |found| found % 50_000 == number);
        expect(rt, found, Some(number));
        assert!(rt; links.newest(hash) > 50_000);
    }
}

// The heads are doubled many times between the two pushes of a text's hash.
#[test]
fn the_first_of_many_numbers_is_found(rt: HostRuntime) -> Result<(), Fail> {
    let mut links = Links::new(rt.alloc(), 3)?;
    push_hashes(&rt, &mut links)?;
    expect_first_numbers(&rt, &links);
    Ok(())
}

// The hash of the text's first bytes changes with the key, and with one byte more.
fn expect_other_hashes(rt: &impl Abort, text: &[u8], len: usize)
    requires { len < length text.now }
{
    let hash = hash_text(KEY, &text[..len]);
    let are_alike = [
        hash_text(KEY + 1, &text[..len]) == hash,
        hash_text(KEY, &text[..len + 1]) == hash,
    ];
    expect(rt, (len, are_alike), (len, [false, false]));
}

// The hash of the text's first bytes changes with a bit of each of these bytes.
fn expect_hash_of_all_bytes(rt: &impl Abort, text: &[u8; 28], len: usize)
    requires { len ≤ 28 }
{
    let hash = hash_text(KEY, &text[..len]);
    for place in 0..len {
        let mut other = *text;
        other[place] ^= 1;
        let turned = hash_text(KEY, &other[..len]);
        expect(rt, (place, len, turned == hash), (place, len, false));
    }
}

#[test]
fn hashes_depend_on_every_byte_and_the_key(rt: HostRuntime) {
    let text = b"owner-club@lists.example.net";
    for len in 0..text.len() {
        expect_other_hashes(&rt, text, len);
        expect_hash_of_all_bytes(&rt, text, len);
    }
    expect(&rt, hash_text(KEY, b"a") == hash_text(KEY, b"a\0"), false);
}

// How many of so many texts fall into each of as many buckets.
fn bucket_counts(alloc: Global, heads: usize) -> Result<Vec<u32>, AllocError>
    requires { heads ≤ 100_000 }
{
    let mut held = vec![in alloc; 0u32; heads]?;
    for number in 0..heads {
        let hash = hash_text(KEY, &numbered_text(number as u32));
        let bucket = (u64::from(hash) * heads as u64 >> 32) as usize;
        held[bucket] = held[bucket].saturating_add(1);
    }
    Ok(held)
}

// As many texts as buckets, drawn at random, leave about 37 in a hundred buckets empty and hardly ever put 13 in one.
fn expect_spread(rt: &impl Abort, held: &[u32]) {
    let heads = held.len();
    let empty = held.iter().filter(|count| **count == 0).count();
    let fullest = held.iter().copied().max().unwrap_or(0);
    assert!(rt; fullest <= 12, "{fullest} in one of {heads}");
    assert!(rt;
        empty >= heads / 100 * 36 && empty <= heads / 100 * 38,
        "{empty} of {heads} are empty"
    );
}

#[test]
fn alike_texts_spread_over_buckets(rt: HostRuntime) -> Result<(), Fail> {
    let many = bucket_counts(rt.alloc(), 100_000)?;
    expect_spread(&rt, many.as_slice());
    let fewer = bucket_counts(rt.alloc(), 65_536)?;
    expect_spread(&rt, fewer.as_slice());
    Ok(())
}
