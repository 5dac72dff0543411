//! Keys of 64 bits and short texts.
ghost use Rattle.std.specs.Prelude.{◌-◌, ◌^◌, ◌≤◌};

use crate::shuffling::shuffled;
use crate::watch::{KEY, Watch};
use anyhow::Result;
use relay_chains::{Chains, Interner};
use std::collections::HashMap;
use std::rt::Clock;

// The keys spread over all numbers of 64 bits, and each is another one.
fn key(number: u32) -> u64 {
    u64::from(number).wrapping_mul(0x9e37_79b9_7f4a_7c15)
}

// The texts differ in their digits, as `u0000001@example.net`.
fn text(number: u32) -> [u8; 20] {
    let mut text = *b"u0000000@example.net";
    let mut rest = number;
    for place in 1..8 {
        text[place] = b'0' + (rest % 10) as u8;
        rest /= 10;
    }
    text
}

// Adds one at a place that depends on no other one. Whether there is a place.
fn touch(words: &mut [u32], number: u32) -> bool {
    let place = key(number) % (words.len() as u64).max(1);
    match words.get_mut(place as usize) {
        Some(word) => {
            *word = word.wrapping_add(1);
            true
        }
        None => false,
    }
}

// Reads a place that depends on what was read before.
fn follow(words: &[u32], number: u32, read: u32) -> u32 {
    let place = key(number).wrapping_add(u64::from(read)) % (words.len() as u64).max(1);
    words.get(place as usize).copied().unwrap_or(0)
}

// What the machine's memory takes, by itself: places all over a vector, and the steps of a chain of them.
fn time_words<R: Clock + Print + AllocGlobal>(watch: &Watch<R>, room: usize) -> Result<()> {
    let mut words = vec![in watch.rt.alloc(); 1u32; room]?;
    watch.time_calls("words touched", |number| Ok(touch(&mut words, number)))?;
    let mut read = 0;
    watch.time_calls("words followed", |number| {
        read = follow(&words, number, read);
        Ok(read != 0)
    })
}

fn time_set<R: Clock + Print + AllocGlobal>(watch: &Watch<R>, room: usize) -> Result<()>
    requires least { 1 ≤ room }
    requires most { room ≤ 2 ^ 32 - 2 }
{
    let count = watch.given.count;
    let mut set = Chains::new(watch.rt.alloc(), room, room)?;
    watch.time_calls("Chains, keys inserted", |number| {
        Ok(set.insert(key(number))?.1)
    })?;
    watch.time_calls("Chains, keys found", |number| {
        Ok(set.find(key(shuffled(number, count))).is_some())
    })
}

fn time_map<R: Clock + Print + AllocGlobal>(watch: &Watch<R>) -> Result<()> {
    let count = watch.given.count;
    let mut map: HashMap<u64, u32> = HashMap::new(watch.rt.alloc());
    watch.time_calls("HashMap, keys inserted", |number| {
        Ok(map.insert(key(number), number)?.is_none())
    })?;
    watch.time_calls("HashMap, keys found", |number| {
        Ok(map.get(&key(shuffled(number, count))).is_some())
    })
}

fn time_texts<R: Clock + Print + AllocGlobal>(watch: &Watch<R>, room: usize) -> Result<()>
    requires least { 1 ≤ room }
    requires most { room ≤ 2 ^ 32 - 2 }
{
    let count = watch.given.count;
    let mut set = Interner::new(watch.rt.alloc(), KEY, room, room)?;
    watch.time_calls("Interner, texts inserted", |number| {
        Ok(set.intern(&text(number))?.1)
    })?;
    watch.time_calls("Interner, texts found", |number| {
        Ok(set.find(&text(shuffled(number, count))).is_some())
    })
}

fn time_text_map<R: Clock + Print + AllocGlobal>(watch: &Watch<R>) -> Result<()> {
    let alloc = watch.rt.alloc();
    let count = watch.given.count;
    let mut map: HashMap<Vec<u8>, u32> = HashMap::new(alloc);
    watch.time_calls("HashMap, texts inserted", |number| {
        let key = Vec::from_slice(alloc, &text(number))?;
        Ok(map.insert(key, number)?.is_none())
    })?;
    watch.time_calls("HashMap, texts found", |number| {
        Ok(map.get(text(shuffled(number, count)).as_slice()).is_some())
    })
}

/// Times N keys and N texts.
pub fn run<R: Clock + Print + AllocGlobal>(watch: &Watch<R>) -> Result<()> {
    // Within what a set may have.
    let room = (watch.given.count as usize)
        .max(1)
        .min(u32::MAX as usize - 1);
    time_words(watch, room)?;
    time_set(watch, room)?;
    time_map(watch)?;
    time_texts(watch, room)?;
    time_text_map(watch)
}
