//! Where each of many texts stands first.
//!
//! Most texts stand once, which their hashes tell: only texts that have a hash in common are sorted. Who chooses texts of one hash has all
//! of them sorted, and no more.
ghost use Rattle.std.specs.Prelude.{◌≡◌, ◌<◌, length, map, All, AllPairs, IfOk};
ghost use Rattle.std.specs.List.{range_with_len};
ghost use Rattle.relay_chains.specs.TextHash.{text_hash};
ghost use Rattle.relay_text.specs.FirstPlaces.{first_place};
ghost use Rattle.relay_aliasfile.specs.Twins.{texts_of, texts_at, ArePutFirst};

use crate::twins::twin_places;
use relay_chains::{FIXED_KEY, hash_text};
use relay_text::FirstPlaces;
use std::alloc::{AllocError, Global};

/// The hashes of texts.
fn text_hashes(alloc: Global, texts: &[&[u8]]) -> Result<Vec<u32>, AllocError>
    ensures { IfOk result (λ hashes. hashes.items ≡ map (text_hash FIXED_KEY) (texts_of texts.now)) }
{
    let mut hashes = Vec::with_capacity(alloc, texts.len())?;
    for text in texts {
        hashes.push_reserved(hash_text(FIXED_KEY, text));
    }
    Ok(hashes)
}

/// For each of the texts at these places, which of them is the first that has its bytes.
fn firsts_among(alloc: Global, texts: &[&[u8]], places: &[usize]) -> Result<Vec<usize>, AllocError>
    requires { All (λ place. place < length texts.now) places.now }
    ensures { IfOk result (λ firsts. let some = texts_at (texts_of texts.now) places.now in firsts.items ≡ map (first_place some) some) }
{
    let mut some = FirstPlaces::new(alloc);
    for place in places {
        some.push(texts[*place])?;
    }
    some.find(alloc)
}

/// Puts at each of these places the place of the first that has its bytes.
fn put_firsts(places: &[usize], firsts: &[usize], all: &mut [usize])
    requires ascending { AllPairs (λ p q. p < q) places.now }
    requires long { length firsts.now ≡ length places.now }
    requires within { All (λ place. place < length all.old) places.now }
    requires among { All (λ first. first < length places.now) firsts.now }
    ensures { ArePutFirst places.now firsts.now (length places.now) all.old all.new }
{
    for (index, first) in firsts.iter().enumerate() {
        all[places[index]] = places[*first];
    }
}

/// So many places, from 0.
fn all_places(alloc: Global, count: usize) -> Result<Vec<usize>, AllocError>
    ensures { IfOk result (λ places. places.items ≡ range_with_len 0 count) }
{
    let mut places = Vec::with_capacity(alloc, count)?;
    for place in 0..count {
        places.push_reserved(place);
    }
    Ok(places)
}

/// For each text the place of the first that has its bytes, from 0. `Err` where memory runs out.
pub(crate) fn first_places(alloc: Global, texts: &[&[u8]]) -> Result<Vec<usize>, AllocError>
    ensures { IfOk result (λ places. places.items ≡ map (first_place (texts_of texts.now)) (texts_of texts.now)) }
{
    let hashes = text_hashes(alloc, texts)?;
    let twins = twin_places(alloc, &hashes)?;
    drop(hashes);
    let firsts = firsts_among(alloc, texts, &twins)?;
    let mut places = all_places(alloc, texts.len())?;
    put_firsts(&twins, &firsts, &mut places);
    Ok(places)
}
