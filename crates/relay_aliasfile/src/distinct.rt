//! Texts, each once.
ghost use Rattle.std.specs.Prelude.{◌≡◌, ◌<◌, ◌≤◌, ◌+◌, ◌==◌, ◌++◌, ◌∷◌, ℕ, [], length, map, slice_index, if◌then◌else◌, vec_len, vec_capacity, IfOk, IsTrue};
ghost use Rattle.std.specs.Str.{bytes_eq};
ghost use Rattle.relay_text.specs.Bytes.{firsts};
ghost use Rattle.relay_text.specs.FirstPlaces.{first_place};
ghost use Rattle.relay_aliasfile.specs.Twins.{texts_of};

use crate::first_places::first_places;
use relay_text::{Seq, Text};
use std::alloc::{AllocError, Global};

/// For each text the place where it stands first.
fn places_of(alloc: Global, texts: &[Text]) -> Result<Vec<usize>, AllocError>
    ensures { IfOk result (λ places. places.items ≡ map (first_place texts.now) texts.now) }
{
    let mut bytes = Vec::with_capacity(alloc, texts.len())?;
    for text in texts {
        bytes.push_reserved(text.as_bytes());
    }
    first_places(alloc, &bytes)
}

/// Puts a text at the end, where there is room, if its place is the first at which it stands.
fn put_first(text: Text, place: usize, first: usize, distinct: &mut Vec<Text>)
    requires { vec_len distinct.old < vec_capacity distinct.old }
    ensures items { distinct.new.items ≡ (if first == place then distinct.old.items ++ text ∷ [] else distinct.old.items) }
    ensures len { vec_len distinct.new ≤ vec_len distinct.old + 1 }
    ensures capacity { vec_capacity distinct.new ≡ vec_capacity distinct.old }
{
    if first == place {
        distinct.push_reserved(text);
    } else {
        drop(text);
    }
}

/// The texts, each by its first place alone. These are the places where they stand first.
fn first_texts(alloc: Global, texts: Vec<Text>, places: &[usize]) -> Result<Seq<Text>, AllocError>
    requires { places.now ≡ map (first_place texts.items) texts.items }
    ensures { IfOk result (λ distinct. distinct ≡ firsts bytes_eq texts.items) }
{
    let mut distinct = Vec::with_capacity(alloc, texts.len())?;
    let mut place = 0;
    for text in texts {
        put_first(text, place, places[place], &mut distinct);
        place += 1;
    }
    Ok(Seq::of(distinct))
}

/// Whether each place is its own, so that no text comes again.
fn are_own(places: &[usize]) -> bool
    ensures { IsTrue result → (k : ℕ) → k < length places.now → slice_index places.now k ≡ k }
{
    for (index, place) in places.iter().enumerate() {
        if *place != index {
            return false;
        }
    }
    true
}

/// The texts, each by its first place alone. Where none comes again, they stay where they are.
pub(crate) fn distinct_texts(alloc: Global, texts: Vec<Text>) -> Result<Seq<Text>, AllocError>
    ensures { IfOk result (λ distinct. distinct ≡ firsts bytes_eq texts.items) }
{
    let places = places_of(alloc, texts.as_slice())?;
    if are_own(&places) {
        return Ok(Seq::of(texts));
    }
    first_texts(alloc, texts, &places)
}
