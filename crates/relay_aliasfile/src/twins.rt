//! Hashes that come again.
ghost use Rattle.std.specs.Prelude.{◌≡◌, ◌<◌, ◌≤◌, ◌^◌, IfOk};
ghost use Rattle.relay_aliasfile.specs.Twins.{slot_under, AreMarks, AreTwinPlaces};

use std::alloc::{AllocError, Global};

/// So many slots for each hash: about one hash in nine has a slot in common with another by chance.
const SLOTS_FOR_HASH: usize = 8;

/// So many slots at most, since a slot is found by the product of a hash and their number.
const MOST_SLOTS: usize = 1 << 32;

/// The slot of a hash among so many.
fn slot_of(hash: u32, slots: usize) -> usize
    requires some { 0 < slots }
    requires few { slots ≤ 2 ^ 32 }
    ensures slot { result ≡ slot_under slots hash }
    ensures below { result < slots }
{
    ((u64::from(hash) * slots as u64) >> 32) as usize
}

/// For each slot 0 where no hash has it, 1 where one has, and 2 where more have.
fn marks_of(alloc: Global, hashes: &[u32], slots: usize) -> Result<Vec<u8>, AllocError>
    requires some { 0 < slots }
    requires few { slots ≤ 2 ^ 32 }
    ensures { IfOk result (λ marks. AreMarks slots hashes.now marks.items) }
{
    let mut marks = vec![in alloc; 0u8; slots]?;
    for hash in hashes {
        let slot = slot_of(*hash, slots);
        let mark = if marks[slot] == 0 { 1 } else { 2 };
        marks[slot] = mark;
    }
    Ok(marks)
}

/// The places, in order, of all hashes that stand at another place too, and of a few that don't.
pub(crate) fn twin_places(alloc: Global, hashes: &[u32]) -> Result<Vec<usize>, AllocError>
    ensures { IfOk result (λ places. AreTwinPlaces hashes.now places.items) }
{
    let slots = hashes
        .len()
        .saturating_mul(SLOTS_FOR_HASH)
        .clamp(1, MOST_SLOTS);
    let marks = marks_of(alloc, hashes, slots)?;
    let mut places = Vec::new(alloc);
    for (place, hash) in hashes.iter().enumerate() {
        if marks[slot_of(*hash, slots)] == 2 {
            places.push(place)?;
        }
    }
    Ok(places)
}
