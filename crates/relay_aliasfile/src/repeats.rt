//! Names that come again.
ghost use Rattle.std.specs.Prelude.{◌≡◌, map, IfOk};
ghost use Rattle.relay_text.specs.FirstPlaces.{first_place};
ghost use Rattle.relay_aliasfile.specs.Repeats.{entry_name, repeats_in};
ghost use Rattle.relay_aliasfile.specs.Twins.{texts_of};

use crate::entry::Entry;
use crate::first_places::first_places;
use std::alloc::{AllocError, Global};

/// For each entry the place of the first that has its name.
fn places_of(alloc: Global, entries: &[Entry]) -> Result<Vec<usize>, AllocError>
    ensures { IfOk result (λ places. places.items ≡ map (first_place (map entry_name entries.now)) (map entry_name entries.now)) }
{
    let mut names = Vec::with_capacity(alloc, entries.len())?;
    for entry in entries {
        names.push_reserved(entry.name.as_bytes());
    }
    first_places(alloc, &names)
}

/// For each entry whether one before it has its name.
pub(crate) fn repeats_of(alloc: Global, entries: &[Entry]) -> Result<Vec<bool>, AllocError>
    ensures { IfOk result (λ repeats. repeats.items ≡ repeats_in (map entry_name entries.now)) }
{
    let places = places_of(alloc, entries)?;
    let mut repeats = Vec::with_capacity(alloc, places.len())?;
    for (place, first) in places.iter().enumerate() {
        repeats.push_reserved(*first != place);
    }
    Ok(repeats)
}
