//! Where items stand: `joe`, behind an item that isn't one.
use crate::telling::{tell_of_call, tell_of_case};
use growth_answers::{Answer, Seen, Teller, Unready, twice};
use relay_aliasfile::{
    ItemPlace, entries_on_lines, entry_places, include_places, list_places, parse_aliases,
};
use relay_text::logical_lines;
use std::alloc::{AllocError, Global};

const ALIASES: &[u8] = b"# the team\nteam: a@,\n joe\n";

/// Whether joe stands there alone, as the second item of this line.
fn is_joe(places: Result<Vec<ItemPlace<'_>>, AllocError>, line: usize) -> Answer {
    match places {
        Ok(places) => {
            let is_right = matches!(
                places.as_slice(),
                [place] if place.line == line && place.item == 2 && place.text == b"joe".as_slice()
            );
            drop(places);
            Answer::given(is_right)
        }
        Err(_) => Answer::Refused,
    }
}

fn places_a_list(alloc: Global) -> Result<Answer, Unready> {
    Ok(is_joe(list_places(alloc, 7, b"a@, joe"), 7))
}

fn places_an_include_file(alloc: Global) -> Result<Answer, Unready> {
    Ok(is_joe(include_places(alloc, b"# the team\na@, joe\n"), 2))
}

fn places_an_entry(alloc: Global) -> Result<Seen, Unready> {
    entries_on_lines();
    let file = parse_aliases(alloc, ALIASES)?;
    let Ok(lines) = logical_lines(alloc, ALIASES) else {
        drop(file);
        return Err(Unready::NoMemory);
    };
    let seen = match file.entries.as_slice() {
        [entry] => Ok(twice!(is_joe(entry_places(alloc, lines.lines.as_slice(), entry), 2))),
        _ => Err(Unready::Wrong),
    };
    drop(lines);
    drop(file);
    seen
}

pub(crate) fn tell<R: Print + AllocGlobal>(teller: &mut Teller<'_, R>) {
    tell_of_call(teller, "list_places", places_a_list);
    tell_of_call(teller, "include_places", places_an_include_file);
    tell_of_case(teller, "entry_places", places_an_entry);
}
