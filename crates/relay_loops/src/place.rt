//! Where a node stands while the loops are looked for.
ghost use Rattle.std.specs.Prelude.{◌≡◌, Option};
ghost use Rattle.relay_loops.specs.Places.{is_left, is_looped, is_ahead, place_at, settled};

// Whether a node has its answer, and how far the search from the pivot has come to it.
#[derive(Clone, Copy)]
pub(crate) enum Place {
    // There is no answer yet.
    Left,
    // Nor here, and some chain of children that were left led from the pivot to it.
    Ahead,
    // Ahead, and some chain of children that are ahead leads back from it to the pivot.
    Around,
    // On a loop.
    Looped,
    // On no loop, or not asked for.
    Clear,
}

impl Place {
    pub(crate) fn is_left(self) -> bool
        ensures { result ≡ is_left self }
    {
        matches!(self, Place::Left)
    }

    pub(crate) fn is_ahead(self) -> bool
        ensures { result ≡ is_ahead self }
    {
        matches!(self, Place::Ahead)
    }

    pub(crate) fn is_looped(self) -> bool
        ensures { result ≡ is_looped self }
    {
        matches!(self, Place::Looped)
    }

    // The place once the pivot has its answer: what is around it is on a loop with it, and what is only ahead is left.
    pub(crate) fn settled(self) -> Place
        ensures { result ≡ settled self }
    {
        match self {
            Place::Around => Place::Looped,
            Place::Ahead => Place::Left,
            Place::Left | Place::Looped | Place::Clear => self,
        }
    }
}

// The place of a node.
pub(crate) fn place_of(places: &[Place], node: usize) -> Place
    ensures { result ≡ place_at places.now node }
{
    match places.get(node) {
        Some(place) => *place,
        None => Place::Clear,
    }
}
