//! Where each of many texts stands first.
use crate::hashed_text::HashedText;
use std::alloc::{AllocError, Global};
use std::marker::Model;

/// Texts in the order in which they come, to find where each stands first. They are sorted once when all are there, so the work is
/// bounded whatever texts others choose, where the places of a hash table could be made to collide.
#[derive(Drop)]
pub struct FirstPlaces<'a> {
    texts: Vec<HashedText<'a>>,
}

impl<'a> Model for FirstPlaces<'a> {
    ghost use Rattle.std.specs.Prelude.{List, ℕ};
    ghost use Rattle.relay_text.specs.FirstPlaces.{bytes_of, AreInPlace};

    ghost Value = { List (List ℕ) };

    ghost view = { λ a. bytes_of a.texts.items };

    ghost invariant = { λ a. AreInPlace a.texts.items };
}

impl<'a> FirstPlaces<'a> {
    ghost use Rattle.std.specs.Prelude.{◌≡◌, ◌++◌, ◌∷◌, [], map, IfOk, OnOk, OnErr};
    ghost use Rattle.relay_text.specs.FirstPlaces.{first_place};

    /// No texts, without taking memory.
    pub fn new(alloc: Global) -> FirstPlaces<'a>
        ensures { result ≡ [] }
    {
        FirstPlaces {
            texts: Vec::new(alloc),
        }
    }

    /// Puts a text at the end. `Err` where memory runs out; the texts are then as they were.
    pub fn push(&mut self, text: &'a [u8]) -> Result<(), AllocError>
        ensures ok { OnOk result (self.new ≡ self.old ++ text.now ∷ []) }
        ensures err { OnErr result (self.new ≡ self.old) }
    {
        let place = self.texts.len();
        let Ok(()) = self.texts.push(HashedText::new(text, place)) else {
            return Err(AllocError);
        };
        Ok(())
    }

    /// For each text, in the order in which they came, the place of the first that has the same bytes; places begin at 0. `Err` where
    /// memory runs out.
    pub fn find(self, alloc: Global) -> Result<Vec<usize>, AllocError>
        ensures { IfOk result (λ places. places.items ≡ map (first_place self.entry) self.entry) }
    {
        let FirstPlaces { mut texts } = self;
        texts.sort_unstable();
        let mut places = vec![in alloc; 0; texts.len()]?;
        let mut first = 0;
        for (index, text) in texts.iter().enumerate() {
            if index == 0 || !text.is_same_as(&texts[index - 1]) {
                first = text.place;
            }
            places[text.place] = first;
        }
        Ok(places)
    }
}
