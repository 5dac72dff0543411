//! Ways by text.
use crate::way::Way;
use relay_chains::{Interner, TextKey};
use std::marker::Model;

/// Distinct texts, each with its way. Contracts see them as a list of pairs, in the order in which they came.
#[derive(Drop)]
pub struct KnownWays {
    texts: Interner,
    ways: Vec<Way>,
    /// The number of the text that was recalled last.
    latest: u32,
    /// Whether that one was recalled twice in a row: addresses of one domain mostly come one after another, or are mixed throughout.
    comes_again: bool,
}

impl Model for KnownWays {
    ghost use Rattle.std.specs.Prelude.{◌≡◌, List, ℕ, length, zip};
    ghost use Rattle.relay_destinations.specs.declared.way.Way as found;

    ghost Value = { List (List ℕ × found.Way) };

    ghost view = { λ a. zip a.texts.keys a.ways.items };

    ghost invariant = { λ a. length a.ways.items ≡ length a.texts.keys };
}

ghost use Rattle.std.specs.Prelude.{◌≡◌, [], ◌∷◌, ◌++◌, None, Some, IfSome, IfOk, OnOk, OnErr};
ghost use Rattle.relay_destinations.specs.KnownWays.{way_in};

use relay_text::same_bytes;
use std::alloc::{AllocError, Global};

impl KnownWays {
    /// No texts yet. The key is that of their hashes.
    pub(crate) fn new(alloc: Global, key: TextKey) -> Result<KnownWays, AllocError>
        ensures { IfOk result (λ known. known ≡ []) }
    {
        Ok(KnownWays {
            texts: Interner::new(alloc, key, 1, u32::MAX as usize - 1)?,
            ways: Vec::new(alloc),
            latest: 0,
            comes_again: false,
        })
    }

    /// The way of a text, if it's known.
    pub(crate) fn find(&self, text: &[u8]) -> Option<Way>
        ensures { result ≡ way_in self.now text.now }
    {
        let number = self.texts.find(text)?;
        Some(self.ways[number as usize])
    }

    /// The way of a text where that was the last one recalled, and was recalled twice.
    fn latest_way(&self, text: &[u8]) -> Option<Way>
        ensures { IfSome result (λ way. way_in self.now text.now ≡ Some way) }
    {
        if !self.comes_again {
            return None;
        }
        // For what the call says alone: the texts are distinct.
        let _ = self.texts.len();
        if !same_bytes(self.texts.text(self.latest)?, text) {
            return None;
        }
        Some(self.ways[self.latest as usize])
    }

    /// The way of a text, as `find` gives it, without its hash where it was recalled twice just before.
    pub(crate) fn recall(&mut self, text: &[u8]) -> Option<Way>
        ensures found { result ≡ way_in self.old text.now }
        ensures kept { self.new ≡ self.old }
    {
        if let Some(way) = self.latest_way(text) {
            return Some(way);
        }
        let number = self.texts.find(text)?;
        self.comes_again = number == self.latest;
        self.latest = number;
        Some(self.ways[number as usize])
    }

    /// Keeps the way of a new text. `Err` where memory runs out, or the numbers of texts do.
    pub(crate) fn keep(&mut self, text: &[u8], way: Way) -> Result<(), AllocError>
        requires { way_in self.old text.now ≡ None }
        ensures ok { OnOk result (self.new ≡ self.old ++ (text.now, way) ∷ []) }
        ensures err { OnErr result (self.new ≡ self.old) }
    {
        self.ways.reserve(1)?;
        let Ok(_) = self.texts.intern(text) else {
            return Err(AllocError);
        };
        self.ways.push_reserved(way);
        Ok(())
    }
}
