//! Texts, each once, in the order of their bytes.
use crate::seq::Seq;
use crate::text::Text;
use std::alloc::{AllocError, Global};
use std::collections::BTreeSet;
use std::marker::Model;

/// Texts, each once, in the order of their bytes. An order bounds the work whatever texts others choose, where the places of a hash
/// table could be made to collide.
pub struct TextSet {
    texts: BTreeSet<Vec<u8>>,
}

// Written out: what becomes of a derived drop's parts is followed in each proof that has such a value to its end.
impl Drop for TextSet {
    fn drop(self) {
        let TextSet { texts: _ } = self;
    }
}

impl Model for TextSet {
    ghost use Rattle.std.specs.Prelude.{List, ℕ};
    ghost use Rattle.relay_text.specs.TextSets.{texts_of};

    ghost Value = { List (List ℕ) };

    ghost view = { λ a. texts_of a.texts.keys };
}

ghost use Rattle.std.specs.Prelude.{◌≡◌, not, ◌||◌, ℕ, List, [], IfOk, OnOk, OnErr};
ghost use Rattle.std.specs.Str.{bytes_eq};
ghost use Rattle.relay_text.specs.Bytes.{has_text};
ghost use Rattle.relay_text.specs.TextSets.{IsAscendingBy, text_cmp};

impl TextSet {
    /// The empty set, which takes no memory.
    pub fn new(alloc: Global) -> TextSet
        ensures { result ≡ [] }
    {
        TextSet {
            texts: BTreeSet::new(alloc),
        }
    }

    /// The set of these texts, of which some may be the same. `Err` where memory runs out.
    pub fn of(alloc: Global, texts: &[Text]) -> Result<TextSet, AllocError>
        ensures { IfOk result (λ set. (q : List ℕ) → has_text set q ≡ has_text texts.now q) }
    {
        let mut set = TextSet::new(alloc);
        for text in texts {
            set.insert(Vec::from_slice(alloc, text.as_bytes())?)?;
        }
        Ok(set)
    }

    /// Adds a text, where it isn't there already, and answers whether it is new. `Err` where memory runs out; the set is then as it
    /// was, and the text was new.
    pub fn insert(&mut self, text: Vec<u8>) -> Result<bool, AllocError>
        ensures ok { OnOk result ((q : List ℕ) → has_text self.new q ≡ (bytes_eq q text.items || has_text self.old q)) }
        ensures fresh { IfOk result (λ is_new. is_new ≡ not (has_text self.old text.items)) }
        ensures err { OnErr result (self.new ≡ self.old) }
    {
        let is_new = self.texts.insert(text)?;
        Ok(is_new)
    }

    /// Whether a text is there, byte by byte: case counts.
    pub fn contains(&self, text: &[u8]) -> bool
        ensures { result ≡ has_text self.now text.now }
    {
        self.texts.contains(text)
    }

    /// The texts in the order of their bytes, a text before those that go on from it. `Err` where memory runs out.
    pub fn into_seq(self, alloc: Global) -> Result<Seq<Text>, AllocError>
        ensures all { IfOk result (λ texts. texts ≡ self) }
        ensures ascending { OnOk result (IsAscendingBy text_cmp self) }
    {
        let TextSet { texts: sorted } = self;
        let mut texts = Vec::with_capacity(alloc, sorted.len())?;
        for text in sorted {
            texts.push(Text::of(text))?;
        }
        Ok(Seq::of(texts))
    }
}
