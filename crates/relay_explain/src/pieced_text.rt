//! Texts that are made in pieces.
use relay_text::Text;

/// The pieces that are whole, one behind the other, and behind them what is written.
#[derive(Drop)]
pub(crate) struct PiecedText {
    pub(crate) whole: Vec<Text>,
    pub(crate) written: Vec<u8>,
}

ghost use Rattle.std.specs.Prelude.{◌≡◌, ◌++◌, [], IfOk, OnOk};
ghost use Rattle.relay_explain.specs.PiecedTexts.{text_of, text_so_far};

use relay_text::Seq;
use std::alloc::{AllocError, Global};
use std::mem;

impl PiecedText {
    pub(crate) fn new(alloc: Global) -> PiecedText
        ensures { text_so_far result ≡ [] }
    {
        PiecedText {
            whole: Vec::new(alloc),
            written: Vec::new(alloc),
        }
    }

    /// Makes what is written a whole piece.
    fn close(&mut self, alloc: Global) -> Result<(), AllocError>
        ensures whole { OnOk result (text_of self.new.whole.items ≡ text_so_far self.old) }
        ensures written { self.new.written.items ≡ [] }
    {
        let written = mem::replace(&mut self.written, Vec::new(alloc));
        self.whole.push(Text::of(written))?;
        Ok(())
    }

    /// Adds pieces that are there, without a copy.
    pub(crate) fn add(&mut self, alloc: Global, pieces: Seq<Text>) -> Result<(), AllocError>
        ensures { OnOk result (text_so_far self.new ≡ text_so_far self.old ++ text_of pieces) }
    {
        self.close(alloc)?;
        let mut more = pieces.into_vec();
        self.whole.append(&mut more)?;
        Ok(())
    }

    /// All of the text, in pieces.
    pub(crate) fn into_seq(self, alloc: Global) -> Result<Seq<Text>, AllocError>
        ensures { IfOk result (λ pieces. text_of pieces ≡ text_so_far self) }
    {
        let mut pieces = self;
        pieces.close(alloc)?;
        let PiecedText { whole, written: _ } = pieces;
        Ok(Seq::of(whole))
    }
}
