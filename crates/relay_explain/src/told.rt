//! Answers, with the lines of their steps.
use crate::given_by::GivenBy;
use crate::outcome::Outcome;
use relay_text::{Address, Seq, Text};

/// Why something is reached under a sender.
#[derive(Drop)]
pub struct Told {
    /// The lines of its steps from a recipient on, in pieces, one behind the other.
    pub lines: Seq<Text>,
    /// The sender, none for the null sender.
    pub from: Option<Address>,
    pub given_by: GivenBy,
    /// What becomes of it, where it is an address.
    pub outcome: Option<Outcome>,
}

use relay_ordering::HasSender;

impl HasSender for Told {
    ghost sender_of = { λ t. t.from };

    fn sender(&self) -> Option<&Address> {
        self.from.as_ref()
    }
}
