//! Blocks of lines.
use relay_ordering::HasSender;
use relay_text::{Address, Seq, Text};

/// What is returned to a sender.
#[derive(Drop)]
pub struct Return {
    /// Whom the mail goes out from; to the null sender, which is `None`, nothing is to be sent (RFC 5321 section 4.5.5).
    pub sender: Option<Address>,
    /// Each says what could not be delivered, and for whom; without its end.
    pub lines: Seq<Text>,
}

impl HasSender for Return {
    ghost sender_of = { λ r. r.sender };

    fn sender(&self) -> Option<&Address> {
        self.sender.as_ref()
    }
}
