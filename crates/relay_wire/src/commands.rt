//! What the commands of a transaction say.
ghost use Rattle.std.specs.Prelude.{◌≡◌};
ghost use Rattle.relay_wire.specs.Script.{greeting_of, greeting_word};

use relay_routes::Transport;
use relay_text::{Address, Seq, Text};

/// How a client greets: `EHLO` (RFC 5321 section 4.1.1.1), or `LHLO` over LMTP (RFC 2033 section 4.1).
#[derive(Clone, Copy, Debug, PartialEq, Eq)]
pub enum Greeting {
    Ehlo,
    Lhlo,
}

impl Greeting {
    // How the client of a transport greets.
    pub(crate) fn of(transport: Transport) -> Greeting
        ensures { result ≡ greeting_of transport }
    {
        match transport {
            Transport::Smtp | Transport::Relay => Greeting::Ehlo,
            Transport::Lmtp => Greeting::Lhlo,
        }
    }

    // The command's word.
    pub(crate) fn word(self) -> &'static [u8]
        ensures { result.now ≡ greeting_word self }
    {
        match self {
            Greeting::Ehlo => b"EHLO",
            Greeting::Lhlo => b"LHLO",
        }
    }
}

/// What a script says.
#[derive(Drop)]
pub struct Script {
    pub greeting: Greeting,
    /// Of the client, in lower case; at most 255 octets.
    pub hostname: Text,
    /// The sender; the null sender is `None` (RFC 5321 section 4.5.5).
    pub from: Option<Address>,
    /// The recipients, in order, perhaps with repeats.
    pub to: Seq<Address>,
}
