//! How many recipients a transaction takes.
use relay_routes::Transport;

/// The most recipients of one transaction, by its transport (`smtp_destination_recipient_limit` in postconf(5)); none of them is 0.
#[derive(Clone, Copy, Debug, PartialEq, Eq)]
pub struct BatchLimits {
    pub lmtp: u32,
    pub relay: u32,
    pub smtp: u32,
}

ghost use Rattle.std.specs.Prelude.{◌≡◌};
ghost use Rattle.relay_delivery.specs.Groups.{limit_at};

impl BatchLimits {
    /// The limit of a transport.
    pub fn of(self, transport: Transport) -> u32
        ensures { result ≡ limit_at self transport }
    {
        match transport {
            Transport::Lmtp => self.lmtp,
            Transport::Relay => self.relay,
            Transport::Smtp => self.smtp,
        }
    }
}
