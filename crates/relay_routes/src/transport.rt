//! Transports.
ghost use Rattle.std.specs.Prelude.{◌≡◌};
ghost use Rattle.relay_routes.specs.Transports.{transport_name, transport_named};

/// How mail is handed over (master(5) of Postfix). `relay` is SMTP too, under a name and a limit of its own.
#[derive(Clone, Copy, Debug, PartialEq, Eq)]
pub enum Transport {
    Smtp,
    Relay,
    Lmtp,
}

impl Transport {
    /// The transport of a name, which is spelled as it is, in lower case.
    pub fn named(name: &[u8]) -> Option<Transport>
        ensures { result ≡ transport_named name.now }
    {
        match name {
            b"smtp" => Some(Transport::Smtp),
            b"relay" => Some(Transport::Relay),
            b"lmtp" => Some(Transport::Lmtp),
            _ => None,
        }
    }

    /// Its name.
    pub fn name(self) -> &'static [u8]
        ensures { result.now ≡ transport_name self }
    {
        match self {
            Transport::Smtp => b"smtp",
            Transport::Relay => b"relay",
            Transport::Lmtp => b"lmtp",
        }
    }
}
