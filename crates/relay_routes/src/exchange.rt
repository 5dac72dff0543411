//! Mail exchangers.
ghost use Rattle.std.specs.Prelude.{◌≡◌};
ghost use Rattle.relay_routes.specs.Exchanges.{is_null};

use relay_text::Text;

/// A mail exchanger of a domain (RFC 5321 section 5.1). The host `.` is the null MX: the domain takes no mail (RFC 7505).
#[derive(Drop)]
pub struct Exchange {
    /// In lower case.
    pub domain: Text,
    /// The lowest is tried first.
    pub preference: u16,
    /// In lower case.
    pub host: Text,
}

impl Exchange {
    /// Whether it's the null MX.
    pub(crate) fn is_null(&self) -> bool
        ensures { result ≡ is_null self.now }
    {
        self.host.as_bytes() == b".".as_slice()
    }
}
