//! The records of an MX table.
ghost use Rattle.std.specs.Prelude.{◌≡◌};
ghost use Rattle.relay_routes.specs.Exchanges.{domain_of};

use crate::exchange::Exchange;
use relay_text::Text;

/// What a line of an MX table says.
#[derive(Drop)]
pub(crate) enum MxRecord {
    /// `domain MX number host`: a mail exchanger of a domain.
    Mx(Exchange),
    /// `domain A`: the domain, in lower case, has an address.
    Address(Text),
}

impl MxRecord {
    /// The domain that the record is of.
    pub(crate) fn domain(&self) -> &[u8]
        ensures { result.now ≡ domain_of self.now }
    {
        match self {
            MxRecord::Mx(exchange) => exchange.domain.as_bytes(),
            MxRecord::Address(domain) => domain.as_bytes(),
        }
    }
}
