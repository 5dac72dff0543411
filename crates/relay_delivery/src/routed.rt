//! Addresses beside their routes.
use relay_text::Address;

/// An address, and the route by which it goes, by its number.
#[derive(Clone, Copy)]
pub struct Routed<'a> {
    pub route: u32,
    pub address: &'a Address,
}
