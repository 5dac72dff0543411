//! What is found for an address.

/// Where an address goes, or that it goes nowhere, by the number of the route or of the reason.
#[derive(Clone, Copy, Debug, PartialEq, Eq)]
pub enum Way {
    To(u32),
    Nowhere(u32),
}
