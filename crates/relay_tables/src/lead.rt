//! Where an item or a recipient leads.
use relay_text::Address;

/// What an item or a recipient leads to, by what lies elsewhere.
#[derive(Clone, Copy)]
pub(crate) enum Lead<'a> {
    Alias(u32),
    Include(u32),
    /// A local part and the origin.
    Mailbox(&'a [u8], &'a [u8]),
    /// The address of a mailbox.
    Written(&'a Address),
    Remote(&'a Address),
    Missing(&'a [u8]),
    NoInclude(&'a [u8]),
    Command(&'a [u8]),
    File(&'a [u8]),
}
