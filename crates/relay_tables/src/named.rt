//! What is found by its name.
ghost use Rattle.std.specs.Prelude.{◌≡◌, ℕ, List};

use crate::include_entry::IncludeEntry;
use relay_aliasfile::Entry;
use relay_text::Text;

/// What is found by its name.
pub(crate) trait Named {
    ghost name_in: { Self → List ℕ };

    /// The name.
    fn name_bytes(&self) -> &[u8]
        ensures { result.now ≡ name_in self.now };
}

impl Named for Entry {
    ghost name_in = { λ e. e.name };

    fn name_bytes(&self) -> &[u8] {
        self.name.as_bytes()
    }
}

/// An include file is found by its path.
impl Named for IncludeEntry {
    ghost name_in = { λ e. e.path };

    fn name_bytes(&self) -> &[u8] {
        self.path.as_bytes()
    }
}

/// A mailbox is its name.
impl Named for Text {
    ghost name_in = { λ name. name };

    fn name_bytes(&self) -> &[u8] {
        self.as_bytes()
    }
}
