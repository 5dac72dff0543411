//! Written paths.
ghost use Rattle.std.specs.Prelude.{◌≡◌, ◌∷◌, ◌++◌, ℕ, List, option_copied};
ghost use Rattle.relay_text.specs.Addresses.{path_text_of};
ghost use Rattle.relay_delivery.specs.Placings.{IsSender};
ghost use Rattle.relay_delivery.specs.WrittenPaths.{Begins};

use relay_text::{Address, path_len};

/// The one spelling of a sender as a path, past its `<`, with which all paths begin, from paths that begin with it; and what is behind
/// it. That of the null sender is `<>` (RFC 5321 section 4.5.5).
pub(crate) fn split_path<'t>(paths: &'t [u8], sender: Option<&Address>) -> (&'t [u8], &'t [u8])
    requires { Begins paths.now (path_text_of (option_copied sender)) }
    ensures path { path_text_of (option_copied sender.entry) ≡ 60 ∷ result.0.now }
    ensures behind { (behind : List ℕ) → paths.now ≡ path_text_of (option_copied sender.entry) ++ behind → result.1.now ≡ behind }
    ensures valid { IsSender (option_copied sender.entry) }
{
    if let Some(address) = sender {
        // For what the call says alone: the address is within the limits.
        let _ = address.local();
    }
    let len = path_len(sender);
    (&paths[1..len], &paths[len..])
}
