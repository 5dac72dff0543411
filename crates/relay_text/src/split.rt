//! Address extensions.
ghost use Rattle.std.specs.Prelude.{◌≡◌, ◌<◌, ◌==◌, ◌∷◌, [], length, codes, position, IfSome};
ghost use Rattle.relay_text.specs.Bytes.{folded, begins_with, ends_with, has_text};
ghost use Rattle.relay_text.specs.Addresses.{is_unsplit, split_place_of};

use crate::place::place_of;

/// Whether a local part is one of the names that no delimiter splits.
fn is_reserved(local: &[u8]) -> bool
    ensures { result ≡ has_text (codes "postmaster" ∷ codes "mailer-daemon" ∷ codes "double-bounce" ∷ []) (folded local.now) }
{
    local.eq_ignore_ascii_case(b"postmaster")
        || local.eq_ignore_ascii_case(b"mailer-daemon")
        || local.eq_ignore_ascii_case(b"double-bounce")
}

/// Whether a local part begins with `owner-`.
fn is_owner(local: &[u8]) -> bool
    ensures { result ≡ begins_with (codes "owner-") (folded local.now) }
{
    let word = b"owner-";
    local.len() >= word.len() && local[..word.len()].eq_ignore_ascii_case(word)
}

/// Whether a local part ends with `-request`.
fn is_request(local: &[u8]) -> bool
    ensures { result ≡ ends_with (codes "-request") (folded local.now) }
{
    let word = b"-request";
    local.len() >= word.len() && local[local.len() - word.len()..].eq_ignore_ascii_case(word)
}

/// Whether this delimiter doesn't split a local part.
fn is_unsplit(delimiter: u8, local: &[u8]) -> bool
    ensures { result ≡ is_unsplit delimiter local.now }
{
    is_reserved(local) || (delimiter == b'-' && (is_owner(local) || is_request(local)))
}

/// Where a local part is split into a base and an extension: the index of its leftmost delimiter (local(8), "address
/// extension"). `None` where there is no delimiter or it is the first byte, and for the names that aren't split: postmaster,
/// mailer-daemon and double-bounce, and with the delimiter `-` those that begin with `owner-` or end with `-request`, all in any
/// case.
#[tactic(auto, using(crate::proofs::Splits::unsplit_none), unfolding(crate::specs::Addresses::split_place_of))]
pub fn split_place(local: &[u8], delimiter: Option<u8>) -> Option<usize>
    ensures place { result ≡ split_place_of local.now delimiter }
    ensures inside { IfSome result (λ place. place < length local.now) }
{
    let delimiter = delimiter?;
    let place = place_of(delimiter, local)?;
    if place == 0 || is_unsplit(delimiter, local) {
        None
    } else {
        Some(place)
    }
}
