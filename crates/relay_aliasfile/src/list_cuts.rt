//! Where a long list is cut, for several threads to read.
ghost use Rattle.std.specs.Prelude.{◌≡◌, ◌++◌, ◌≤◌, IfSome};
ghost use Rattle.relay_aliasfile.specs.Items.{item_texts};
ghost use Rattle.relay_aliasfile.specs.ListCuts.{HasNoQuotes};

use bstr::ByteSlice;
use relay_halves::{LEAST_HALF, is_long};

/// The front of a list up to the last comma before its first quote or backslash, and what follows that comma. A comma before the first
/// quote stands outside quotes. Where there is no quote, the front is all of the list.
pub(crate) fn unquoted_front(list: &[u8]) -> (&[u8], &[u8])
    ensures quotes { HasNoQuotes result.0.now }
    ensures texts { item_texts list.now ≡ item_texts result.0.now ++ item_texts result.1.now }
{
    let Some(quote) = list.find_byteset(b"\"\\") else {
        return (list, &list[list.len()..]);
    };
    let Some(comma) = (&list[..quote]).rfind_byte(b',') else {
        return (&list[..0], list);
    };
    (&list[..comma], &list[comma + 1..])
}

/// A list without quotes up to a comma, and the last part of it behind that comma, which is as long as the part of each of so many
/// threads. `None` where one thread is to read it: there is no second one, the list is short, or no comma stands there.
pub(crate) fn last_part(workers: usize, list: &[u8]) -> Option<(&[u8], &[u8])>
    requires { HasNoQuotes list.now }
    ensures workers { IfSome result (λ parts. 2 ≤ workers) }
    ensures quotes { IfSome result (λ parts. HasNoQuotes parts.0.now) }
    ensures texts { IfSome result (λ parts. item_texts list.now ≡ item_texts parts.0.now ++ item_texts parts.1.now) }
{
    if !is_long(workers, list) {
        return None;
    }
    let place = list.len() - usize::max(list.len() / workers, LEAST_HALF);
    let comma = place + (&list[place..]).find_byte(b',')?;
    Some((&list[..comma], &list[comma + 1..]))
}
