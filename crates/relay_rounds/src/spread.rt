//! Numbers of heads that no file can be written for.
//!
//! Keys follow the order in which names stand in a file, so for a number of heads that is known beforehand a file can be written that
//! puts all of its keys into one bucket. These numbers hang on a salt that the file's writer doesn't know.
ghost use Rattle.std.specs.Prelude.{◌≤◌, ◌+◌, ◌*◌, ◌^◌};

/// A number of heads between one and a half times `few` and twice as many. It is odd, so that keys that are multiples of a power of two spread.
pub(crate) fn heads_from(few: usize, salt: u64) -> usize
    requires { few ≤ 2 ^ 34 }
    ensures some { 1 ≤ result }
    ensures most { result ≤ 2 * few + 1 }
{
    let half = few / 2;
    let more = (salt % half.max(1) as u64) as usize;
    (few + half + more) / 2 * 2 + 1
}
