//! Lines beside numbers that decide most comparisons of their order.
ghost use Rattle.std.specs.Prelude.{◌≡◌, drop, length, take};
ghost use Rattle.relay_wire.specs.FrontedLines.{IsFronted};
ghost use Rattle.relay_wire.specs.Fronts.{front_number};

use crate::front::split_front;

/// A line beside the numbers that 16 of its bytes make, which stand behind a front that it shares with others. They order it among those
/// as its bytes do, and where they differ, a comparison reads no memory but the two values.
#[derive(Clone, Copy, Drop)]
#[derive_where(PartialEq, Eq, PartialOrd, Ord)]
pub(crate) struct FrontedLine<'t> {
    first: u64,
    second: u64,
    pub line: &'t [u8],
}

impl<'t> FrontedLine<'t> {
    /// The line of these bytes, beside the numbers of those that stand behind this front.
    #[inline]
    pub(crate) fn of(line: &'t [u8], front: &[u8]) -> FrontedLine<'t>
        requires { take (length front.now) line.now ≡ front.now }
        ensures line { result.line.now ≡ line.now }
        ensures fronts { IsFronted front.now result }
    {
        let (_, rest) = line.split_at(front.len());
        let (first, rest) = split_front(rest);
        let (second, _) = split_front(rest);
        FrontedLine {
            first,
            second,
            line,
        }
    }
}

/// The first of the numbers of a line that begins with this front.
#[inline]
pub(crate) fn number_behind(line: &[u8], front: &[u8]) -> u64
    requires { take (length front.now) line.now ≡ front.now }
    ensures { result ≡ front_number 8 (drop (length front.now) line.now) }
{
    let (_, rest) = line.split_at(front.len());
    split_front(rest).0
}
