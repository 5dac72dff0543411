//! Numbers in scattered order.
ghost use Rattle.std.specs.Prelude.{◌<◌, max};

/// Another order of the numbers below `count`.
pub fn shuffled(number: u32, count: u32) -> u32
    ensures { result < max count 1 }
{
    (u64::from(number).wrapping_mul(2_654_435_761) % u64::from(count.max(1))) as u32
}
