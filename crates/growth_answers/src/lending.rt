//! Values that are lent to a call, and dropped behind it.
//!
//! Where a function owns a value of many parts, and lends or drops it beside other things, the proof of that function is long. Here the value
//! is of any type, so what becomes of it is proved once.
ghost use Rattle.std.specs.Prelude.{◌≡◌, ◌⊎◌, true, false, Ok, Err, IfOk, IfErr};
ghost use Rattle.std.specs.Fn.{FnOnceReturnsAt, FnOnceReturnsAtMut};

use crate::answer::Answer;
use crate::unready::Unready;

/// The answer of a call that gave this value.
pub fn judged<T: Drop, F: FnOnce(&T) -> bool>(value: T, is_right: F) -> Answer
    requires { F.IsAlwaysCallable is_right }
    ensures right { result ≡ Answer.Right → FnOnceReturnsAt F.FnOnce is_right value true }
    ensures wrong { result ≡ Answer.Wrong → FnOnceReturnsAt F.FnOnce is_right value false }
    ensures refused { result ≡ Answer.Refused → ⊥ }
    ensures changed { result ≡ Answer.Changed → ⊥ }
{
    if is_right(&value) {
        Answer::Right
    } else {
        Answer::Wrong
    }
}

/// How a case goes that is lent a value.
pub fn lent<T: Drop, A: Drop, F: FnOnce(&T) -> Result<A, Unready>>(
    value: T,
    case: F,
) -> Result<A, Unready>
    requires { F.IsAlwaysCallable case }
    ensures { FnOnceReturnsAt F.FnOnce case value result }
{
    case(&value)
}

/// How a case goes that is lent a value, which it may change.
pub fn lent_mut<T: Drop, A: Drop, F: FnOnce(&mut T) -> Result<A, Unready>>(
    mut value: T,
    case: F,
) -> Result<A, Unready>
    requires { F.IsAlwaysCallable case }
    ensures { (after : _) × FnOnceReturnsAtMut F.FnOnce case value result after }
{
    case(&mut value)
}

/// Two inputs in one, or why one of them isn't there. What is made of many parts takes them so, since a proof follows each part that is
/// dropped to every place.
pub fn both<A: Drop, B: Drop>(
    first: Result<A, Unready>,
    second: Result<B, Unready>,
) -> Result<(A, B), Unready>
    ensures both { IfOk result (λ both. (first ≡ Ok both.0) × (second ≡ Ok both.1)) }
    ensures unready { IfErr result (λ unready. (first ≡ Err unready) ⊎ (second ≡ Err unready)) }
{
    match first {
        Ok(first) => match second {
            Ok(second) => Ok((first, second)),
            Err(unready) => Err(unready),
        },
        Err(unready) => Err(unready),
    }
}
