//! How the programs of refused growths judge a call that takes memory, and what they print.
//!
//! An `Answer` is that of one call, a `Seen` that of a call which is made again where it was refused memory, an `Unready` why a call wasn't
//! made. A program makes a `Teller` for the call that its word names, hands it each of its calls by `call!` (inputs made anew for the second
//! call), or by `case!` around a `twice!` (inputs kept), and ends with the teller's status. Without a word the program makes each call and
//! prints a line on it. With the name of a call it makes that one alone, so that its growths of memory can be refused from outside, one
//! after another; `tests/growths/run` does so.
//!
//! What a call gave goes to `judged`, an input of many parts to `lent` or `lent_mut`, behind which it is dropped, and two inputs to `both`.
#![tactic(auto)]

pub mod answer;
pub mod inputs;
pub mod lending;
pub mod seen;
pub mod teller;
pub mod twice;
pub mod unready;

pub use answer::Answer;
pub use lending::{both, judged, lent, lent_mut};
pub use seen::Seen;
pub use teller::{DONE, Teller};
pub use unready::{Unready, made_anew};
