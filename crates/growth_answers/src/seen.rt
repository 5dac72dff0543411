//! How a case went.
ghost use Rattle.std.specs.Prelude.{◌≡◌, true, false};

use crate::answer::Answer;

/// How a case went, from the best to the worst.
#[derive(Clone, Copy, Debug, PartialEq, Eq, PartialOrd, Ord)]
pub enum Seen {
    /// The call answered rightly.
    Answered,
    /// It was refused memory, and answered rightly when it was made again.
    Recovered,
    /// It was refused memory both times.
    RefusedTwice,
    /// It was refused memory, and changed the value that it was handed.
    Changed,
    /// It answered something else.
    Wrong,
}

impl Seen {
    /// After the only call.
    pub fn at_once(answer: Answer) -> Seen
        ensures right { answer ≡ Answer.Right → result ≡ Seen.Answered }
        ensures refused { answer ≡ Answer.Refused → result ≡ Seen.RefusedTwice }
        ensures changed { answer ≡ Answer.Changed → result ≡ Seen.Changed }
        ensures wrong { answer ≡ Answer.Wrong → result ≡ Seen.Wrong }
    {
        match answer {
            Answer::Right => Seen::Answered,
            Answer::Refused => Seen::RefusedTwice,
            Answer::Changed => Seen::Changed,
            Answer::Wrong => Seen::Wrong,
        }
    }

    /// After a call that was refused, and the same call again.
    pub fn at_last(answer: Answer) -> Seen
        ensures right { answer ≡ Answer.Right → result ≡ Seen.Recovered }
        ensures refused { answer ≡ Answer.Refused → result ≡ Seen.RefusedTwice }
        ensures changed { answer ≡ Answer.Changed → result ≡ Seen.Changed }
        ensures wrong { answer ≡ Answer.Wrong → result ≡ Seen.Wrong }
    {
        match answer {
            Answer::Right => Seen::Recovered,
            _ => Seen::at_once(answer),
        }
    }

    /// Whether the right answer came.
    pub fn is_answered(self) -> bool
        ensures answered { self ≡ Seen.Answered → result ≡ true }
        ensures recovered { self ≡ Seen.Recovered → result ≡ true }
        ensures refused { self ≡ Seen.RefusedTwice → result ≡ false }
        ensures changed { self ≡ Seen.Changed → result ≡ false }
        ensures wrong { self ≡ Seen.Wrong → result ≡ false }
    {
        matches!(self, Seen::Answered | Seen::Recovered)
    }
}
