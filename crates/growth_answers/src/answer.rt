//! What one call answered.
ghost use Rattle.std.specs.Prelude.{◌≡◌, true, false};

/// What a call answered.
#[derive(Clone, Copy, Debug, PartialEq, Eq)]
pub enum Answer {
    /// What the example says.
    Right,
    /// Want of memory; the value that it was handed is as it was.
    Refused,
    /// Want of memory; the value that it was handed isn't as it was.
    Changed,
    /// Anything else.
    Wrong,
}

impl Answer {
    /// The answer of a call that succeeded.
    pub fn given(is_right: bool) -> Answer
        ensures right { is_right ≡ true → result ≡ Answer.Right }
        ensures wrong { is_right ≡ false → result ≡ Answer.Wrong }
    {
        match is_right {
            true => Answer::Right,
            false => Answer::Wrong,
        }
    }

    /// The answer of a call that was refused memory.
    pub fn refused(is_as_it_was: bool) -> Answer
        ensures same { is_as_it_was ≡ true → result ≡ Answer.Refused }
        ensures changed { is_as_it_was ≡ false → result ≡ Answer.Changed }
    {
        match is_as_it_was {
            true => Answer::Refused,
            false => Answer::Changed,
        }
    }
}
