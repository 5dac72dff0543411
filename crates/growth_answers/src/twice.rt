//! A call that is made again where it was refused memory, with the inputs that it had.

/// How a call goes that is made again where it's refused memory. It is an expression, which stands in place of both calls.
#[macro_export]
macro_rules! twice {
    ($call:expr) => {
        match $call {
            $crate::Answer::Refused => $crate::Seen::at_last($call),
            answer => $crate::Seen::at_once(answer),
        }
    };
}
