//! Tells how cases went, a line each.
ghost use Rattle.std.specs.Prelude.{◌≡◌, true, false, Ok, Err, IfSome};
ghost use Rattle.std.specs.Str.{bytes_eq};

use crate::seen::Seen;
use crate::unready::Unready;

/// The status of a process of which each call did as it ought.
pub const DONE: u8 = 0;

/// The status where some call did not.
const WRONG: u8 = 1;

/// The status where there is no such call, or nothing can be printed.
const UNTOLD: u8 = 2;

/// Makes the cases that are asked for, and prints a line on each.
#[derive(Drop)]
pub struct Teller<'a, R> {
    pub rt: &'a R,
    /// The one call that is asked for; all where there is none.
    asked: Option<&'a str>,
    /// Whether a case was asked for.
    told: bool,
    /// Whether a case went wrong.
    wrong: bool,
    /// Whether a line couldn't be printed.
    silenced: bool,
}

impl<'a, R: Print + AllocGlobal> Teller<'a, R> {
    /// For the one call of this name; for all where there is none.
    pub fn new(rt: &'a R, asked: Option<&'a str>) -> Teller<'a, R>
        ensures asked { result.asked ≡ asked.entry }
        ensures untold { result.told ≡ false }
        ensures right { result.wrong ≡ false }
        ensures heard { result.silenced ≡ false }
    {
        Teller {
            rt,
            asked,
            told: false,
            wrong: false,
            silenced: false,
        }
    }

    /// What the process is to end with.
    pub fn status(&self) -> u8
        ensures wrong { self.now.wrong ≡ true → result ≡ 1 }
        ensures done { self.now.wrong ≡ false → self.now.told ≡ true → self.now.silenced ≡ false → result ≡ 0 }
        ensures untold { self.now.wrong ≡ false → self.now.told ≡ false → result ≡ 2 }
        ensures silenced { self.now.wrong ≡ false → self.now.silenced ≡ true → result ≡ 2 }
    {
        if self.wrong {
            WRONG
        } else if self.told && !self.silenced {
            DONE
        } else {
            UNTOLD
        }
    }

    /// Whether a case is asked for.
    pub fn is_asked(&self, name: &str) -> bool
        ensures each { self.now.asked ≡ None → result ≡ true }
        ensures one { IfSome self.now.asked (λ asked. result ≡ bytes_eq asked.now name.now) }
    {
        match self.asked {
            Some(asked) => asked == name,
            None => true,
        }
    }

    /// Prints how a case went.
    pub fn tell(&mut self, name: &str, went: Result<Seen, Unready>)
        ensures told { self.new.told ≡ true }
        ensures changed { went ≡ Ok Seen.Changed → self.new.wrong ≡ true }
        ensures other { went ≡ Ok Seen.Wrong → self.new.wrong ≡ true }
        ensures inputs { went ≡ Err Unready.Wrong → self.new.wrong ≡ true }
        ensures answered { went ≡ Ok Seen.Answered → self.new.wrong ≡ self.old.wrong }
        ensures recovered { went ≡ Ok Seen.Recovered → self.new.wrong ≡ self.old.wrong }
        ensures refused { went ≡ Ok Seen.RefusedTwice → self.new.wrong ≡ self.old.wrong }
        ensures no_memory { went ≡ Err Unready.NoMemory → self.new.wrong ≡ self.old.wrong }
        ensures silenced { self.old.silenced ≡ true → self.new.silenced ≡ true }
        ensures asked { self.new.asked ≡ self.old.asked }
    {
        let (words, is_right) = match went {
            Ok(Seen::Answered) => ("answered", true),
            Ok(Seen::Recovered) => ("refused, then answered", true),
            Ok(Seen::RefusedTwice) => ("refused twice", true),
            Err(Unready::NoMemory) => ("had no memory to begin", true),
            Ok(Seen::Changed) => ("was refused, and changed its value", false),
            Ok(Seen::Wrong) => ("answered something else", false),
            Err(Unready::Wrong) => ("had other inputs than it ought", false),
        };
        let front = if is_right { "" } else { "WRONG " };
        self.told = true;
        self.wrong = self.wrong || !is_right;
        if println!(self.rt; "{front}{name} {words}").is_err() {
            self.silenced = true;
        }
    }
}

/// Makes a case, where it's asked for.
#[macro_export]
macro_rules! case {
    ($teller:ident, $name:literal, $case:expr) => {
        if $teller.is_asked($name) {
            $teller.tell($name, $case);
        }
    };
}

/// Makes a call, where it's asked for, and makes it again where it's refused memory; its inputs are made for it each time.
#[macro_export]
macro_rules! call {
    ($teller:ident, $name:literal, $call:expr) => {
        if $teller.is_asked($name) {
            let went = match $call {
                Ok($crate::Answer::Refused) => $crate::made_anew($call),
                Ok(answer) => Ok($crate::Seen::at_once(answer)),
                Err(unready) => Err(unready),
            };
            $teller.tell($name, went);
        }
    };
}
