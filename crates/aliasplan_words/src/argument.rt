//! An argument of a command.
use crate::kind::Kind;
use crate::position::Position;
use clap::Arg;
use std::alloc::Global;

/// An argument by its name, with what the help says of it.
pub(crate) struct Argument {
    pub(crate) name: &'static str,
    pub(crate) position: Position,
    pub(crate) kind: Kind,
    pub(crate) help: &'static str,
}

impl Argument {
    /// The argument as clap has it. The functions below have a part each, since the proof of each call follows all other values of its
    /// function.
    pub(crate) fn to_clap<'a>(&self, alloc: Global) -> Arg<'a> {
        placed(given(self.described(alloc), &self.kind), self)
    }

    fn described<'a>(&self, alloc: Global) -> Arg<'a> {
        Arg::new(alloc, self.name)
            .help(self.help)
            .action(self.kind.action())
    }
}

fn given<'a>(arg: Arg<'a>, kind: &Kind) -> Arg<'a> {
    arg.value_names(kind.value_names())
        .value_parser(kind.parser())
}

fn placed<'a>(arg: Arg<'a>, argument: &Argument) -> Arg<'a> {
    match argument.position {
        Position::Option => arg.long(argument.name),
        Position::GlobalOption(letter) => arg.long(argument.name).short(letter).global(true),
        Position::Operand => arg,
        Position::RequiredOperand => arg.required(true),
    }
}
