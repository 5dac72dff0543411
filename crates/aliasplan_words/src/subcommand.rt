//! A command of the program.
use crate::argument::Argument;
use crate::group::{Group, with_arguments};
use clap::Command;
use std::alloc::{AllocError, Global};

/// A command by its name, with what the help says of it and the arguments that it takes.
pub(crate) struct Subcommand {
    pub(crate) name: &'static str,
    pub(crate) about: &'static str,
    pub(crate) after_help: &'static str,
    pub(crate) arguments: &'static [Argument],
    /// Those behind its own that others take too.
    pub(crate) groups: &'static [Group],
}

impl Subcommand {
    /// The command as clap has it.
    pub(crate) fn to_clap<'a>(&self, alloc: Global) -> Result<Command<'a>, AllocError> {
        let bare = Command::new(alloc, self.name)
            .about(self.about)
            .after_help(self.after_help);
        let mut command = with_arguments(alloc, bare, self.arguments)?;
        for group in self.groups {
            command = group.add_to(alloc, command)?;
        }
        Ok(command)
    }
}
