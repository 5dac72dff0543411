//! The commands of the program, each with the arguments that it takes.
use crate::arguments::{
    ADDRESS, ADDRESSES, ALL, EACH, EXPANSION_FORM, FORM, JOB_FILE, RETURNS, SENDERS, TABLES, TREE,
    VERBOSE,
};
use crate::group::Group;
use crate::help::{
    AFTER_CHECK, AFTER_DOMAINS, AFTER_EXPAND, AFTER_EXPLAIN, AFTER_GATHER, AFTER_PLAN,
};
use crate::subcommand::Subcommand;
use clap::Command;
use std::alloc::{AllocError, Global};

/// The version of the program, as the file VERSION has it, and the logic that it is proved in, as `rt version` names it: several kits have it.
const VERSION: &str = "0.1.0, proved in logic dac8208d650f15bf of the Rattle kit";

/// The commands, and the arguments of each, in the order in which the help has them.
const SUBCOMMANDS: [Subcommand; 6] = [
    Subcommand {
        name: "plan",
        about: "Reads a job and writes its plan on standard output",
        after_help: AFTER_PLAN,
        arguments: &[FORM, RETURNS, EACH, TABLES, JOB_FILE],
        groups: &[Group::Work, Group::Envelope, Group::Files],
    },
    Subcommand {
        name: "explain",
        about: "Reads a job and writes why an address is in its plan, or isn't",
        after_help: AFTER_EXPLAIN,
        arguments: &[ADDRESS, JOB_FILE],
        groups: &[Group::Work, Group::Envelope, Group::Files],
    },
    Subcommand {
        name: "expand",
        about: "Reads a job and writes the addresses that names and addresses expand to",
        after_help: AFTER_EXPAND,
        arguments: &[SENDERS, TREE, EXPANSION_FORM, ADDRESSES],
        groups: &[Group::Work, Group::Files],
    },
    Subcommand {
        name: "check",
        about: "Reads a job and writes what is wrong with its files and tables",
        after_help: AFTER_CHECK,
        arguments: &[ALL, JOB_FILE],
        groups: &[Group::Work, Group::Files],
    },
    Subcommand {
        name: "domains",
        about: "Reads a job and writes the names whose mail exchangers it asks for",
        after_help: AFTER_DOMAINS,
        arguments: &[JOB_FILE],
        groups: &[Group::Work, Group::Envelope, Group::Files],
    },
    Subcommand {
        name: "gather",
        about: "Writes the job of files that lie apart on standard output",
        after_help: AFTER_GATHER,
        arguments: &[],
        groups: &[Group::Files],
    },
];

fn program<'a>(alloc: Global) -> Result<Command<'a>, AllocError> {
    Command::new(alloc, "aliasplan")
        .about("Plans the delivery of a message to aliases and mailing lists")
        .version(VERSION)
        .subcommand_required(true)
        .bin_name("aliasplan")?
        .arg(VERBOSE.to_clap(alloc))
}

/// The program's command with these below it.
fn command_of<'a>(alloc: Global, subcommands: &[Subcommand]) -> Result<Command<'a>, AllocError> {
    let mut command = program(alloc)?;
    for subcommand in subcommands {
        command = command.subcommand(subcommand.to_clap(alloc)?)?;
    }
    Ok(command)
}

pub(crate) fn command<'a>(alloc: Global) -> Result<Command<'a>, AllocError> {
    command_of(alloc, &SUBCOMMANDS)
}
