//! What is wrong with words that no command takes, and what becomes of them.
ghost use Rattle.std.specs.Prelude.{◌≡◌, ◌≢◌, ◌⊎◌};
ghost use Rattle.std.specs.IoError.{error_kind};
ghost use Rattle.std.specs.declared.io.ErrorKind.TheVariants.{InvalidData};
ghost use Rattle.clap.specs.Values.{kind_of};

use crate::request::Request;
use crate::values::{graph_of, names_files};
use clap::ArgMatches;
use clap::error::ErrorKind;
use relay_job::RunFault;
use std::io;

/// Why words that say which job is read can't stand side by side, if they can't.
fn clash_of_job(words: &ArgMatches<'_>) -> Option<&'static str> {
    let has_sender = words.contains_id("from");
    let has_recipient = words.contains_id("to");
    if words.contains_id("file") && names_files(words) {
        Some(
            "FILE stands without --settings, --aliases, --mailboxes, --transport, --mx and --envelope",
        )
    } else if words.contains_id("envelope") && (has_sender || has_recipient) {
        Some("--from and --to stand without --envelope")
    } else if has_sender && !has_recipient {
        Some("--from stands with --to alone")
    } else if words.get_flag("each") && (has_recipient || names_files(words)) {
        Some("--each takes no --from and --to, and no files that lie apart")
    } else {
        None
    }
}

/// Why words after a command that reads a job can't stand side by side, if they can't.
pub(crate) fn clash_of(words: &ArgMatches<'_>) -> Option<&'static str> {
    clash_of_plan(words)
        .or(clash_of_expansion(words))
        .or(clash_of_job(words))
}

/// Why words after `plan` can't stand side by side, if they can't.
fn clash_of_plan(plan: &ArgMatches<'_>) -> Option<&'static str> {
    if plan.get_flag("returns") && matches!(plan.get_str("form"), Some("json")) {
        Some("--returns has no JSON form")
    } else if plan.get_str("tables").is_some() && !plan.get_flag("each") {
        Some("--tables stands with --each alone")
    } else {
        None
    }
}

/// Why words after `expand` can't stand side by side, if they can't.
fn clash_of_expansion(expand: &ArgMatches<'_>) -> Option<&'static str> {
    if expand.get_flag("tree") && expand.get_str("form").is_some() {
        Some("--tree stands without --form")
    } else if expand.get_flag("senders") && graph_of(expand).is_some() {
        Some("--senders stands without --tree and --form dot")
    } else {
        None
    }
}

/// What is asked for where the words can't be had. A word that isn't UTF-8 is a fault of the command line, even in the place of a path.
pub(crate) fn request_without_words<R: Eprint>(rt: &R, error: &io::Error) -> Request
    ensures no_text { error_kind error.now ≡ InvalidData → result ≡ Request.Unknown }
    ensures memory { error_kind error.now ≢ InvalidData → result ≡ Request.Fault RunFault.Memory }
{
    match error.kind() {
        io::ErrorKind::InvalidData => {
            let _ = eprintln!(rt; "aliasplan: command line is not UTF-8");
            Request::Unknown
        }
        _ => Request::Fault(RunFault::Memory),
    }
}

/// What is asked for by words that are no command. Their help, or what is wrong with them, is printed; want of memory isn't.
pub(crate) fn request_of_error<R: Print + Eprint>(rt: &R, error: &clap::Error) -> Request
    ensures memory { kind_of error.now ≡ ErrorKind.OutOfMemory → result ≡ Request.Fault RunFault.Memory }
    ensures help { kind_of error.now ≡ ErrorKind.DisplayHelp → (result ≡ Request.Help) ⊎ (result ≡ Request.Fault RunFault.Write) }
    ensures version { kind_of error.now ≡ ErrorKind.DisplayVersion → (result ≡ Request.Help) ⊎ (result ≡ Request.Fault RunFault.Write) }
    ensures unknown { kind_of error.now ≢ ErrorKind.OutOfMemory → kind_of error.now ≢ ErrorKind.DisplayHelp → kind_of error.now ≢ ErrorKind.DisplayVersion → result ≡ Request.Unknown }
{
    match error.kind() {
        ErrorKind::OutOfMemory => Request::Fault(RunFault::Memory),
        ErrorKind::DisplayHelp | ErrorKind::DisplayVersion => match error.print(rt) {
            Ok(()) => Request::Help,
            Err(_) => Request::Fault(RunFault::Write),
        },
        _ => {
            let _ = error.print(rt);
            Request::Unknown
        }
    }
}
