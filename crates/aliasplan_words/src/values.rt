//! What single words after a command say.
ghost use Rattle.std.specs.Prelude.{◌≡◌, ◌<◌, ◌≤◌, ◌++◌, true, false, length, None, IsSome};
ghost use Rattle.std.specs.Option.{option_to_list};
ghost use Rattle.relay_planning.specs.Limits.{AreOptions, AreLimits};
ghost use Rattle.aliasplan_words.specs.Requests.{IsWork};

use crate::detail::Detail;
use crate::named_job::JobSource;
use crate::output::Output;
use crate::work::Work;
use clap::ArgMatches;
use relay_chains::TextKey;
use relay_expansion::GraphForm;
use relay_gather::Paths;
use relay_planning::{Form, Limits, Options};
use relay_text::{Seq, Text};
use std::alloc::{AllocError, Global};

pub(crate) fn detail_of(words: &ArgMatches<'_>) -> Detail {
    if words.get_flag("verbose") {
        Detail::Culprit
    } else {
        Detail::Line
    }
}

/// The options that the words after `plan`, `explain`, `check` or `domains` say, or four threads that take 1,024 pairs at once. What is out of
/// range is refused before.
fn options_of(words: &ArgMatches<'_>, form: Form, key: TextKey) -> Options
    ensures { AreOptions result }
{
    let workers = words.get_one::<usize>("workers").unwrap_or(4);
    let cut = words.get_one::<usize>("cut").unwrap_or(1024);
    Options {
        form,
        workers: workers.clamp(1, 64),
        cut: cut.clamp(1, 1_048_576),
        key,
    }
}

/// The number that an option says, up to the most.
fn limit_of(words: &ArgMatches<'_>, name: &str, most: usize) -> usize
    ensures { result ≤ most }
{
    words.get_one::<usize>(name).unwrap_or(most).min(most)
}

/// How much these words let a run take; as much as it may ever take where they say nothing.
fn limits_of(words: &ArgMatches<'_>) -> Limits
    ensures { AreLimits result }
{
    let most = Limits::default();
    Limits {
        bytes: limit_of(words, "max-bytes", most.bytes),
        names: limit_of(words, "max-names", most.names),
        owners: limit_of(words, "max-owners", most.owners),
        pairs: limit_of(words, "max-pairs", most.pairs),
    }
}

/// The options and limits that these words say.
pub(crate) fn work_of(words: &ArgMatches<'_>, form: Form, key: TextKey) -> Work
    ensures { IsWork result }
{
    Work {
        options: options_of(words, form, key),
        limits: limits_of(words),
    }
}

/// The form that the words after `plan` say.
pub(crate) fn form_of(plan: &ArgMatches<'_>) -> Form {
    match plan.get_str("form") {
        Some("wire") => Form::Wire,
        Some("json") => Form::Json,
        _ => Form::Plan,
    }
}

/// What the words after `plan` say that the plan is written as.
pub(crate) fn output_of(plan: &ArgMatches<'_>) -> Output<'static> {
    if plan.get_flag("returns") {
        Output::Returns
    } else {
        Output::Text
    }
}

/// The form of the graph that the words after `expand` ask for, if they ask for one.
pub(crate) fn graph_of(expand: &ArgMatches<'_>) -> Option<GraphForm> {
    if expand.get_flag("tree") {
        return Some(GraphForm::Tree);
    }
    match expand.get_str("form") {
        Some("dot") => Some(GraphForm::Dot),
        _ => None,
    }
}

/// The path that an option names, if it stands there.
pub(crate) fn path_of(
    alloc: Global,
    words: &ArgMatches<'_>,
    name: &str,
) -> Result<Option<Text>, AllocError> {
    match words.get_str(name) {
        Some(path) => Ok(Some(Text::copy_of(alloc, path.as_bytes())?)),
        None => Ok(None),
    }
}

/// The paths that an option names, each time that it stands there, in their order.
fn paths_named(alloc: Global, words: &ArgMatches<'_>, name: &str) -> Result<Seq<Text>, AllocError> {
    let mut paths = Vec::new(alloc);
    if let Some(named) = words.get_strs(name) {
        for path in named {
            paths.push(Text::copy_of(alloc, path.as_bytes())?)?;
        }
    }
    Ok(Seq::of(paths))
}

/// The path of the job that a word names, `None` for standard input.
pub(crate) fn job_path(alloc: Global, word: Option<&str>) -> Result<Option<Text>, AllocError> {
    match word {
        None | Some("-") => Ok(None),
        Some(path) => Ok(Some(Text::copy_of(alloc, path.as_bytes())?)),
    }
}

/// The options that name files which lie apart.
const APART: [&str; 6] = [
    "settings",
    "aliases",
    "mailboxes",
    "transport",
    "mx",
    "envelope",
];

/// Whether the files that lie apart are named.
pub(crate) fn names_files(words: &ArgMatches<'_>) -> bool {
    APART.iter().any(|name| words.contains_id(name))
}

/// The operands of `expand` that are names and addresses, and the one that names a file: the last of two or more, where files that lie
/// apart aren't named.
pub(crate) fn names_and_file<'w>(
    operands: &'w [&'w str],
    has_files: bool,
) -> (&'w [&'w str], Option<&'w str>)
    ensures apart { has_files ≡ true → (result.0.now ≡ operands.entry.now) × (result.1 ≡ None) }
    ensures name { length operands.entry.now ≤ 1 → (result.0.now ≡ operands.entry.now) × (result.1 ≡ None) }
    ensures file { has_files ≡ false → 1 < length operands.entry.now → operands.entry.now ≡ result.0.now ++ option_to_list result.1 }
    ensures named { has_files ≡ false → 1 < length operands.entry.now → IsSome result.1 }
{
    match operands.split_last() {
        Some((file, names)) if !has_files && !names.is_empty() => (names, Some(*file)),
        _ => (operands, None),
    }
}

/// Where a job comes from, whose file this operand names where files that lie apart aren't named.
pub(crate) fn source_of(
    alloc: Global,
    words: &ArgMatches<'_>,
    file: Option<&str>,
) -> Result<JobSource, AllocError> {
    if names_files(words) {
        return Ok(JobSource::Apart(paths_of(alloc, words)?));
    }
    Ok(match job_path(alloc, file)? {
        Some(path) => JobSource::File(path),
        None => JobSource::Input,
    })
}

/// The paths of files that lie apart which words say.
pub(crate) fn paths_of(alloc: Global, gather: &ArgMatches<'_>) -> Result<Paths, AllocError> {
    Ok(Paths {
        settings: path_of(alloc, gather, "settings")?,
        aliases: paths_named(alloc, gather, "aliases")?,
        mailboxes: path_of(alloc, gather, "mailboxes")?,
        transport: paths_named(alloc, gather, "transport")?,
        mx: path_of(alloc, gather, "mx")?,
        envelope: path_of(alloc, gather, "envelope")?,
    })
}
