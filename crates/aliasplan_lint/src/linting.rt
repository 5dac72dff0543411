//! What is told of the findings of a check, as text.
use crate::file_lints::{tell_aliases, tell_include, tell_mailboxes, tell_mx, tell_transport};
use crate::kind::Kind;
use crate::lint::{Lint, Spot};
use crate::lints::Lints;
use crate::names::Names;
use crate::options::{LintCounts, LintOptions};
use crate::section::Section;
use crate::told::{counts, lint_text};
use crate::whole::whole_of;
use relay_aliasfile::parse_aliases;
use relay_chains::TextKey;
use relay_gather::Origins;
use relay_job::Job;
use relay_text::Text;
use std::alloc::{AllocError, Global};

/// A lint as text, and how much it tells.
#[derive(Drop)]
pub(crate) struct LintText {
    pub(crate) text: Text,
    pub(crate) counts: LintCounts,
}

ghost use Rattle.std.specs.Prelude.{◌≡◌, filter, option_map, IfOk, OnOk};
ghost use Rattle.aliasplan_lint.specs.Tells.{keeps_lint, AreNotes, IsNote, Tells};

/// What is told of the findings of a job's files and tables.
fn finding_lints<'a>(
    alloc: Global,
    key: TextKey,
    job: &'a Job,
    origins: Option<&Origins>,
    findings: &'a [Text],
) -> Result<Vec<Lint<'a>>, AllocError> {
    let mut lints = Lints::new(alloc, findings)?;
    if findings.is_empty() {
        return Ok(lints.into_lints());
    }
    let file = parse_aliases(alloc, job.aliases.as_bytes())?;
    let names = Names::of(alloc, &job.settings, &file)?;
    tell_aliases(alloc, job, origins, (&file, &names), &mut lints)?;
    for include in job.includes.as_slice() {
        tell_include(alloc, &names, include, &mut lints)?;
    }
    tell_mailboxes(alloc, job, &mut lints)?;
    tell_mx(alloc, key, job, &mut lints)?;
    tell_transport(alloc, key, job, origins, &mut lints)?;
    Ok(lints.into_lints())
}

/// What is told of a note.
fn note_lint<'a>(alloc: Global, note: &Text) -> Result<Lint<'a>, AllocError>
    ensures { IfOk result (λ lint. IsNote lint) }
{
    let spot = Spot {
        section: Section::Settings,
        line: 1,
        column: None,
    };
    let words = note.as_bytes();
    Ok(Lint {
        kind: Kind::Setting,
        is_noted: false,
        spot,
        finding: None,
        subject: Text::copy_of(alloc, words.strip_prefix(b"note ").unwrap_or(words))?,
        reason: Text::copy_of(alloc, b"")?,
    })
}

/// A lint for each note on the settings.
fn note_lints<'a>(alloc: Global, notes: &[Text]) -> Result<Vec<Lint<'a>>, AllocError>
    ensures { IfOk result (λ lints. AreNotes notes.now lints.items) }
{
    let mut lints = Vec::with_capacity(alloc, notes.len())?;
    for note in notes {
        lints.push(note_lint(alloc, note)?)?;
    }
    Ok(lints)
}

/// Those of a kind that is told.
fn kept<'a>(
    alloc: Global,
    options: &LintOptions,
    lints: Vec<Lint<'a>>,
) -> Result<Vec<Lint<'a>>, AllocError>
    ensures { IfOk result (λ kept. kept.items ≡ filter (keeps_lint options.now) lints.entry.items) }
{
    let mut kept = Vec::new(alloc);
    for lint in lints {
        if options.keeps(lint.kind) {
            kept.push(lint)?;
        }
    }
    Ok(kept)
}

/// The text of what is told of these findings and notes.
pub(crate) fn text_of(
    alloc: Global,
    key: TextKey,
    job: (&Job, Option<&Origins>),
    options: &LintOptions,
    found: (&[Text], &[Text]),
) -> Result<LintText, AllocError>
    ensures { IfOk result (Tells options.now (option_map (λ o. o.now) job.entry.1) found.entry.0.now found.entry.1.now) }
{
    let (job, origins) = job;
    let (findings, notes) = found;
    let placed = finding_lints(alloc, key, job, origins, findings)?;
    let mut lints = whole_of(alloc, findings, placed)?;
    lints.append(&mut note_lints(alloc, notes)?)?;
    let lints = kept(alloc, options, lints)?;
    let text = lint_text(alloc, origins, lints.as_slice())?;
    Ok(LintText {
        text,
        counts: counts(lints.as_slice()),
    })
}
