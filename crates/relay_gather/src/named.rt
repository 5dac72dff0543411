//! Sections of files that are named.
ghost use Rattle.std.specs.Prelude.{◌≡◌, ℕ, List, [], ◌∷◌, codes, IfOk, IfErr, OnOk};
ghost use Rattle.relay_aliasfile.specs.AliasFiles.{alias_file_of, entry_items};
ghost use Rattle.relay_aliasfile.specs.IncludeNames.{include_names_in};
ghost use Rattle.relay_job.specs.declared.fault.RunFault.TheVariants.{Memory};
ghost use Rattle.relay_gather.specs.Source.{Tells, file};
ghost use Rattle.relay_gather.specs.JoinedFiles.{joined_files};
ghost use Rattle.relay_gather.specs.Sections.{named_section};
ghost use Rattle.relay_gather.specs.Gathering.{named_in, joined_in, first_names};
ghost use Rattle.relay_gather.specs.Gathered.{Adds, Stops};

use crate::fetching::fetched_file;
use crate::files::joined_file;
use crate::gathered::Gathered;
use crate::source::Source;
use relay_aliasfile::{include_names, parse_aliases};
use relay_job::RunFault;
use relay_text::{Seq, Text};
use std::alloc::Global;

/// Puts a section, where its file is named.
pub(crate) fn put_named<D: Source>(
    alloc: Global,
    source: &mut D,
    heading: &[u8],
    path: &Option<Text>,
    gathered: &mut Gathered,
) -> Result<(), RunFault>
    ensures ok { OnOk result (Tells (D.answer source.old) → Adds (named_in (D.answer source.old) heading.now path.now) gathered.old gathered.new) }
    ensures err { IfErr result (Stops (D.answer source.old) (named_in (D.answer source.old) heading.now path.now) gathered.old) }
    ensures alike { (p : List ℕ) → D.answer source.new p ≡ D.answer source.old p }
{
    if let Some(path) = path {
        let file = fetched_file(alloc, source, path.as_bytes())?;
        gathered.put_section(heading, file.as_slice())?;
    }
    Ok(())
}

/// Puts the section of some files, one behind the other, and answers what it has.
fn put_files<D: Source>(
    alloc: Global,
    source: &mut D,
    heading: &[u8],
    first: &Text,
    later: &[Text],
    gathered: &mut Gathered,
) -> Result<Vec<u8>, RunFault>
    ensures file { IfOk result (λ bytes. Tells (D.answer source.old) → joined_files (D.answer source.old) (D.answer source.old first.now) later.now ≡ file bytes.items) }
    ensures ok { OnOk result (Tells (D.answer source.old) → Adds (joined_in (D.answer source.old) heading.now (first.now ∷ later.now)) gathered.old gathered.new) }
    ensures err { IfErr result (Stops (D.answer source.old) (joined_in (D.answer source.old) heading.now (first.now ∷ later.now)) gathered.old) }
    ensures alike { (p : List ℕ) → D.answer source.new p ≡ D.answer source.old p }
{
    let file = joined_file(alloc, source, first, later)?;
    gathered.put_section(heading, file.as_slice())?;
    Ok(file)
}

/// Puts a section of files one behind the other, where some are named.
pub(crate) fn put_joined<D: Source>(
    alloc: Global,
    source: &mut D,
    heading: &[u8],
    paths: &Seq<Text>,
    gathered: &mut Gathered,
) -> Result<(), RunFault>
    ensures ok { OnOk result (Tells (D.answer source.old) → Adds (joined_in (D.answer source.old) heading.now paths.now) gathered.old gathered.new) }
    ensures err { IfErr result (Stops (D.answer source.old) (joined_in (D.answer source.old) heading.now paths.now) gathered.old) }
    ensures alike { (p : List ℕ) → D.answer source.new p ≡ D.answer source.old p }
{
    if let Some((first, later)) = paths.as_slice().split_first() {
        let _file = put_files(alloc, source, heading, first, later, gathered)?;
    }
    Ok(())
}

/// The names of the include files that an alias file has.
fn names_in_aliases(alloc: Global, bytes: &[u8]) -> Result<Seq<Text>, RunFault>
    ensures ok { IfOk result (λ names. names ≡ include_names_in (entry_items (alias_file_of bytes.now).entries)) }
    ensures err { IfErr result (λ fault. fault ≡ Memory) }
{
    let file = parse_aliases(alloc, bytes)?;
    Ok(include_names(alloc, &file)?)
}

/// Puts the section of the alias files, where some are named, and answers the names of their include files.
pub(crate) fn put_aliases<D: Source>(
    alloc: Global,
    source: &mut D,
    paths: &Seq<Text>,
    gathered: &mut Gathered,
) -> Result<Seq<Text>, RunFault>
    ensures names { IfOk result (λ names. Tells (D.answer source.old) → names ≡ first_names (D.answer source.old) paths.now) }
    ensures ok { OnOk result (Tells (D.answer source.old) → Adds (joined_in (D.answer source.old) (codes "%aliases") paths.now) gathered.old gathered.new) }
    ensures err { IfErr result (Stops (D.answer source.old) (joined_in (D.answer source.old) (codes "%aliases") paths.now) gathered.old) }
    ensures alike { (p : List ℕ) → D.answer source.new p ≡ D.answer source.old p }
{
    match paths.as_slice().split_first() {
        Some((first, later)) => {
            let file = put_files(alloc, source, b"%aliases", first, later, gathered)?;
            names_in_aliases(alloc, file.as_slice())
        }
        None => Ok(Seq::of(Vec::new(alloc))),
    }
}
