//! Sections of include files.
ghost use Rattle.std.specs.Prelude.{◌≡◌, ◌≤◌, ℕ, List, [], ◌∷◌, IfOk, IfErr, OnOk};
ghost use Rattle.relay_aliasfile.specs.IncludeFiles.{include_file_of};
ghost use Rattle.relay_aliasfile.specs.IncludeNames.{include_names_in};
ghost use Rattle.relay_job.specs.declared.fault.RunFault.TheVariants.{Memory};
ghost use Rattle.relay_gather.specs.Source.{Tells, Refuses};
ghost use Rattle.relay_gather.specs.Gathering.{included_in, names_of};
ghost use Rattle.relay_gather.specs.Gathered.{Adds, Stops};
ghost use Rattle.relay_gather.specs.Including.{AreFollowed, AreHalted};

use crate::fetching::fetched;
use crate::gathered::Gathered;
use crate::queue::Queue;
use crate::source::Source;
use relay_aliasfile::{include_names_of, parse_include};
use relay_job::RunFault;
use relay_text::{Seq, Text};
use std::alloc::Global;

/// The names of the include files that an include file has.
fn names_in_include(alloc: Global, bytes: &[u8]) -> Result<Seq<Text>, RunFault>
    ensures ok { IfOk result (λ names. names ≡ include_names_in (include_file_of bytes.now).items) }
    ensures err { IfErr result (λ fault. fault ≡ Memory) }
{
    let file = parse_include(alloc, bytes)?;
    Ok(include_names_of(alloc, &file)?)
}

/// Puts the section of an include file, unless it is absent, and answers the names of its include files.
fn put_include<D: Source>(
    alloc: Global,
    source: &mut D,
    path: &[u8],
    gathered: &mut Gathered,
) -> Result<Seq<Text>, RunFault>
    ensures names { IfOk result (λ names. Tells (D.answer source.old) → names ≡ names_of (D.answer source.old) path.now) }
    ensures ok { OnOk result (Tells (D.answer source.old) → Adds (included_in (D.answer source.old) path.now ∷ []) gathered.old gathered.new) }
    ensures err { IfErr result (Stops (D.answer source.old) (included_in (D.answer source.old) path.now ∷ []) gathered.old) }
    ensures alike { (p : List ℕ) → D.answer source.new p ≡ D.answer source.old p }
    // A file takes room, so that there is an end of those that name others.
    ensures room { OnOk result (gathered.new.room ≤ gathered.old.room) }
    ensures nearer { IfOk result (λ names. gathered.new.room ≡ gathered.old.room → names ≡ []) }
{
    match fetched(alloc, source, path)? {
        Some(file) => {
            gathered.put_include(path, file.as_slice())?;
            names_in_include(alloc, file.as_slice())
        }
        None => Ok(Seq::of(Vec::new(alloc))),
    }
}

/// Puts the sections of the include files, breadth first from those that the alias file names.
pub(crate) fn put_includes<D: Source>(
    alloc: Global,
    source: &mut D,
    first: &[Text],
    gathered: &mut Gathered,
) -> Result<(), RunFault>
    ensures ok { OnOk result (Tells (D.answer source.old) → AreFollowed (D.answer source.old) first.now gathered.old gathered.new) }
    ensures err { IfErr result (Refuses (D.answer source.old) (AreHalted (D.answer source.old) first.now gathered.old)) }
    ensures alike { (p : List ℕ) → D.answer source.new p ≡ D.answer source.old p }
{
    let mut queue = Queue::new(alloc);
    queue.add_all(alloc, first)?;
    let mut place = 0;
    while place < queue.len() {
        let names = put_include(alloc, source, queue.path(place), gathered)?;
        queue.add_all(alloc, names.as_slice())?;
        place += 1;
    }
    Ok(())
}
