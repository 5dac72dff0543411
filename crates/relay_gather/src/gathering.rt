//! Gathering a job.
ghost use Rattle.std.specs.Prelude.{◌≡◌, ◌≤◌, ℕ, List, Ok, IfOk, IfErr, OnOk};
ghost use Rattle.relay_gather.specs.Source.{Tells, Refuses};
ghost use Rattle.relay_gather.specs.Gathering.{back_sections, IsCutShort, IsGathered, GatherRefuses, HasFiles};
ghost use Rattle.relay_gather.specs.Gathered.{Adds, Stops};
ghost use Rattle.relay_gather.specs.Including.{IsBegun};

use crate::gathered::Gathered;
use crate::includes::put_includes;
use crate::named::{put_aliases, put_joined, put_named};
use crate::paths::Paths;
use crate::source::Source;
use relay_job::RunFault;
use relay_text::Text;
use std::alloc::Global;

/// Puts the sections that stand before the include files, and those of the include files.
fn put_first<D: Source>(
    alloc: Global,
    source: &mut D,
    paths: &Paths,
    gathered: &mut Gathered,
) -> Result<(), RunFault>
    ensures ok { OnOk result (Tells (D.answer source.old) → IsBegun (D.answer source.old) paths.now gathered.old gathered.new) }
    ensures err { IfErr result (Refuses (D.answer source.old) (IsCutShort (D.answer source.old) paths.now gathered.old.room)) }
    ensures alike { (p : List ℕ) → D.answer source.new p ≡ D.answer source.old p }
{
    put_named(alloc, source, b"%settings", &paths.settings, gathered)?;
    let names = put_aliases(alloc, source, &paths.aliases, gathered)?;
    put_includes(alloc, source, names.as_slice(), gathered)
}

/// Puts the sections that stand behind the include files.
fn put_later<D: Source>(
    alloc: Global,
    source: &mut D,
    paths: &Paths,
    gathered: &mut Gathered,
) -> Result<(), RunFault>
    ensures ok { OnOk result (Tells (D.answer source.old) → Adds (back_sections (D.answer source.old) paths.now) gathered.old gathered.new) }
    ensures err { IfErr result (Stops (D.answer source.old) (back_sections (D.answer source.old) paths.now) gathered.old) }
{
    put_named(alloc, source, b"%mailboxes", &paths.mailboxes, gathered)?;
    put_joined(alloc, source, b"%transport", &paths.transport, gathered)?;
    put_named(alloc, source, b"%mx", &paths.mx, gathered)?;
    put_named(alloc, source, b"%envelope", &paths.envelope, gathered)
}

/// The text of a job, gathered from files that lie apart. The sections stand in the order settings, aliases, include files, mailboxes,
/// transport, mx and envelope, each where its file is named; alias files, and transport tables, stand one behind the other in theirs, as
/// Postfix searches those of alias_maps and transport_maps (postconf(5)). Include files are followed breadth first from the alias files
/// (aliases(5) of Postfix, ":include:/file/name"), each path once; one that is absent is left out. Each line that begins with `%` gets one
/// more of it, and a file whose last line lacks its LF gets one. A later alias file or transport table may begin with lines that continue
/// none of its own: each gets `#` in front and is a comment, so that it doesn't continue an entry of the file before. So the text has no
/// bad job line, each of its sections has the lines of its files, and a job read from it has the include files that are there and no
/// others.
///
/// `Read` where a named file is absent or fails, or an include file fails, and `TooLong` where there are more than `max` bytes in all,
/// headings too: the first section that has a fault decides, and no file behind it is fetched. Of a section's files the first that is
/// absent or fails decides, before its length does. `Memory` where memory runs out.
pub fn gathered_text<D: Source>(
    alloc: Global,
    source: &mut D,
    paths: &Paths,
    max: usize,
) -> Result<Text, RunFault>
    requires max { max ≤ 67108864 }
    ensures gathered { IfOk result (λ text. Tells (D.answer source.old) → IsGathered (D.answer source.old) paths.now max (Ok text)) }
    ensures has_files { IfOk result (λ text. Tells (D.answer source.old) → HasFiles (D.answer source.old) paths.now text) }
    ensures refused { IfErr result (GatherRefuses (D.answer source.old) paths.now max) }
{
    let mut gathered = Gathered::new(alloc, max);
    put_first(alloc, source, paths, &mut gathered)?;
    put_later(alloc, source, paths, &mut gathered)?;
    Ok(gathered.into_text())
}
