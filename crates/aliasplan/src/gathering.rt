//! A job from files that lie apart.
ghost use Rattle.std.specs.Prelude.{◌≡◌, ◌≢◌, ◌≤◌, false, true, Err, IfErr, OnOk};
ghost use Rattle.std.specs.Io.KnownBytes.{Keeps};
ghost use Rattle.aliasplan.specs.Gathering.{Gathers, GathersFront, IsUngathered};

use crate::device::Sink;
use crate::writing::write_text;
use relay_gather::{Paths, Source, gathered_text};
use relay_job::RunFault;
use std::alloc::Global;

/// Writes the text of a job whose files lie apart: settings, aliases, the include files that these lead to, mailboxes, transport table,
/// mail exchangers and envelope, each where it is named. Several alias files, or transport tables, are joined in their order.
///
/// `Read` where a named file is absent or fails or an include file fails, `TooLong` where the text has more than `max` bytes; the first
/// section with a fault decides. `Memory` where memory runs out. All of the text is there before the first write, so these write
/// nothing; `Write` leaves a front of the text.
pub fn gather<D: Source, S: Sink>(
    alloc: Global,
    source: &mut D,
    paths: &Paths,
    writer: &mut S,
    max: usize,
) -> Result<(), RunFault>
    requires writer { S.has_failed writer.old ≡ false }
    requires max { max ≤ 67108864 }
    ensures gathered { OnOk result (Gathers (D.answer source.old) paths.now max (S.contents writer.old) (S.contents writer.new)) }
    ensures refused { IfErr result (IsUngathered (D.answer source.old) paths.now max) }
    // Write exactly where the writer failed.
    ensures write { (result ≡ Err RunFault.Write → S.has_failed writer.new ≡ true) × (result ≢ Err RunFault.Write → S.has_failed writer.new ≡ false) }
    ensures front { result ≡ Err RunFault.Write → GathersFront (D.answer source.old) paths.now max (S.contents writer.old) (S.contents writer.new) }
    ensures nothing { IfErr result (λ fault. fault ≢ RunFault.Write → Keeps (S.contents writer.old) (S.contents writer.new)) }
{
    let text = gathered_text(alloc, source, paths, max)?;
    match write_text(writer, text.as_bytes()) {
        Ok(()) => Ok(()),
        Err(_) => Err(RunFault::Write),
    }
}
