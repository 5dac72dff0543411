//! Files as a source gives them.
ghost use Rattle.std.specs.Prelude.{◌≡◌, ℕ, List, IfOk, IfErr};
ghost use Rattle.relay_job.specs.declared.fault.RunFault.TheVariants.{Read};
ghost use Rattle.relay_gather.specs.Source.{Tells, Refuses, failed, file};
ghost use Rattle.relay_gather.specs.Fetching.{IsFetched, IsNoFile};

use crate::source::Source;
use crate::source_fault::SourceFault;
use relay_job::RunFault;
use std::alloc::Global;

/// The file of a path; `None` where it is absent.
pub(crate) fn fetched<D: Source>(
    alloc: Global,
    source: &mut D,
    path: &[u8],
) -> Result<Option<Vec<u8>>, RunFault>
    ensures ok { IfOk result (λ file. Tells (D.answer source.old) → IsFetched (D.answer source.old path.now) file) }
    ensures err { IfErr result (Refuses (D.answer source.old) (λ fault. (fault ≡ Read) × (D.answer source.old path.now ≡ failed))) }
    ensures alike { (p : List ℕ) → D.answer source.new p ≡ D.answer source.old p }
{
    match source.fetch(alloc, path) {
        Ok(bytes) => Ok(Some(bytes)),
        Err(SourceFault::Absent) => Ok(None),
        Err(SourceFault::Failed) => Err(RunFault::Read),
        Err(SourceFault::Memory) => Err(RunFault::Memory),
    }
}

/// The file of a path, which is to be there.
pub(crate) fn fetched_file<D: Source>(
    alloc: Global,
    source: &mut D,
    path: &[u8],
) -> Result<Vec<u8>, RunFault>
    ensures file { IfOk result (λ bytes. Tells (D.answer source.old) → D.answer source.old path.now ≡ file bytes.items) }
    ensures err { IfErr result (Refuses (D.answer source.old) (λ fault. (fault ≡ Read) × IsNoFile (D.answer source.old path.now))) }
    ensures alike { (p : List ℕ) → D.answer source.new p ≡ D.answer source.old p }
{
    match fetched(alloc, source, path)? {
        Some(file) => Ok(file),
        None => Err(RunFault::Read),
    }
}
