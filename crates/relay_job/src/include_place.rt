//! Where a job's include files stand.
use crate::content::section_bytes;
use crate::job::JobInclude;
use crate::place::Place;
use relay_text::{Seq, Text};
use std::alloc::{AllocError, Global};

/// An include file of a job: its path, and the place behind its heading.
#[derive(Clone, Copy)]
pub struct IncludePlace<'a> {
    pub path: &'a [u8],
    pub place: Place<'a>,
}

ghost use Rattle.std.specs.Prelude.{◌≡◌, map, IfOk};
ghost use Rattle.relay_job.specs.SectionPlaces.{include_at};

impl<'a> IncludePlace<'a> {
    /// The include file, in memory of its own.
    fn read(&self, alloc: Global) -> Result<JobInclude, AllocError>
        ensures { IfOk result (λ file. file ≡ include_at self.now) }
    {
        let path = Text::copy_of(alloc, self.path)?;
        let bytes = section_bytes(alloc, self.place)?;
        Ok(JobInclude { path, bytes })
    }
}

/// The include files behind places, in their order.
pub(crate) fn read_includes(
    alloc: Global,
    places: &[IncludePlace<'_>],
) -> Result<Seq<JobInclude>, AllocError>
    ensures { IfOk result (λ includes. includes ≡ map include_at places.now) }
{
    let mut includes = Vec::with_capacity(alloc, places.len())?;
    for place in places {
        includes.push(place.read(alloc)?)?;
    }
    Ok(Seq::of(includes))
}
