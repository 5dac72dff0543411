//! Where the parts of a job stand.
use crate::fault::RunFault;
use crate::heading::Heading;
use crate::include_place::IncludePlace;
use crate::path_set::PathSet;
use crate::place::Place;
use crate::raw_line::RawLine;
use crate::sections::Sections;
use std::alloc::{AllocError, Global};

/// Where the sections and the include files of a job begin.
#[derive(Drop)]
pub struct Parts<'a> {
    pub sections: Sections<'a>,
    /// In the order of their headings.
    pub includes: Vec<IncludePlace<'a>>,
    /// Their paths.
    paths: PathSet<'a>,
}

impl<'a> Parts<'a> {
    ghost use Rattle.std.specs.Prelude.{◌≡◌, ◌⊎◌, [], true, not, None, option_map, IfOk, IfErr, OnOk};
    ghost use Rattle.relay_text.specs.Bytes.{has_text};
    ghost use Rattle.relay_job.specs.declared.section.Section as words;
    ghost use Rattle.relay_job.specs.JobText.{bad_job};
    ghost use Rattle.relay_job.specs.JobParts.{Stops};
    ghost use Rattle.relay_job.specs.Places.{line_of};
    ghost use Rattle.relay_job.specs.SectionPlaces.{place_of, has_part, HasHeading, IsBadHeading, HasInclude, HasTaken, ArePartsOf};

    fn none(alloc: Global) -> Parts<'a>
        ensures sections { (section : words.Section) → place_of result.sections section ≡ None }
        ensures includes { result.includes.items ≡ [] }
        ensures paths { result.paths ≡ [] }
    {
        Parts {
            sections: Sections::none(),
            includes: Vec::new(alloc),
            paths: PathSet::new(alloc),
        }
    }

    /// Takes the part whose heading stands before a place, and answers whether it is new. One that the job has already stays at its
    /// place. `Err` where memory runs out.
    fn take(&mut self, heading: Heading<'a>, place: Place<'a>) -> Result<bool, AllocError>
        ensures fresh { IfOk result (λ is_new. is_new ≡ not (has_part self.old heading.entry)) }
        ensures taken { IfOk result (λ is_new. is_new ≡ true → HasTaken self.old heading.entry place.entry self.new) }
    {
        match heading {
            Heading::Named(section) => Ok(self.sections.take(section, place)),
            Heading::Include(path) => self.take_include(path, place),
        }
    }

    /// Takes the include file of a path, and answers whether the path is new.
    fn take_include(&mut self, path: &'a [u8], place: Place<'a>) -> Result<bool, AllocError>
        ensures fresh { IfOk result (λ is_new. is_new ≡ not (has_text self.old.paths path.entry.now)) }
        ensures taken { IfOk result (λ is_new. is_new ≡ true → HasInclude self.old self.new (record { path = path.entry; place = place.entry })) }
    {
        let is_new = self.paths.insert(path)?;
        if !is_new {
            return Ok(false);
        }
        self.includes.push(IncludePlace { path, place })?;
        Ok(true)
    }

    /// Takes the part whose heading a line is, behind which this place stands. BadJob has the line, where it is a heading of no part or
    /// of an earlier one.
    fn take_heading(&mut self, line: RawLine<'a>, place: Place<'a>) -> Result<(), RunFault>
        ensures ok { OnOk result (HasHeading self.old (line_of line.entry) place.entry self.new) }
        ensures err { IfErr result (λ fault. (fault ≡ RunFault.Memory) ⊎ ((fault ≡ RunFault.BadJob line.entry.number) × IsBadHeading self.old (line_of line.entry))) }
    {
        let Some(heading) = Heading::of(line.text()) else {
            return Err(RunFault::BadJob(line.number));
        };
        if !self.take(heading, place)? {
            return Err(RunFault::BadJob(line.number));
        }
        Ok(())
    }

    /// Takes the parts of a job, of which none was taken before. BadJob as from `find`.
    fn take_all(&mut self, bytes: &'a [u8]) -> Result<(), RunFault>
        requires sections { (section : words.Section) → place_of self.old.sections section ≡ None }
        requires includes { self.old.includes.items ≡ [] }
        requires paths { self.old.paths ≡ [] }
        ensures ok { OnOk result (ArePartsOf bytes.entry.now self.new) }
        ensures err { IfErr result (Stops (option_map RunFault.BadJob (bad_job bytes.entry.now))) }
    {
        let mut started = false;
        let mut place = Place::start(bytes);
        while let Some((line, after)) = place.split() {
            place = after;
            if line.is_heading() {
                self.take_heading(line, after)?;
                started = true;
                place = after.before_percent_line();
            } else if started {
                place = after.before_percent_line();
            } else if !line.is_blank() {
                return Err(RunFault::BadJob(line.number));
            }
        }
        Ok(())
    }

    /// The parts of a job, read once. BadJob has the first line that is a heading of no part or of an earlier one, or that stands
    /// before the first heading and isn't of white space alone.
    pub(crate) fn find(alloc: Global, bytes: &'a [u8]) -> Result<Parts<'a>, RunFault>
        ensures ok { IfOk result (ArePartsOf bytes.now) }
        ensures err { IfErr result (λ fault. Stops (option_map RunFault.BadJob (bad_job bytes.now)) fault) }
    {
        let mut found = Parts::none(alloc);
        found.take_all(bytes)?;
        Ok(found)
    }
}
