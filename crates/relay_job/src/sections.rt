//! Where a job's sections stand.
use crate::place::Place;
use crate::section::Section;

/// Where each section of a job begins: the place behind its heading. None where the job hasn't the section.
#[derive(Clone, Copy)]
pub struct Sections<'a> {
    pub settings: Option<Place<'a>>,
    pub aliases: Option<Place<'a>>,
    pub mailboxes: Option<Place<'a>>,
    pub transport: Option<Place<'a>>,
    pub mx: Option<Place<'a>>,
    pub envelope: Option<Place<'a>>,
}

impl<'a> Sections<'a> {
    ghost use Rattle.std.specs.Prelude.{◌≡◌, true, not, None, is_some};
    ghost use Rattle.relay_job.specs.SectionPlaces.{place_of, with_place, content_behind, line_behind};
    ghost use Rattle.relay_job.specs.Places.{content_at};

    /// No section at all.
    pub(crate) fn none() -> Sections<'a>
        ensures { (section : Section) → place_of result section ≡ None }
    {
        Sections {
            settings: None,
            aliases: None,
            mailboxes: None,
            transport: None,
            mx: None,
            envelope: None,
        }
    }

    fn place(&self, section: Section) -> Option<Place<'a>>
        ensures { result ≡ place_of self.now section }
    {
        match section {
            Section::Settings => self.settings,
            Section::Aliases => self.aliases,
            Section::Mailboxes => self.mailboxes,
            Section::Transport => self.transport,
            Section::Mx => self.mx,
            Section::Envelope => self.envelope,
        }
    }

    /// Whether the job has the section.
    fn has(&self, section: Section) -> bool
        ensures { result ≡ is_some (place_of self.now section) }
    {
        self.place(section).is_some()
    }

    /// The place behind a section's heading; where there is none, a place of number 0 with nothing behind it.
    pub(crate) fn section(&self, section: Section) -> Place<'a>
        ensures lines { content_at result ≡ content_behind (place_of self.now section) }
        ensures heading { result.line ≡ line_behind (place_of self.now section) }
    {
        match self.place(section) {
            Some(place) => place,
            None => Place::start(&[]),
        }
    }

    /// Takes a section behind its heading, where the job hasn't it yet, and answers whether it is new.
    pub(crate) fn take(&mut self, section: Section, place: Place<'a>) -> bool
        ensures fresh { result ≡ not (is_some (place_of self.old section)) }
        ensures taken { result ≡ true → self.new ≡ with_place self.old section place.entry }
    {
        if self.has(section) {
            return false;
        }
        self.add(section, place);
        true
    }

    /// Puts a section behind its heading.
    fn add(&mut self, section: Section, place: Place<'a>)
        ensures { self.new ≡ with_place self.old section place.entry }
    {
        match section {
            Section::Settings => self.settings = Some(place),
            Section::Aliases => self.aliases = Some(place),
            Section::Mailboxes => self.mailboxes = Some(place),
            Section::Transport => self.transport = Some(place),
            Section::Mx => self.mx = Some(place),
            Section::Envelope => self.envelope = Some(place),
        }
    }
}
