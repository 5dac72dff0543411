//! What lists targets.
use relay_tables::{Node, Tables};
use relay_text::Text;
use relay_wire::{Finding, Place};
use std::alloc::{AllocError, Global};

/// An entry by its name, an include file by its path, or the envelope, whose recipients are its targets.
#[derive(Clone, Copy)]
pub enum Listing<'a> {
    Alias(&'a [u8]),
    Include(&'a [u8]),
    Envelope,
}

ghost use Rattle.std.specs.Prelude.{◌≡◌, option_map, IfOk};
ghost use Rattle.relay_planning.specs.Listing.{place_at, place_of, empty_finding, loop_finding, target_finding};

impl<'a> Listing<'a> {
    /// What a node lists its targets by: `None` of a node that has none, or whose number the tables don't have.
    pub(crate) fn of(tables: &'a Tables, node: &Node) -> Option<Listing<'a>>
        ensures { option_map place_at result ≡ place_of tables.now node.now }
    {
        match node {
            Node::Alias(number) => {
                let entry = tables.aliases().get(*number as usize)?;
                Some(Listing::Alias(entry.name.as_bytes()))
            }
            Node::Include(number) => {
                let entry = tables.includes().get(*number as usize)?;
                Some(Listing::Include(entry.path.as_bytes()))
            }
            _ => None,
        }
    }

    /// Where its targets stand.
    fn place(self, alloc: Global) -> Result<Place, AllocError>
        ensures { IfOk result (λ place. place ≡ place_at self.entry) }
    {
        match self {
            Listing::Alias(name) => Ok(Place::Alias(Text::copy_of(alloc, name)?)),
            Listing::Include(path) => Ok(Place::Include(Text::copy_of(alloc, path)?)),
            Listing::Envelope => Ok(Place::Envelope),
        }
    }

    /// What is reported where it lists nothing.
    pub(crate) fn empty(self, alloc: Global) -> Result<Option<Finding>, AllocError>
        ensures { IfOk result (λ finding. finding ≡ empty_finding (place_at self.entry)) }
    {
        match self {
            Listing::Alias(name) => Ok(Some(Finding::EmptyAlias(Text::copy_of(alloc, name)?))),
            Listing::Include(path) => Ok(Some(Finding::EmptyInclude(Text::copy_of(alloc, path)?))),
            Listing::Envelope => Ok(None),
        }
    }

    /// What is reported where it is on a loop.
    pub(crate) fn looped(self, alloc: Global) -> Result<Option<Finding>, AllocError>
        ensures { IfOk result (λ finding. finding ≡ loop_finding (place_at self.entry)) }
    {
        match self {
            Listing::Alias(name) => Ok(Some(Finding::LoopAlias(Text::copy_of(alloc, name)?))),
            Listing::Include(path) => Ok(Some(Finding::LoopInclude(Text::copy_of(alloc, path)?))),
            Listing::Envelope => Ok(None),
        }
    }

    /// A copy of a target's text, and where it stands.
    fn placed(self, alloc: Global, text: &[u8]) -> Result<(Text, Place), AllocError>
        ensures { IfOk result (λ both. (both.0 ≡ text.now) × (both.1 ≡ place_at self.entry)) }
    {
        let text = Text::copy_of(alloc, text)?;
        Ok((text, self.place(alloc)?))
    }

    /// What is reported of one of its targets: a missing name or include file, a file or a command.
    pub(crate) fn target(self, alloc: Global, node: &Node) -> Result<Option<Finding>, AllocError>
        ensures { IfOk result (λ finding. finding ≡ target_finding (place_at self.entry) node.now) }
    {
        match node {
            Node::Missing(name) => {
                let (name, place) = self.placed(alloc, name.as_bytes())?;
                Ok(Some(Finding::Missing(name, place)))
            }
            Node::NoInclude(path) => {
                let (path, place) = self.placed(alloc, path.as_bytes())?;
                Ok(Some(Finding::NoInclude(path, place)))
            }
            Node::Command(text) => {
                let (text, place) = self.placed(alloc, text.as_bytes())?;
                Ok(Some(Finding::Command(text, place)))
            }
            Node::File(path) => {
                let (path, place) = self.placed(alloc, path.as_bytes())?;
                Ok(Some(Finding::File(path, place)))
            }
            _ => Ok(None),
        }
    }
}
