//! What local names may be.
use crate::item_lints::ListPlace;
use relay_aliasfile::AliasFile;
use relay_job::Settings;
use relay_text::{Text, same_bytes};
use std::alloc::{AllocError, Global};
use std::collections::BTreeMap;

/// The local domains of a job, and the lines of its entries by their names.
#[derive(Drop)]
pub(crate) struct Names<'a> {
    pub(crate) origin: &'a [u8],
    destinations: &'a [Text],
    lines: BTreeMap<Vec<u8>, usize>,
}

impl<'a> Names<'a> {
    pub(crate) fn of(
        alloc: Global,
        settings: &'a Settings,
        aliases: &'a AliasFile,
    ) -> Result<Names<'a>, AllocError> {
        let mut lines = BTreeMap::new(alloc);
        for entry in aliases.entries.as_slice() {
            let name = Vec::from_slice(alloc, entry.name.as_bytes())?;
            lines.insert(name, entry.line)?;
        }
        Ok(Names {
            origin: settings.origin.as_bytes(),
            destinations: settings.destinations.as_slice(),
            lines,
        })
    }

    /// Whether a domain is local.
    pub(crate) fn is_local(&self, domain: &[u8]) -> bool {
        same_bytes(domain, self.origin)
            || self
                .destinations
                .iter()
                .any(|local| same_bytes(domain, local.as_bytes()))
    }

    /// The line of the entry of a name, which is folded.
    pub(crate) fn line(&self, name: &[u8]) -> Option<usize> {
        self.lines.get(name).copied()
    }

    /// Whether a name in a list may stand for a mailbox: there is no entry of this name, or it is the list's own.
    pub(crate) fn may_be_mailbox(&self, name: &[u8], list: ListPlace<'_>) -> bool {
        self.line(name).is_none() || (!list.is_include && same_bytes(name, list.name))
    }
}
