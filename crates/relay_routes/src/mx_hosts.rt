//! Distinct host names in the order in which they came.
use relay_text::{Text, TextSet};
use std::alloc::{AllocError, Global};
use std::marker::Model;

/// Of up to so many hosts a repeat is looked for among those before it, which takes no memory.
const FEW_HOSTS: usize = 8;

/// Distinct host names in the order in which they came. Where many may come, a set of copies in the order of their bytes finds the
/// repeats: its work is bounded whatever hosts a table names.
#[derive(Drop)]
pub(crate) struct DistinctHosts {
    hosts: Vec<Text>,
    /// `None` where few come.
    seen: Option<TextSet>,
}

impl Model for DistinctHosts {
    ghost use Rattle.std.specs.Prelude.{◌≡◌, List, ℕ, IfSome};
    ghost use Rattle.relay_text.specs.Bytes.{has_text};

    ghost Value = { List (List ℕ) };

    ghost view = { λ a. a.hosts.items };

    ghost invariant = { λ a. IfSome a.seen (λ seen. (q : List ℕ) → has_text seen q ≡ has_text a.hosts.items q) };
}

ghost use Rattle.std.specs.Prelude.{◌≡◌, ℕ, List, [], ◌∷◌, ◌++◌, IfOk, OnOk, OnErr};
ghost use Rattle.relay_text.specs.Bytes.{has_text};
ghost use Rattle.relay_routes.specs.Preferences.{with_host, HasSeen};

impl DistinctHosts {
    /// No hosts, with room for so many. `Err` where memory runs out.
    pub(crate) fn with_room(alloc: Global, count: usize) -> Result<DistinctHosts, AllocError>
        ensures { IfOk result (λ hosts. hosts ≡ []) }
    {
        let hosts = Vec::with_capacity(alloc, count)?;
        let seen = if count > FEW_HOSTS {
            Some(TextSet::new(alloc))
        } else {
            None
        };
        Ok(DistinctHosts { hosts, seen })
    }

    /// Adds a host, where it isn't there already.
    pub(crate) fn add(&mut self, alloc: Global, host: &[u8]) -> Result<(), AllocError>
        ensures { OnOk result (self.new ≡ with_host self.old host.now) }
    {
        if self.has(host) {
            return Ok(());
        }
        self.hosts.reserve(1)?;
        let text = Text::copy_of(alloc, host)?;
        let Ok(()) = see(alloc, &mut self.seen, host) else {
            drop(text);
            return Err(AllocError);
        };
        self.hosts.push_reserved(text);
        Ok(())
    }

    /// Whether a host is there.
    fn has(&self, host: &[u8]) -> bool
        ensures { result ≡ has_text self.now host.now }
    {
        if let Some(seen) = &self.seen {
            return seen.contains(host);
        }
        for text in &self.hosts {
            if host == text.as_bytes() {
                return true;
            }
        }
        false
    }

    pub(crate) fn into_vec(self) -> Vec<Text>
        ensures { result.items ≡ self }
    {
        let DistinctHosts { hosts, seen: _ } = self;
        hosts
    }
}

/// Puts a host into a set, if there is one.
fn see(alloc: Global, seen: &mut Option<TextSet>, host: &[u8]) -> Result<(), AllocError>
    ensures ok { OnOk result ((hosts : List (List ℕ)) → HasSeen seen.old hosts → HasSeen seen.new (hosts ++ host.now ∷ [])) }
    ensures err { OnErr result (seen.new ≡ seen.old) }
{
    match seen {
        None => Ok(()),
        Some(seen) => {
            seen.insert(Vec::from_slice(alloc, host)?)?;
            Ok(())
        }
    }
}
