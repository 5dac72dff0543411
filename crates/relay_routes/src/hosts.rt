//! The hosts of a route.
use relay_text::Text;
use smallvec::SmallVec;
use std::alloc::{AllocError, Global};
use std::marker::Model;

/// Host names in the order in which they are tried, each with its `:port` if one is given. Contracts see them as their list. Up to two
/// lie in the value itself, more of them in memory of their own.
pub struct Hosts {
    hosts: SmallVec<Text, 2, Global>,
}

// Written out: what becomes of a derived drop's parts is followed in each proof that has such a value to its end.
impl Drop for Hosts {
    fn drop(self) {
        let Hosts { hosts: _ } = self;
    }
}

impl Model for Hosts {
    ghost use Rattle.std.specs.Prelude.{List, ℕ};

    ghost Value = { List (List ℕ) };

    ghost view = { λ a. a.hosts.items };
}

ghost use Rattle.std.specs.Prelude.{◌≡◌, [], ◌∷◌, ◌++◌, ◌==◌, length, map, IfOk, OnOk};
ghost use Rattle.relay_text.specs.Bytes.{folded};

impl Hosts {
    /// No hosts, without taking memory.
    pub(crate) fn new(alloc: Global) -> Hosts
        ensures { result ≡ [] }
    {
        Hosts {
            hosts: SmallVec::new(alloc),
        }
    }

    /// One host.
    pub fn one(alloc: Global, host: Text) -> Result<Hosts, AllocError>
        ensures { IfOk result (λ hosts. hosts ≡ host ∷ []) }
    {
        let mut hosts = Hosts::new(alloc);
        hosts.push(host)?;
        Ok(hosts)
    }

    /// Puts a host at the end.
    pub(crate) fn push(&mut self, host: Text) -> Result<(), AllocError>
        ensures { OnOk result (self.new ≡ self.old ++ host ∷ []) }
    {
        self.hosts.push(host)?;
        Ok(())
    }

    /// Puts hosts at the end.
    pub(crate) fn append(&mut self, more: Vec<Text>) -> Result<(), AllocError>
        ensures { OnOk result (self.new ≡ self.old ++ more.items) }
    {
        for host in more {
            self.push(host)?;
        }
        Ok(())
    }

    /// The hosts, each with a port behind it, which is put into lower case. Without a port they stay as they are.
    pub(crate) fn each_with_port(self, alloc: Global, port: &[u8]) -> Result<Hosts, AllocError>
        ensures { IfOk result (λ hosts. hosts ≡ map (λ host. host ++ folded port.now) self) }
    {
        if port.is_empty() {
            return Ok(self);
        }
        let port = Text::folded_copy_of(alloc, port)?;
        let hosts = self.each_followed_by(alloc, port.as_bytes());
        drop(port);
        hosts
    }

    /// The hosts, each with a text behind it.
    fn each_followed_by(self, alloc: Global, text: &[u8]) -> Result<Hosts, AllocError>
        ensures { IfOk result (λ hosts. hosts ≡ map (λ host. host ++ text.now) self) }
    {
        let Hosts { hosts: bare } = self;
        let mut hosts = Hosts::new(alloc);
        for host in bare {
            hosts.push_followed_by(alloc, host, text)?;
        }
        Ok(hosts)
    }

    /// Puts a host with a text behind it at the end.
    fn push_followed_by(&mut self, alloc: Global, host: Text, text: &[u8]) -> Result<(), AllocError>
        ensures { OnOk result (self.new ≡ self.old ++ (host ++ text.now) ∷ []) }
    {
        let mut longer = host;
        longer.append(alloc, text)?;
        self.push(longer)
    }

    /// Copies of the hosts.
    pub fn copy(&self, alloc: Global) -> Result<Hosts, AllocError>
        ensures { IfOk result (λ hosts. hosts ≡ self.now) }
    {
        let mut hosts = Hosts::new(alloc);
        for host in self.as_slice() {
            hosts.push(Text::copy_of(alloc, host.as_bytes())?)?;
        }
        Ok(hosts)
    }

    /// The hosts in place.
    pub fn as_slice(&self) -> &[Text]
        ensures { result.now ≡ self.now }
    {
        self.hosts.as_slice()
    }
}
