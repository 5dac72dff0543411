//! The tables by which names are resolved.
use crate::domain_kind::DomainKind;
use crate::include_entry::IncludeEntry;
use crate::indexing::{Indices, place_named};
use crate::local::Local;
use crate::marking::domain_mark;
use crate::target::Target;
use relay_aliasfile::{AliasFile, Entry, Item, MailboxFile};
use relay_chains::TextKey;
use relay_text::{Address, Seq, Text, same_bytes, split_place};
use std::alloc::{AllocError, Global};
use std::marker::Model;

/// The local domains, the alias table, the job's include files and the mailboxes, with indices by which a name is found.
///
/// An index holds the hashes of its texts alone, under the key that was handed in. Look-ups take no memory
/// and need about one comparison, whatever the size of the tables; a domain takes as many as the logarithm of their number.
pub struct Tables {
    local: Local,
    aliases: Seq<Entry>,
    includes: Seq<IncludeEntry>,
    mailboxes: Seq<Text>,
    indices: Indices,
}

// Written out: what becomes of a derived drop's parts is followed in each proof that has such a value to its end.
impl Drop for Tables {
    fn drop(self) {
        let Tables {
            local: _,
            aliases: _,
            includes: _,
            mailboxes: _,
            indices: _,
        } = self;
    }
}

impl Model for Tables {
    ghost use Rattle.relay_tables.specs.Directory.{Directory};
    ghost use Rattle.relay_tables.specs.Tables.{AreTables};

    ghost Value = { Directory };

    ghost view = { λ a. record { local = a.local; aliases = a.aliases; includes = a.includes; mailboxes = a.mailboxes } };

    ghost invariant = { λ a. AreTables (record { local = a.local; aliases = a.aliases; includes = a.includes; mailboxes = a.mailboxes }) a.indices.key a.indices.domains a.indices.marks a.indices.aliases a.indices.includes a.indices.mailboxes a.indices.owners.items };
}

ghost use Rattle.std.specs.Prelude.{◌≡◌, ◌≢◌, ◌<◌, ◌-◌, ◌^◌, ◌||◌, length, map, Some, option_map, option_and_then, option_to_list, IsTrue, IsSome, IfOk, IfSome, All, AllPairs};
ghost use Rattle.std.specs.List.{list_all, list_any};
ghost use Rattle.relay_text.specs.Bytes.{folded};
ghost use Rattle.relay_text.specs.Addresses.{is_origin};
ghost use Rattle.relay_tables.specs.Parts.{is_local_part, is_good_entry, is_good_include};
ghost use Rattle.relay_tables.specs.DomainKind.{IsOfKind};
ghost use Rattle.relay_tables.specs.Tables.{IsLawful};
ghost use Rattle.relay_tables.specs.Targets.{resolved, is_local_address, include_number, alias_beside, base_name, has_mailbox, at_origin};
ghost use Rattle.relay_tables.specs.Senders.{owner_number, owner_entry, sender_by};

impl Tables {
    /// The tables of these settings and files, and a key for the hashes of names: who writes some of the names must not know it. No answer
    /// depends on it.
    ///
    /// Names of entries, bare items and the origin are what relay_aliasfile's parsers and relay_text give: local parts of at most 64
    /// octets as they are written, and a folded domain of at most 189 octets. Of entries with one name the first holds. `Err` where
    /// memory runs out.
    pub fn build(
        alloc: Global,
        key: TextKey,
        local: Local,
        aliases: AliasFile,
        includes: Vec<IncludeEntry>,
        mailboxes: MailboxFile,
    ) -> Result<Tables, AllocError>
        requires origin { IsTrue (is_origin local.origin) }
        requires domains { All (λ domain. folded domain ≡ domain) local.domains }
        requires distinct { AllPairs (λ a b. a.path ≢ b.path) includes.items }
        requires entries { IsTrue (list_all is_good_entry aliases.entries) }
        requires items { IsTrue (list_all is_good_include includes.items) }
        requires few_entries { length aliases.entries < 2 ^ 32 - 2 }
        requires few_includes { length includes.items < 2 ^ 32 - 2 }
        requires few_mailboxes { length mailboxes.names < 2 ^ 32 - 2 }
        ensures { IfOk result (λ tables. tables ≡ record { local = local; aliases = aliases.entries; includes = includes.items; mailboxes = mailboxes.names }) }
    {
        let entries = aliases.entries.as_slice();
        let names = mailboxes.names.as_slice();
        let indices = Indices::of(alloc, key, &local, entries, &includes, names)?;
        let AliasFile { entries, faults: _ } = aliases;
        let MailboxFile { names, faults: _ } = mailboxes;
        Ok(Tables {
            local,
            aliases: entries,
            includes: Seq::of(includes),
            mailboxes: names,
            indices,
        })
    }

    /// What a folded name stands for where it stands in the alias `parent`, or where that is `None`, in an include file or the
    /// envelope: an alias before a mailbox (local(8)), and the name before its base, which stands before the delimiter (local(8),
    /// "address extension"). The alias `parent` itself isn't taken again, so an entry that lists its own name means the mailbox.
    pub fn resolve(&self, name: &[u8], parent: Option<u32>) -> Target
        requires name { folded name.now ≡ name.now }
        requires parent { IfSome parent (λ number. number < length self.now.aliases) }
        ensures { result ≡ resolved self.now name.now parent }
    {
        if let Some(number) = self.alias_beside(name, parent) {
            return Target::Alias(number);
        }
        let base = self.base_of(name);
        if let Some(number) = self.base_alias(base, parent) {
            Target::Alias(number)
        } else if self.has_mailbox_among(name, base) {
            Target::Mailbox
        } else {
            Target::Missing
        }
    }

    /// Whether an address's domain is local: the origin, or one of the other local domains (postconf(5), "mydestination").
    pub fn is_local(&self, address: &Address) -> bool
        ensures { result ≡ is_local_address self.now.local address.now }
    {
        match self.domain_kind(address) {
            DomainKind::Origin | DomainKind::Local => true,
            DomainKind::Remote => false,
        }
    }

    /// The alias `owner-NAME` of an alias NAME, or `None` where there is none (local(8), "delivery status notifications").
    pub fn owner_of(&self, alias: u32) -> Option<u32>
        requires { alias < length self.now.aliases }
        ensures { result ≡ owner_number self.now alias }
    {
        match self.indices.owners.get(alias as usize) {
            Some(owner) => *owner,
            None => None,
        }
    }

    /// The sender of what an alias with an owner expands to: the owner alias's own address at the origin. Where the settings say
    /// `expand`, and the owner alias lists exactly one item and that is an address, it is that address, a bare name at the origin
    /// in the case as spelled (postconf(5), "expand_owner_alias"). `Err` where memory runs out.
    pub fn owner_sender(&self, alloc: Global, alias: u32) -> Result<Address, AllocError>
        requires { IsSome (owner_number self.now alias) }
        ensures { IfOk result (λ a. option_map (sender_by self.now) (owner_entry self.now alias) ≡ Some a) }
    {
        let Some(owner) = self.owner_of(alias) else {
            unreachable!()
        };
        let entries = self.aliases();
        self.sender_of(alloc, &entries[owner as usize])
    }

    /// The entries of the alias table, by their numbers.
    pub fn aliases(&self) -> &[Entry]
        ensures entries { result.now ≡ self.now.aliases }
        ensures lawful { IsLawful self.now }
    {
        self.aliases.as_slice()
    }

    /// The address of each entry's name at the origin, in the order of the entries. `Err` where memory runs out.
    pub fn alias_addresses(&self, alloc: Global) -> Result<Vec<Address>, AllocError>
        ensures { IfOk result (λ addresses. addresses.items ≡ map (λ entry. at_origin self.now entry.name) self.now.aliases) }
    {
        let mut addresses = Vec::with_capacity(alloc, self.aliases.len())?;
        for entry in self.aliases() {
            addresses.push_reserved(self.at_origin(alloc, entry.name.as_bytes())?);
        }
        Ok(addresses)
    }

    /// The include files, by their numbers.
    pub fn includes(&self) -> &[IncludeEntry]
        ensures entries { result.now ≡ self.now.includes }
        ensures lawful { IsLawful self.now }
    {
        self.includes.as_slice()
    }

    // What an address's domain is.
    pub(crate) fn domain_kind(&self, address: &Address) -> DomainKind
        ensures { IsOfKind self.now.local address.now result }
    {
        let domain = address.domain();
        if !self.indices.marks[domain_mark(domain)] {
            return DomainKind::Remote;
        }
        if same_bytes(domain, self.local.origin.as_bytes()) {
            return DomainKind::Origin;
        }
        if self.indices.domains.contains(domain) {
            return DomainKind::Local;
        }
        DomainKind::Remote
    }

    /// The key of the hashes of names, as it was given.
    pub fn key(&self) -> TextKey {
        self.indices.key
    }

    // The number of the include file of a path.
    pub(crate) fn include_of(&self, path: &[u8]) -> Option<u32>
        ensures { result ≡ include_number self.now path.now }
    {
        let includes = self.includes.as_slice();
        place_named(includes, &self.indices.includes, self.indices.key, path)
    }

    // The domain of a name that has none.
    pub(crate) fn origin(&self) -> &[u8]
        ensures origin { result.now ≡ self.now.local.origin }
        ensures valid { IsTrue (is_origin self.now.local.origin) }
    {
        self.local.origin.as_bytes()
    }

    // A local part at the origin.
    pub(crate) fn at_origin(&self, alloc: Global, local: &[u8]) -> Result<Address, AllocError>
        requires { IsTrue (is_local_part local.now) }
        ensures { IfOk result (λ a. a ≡ at_origin self.now local.now) }
    {
        Address::new(alloc, local, self.local.origin.as_bytes())
    }

    // The sender that an owner's entry gives.
    fn sender_of(&self, alloc: Global, owner: &Entry) -> Result<Address, AllocError>
        requires { IsTrue (is_good_entry owner.now) }
        ensures { IfOk result (λ a. a ≡ sender_by self.now owner.now) }
    {
        match owner.items.as_slice() {
            [Item::Bare(name)] if self.local.expand => self.at_origin(alloc, name.as_bytes()),
            [Item::Full(address)] if self.local.expand => address.copy(alloc),
            _ => self.at_origin(alloc, owner.name.as_bytes()),
        }
    }

    // A name without its extension, where it's split.
    fn base_of<'a>(&self, name: &'a [u8]) -> Option<&'a [u8]>
        ensures { option_map (λ base. base.now) result ≡ base_name self.now name.now }
    {
        let place = split_place(name, self.local.delimiter)?;
        Some(&name[..place])
    }

    // The number of the alias of a name, unless it's the parent's own.
    fn alias_beside(&self, name: &[u8], parent: Option<u32>) -> Option<u32>
        ensures { result ≡ alias_beside self.now parent name.now }
    {
        let entries = self.aliases.as_slice();
        let number = place_named(entries, &self.indices.aliases, self.indices.key, name)?;
        if parent == Some(number) {
            None
        } else {
            Some(number)
        }
    }

    // The same of a name's base, where it has one.
    fn base_alias(&self, base: Option<&[u8]>, parent: Option<u32>) -> Option<u32>
        ensures { result ≡ option_and_then (alias_beside self.now parent) (option_map (λ b. b.now) base.entry) }
    {
        self.alias_beside(base?, parent)
    }

    // Whether there is a mailbox of a name.
    fn has_mailbox(&self, name: &[u8]) -> bool
        ensures { result ≡ has_mailbox self.now name.now }
    {
        let names = self.mailboxes.as_slice();
        place_named(names, &self.indices.mailboxes, self.indices.key, name).is_some()
    }

    // Whether there is one of a name or of its base.
    fn has_mailbox_among(&self, name: &[u8], base: Option<&[u8]>) -> bool
        ensures { result ≡ (has_mailbox self.now name.now || list_any (has_mailbox self.now) (option_to_list (option_map (λ b. b.now) base.entry))) }
    {
        match base {
            Some(base) => self.has_mailbox(name) || self.has_mailbox(base),
            None => self.has_mailbox(name),
        }
    }
}
