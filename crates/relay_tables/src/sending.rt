//! Senders by their numbers.
ghost use Rattle.std.specs.Prelude.{◌≡◌, ◌≢◌, AllPairs, ◌<◌, ◌≤◌, ◌+◌, ◌-◌, ◌^◌, ◌∷◌, [], is_some, length, slice_get, Some, IfOk, OnOk, option_map};
ghost use Rattle.relay_tables.specs.Senders.{Sender, owner_entry};
ghost use Rattle.relay_tables.specs.Graphs.{owner_count};
ghost use Rattle.relay_tables.specs.Sending.{sender_key, IsOwnedBy, AreOwned, MayAdd, MayAddOwner};

use crate::keys::put_address;
use crate::tables::Tables;
use relay_chains::{Interner, TextKey};
use relay_text::Address;
use std::alloc::{AllocError, Global};
use std::marker::Model;

/// Senders in the order of their numbers, each once; `None` is the null sender.
#[derive(Drop)]
pub(crate) struct SenderList {
    senders: Vec<Option<Address>>,
    texts: Interner,
    key: Vec<u8>,
}

impl Model for SenderList {
    ghost use Rattle.std.specs.Prelude.{List, ◌≡◌, ◌-◌, ◌^◌};
    ghost use Rattle.relay_tables.specs.Senders.{Sender};
    ghost use Rattle.relay_tables.specs.Sending.{AreSenders};

    ghost Value = { List Sender };

    ghost view = { λ a. a.senders.items };

    ghost invariant = { λ a. AreSenders a.senders.items a.texts.keys };
}

impl SenderList {
    /// One sender alone, hashed under a key. Take about as many heads as senders are expected.
    pub(crate) fn new(
        alloc: Global,
        key: TextKey,
        heads: usize,
        sender: Option<&Address>,
    ) -> Result<SenderList, AllocError>
        requires { 1 ≤ heads }
        ensures { IfOk result (λ senders. senders ≡ option_map (λ a. a.now) sender.entry ∷ []) }
    {
        let mut first = SenderList {
            senders: Vec::new(alloc),
            texts: Interner::new(alloc, key, heads, u32::MAX as usize - 1)?,
            key: Vec::new(alloc),
        };
        let copy = match sender {
            Some(address) => Some(address.copy(alloc)?),
            None => None,
        };
        first.put(copy)?;
        Ok(first)
    }

    /// The number of a sender. A new one gets the next number.
    pub(crate) fn put(&mut self, sender: Option<Address>) -> Result<u32, AllocError>
        requires { length self.old < 2 ^ 32 - 2 }
        ensures number { IfOk result (λ number. slice_get self.new number ≡ Some sender) }
        ensures added { OnOk result (MayAdd self.old sender self.new) }
    {
        let Ok(()) = put_key(&sender, &mut self.key) else {
            drop(sender);
            return Err(AllocError);
        };
        if let Some(number) = self.texts.find(&self.key) {
            drop(sender);
            return Ok(number);
        }
        let number = self.senders.len() as u32;
        let Ok(()) = self.senders.reserve(1) else {
            drop(sender);
            return Err(AllocError);
        };
        if self.texts.intern(&self.key).is_err() {
            drop(sender);
            return Err(AllocError);
        }
        self.senders.push_reserved(sender);
        Ok(number)
    }

    /// The senders in the order of their numbers, without taking memory.
    pub(crate) fn into_vec(self) -> Vec<Option<Address>>
        ensures senders { result.items ≡ self }
        ensures distinct { AllPairs (λ s t. s ≢ t) self }
    {
        let SenderList {
            senders,
            texts: _,
            key: _,
        } = self;
        senders
    }
}

// Writes the text by which a sender is found.
#[tactic(auto, unfolding(crate::specs::Sending::sender_key))]
fn put_key(sender: &Option<Address>, key: &mut Vec<u8>) -> Result<(), AllocError>
    ensures { OnOk result (key.new.items ≡ sender_key sender.now) }
{
    match sender {
        Some(address) => put_address(0, address.local(), address.domain(), key),
        None => {
            key.clear();
            Ok(())
        }
    }
}

/// How many aliases have an owner.
pub(crate) fn count_owners(tables: &Tables) -> usize
    ensures { result ≡ owner_count tables.now }
{
    let mut count = 0;
    for alias in 0..tables.aliases().len() {
        if tables.owner_of(alias as u32).is_some() {
            count += 1;
        }
    }
    count
}

/// The number of the sender that an alias's owner gives, where it has one.
pub(crate) fn number_owner(
    alloc: Global,
    tables: &Tables,
    alias: u32,
    senders: &mut SenderList,
) -> Result<Option<u32>, AllocError>
    requires alias { alias < length tables.now.aliases }
    requires room { length senders.old < 2 ^ 32 - 2 }
    ensures owned { IfOk result (λ number. IsOwnedBy tables.now senders.new number (owner_entry tables.now alias)) }
    ensures added { OnOk result (MayAddOwner tables.now alias senders.old senders.new) }
{
    if tables.owner_of(alias).is_none() {
        return Ok(None);
    }
    let sender = tables.owner_sender(alloc, alias)?;
    let number = senders.put(Some(sender))?;
    Ok(Some(number))
}

// The same of each alias, in order; of none where no alias has an owner.
fn number_owners(
    alloc: Global,
    tables: &Tables,
    owned: usize,
    senders: &mut SenderList,
) -> Result<Vec<Option<u32>>, AllocError>
    requires room { length senders.old ≡ 1 }
    requires owned { owned ≡ owner_count tables.now }
    ensures few { OnOk result (length senders.new ≤ owner_count tables.now + 1) }
    ensures owned { IfOk result (λ owners. (sender : Sender) → senders.old ≡ sender ∷ [] → AreOwned tables.now sender (length tables.now.aliases) senders.new owners.items) }
{
    let mut owners = Vec::new(alloc);
    if owned == 0 {
        return Ok(owners);
    }
    for alias in 0..tables.aliases().len() {
        let owner = number_owner(alloc, tables, alias as u32, senders)?;
        owners.push(owner)?;
    }
    Ok(owners)
}

/// Senders, and for each alias the number of the one that it sets.
#[derive(Drop)]
pub(crate) struct OwnedSenders {
    pub(crate) senders: SenderList,
    pub(crate) owners: Vec<Option<u32>>,
}

/// The envelope's sender, and those that all aliases set.
pub(crate) fn number_senders(
    alloc: Global,
    tables: &Tables,
    sender: Option<&Address>,
    owned: usize,
) -> Result<OwnedSenders, AllocError>
    requires few { owned ≤ 2 ^ 24 }
    requires owned { owned ≡ owner_count tables.now }
    ensures few { IfOk result (λ numbered. length numbered.senders ≤ owner_count tables.now + 1) }
    ensures owned { IfOk result (λ numbered. AreOwned tables.now (option_map (λ a. a.now) sender.entry) (length tables.now.aliases) numbered.senders numbered.owners.items) }
{
    let mut senders = SenderList::new(alloc, tables.key(), owned + 1, sender)?;
    let owners = number_owners(alloc, tables, owned, &mut senders)?;
    Ok(OwnedSenders { senders, owners })
}
