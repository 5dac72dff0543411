//! The recipients of transactions, copied by a crew.
//!
//! Threads that ask one heap for many small blocks wait for each other. So one thread takes the room of each transaction's recipients, and
//! the crew only fills it.
ghost use Rattle.std.specs.Prelude.{◌≡◌, ◌<◌, ◌≤◌, [], map, length, vec_capacity, All, IfOk, OnOk, IsTrue};
ghost use Rattle.relay_delivery.specs.Cuts.{address_at, transaction_of, IsWithin};
ghost use Rattle.relay_delivery.specs.Rooms.{planned_in, HasGroupIn, IsEmptyRoomOf, IsRoomOf, AreRooms};

use crate::group_numbers::GroupNumbers;
use crate::placing::Placing;
use crate::planned::{add_addresses, planned};
use crate::routed::Routed;
use crate::shared::threads_for;
use relay_rings::Transaction;
use relay_sharing::Crew;
use relay_text::Address;
use relay_wire::Planned;
use std::alloc::{AllocError, Global};
use std::thread::{Threads, for_each_mut};

/// A transaction that is not yet written: its group, the numbers of its recipients, the room of their addresses, and whether all of these
/// are there.
#[derive(Drop)]
pub struct Room<'c> {
    pub group: GroupNumbers,
    pub items: &'c [u32],
    pub to: Vec<Address>,
    pub is_full: bool,
}

/// Rooms for the recipients of transactions, with nobody in them.
fn empty_rooms<'c>(
    alloc: Global,
    groups: &[GroupNumbers],
    cuts: &'c [Transaction],
) -> Result<Vec<Room<'c>>, AllocError>
    requires { All (λ cut. cut.key < length groups.now) cuts.now }
    ensures { IfOk result (λ rooms. AreRooms (IsEmptyRoomOf groups.now) cuts.now rooms.items) }
{
    let mut rooms = Vec::new(alloc);
    for cut in cuts {
        let items = cut.items.as_slice();
        rooms.push(Room {
            group: groups[cut.key as usize],
            items,
            to: Vec::with_capacity(alloc, items.len())?,
            is_full: false,
        })?;
    }
    Ok(rooms)
}

/// Copies the addresses of a room's recipients into it, as far as memory goes.
fn fill(alloc: Global, recipients: &[Routed<'_>], room: &mut Room<'_>)
    requires empty { room.old.to.items ≡ [] }
    requires takes { length room.old.items.now ≤ vec_capacity room.old.to }
    requires range { All (λ n. n < length recipients.now) room.old.items.now }
    ensures group { room.new.group ≡ room.old.group }
    ensures full { IsTrue room.new.is_full → room.new.to.items ≡ map (address_at recipients.now) room.old.items.now }
{
    let copied = add_addresses(alloc, recipients, room.items, &mut room.to);
    room.is_full = copied.is_ok();
}

/// The rooms of transactions, which a crew has filled as far as memory goes.
fn filled_rooms<'c, R: Threads + Sync>(
    crew: &Crew<'_, R>,
    placing: &Placing<'_>,
    groups: &[GroupNumbers],
    cuts: &'c [Transaction],
) -> Result<Vec<Room<'c>>, AllocError>
    requires { All (IsWithin placing.now groups.now) cuts.now }
    ensures { IfOk result (λ rooms. AreRooms (IsRoomOf placing.now.recipients.items groups.now) cuts.now rooms.items) }
{
    let alloc = crew.alloc;
    let mut rooms = empty_rooms(alloc, groups, cuts)?;
    let recipients = placing.recipients.as_slice();
    for_each_mut(
        crew.rt,
        rooms.as_mut_slice(),
        threads_for(crew, placing.deliveries.len()),
        &|_index: usize, room: &mut Room|
            requires { (room.now.to.items ≡ []) × (length room.now.items.now ≤ vec_capacity room.now.to) × All (λ n. n < length recipients.now) room.now.items.now }
            ensures { (room.exit.now.group ≡ room.entry.now.group) × (IsTrue room.exit.now.is_full → room.exit.now.to.items ≡ map (address_at recipients.entry.now) room.entry.now.items.now) }
        { fill(alloc, recipients, room) },
    );
    Ok(rooms)
}

/// The transactions of rooms. `Err` where one isn't full.
fn written_rooms(
    alloc: Global,
    placing: &Placing<'_>,
    rooms: Vec<Room<'_>>,
) -> Result<Vec<Planned>, AllocError>
    requires { All (HasGroupIn placing.now) rooms.items }
    ensures full { OnOk result (All (λ room. IsTrue room.is_full) rooms.entry.items) }
    ensures written { IfOk result (λ ts. ts.items ≡ map (planned_in placing.now) rooms.entry.items) }
{
    let mut transactions = Vec::with_capacity(alloc, rooms.len())?;
    for room in rooms {
        if !room.is_full {
            return Err(AllocError);
        }
        transactions.push(planned(alloc, placing, room.group, room.to)?)?;
    }
    Ok(transactions)
}

/// The transactions of cuts, by a crew.
pub(crate) fn written_by_crew<R: Threads + Sync>(
    crew: &Crew<'_, R>,
    placing: &Placing<'_>,
    groups: &[GroupNumbers],
    cuts: &[Transaction],
) -> Result<Vec<Planned>, AllocError>
    requires { All (IsWithin placing.now groups.now) cuts.now }
    ensures { IfOk result (λ ts. ts.items ≡ map (transaction_of placing.now groups.now) cuts.now) }
{
    let rooms = filled_rooms(crew, placing, groups, cuts)?;
    written_rooms(crew.alloc, placing, rooms)
}
