//! Recipients in the order of their routes and their written paths.
ghost use Rattle.std.specs.Prelude.{◌≡◌, ◌<◌, ◌≤◌, ◌^◌, length, map, take, drop, min, vec_capacity, All, IfOk, IsTrue};
ghost use Rattle.relay_text.specs.Addresses.{is_address};
ghost use Rattle.relay_delivery.specs.Ranks.{AreKeysOf, AreKeysSoFar, AreRanks};
ghost use Rattle.relay_delivery.specs.Orders.{moved_key, sender_of, moved_to, AreRecipientsInOrder};
ghost use Rattle.relay_delivery.specs.WrittenPaths.{paths_of, AreSharedPaths};

use crate::picks::picked_by_crew;
use crate::ranks::Ranks;
use crate::routed::Routed;
use crate::shared::{all_given, threads_for};
use crate::sort_key::SortKey;
use crate::written_path::split_path;
use relay_sharing::Crew;
use relay_text::{one_spelling, path_len, write_path};
use std::alloc::{AllocError, Global};
use std::thread::{Threads, for_each_mut, map_chunks};

/// How many numbers of 32 bits there are.
const NUMBERS: usize = 1 << 32;

/// Recipients in order, each once, and where each of them stands there, by its old number.
#[derive(Drop)]
pub struct RecipientOrder<'a> {
    pub recipients: Vec<Routed<'a>>,
    pub place_of: Vec<u32>,
}

/// How many octets the written paths of recipients have, or the largest `usize` where they have more.
fn paths_len(recipients: &[Routed]) -> usize
    ensures { result ≡ min (length (paths_of (map sender_of recipients.now))) usize.MAX }
{
    let mut len = 0usize;
    for recipient in recipients {
        len = len.saturating_add(path_len(Some(recipient.address)));
    }
    len
}

/// The written paths of recipients, one behind the other.
fn recipient_paths(alloc: Global, recipients: &[Routed]) -> Result<Vec<u8>, AllocError>
    ensures { IfOk result (λ paths. paths.items ≡ paths_of (map sender_of recipients.now)) }
{
    let mut paths = Vec::with_capacity(alloc, paths_len(recipients))?;
    for recipient in recipients {
        write_path(Some(recipient.address), &mut paths)?;
    }
    Ok(paths)
}

/// How many recipients have their paths written to one text: all, or the share of each thread where there are many.
fn share_size<R>(crew: &Crew<'_, R>, recipients: usize) -> usize
    ensures { 0 < result }
{
    recipients.div_ceil(threads_for(crew, recipients)).max(1)
}

/// The written paths of so many recipients at a time, by a crew.
fn shared_paths<R: Threads + Sync>(
    crew: &Crew<'_, R>,
    recipients: &[Routed],
    size: usize,
) -> Result<Vec<Vec<u8>>, AllocError>
    requires { 0 < size }
    ensures { IfOk result (λ texts. AreSharedPaths (map sender_of recipients.now) size texts.items) }
{
    let alloc = crew.alloc;
    let shares = map_chunks(
        crew.rt,
        alloc,
        recipients,
        size,
        &|_start: usize, share: &[Routed]| -> Result<Vec<u8>, AllocError>
            ensures { IfOk result (λ paths. paths.items ≡ paths_of (map sender_of share.now)) }
        { recipient_paths(alloc, share) },
    )?;
    all_given(alloc, shares)
}

/// Adds what recipients are sorted by: those from `start` up to `end`, from their written paths and the new numbers of their routes.
fn add_keys<'t>(
    recipients: &[Routed],
    route_places: &[u32],
    start: usize,
    end: usize,
    paths: &'t [u8],
    keys: &mut Vec<SortKey<'t>>,
)
    requires in_turn { start ≤ end }
    requires range { end ≤ length recipients.now }
    requires few { end ≤ 2 ^ 32 }
    requires routes { All (λ r. r.route < length route_places.now) recipients.now }
    requires room { end ≤ vec_capacity keys.old }
    requires paths { paths.now ≡ paths_of (drop start (take end (map sender_of recipients.now))) }
    requires keys { AreKeysSoFar (moved_key route_places.now) (λ r. IsTrue (is_address r.address.now)) recipients.now keys.old.items start }
    ensures room { vec_capacity keys.new ≡ vec_capacity keys.old }
    ensures keys { AreKeysSoFar (moved_key route_places.now) (λ r. IsTrue (is_address r.address.now)) recipients.now keys.new.items end }
{
    let mut rest = paths;
    for index in start..end {
        let recipient = recipients[index];
        let (path, behind) = split_path(rest, Some(recipient.address));
        let route = route_places[recipient.route as usize];
        keys.push_reserved(SortKey::new(route, path, index as u32));
        rest = behind;
    }
}

/// What recipients are sorted by, from the written paths of so many of them at a time.
fn recipient_keys<'t>(
    alloc: Global,
    recipients: &[Routed],
    route_places: &[u32],
    size: usize,
    texts: &'t [Vec<u8>],
) -> Result<Vec<SortKey<'t>>, AllocError>
    requires routes { All (λ r. r.route < length route_places.now) recipients.now }
    requires paths { AreSharedPaths (map sender_of recipients.now) size texts.now }
    ensures keys { IfOk result (λ keys. AreKeysOf (map (moved_key route_places.now) recipients.now) keys.items) }
    ensures few { IfOk result (λ keys. length keys.items ≤ 2 ^ 32) }
    ensures valid { IfOk result (λ keys. All (λ r. IsTrue (is_address r.address.now)) recipients.now) }
{
    if recipients.len() > NUMBERS {
        return Err(AllocError);
    }
    let mut keys = Vec::with_capacity(alloc, recipients.len())?;
    let mut start = 0;
    for text in texts {
        let end = start + size.min(recipients.len() - start);
        add_keys(recipients, route_places, start, end, text, &mut keys);
        start = end;
    }
    Ok(keys)
}

/// The recipients of these written paths in order.
fn recipient_ranks<R: Threads + Sync>(
    crew: &Crew<'_, R>,
    recipients: &[Routed],
    route_places: &[u32],
    size: usize,
    texts: &[Vec<u8>],
) -> Result<Ranks, AllocError>
    requires size { 0 < size }
    requires routes { All (λ r. r.route < length route_places.now) recipients.now }
    requires paths { AreSharedPaths (map sender_of recipients.now) size texts.now }
    ensures ranks { IfOk result (λ ranks. AreRanks (map (moved_key route_places.now) recipients.now) ranks.order.items ranks.place_of.items) }
    ensures valid { IfOk result (λ ranks. All (λ r. IsTrue (is_address r.address.now)) recipients.now) }
{
    let keys = recipient_keys(crew.alloc, recipients, route_places, size, texts)?;
    Ranks::of(crew, keys)
}

/// Gives recipients the new numbers of their routes, by a crew.
fn put_routes<R: Threads + Sync>(
    crew: &Crew<'_, R>,
    recipients: &mut [Routed<'_>],
    route_places: &[u32],
)
    requires routes { All (λ r. r.route < length route_places.now) recipients.old }
    ensures { recipients.new ≡ map (moved_to route_places.now) recipients.old }
{
    let threads = threads_for(crew, recipients.len());
    for_each_mut(
        crew.rt,
        recipients,
        threads,
        &|_index: usize, recipient: &mut Routed|
            requires { recipient.now.route < length route_places.now }
            ensures { recipient.exit.now ≡ moved_to route_places.entry.now recipient.entry.now }
        { recipient.route = route_places[recipient.route as usize] },
    );
}

impl<'a> RecipientOrder<'a> {
    /// Of recipients whose routes have these new numbers. `Err` where memory runs out, or where there are more recipients than numbers.
    pub(crate) fn of<R: Threads + Sync>(
        crew: &Crew<'_, R>,
        recipients: &[Routed<'a>],
        route_places: &[u32],
    ) -> Result<RecipientOrder<'a>, AllocError>
        requires { All (λ r. r.route < length route_places.now) recipients.now }
        ensures { IfOk result (λ order. AreRecipientsInOrder (map (moved_to route_places.now) recipients.now) order.recipients.items order.place_of.items) }
    {
        one_spelling();
        let size = share_size(crew, recipients.len());
        let texts = shared_paths(crew, recipients, size)?;
        let Ranks { order, place_of } = recipient_ranks(
            crew,
            recipients,
            route_places,
            size,
            &texts,
        )?;
        let mut recipients = picked_by_crew(crew, recipients, order.as_slice())?;
        put_routes(crew, recipients.as_mut_slice(), route_places);
        Ok(RecipientOrder {
            recipients,
            place_of,
        })
    }
}
