//! Senders in the order of their written paths.
ghost use Rattle.std.specs.Prelude.{◌≡◌, ◌≤◌, ◌^◌, length, map, All, IfOk};
ghost use Rattle.relay_delivery.specs.Placings.{senders_of, IsSender};
ghost use Rattle.relay_delivery.specs.Ranks.{AreKeysOf};
ghost use Rattle.relay_delivery.specs.Orders.{sender_key, AreSendersInOrder};
ghost use Rattle.relay_delivery.specs.WrittenPaths.{paths_of};

use crate::picks::picked;
use crate::ranks::Ranks;
use crate::sort_key::SortKey;
use crate::written_path::split_path;
use relay_sharing::Crew;
use relay_text::{Address, one_spelling, write_path};
use std::alloc::{AllocError, Global};
use std::thread::Threads;

/// Senders in order, and where each of them stands there, by its old number.
#[derive(Drop)]
pub struct SenderOrder<'a> {
    pub senders: Vec<Option<&'a Address>>,
    pub place_of: Vec<u32>,
}

/// The written paths of senders, one behind the other.
fn sender_paths(alloc: Global, senders: &[Option<&Address>]) -> Result<Vec<u8>, AllocError>
    ensures { IfOk result (λ paths. paths.items ≡ paths_of (senders_of senders.now)) }
{
    let mut paths = Vec::new(alloc);
    for sender in senders {
        write_path(*sender, &mut paths)?;
    }
    Ok(paths)
}

/// What senders are sorted by, from their written paths.
fn sender_keys<'t>(
    alloc: Global,
    senders: &[Option<&Address>],
    paths: &'t [u8],
) -> Result<Vec<SortKey<'t>>, AllocError>
    requires paths { paths.now ≡ paths_of (senders_of senders.now) }
    ensures keys { IfOk result (λ keys. AreKeysOf (map sender_key (senders_of senders.now)) keys.items) }
    ensures few { IfOk result (λ keys. length keys.items ≤ 2 ^ 32) }
    ensures valid { IfOk result (λ keys. All IsSender (senders_of senders.now)) }
{
    let mut keys = Vec::with_capacity(alloc, senders.len())?;
    let mut rest = paths;
    for (index, sender) in senders.iter().enumerate() {
        let Ok(number) = u32::try_from(index) else {
            return Err(AllocError);
        };
        let (path, behind) = split_path(rest, *sender);
        keys.push_reserved(SortKey::new(0, path, number));
        rest = behind;
    }
    Ok(keys)
}

impl<'a> SenderOrder<'a> {
    /// `Err` where memory runs out, or where there are more senders than numbers.
    pub(crate) fn of<R: Threads + Sync>(
        crew: &Crew<'_, R>,
        senders: &[Option<&'a Address>],
    ) -> Result<SenderOrder<'a>, AllocError>
        ensures { IfOk result (λ order. AreSendersInOrder (senders_of senders.now) (senders_of order.senders.items) order.place_of.items) }
    {
        one_spelling();
        let alloc = crew.alloc;
        let paths = sender_paths(alloc, senders)?;
        let keys = sender_keys(alloc, senders, &paths)?;
        let Ranks { order, place_of } = Ranks::of(crew, keys)?;
        let senders = picked(alloc, senders, order.as_slice())?;
        Ok(SenderOrder { senders, place_of })
    }
}
