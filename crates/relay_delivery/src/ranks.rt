//! Numbers in the order of their keys.
ghost use Rattle.std.specs.Prelude.{◌≤◌, ◌^◌, length, map, IfOk};
ghost use Rattle.relay_delivery.specs.Ranks.{key_parts, AreNumbered, AreRanks};

use crate::key_groups::sorted;
use crate::sort_key::SortKey;
use relay_sharing::Crew;
use std::alloc::AllocError;
use std::thread::Threads;

/// Old numbers in the order of their keys, of each key one, and where a key's one stands, by each old number.
#[derive(Drop)]
pub struct Ranks {
    pub order: Vec<u32>,
    pub place_of: Vec<u32>,
}

impl Ranks {
    /// `Err` where memory runs out.
    pub(crate) fn of<R: Threads + Sync>(
        crew: &Crew<'_, R>,
        keys: Vec<SortKey<'_>>,
    ) -> Result<Ranks, AllocError>
        requires numbered { AreNumbered keys.items }
        requires few { length keys.items ≤ 2 ^ 32 }
        ensures { IfOk result (λ ranks. AreRanks (map key_parts keys.entry.items) ranks.order.items ranks.place_of.items) }
    {
        let alloc = crew.alloc;
        let keys = sorted(crew, keys)?;
        let mut place_of = vec![in alloc; 0; keys.len()]?;
        let mut order = Vec::with_capacity(alloc, keys.len())?;
        for (index, key) in keys.iter().enumerate() {
            if index == 0 || *key != keys[index - 1] {
                order.push_reserved(key.number);
            }
            place_of[key.number as usize] = (order.len() - 1) as u32;
        }
        Ok(Ranks { order, place_of })
    }
}
