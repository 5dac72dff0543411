//! The remote members that an entry has at one domain.
ghost use Rattle.std.specs.Prelude.{◌<◌, length, All};
ghost use Rattle.relay_expansion.specs.Rows.{IsRow};

use crate::row::Row;
use relay_chains::{ChainFault, Interner, TextKey};
use relay_tables::{Graph, Node};
use std::alloc::{AllocError, Global};

/// An entry with more remote members than this at one domain has them as one.
const MOST: usize = 20;

// So many places for hashes there are at first.
const HEADS: usize = 64;

// So many texts can be numbered.
const LIMIT: usize = 0xFFFF_FFFE;

/// What becomes of a row.
#[derive(Clone, Copy, Debug, PartialEq, Eq)]
pub(crate) enum Drawing {
    /// It stands for itself.
    Alone,
    /// It is the first of a bundle of this number, of so many members.
    Bundle(u32, usize),
    /// Its bundle is drawn.
    Drawn,
}

/// The remote members of each entry by their domains.
#[derive(Drop)]
pub(crate) struct Bundles {
    /// How many members an entry has at a domain, by the number of both, or 0 where they are drawn.
    pub(crate) counts: Vec<usize>,
    /// By the rows: the number of its entry and domain.
    pub(crate) numbers: Vec<Option<u32>>,
}

/// Puts the text by which the members of an entry at a domain are found.
fn put_key(entry: u32, domain: &[u8], key: &mut Vec<u8>) -> Result<(), AllocError> {
    key.clear();
    key.extend_from_slice(&entry.to_le_bytes())?;
    key.extend_from_slice(domain)
}

/// The number of a row's entry and domain, where it is a remote member and there is room for one.
fn number_of(
    graph: &Graph,
    row: &Row,
    keys: &mut Interner,
    key: &mut Vec<u8>,
) -> Result<Option<u32>, AllocError>
    requires { row.now.node < length graph.now.nodes }
{
    let (Some(entry), Node::Remote(address)) = (row.parent, graph.node(row.node)) else {
        return Ok(None);
    };
    put_key(entry, address.domain(), key)?;
    match keys.intern(key) {
        Ok((number, _)) => Ok(Some(number)),
        Err(ChainFault::Full) => Ok(None),
        Err(ChainFault::Memory) => Err(AllocError),
    }
}

impl Bundles {
    /// Counts a member under a number, which may be new.
    fn count(&mut self, number: u32) -> Result<(), AllocError> {
        let at = number as usize;
        if at < self.counts.len() {
            let count = &mut self.counts[at];
            *count = count.saturating_add(1);
            return Ok(());
        }
        self.counts.push(1)?;
        Ok(())
    }

    /// Those of all rows. The key is that of the hashes of texts.
    pub(crate) fn of(
        alloc: Global,
        key: TextKey,
        graph: &Graph,
        rows: &[Row],
    ) -> Result<Bundles, AllocError>
        requires { All (IsRow graph.now) rows.now }
    {
        let mut keys = Interner::new(alloc, key, HEADS, rows.len().min(LIMIT))?;
        let mut text = Vec::new(alloc);
        let mut bundles = Bundles {
            counts: Vec::new(alloc),
            numbers: Vec::with_capacity(alloc, rows.len())?,
        };
        for row in rows {
            let number = number_of(graph, row, &mut keys, &mut text)?;
            if let Some(number) = number {
                bundles.count(number)?;
            }
            bundles.numbers.push(number)?;
        }
        Ok(bundles)
    }

    /// What becomes of the row at an index, where the rows before it are drawn.
    pub(crate) fn draw(&mut self, index: usize) -> Drawing {
        let Some(Some(number)) = self.numbers.get(index) else {
            return Drawing::Alone;
        };
        let number = *number;
        let Some(count) = self.counts.get_mut(number as usize) else {
            return Drawing::Alone;
        };
        let members = *count;
        if members == 0 {
            return Drawing::Drawn;
        }
        if members <= MOST {
            return Drawing::Alone;
        }
        *count = 0;
        Drawing::Bundle(number, members)
    }
}
