//! Pairs of sender and node.
ghost use Rattle.std.specs.Prelude.{◌≡◌, ◌<◌, ◌^◌};
ghost use Rattle.relay_pairs.specs.Pairs.{key_of, pair_at};

use relay_rounds::Key;

/// A sender and a node, by their numbers in a graph.
#[derive(Clone, Copy, Debug, PartialEq, Eq)]
pub struct Reached {
    pub sender: u32,
    pub node: u32,
}

// How many bits of a key number the node: a graph has at most 2^24 of them.
const NODE_BITS: u32 = 24;

impl Reached {
    // The key of the pair: pairs are searched by keys, in whose order the sender comes first.
    pub(crate) fn key(self) -> Key
        requires { self.node < 2 ^ 24 }
        ensures { result ≡ key_of self }
    {
        u64::from(self.sender) * (1 << NODE_BITS) + u64::from(self.node)
    }

    // The pair of a key.
    pub(crate) fn of_key(key: Key) -> Reached
        requires { key < 2 ^ 56 }
        ensures { result ≡ pair_at key }
    {
        Reached {
            sender: (key / (1 << NODE_BITS)) as u32,
            node: (key % (1 << NODE_BITS)) as u32,
        }
    }
}
