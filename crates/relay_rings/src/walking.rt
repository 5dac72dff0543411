//! The items of one ring, one link after another.
ghost use Rattle.std.specs.Prelude.{◌<◌, ◌≤◌, length, All};
ghost use Rattle.relay_rings.specs.declared.walking.Node.{Node};

/// An item, and the number of the node that comes after it in its ring.
#[derive(Clone, Copy)]
pub(crate) struct Node {
    pub(crate) item: u32,
    pub(crate) link: u32,
}

/// The items of one destination, the oldest first; made by [`Rings::walk`](crate::Rings::walk).
///
/// It borrows the rings, takes no memory, and follows one link for each item.
#[derive(Drop)]
pub struct Walk<'a> {
    nodes: &'a [Node],
    next: u32,
    left: u32,
    ghost links_within: { All (λ (n : Node). n.link < length nodes.now) nodes.now },
    ghost next_within: { 0 < left → next < length nodes.now },
}

impl<'a> Walk<'a> {
    ghost use Rattle.std.specs.Prelude.{◌≡◌, ◌<◌, length, All};
    ghost use Rattle.relay_rings.specs.Links.{items_from};
    ghost use Rattle.relay_rings.specs.Walks.{walk_rest};

    /// From a node on, so many nodes along the links.
    pub(crate) fn from_node(nodes: &'a [Node], next: u32, left: u32) -> Walk<'a>
        requires links { All (λ (n : Node). n.link < length nodes.now) nodes.now }
        requires next { 0 < left → next < length nodes.now }
        ensures { walk_rest result ≡ items_from nodes.now next left }
    {
        Walk { nodes, next, left }
    }
}

impl Iterator for Walk<'_> {
    ghost use Rattle.std.specs.Prelude.{◌≡◌, length, IfSome};
    ghost use Rattle.std.specs.Iterator.{UpTo, YieldsFirst, item_count};
    ghost use Rattle.std.specs.Iterator.SizeHint.{IsWithinCount};
    ghost use Rattle.relay_rings.specs.Walks.{walk_rest};

    type Item = u32;

    ghost next_gives = { YieldsFirst walk_rest };

    ghost remaining = { item_count walk_rest };

    /// The next item, or `None` once each node of the ring was passed.
    fn next(&mut self) -> Option<u32> {
        if self.left == 0 {
            return None;
        }
        let node = self.nodes[self.next as usize];
        self.left -= 1;
        self.next = node.link;
        Some(node.item)
    }

    /// As many as are left, exactly.
    #[tactic(auto, using(crate::proofs::Steps::walks))]
    fn size_hint(&self) -> (usize, Option<usize>)
        ensures lower { IsWithinCount result.0 (item_count walk_rest self.now) }
        ensures upper { IfSome result.1 (UpTo (item_count walk_rest self.now)) }
        ensures least { result.0 ≡ length (walk_rest self.now) }
        ensures most { result.1 ≡ Some (length (walk_rest self.now)) }
    {
        let left = self.left as usize;
        (left, Some(left))
    }
}
