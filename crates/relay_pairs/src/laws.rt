//! What the numbers of a graph say of its senders and nodes.
ghost use Rattle.std.specs.Prelude.{◌≤◌, ◌↔◌, ℕ, List, [], ◌∷◌, length, Contains};
ghost use Rattle.relay_text.specs.AddressParts.{AddressParts};
ghost use Rattle.relay_tables.specs.Directory.{Directory};
ghost use Rattle.relay_tables.specs.GraphParts.{GraphParts};
ghost use Rattle.relay_tables.specs.Graphs.{IsGraphFrom};
ghost use Rattle.relay_tables.specs.Senders.{Sender, Pair};
ghost use Rattle.relay_pairs.specs.declared.reached.Reached.{Reached};
ghost use Rattle.relay_pairs.specs.Pairs.{with_root, ArePairs, ArePairsFrom, HasMorePairs, HasMorePairsFrom};
ghost use Rattle.relay_pairs.specs.Chains.{IsReachedBy, IsReachedFrom, IsRootOf, HasMoreBy, HasAtLeastBy, HasAtMostBy, HasNumbers};

/// A pair of sender and node is reached where, and only where, a pair of their numbers is.
pub fn pairs_by_numbers()
    ensures { (d : Directory) (sender : Sender) (recipients : List AddressParts) (g : GraphParts) → IsGraphFrom d sender recipients g → (pair : Pair) → IsReachedBy d sender recipients pair ↔ ((numbers : Reached) × HasNumbers g pair numbers) }
{}

/// As many pairs of sender and node are reached as pairs of numbers.
pub fn pairs_are_counted()
    ensures more { (d : Directory) (sender : Sender) (recipients : List AddressParts) (g : GraphParts) → IsGraphFrom d sender recipients g → (n : ℕ) → HasMorePairs g n → HasMoreBy d sender recipients n }
    ensures at_most { (d : Directory) (sender : Sender) (recipients : List AddressParts) (g : GraphParts) → IsGraphFrom d sender recipients g → (n : ℕ) (pairs : List Reached) → ArePairs g pairs → length pairs ≤ n → HasAtMostBy d sender recipients n }
{}

/// A pair is reached where, and only where, it is reached from some recipient; and it is reached from a recipient where, and only where, a
/// pair of its numbers is reached from the recipient's root. From a recipient as many pairs are reached as pairs of numbers from its root.
pub fn pairs_by_root()
    ensures some { (d : Directory) (sender : Sender) (recipients : List AddressParts) (pair : Pair) → IsReachedBy d sender recipients pair ↔ ((recipient : AddressParts) × Contains recipients recipient × IsReachedFrom d sender recipient pair) }
    ensures numbers { (d : Directory) (sender : Sender) (recipients : List AddressParts) (g : GraphParts) → IsGraphFrom d sender recipients g → (k : ℕ) (recipient : AddressParts) (root : ℕ) → IsRootOf recipients g k recipient root → (pair : Pair) → IsReachedFrom d sender recipient pair ↔ ((numbers : Reached) × HasNumbers (with_root g root) pair numbers) }
    ensures more { (d : Directory) (sender : Sender) (recipients : List AddressParts) (g : GraphParts) → IsGraphFrom d sender recipients g → (k : ℕ) (recipient : AddressParts) (root : ℕ) → IsRootOf recipients g k recipient root → (n : ℕ) → HasMorePairsFrom g root n → HasMoreBy d sender (recipient ∷ []) n }
    ensures at_least { (d : Directory) (sender : Sender) (recipients : List AddressParts) (g : GraphParts) → IsGraphFrom d sender recipients g → (k : ℕ) (recipient : AddressParts) (root : ℕ) → IsRootOf recipients g k recipient root → (pairs : List Reached) → ArePairsFrom g root pairs → HasAtLeastBy d sender (recipient ∷ []) (length pairs) }
    ensures at_most { (d : Directory) (sender : Sender) (recipients : List AddressParts) (g : GraphParts) → IsGraphFrom d sender recipients g → (k : ℕ) (recipient : AddressParts) (root : ℕ) → IsRootOf recipients g k recipient root → (pairs : List Reached) → ArePairsFrom g root pairs → HasAtMostBy d sender (recipient ∷ []) (length pairs) }
{}
