//! What trails by numbers say of the senders and nodes of a directory.
ghost use Rattle.std.specs.Prelude.{◌≡◌, ℕ, List, Some, slice_get};
ghost use Rattle.relay_text.specs.AddressParts.{AddressParts};
ghost use Rattle.relay_tables.specs.declared.node.Node.{Node};
ghost use Rattle.relay_tables.specs.Directory.{Directory};
ghost use Rattle.relay_tables.specs.GraphParts.{GraphParts};
ghost use Rattle.relay_tables.specs.Graphs.{IsGraphFrom};
ghost use Rattle.relay_tables.specs.Senders.{Sender, Pair};
ghost use Rattle.relay_pairs.specs.declared.reached.Reached.{Reached};
ghost use Rattle.relay_trails.specs.declared.found.Found.{Found};
ghost use Rattle.relay_trails.specs.Trails.{Trail, ends_in, IsBest, AreBestTrails};
ghost use Rattle.relay_trails.specs.Chains.{AreNumbersOf, leads_to, IsBestBy, AreBestBy};

/// A trail ends in the numbers of the pair that it leads to, and nowhere where it leads nowhere. So the best trail to some numbers is
/// the best to their pair, and the answers for a node's number are those for the node.
pub fn trails_by_numbers()
    ensures leads { (d : Directory) (sender : Sender) (recipients : List AddressParts) (g : GraphParts) → IsGraphFrom d sender recipients g → (t : Trail) (numbers : Reached) → ends_in g t ≡ Some numbers → (pair : Pair) × AreNumbersOf g pair numbers × (leads_to d sender recipients t ≡ Some pair) }
    ensures ends { (d : Directory) (sender : Sender) (recipients : List AddressParts) (g : GraphParts) → IsGraphFrom d sender recipients g → (t : Trail) (pair : Pair) → leads_to d sender recipients t ≡ Some pair → (numbers : Reached) × AreNumbersOf g pair numbers × (ends_in g t ≡ Some numbers) }
    ensures best { (d : Directory) (sender : Sender) (recipients : List AddressParts) (g : GraphParts) → IsGraphFrom d sender recipients g → (pair : Pair) (numbers : Reached) → AreNumbersOf g pair numbers → (t : Trail) → IsBest g numbers t → IsBestBy d sender recipients pair t }
    ensures answers { (d : Directory) (sender : Sender) (recipients : List AddressParts) (g : GraphParts) → IsGraphFrom d sender recipients g → (n : ℕ) (node : Node) → slice_get g.nodes n ≡ Some node → (found : List Found) → AreBestTrails g n found → AreBestBy d sender recipients g node found }
{}
