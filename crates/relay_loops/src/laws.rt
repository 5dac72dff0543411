//! What a graph says of its nodes.
ghost use Rattle.std.specs.Prelude.{length};
ghost use Rattle.std.specs.List.{range_with_len};
ghost use Rattle.relay_tables.specs.GraphParts.{GraphParts};
ghost use Rattle.relay_tables.specs.Graphs.{IsClosedGraph};
ghost use Rattle.relay_loops.specs.Loops.{IsClosedPart};

/// All nodes of a graph are a closed part, so `on_loops` takes them.
pub fn whole_graphs()
    ensures { (g : GraphParts) → IsClosedGraph g → IsClosedPart g (range_with_len 0 (length g.nodes)) }
{}
