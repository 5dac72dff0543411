//! The steps from alias files to their loops.
ghost use Rattle.std.specs.Prelude.{◌≡◌, ◌≤◌, All, IsTrue, IfOk, length};
ghost use Rattle.std.specs.List.{list_all, range_with_len};
ghost use Rattle.relay_text.specs.Bytes.{folded};
ghost use Rattle.relay_text.specs.Addresses.{is_origin};
ghost use Rattle.relay_tables.specs.Parts.{is_good_entry};
ghost use Rattle.relay_loops.specs.Loops.{IsClosedPart};

use crate::bench_words::is_wanted;
use crate::shape::Shape;
use crate::watch::{KEY, Watch};
use anyhow::{Result, ensure};
use relay_aliasfile::{AliasFile, MailboxFile, parse_aliases};
use relay_loops::{on_loops, whole_graphs};
use relay_tables::{Graph, Local, Tables, parsed_files};
use relay_text::{Seq, Text};
use std::alloc::{AllocError, Global};
use std::rt::Clock;
use std::thread::Threads;

// As many nodes as a graph may have.
const NODES: usize = 16777216;

// More aliases than a graph may have.
const MOST: u32 = 10_000_000;

#[tactic(auto, unfolding(relay_text::specs::Addresses::is_origin, relay_text::specs::Addresses::is_domain))]
fn local(alloc: Global) -> Result<Local, AllocError>
    ensures origin { IfOk result (λ local. IsTrue (is_origin local.origin)) }
    ensures domains { IfOk result (λ local. All (λ domain. folded domain ≡ domain) local.domains) }
{
    Ok(Local {
        origin: Text::of(Vec::from_slice(alloc, b"example.org")?),
        domains: Seq::of(Vec::new(alloc)),
        delimiter: None,
        expand: false,
    })
}

// The tables of an alias file alone.
fn build_tables(alloc: Global, file: AliasFile) -> Result<Tables, AllocError>
    requires entries { IsTrue (list_all is_good_entry file.entries) }
    requires few { length file.entries ≤ 16777216 }
{
    let local = local(alloc)?;
    let mailboxes = MailboxFile {
        names: Seq::of(Vec::new(alloc)),
        faults: Seq::of(Vec::new(alloc)),
    };
    Tables::build(alloc, KEY, local, file, Vec::new(alloc), mailboxes)
}

// The tables of an alias file's text.
fn time_tables<R: Clock + Print + AllocGlobal>(watch: &Watch<R>, text: &[u8]) -> Result<Tables> {
    parsed_files();
    let start = watch.start()?;
    let file = parse_aliases(watch.rt.alloc(), text)?;
    let entries = file.entries.len();
    watch.report("  parse_aliases", entries, "entries", start)?;
    ensure!(entries <= NODES, "too many entries");
    let start = watch.start()?;
    let tables = build_tables(watch.rt.alloc(), file)?;
    watch.report("  Tables::build", entries, "aliases", start)?;
    Ok(tables)
}

// How many children the nodes have.
fn edges(graph: &Graph) -> usize {
    let mut edges = 0usize;
    for node in 0..graph.nodes().min(NODES) {
        edges = edges.saturating_add(graph.children(node as u32).len());
    }
    edges
}

// The numbers of all nodes, which are a closed part.
fn all_nodes(alloc: Global, graph: &Graph) -> Result<Vec<u32>>
    ensures all { IfOk result (λ nodes. nodes.items ≡ range_with_len 0 (length graph.now.nodes)) }
    ensures closed { IfOk result (λ nodes. IsClosedPart graph.now nodes.items) }
{
    whole_graphs();
    ensure!(graph.nodes() <= NODES, "too many nodes");
    let nodes = (0..graph.nodes() as u32).collect(alloc)?;
    Ok(nodes)
}

// The loops by 1 and by 4 workers.
fn time_loops<R: Clock + Print + AllocGlobal + Threads + Sync>(
    watch: &Watch<R>,
    graph: &Graph,
) -> Result<()> {
    let nodes = all_nodes(watch.rt.alloc(), graph)?;
    for workers in [1, 4] {
        let start = watch.start()?;
        let loops = on_loops(&watch.crew(workers), graph, &nodes)?;
        let step = if workers == 1 {
            "  on_loops, 1 worker"
        } else {
            "  on_loops, 4 workers"
        };
        watch.report(step, loops.len(), "nodes on loops", start)?;
    }
    Ok(())
}

// The steps for an alias file of this shape.
fn time_shape<R: Clock + Print + AllocGlobal + Threads + Sync>(
    watch: &Watch<R>,
    shape: Shape,
) -> Result<()> {
    let name = shape.name();
    println!(watch.rt; "{name}")?;
    let text = shape.text(watch.rt.alloc(), watch.given.count.min(MOST))?;
    let tables = time_tables(watch, text.as_str().as_bytes())?;
    let start = watch.start()?;
    let graph = Graph::build(watch.rt.alloc(), &tables, None, &[], NODES, 0)?;
    watch.report("  Graph::build", edges(&graph), "edges", start)?;
    time_loops(watch, &graph)
}

/// Times about N aliases, of the shape of the chosen name alone if there is one.
pub fn run<R: Clock + Print + AllocGlobal + Threads + Sync>(
    watch: &Watch<R>,
    chosen: Option<&str>,
) -> Result<()> {
    for shape in Shape::ALL {
        if is_wanted(chosen, shape.name()) {
            time_shape(watch, shape)?;
        }
    }
    Ok(())
}
