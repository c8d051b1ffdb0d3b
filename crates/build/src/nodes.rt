// The nodes of the graph, run by run in the order of the record, each straight to its place.
ghost use Rattle.std.specs.Prelude.{◌≡◌, ◌<◌, length};
ghost use Rattle.node.specs.Nodes.{kbwg, arc};
ghost use Rattle.block_record.specs.Record.{child_in};
ghost use Rattle.build.specs.Writing.{linked_to, Writable, WritesRuns};

use crate::places::{node_of, tail_after};
use block_record::child_place;
use node::Node24;

// A tail's node as a node of the graph, whose arc leads to the place of its child's run by the record; that must be a place of 24 bits.
fn graph_node(work: &[u32], node: u32) -> u32
    requires { (arc kbwg node < length work.now) × (child_in work.now (arc kbwg node) < 16777216) }
    ensures { result ≡ linked_to (child_in work.now (arc kbwg node)) node }
{
    child_place(work, Node24(node).arc_index()) * 0x100 + node % 0x100
}

// Writes the first `blocks` runs of the record's order to the nodes from 2 on, which must be there. Where the next run begins is read before it
// is known whether this one ends, so that no branch can be mispredicted.
pub(crate) fn write_runs(work: &[u32], n: usize, blocks: usize, nodes: &mut [u32])
    requires { Writable n work.now blocks (length nodes.old) }
    ensures { WritesRuns n work.now blocks nodes.old nodes.new }
{
    let mut at: usize = 2;
    let mut j: usize = 0;
    let mut i = work[n];
    // One loop over all nodes: in one over each run's the branch that ends it would be mispredicted, and no iterator counts both.
    while j < blocks {
        nodes[at] = graph_node(work, node_of(work, n, i));
        at += 1;
        let first = work[n + j + 1];
        let after = tail_after(work, n, i);
        if after == 0 {
            j += 1;
            i = first;
        } else {
            i = after;
        }
    }
}
