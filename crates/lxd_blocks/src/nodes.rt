// The nodes of the file, run by run in the order of the record, each straight to its place.
ghost use Rattle.std.specs.Prelude.{◌≡◌, ℕ, ◌+◌, ◌^◌, ◌≤◌, ◌<◌, length};
ghost use mathlib.Core.List.{Memᴰ};
ghost use Rattle.std.proofs.lemmas.List.Edits.{sets};
ghost use Rattle.node.specs.Nodes.{kbwg, tile, arc, values, packed};
ghost use Rattle.block_record.specs.Record.{child_in, blocks_in};
ghost use Rattle.lxd_file.specs.File.{lxd};
ghost use Rattle.lxd_blocks.specs.Placed.{node_in, order_bytes, LxdReady};

use block_record::child_place;
use endian::write_le_u32;
use node::Node24;
use survey::Labelled;
use windows1252::byte_of;

// A node of the file; the child's place must have no more than 22 bits.
fn pack_lxd(letter: u8, accepts: bool, is_end: bool, child: u32) -> u32
    requires { child < 2 ^ 22 }
    ensures { result ≡ packed lxd (values letter accepts is_end child) }
{
    u32::from(is_end) * 0x80000000
        + u32::from(accepts) * 0x40000000
        + u32::from(letter) * 0x400000
        + child
}

// A node of the graph as a node of the file. The tile must have a label, and the record a place of 22 bits for the arc.
#[tactic(auto, unfolding(crate::specs::Placed::node_in))]
fn file_node(labels: &[u32], work: &[u32], node: u32) -> u32
    requires node_in_bounds { tile kbwg node < length labels.now }
    requires node_in_bounds_2 { arc kbwg node < length work.now }
    requires node_bound { child_in work.now (arc kbwg node) < 2 ^ 22 }
    ensures { result ≡ node_in labels.now work.now node }
{
    let t = Node24(node).tile() as usize;
    pack_lxd(
        byte_of(labels[t]),
        Node24(node).accepts(),
        Node24(node).is_end(),
        child_place(work, Node24(node).arc_index()),
    )
}

// Writes the first `blocks` runs of the record's order to the bytes from 72 on, which must be there; the record must go on after them. Where
// the next run begins is read before it is known whether this one ends, so that no branch can be mispredicted. The list is lent for more than
// the order (no heap), so `blocks` stands beside it.
pub fn write_runs(g: Labelled<'_>, work: &[u32], blocks: usize, file: &mut [u8])
    requires lxd_ready { LxdReady g.graph.nodes.now work.now }
    requires blocks_in_bounds { length g.graph.nodes.now + blocks < length work.now }
    requires by_index { (p : ℕ) → Memᴰ p (blocks_in (length g.graph.nodes.now) work.now blocks) → p < length g.graph.nodes.now }
    requires blocks_in_bounds_2 { 72 + length (order_bytes g.graph.nodes.now g.labels.now work.now (blocks_in (length g.graph.nodes.now) work.now blocks)) ≤ length file.old }
    ensures { file.new
        ≡ sets file.old 72 (order_bytes g.entry.graph.nodes.now g.entry.labels.now work.now
        (blocks_in (length g.entry.graph.nodes.now) work.now blocks)) }
{
    let nodes = g.graph.nodes;
    let n = nodes.len();
    let mut at: usize = 72;
    let mut i: usize = 0;
    let mut p = work[n] as usize;
    // The next node is that after the last, or where the next run begins: no iterator goes that way.
    while i < blocks {
        let node = nodes[p];
        write_le_u32(file, at, file_node(g.labels, work, node));
        at += 4;
        let next = work[n + i + 1] as usize;
        if Node24(node).is_end() {
            i += 1;
            p = next;
        } else {
            p += 1;
        }
    }
}
