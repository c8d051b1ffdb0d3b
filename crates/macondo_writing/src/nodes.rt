// The nodes of a Macondo file: blocks, each "one head, then its arcs".
ghost use Rattle.std.specs.Prelude.{◌≡◌, ℕ, ◌+◌, ◌*◌, ◌≤◌, ◌<◌, length, get_or};
ghost use Rattle.std.proofs.lemmas.List.Edits.{sets};
ghost use Rattle.node.specs.Nodes.{kbwg, arc, tile};
ghost use Rattle.endian.specs.Bytes.{big_endians};
ghost use Rattle.macondo_file.specs.File.{section};
ghost use Rattle.letter_sets.specs.Letters.{Small};
ghost use Rattle.macondo_writing.specs.FileTables.{arc_in, block_in, block_nodes_from, TablesFilled};

use crate::sections::write_each;
use crate::tables::Tables;
use block_record::{Place, place_of};
use endian::write_be_u32;
use macondo_blocks::{ReadyGraph, arcs_in};
use node::Node24;

// "arc: letter × 2^24 + child block"; the child must be a node, and each number fit its bits.
#[tactic(auto, unfolding(crate::specs::FileTables::arc_in))]
fn arc_node(t: Tables, v: u32) -> u32
    requires { (get_or t.ranks.now (tile kbwg v) 0 ≤ 50) × (arc kbwg v < length t.work.now) × (get_or t.work.now (arc kbwg v) 0 ≤ 16777216) }
    ensures { result ≡ arc_in t.entry.ranks.now t.entry.work.now v }
{
    let letter = u32::from(t.ranks[usize::from(Node24(v).tile())]);
    let Place::Numbered(at) = place_of(t.work, Node24(v).arc_index() as usize) else {
        return letter * 0x1000000;
    };
    letter * 0x1000000 + at
}

// Writes a block: its head, and then its arcs. The bytes must be there, each number fit its bits, and each arc lead to a node.
fn write_block(arcs: &[u32], set: u32, t: Tables, file: &mut [u8], at: usize)
    requires arcs_bound { (length arcs.now ≤ 50) × (set ≤ 16777216) × (at + 4 + 4 * length arcs.now ≤ length file.old) × Small t.ranks.now }
    requires by_index { (i : ℕ) → i < length arcs.now → (arc kbwg (get_or arcs.now i 0) < length t.work.now)
        × (get_or t.work.now (arc kbwg (get_or arcs.now i 0)) 0 ≤ 16777216) }
    ensures { file.new ≡ sets file.old at
        (big_endians 4 (block_in t.entry.ranks.now t.entry.work.now set arcs.now)) }
{
    write_be_u32(file, at, arcs.len() as u32 * 0x1000000 + set);
    write_each(arcs, |v| arc_node(t, v), file, at + 4);
}

// Writes the node count and then the blocks, from tables that hold what a file needs; the bytes must be there.
pub(crate) fn write_nodes(g: ReadyGraph, t: Tables, file: &mut [u8], at: usize)
    requires tables_filled { TablesFilled g.nodes.now g.labels.now t.ranks.now t.work.now t.counts }
    requires nodes_in_bounds { at + 4 + 4 * t.counts.nodes ≤ length file.old }
    ensures { file.new ≡ sets file.old at
        (section 4 (block_nodes_from g.entry.nodes.now g.entry.labels.now t.entry.ranks.now t.entry.work.now 0 t.entry.counts.blocks)) }
{
    let n = g.nodes.len();
    write_be_u32(file, at, t.counts.nodes);
    let mut list = [0u32; 64];
    let mut w = at + 4;
    for j in 0..t.counts.blocks as usize {
        let arcs = arcs_in(g, t.work[n + j] as usize, &mut list);
        write_block(arcs, t.work[2 * n + j], t, file, w);
        w += 4 + 4 * arcs.len();
    }
}
