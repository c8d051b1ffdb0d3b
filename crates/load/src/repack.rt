// A file's nodes put into another layout: where they stand, or into a table.
ghost use Rattle.std.specs.Prelude.{◌≡◌, ◌+◌, ◌/◌, ◌≤◌, length};
ghost use Rattle.node.specs.Said.{bit_layout};
ghost use Rattle.load.specs.Repacking.{misfit_refusal, NodeRepacked, said_repack, repack_answer, repacked_bytes, misfit_of};
ghost use Rattle.load.specs.Loading.{misfit_in, nodes_after};

use answers::Refuses;
use node::{DoesNotFit, Layout};

// A node whose fields do not fit the other layout.
#[derive(Clone, Copy, Debug, PartialEq, Eq)]
pub struct Misfit {
    pub node: usize,
    pub tile: u8,
    pub arc_index: u32,
}

impl Refuses for Misfit {
    ghost refusal = { misfit_refusal };

    fn number(&self) -> u32 {
        6
    }
}

// Node `number` of a file, in the other layout.
#[tactic(auto, unfolding(node::specs::Said::pack_answer))]
pub(crate) fn repack_node(number: usize, node: u32, from: Layout, to: Layout) -> Result<u32, Misfit>
    ensures { NodeRepacked (bit_layout from) (bit_layout to) number node result }
{
    match node::repack_node(from, to, node) {
        Ok(node) => Ok(node),
        Err(DoesNotFit { tile, arc_index }) => Err(Misfit {
            node: number,
            tile,
            arc_index,
        }),
    }
}

// Stops at a node that the new layout cannot hold; a part node at the end stays as it is.
pub fn repack_in_place(bytes: &mut [u8], from: Layout, to: Layout) -> Result<(), Misfit>
    ensures answer { said_repack result ≡ repack_answer (bit_layout from) (bit_layout to) bytes.old }
    ensures rewritten { bytes.new ≡ repacked_bytes (bit_layout from) (bit_layout to) bytes.old }
{
    for i in 0..bytes.len() / 4 {
        let node = endian::read_le_u32(bytes, 4 * i);
        let node = repack_node(i, node, from, to)?;
        endian::write_le_u32(bytes, 4 * i, node);
    }
    Ok(())
}

// The whole nodes of bytes, in KBWG's layout, as the nodes from place at on; stops at one that does not fit. Here a node goes
// to another list than the one it is read from, so this is no call of the loop above.
pub(crate) fn repack_into(
    nodes: &mut [u32],
    at: usize,
    bytes: &[u8],
    from: Layout,
) -> Result<(), Misfit>
    requires { at + length bytes.now / 4 ≤ length nodes.old }
    ensures stop { misfit_of result ≡ misfit_in from at bytes.now }
    ensures written { nodes.new ≡ nodes_after from at bytes.now nodes.old }
{
    for i in 0..bytes.len() / 4 {
        let node = endian::read_le_u32(bytes, 4 * i);
        nodes[at + i] = repack_node(at + i, node, from, Layout::Kbwg)?;
    }
    Ok(())
}
