// A set of tiles in 64 bits: bit t stands for tile t.
ghost use Rattle.std.specs.Prelude.{◌≡◌};
ghost use Rattle.node.specs.Nodes.{kbwg, tile};
ghost use Rattle.laws.specs.BitSets.{marked as mark};

use node::Node24;

// The set with the tile of node v, where that is asked.
pub(crate) fn marked(set: u64, v: u32, yes: bool) -> u64
    ensures { result ≡ mark set (tile kbwg v) yes }
{
    if yes {
        return set | 1u64 << Node24(v).tile();
    }
    set
}
