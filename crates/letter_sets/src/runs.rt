// The letters that end words in a run, as a set of 64 bits: bit r stands for the letter of rank r.
ghost use Rattle.std.specs.Prelude.{◌≡◌, get_or};
ghost use Rattle.laws.specs.BitSets.{marked};
ghost use Rattle.node.specs.Nodes.{kbwg, tile};
ghost use Rattle.macondo_file.specs.File.{ends_in_letter};
ghost use Rattle.letter_sets.specs.Letters.{Small, set_by};

use node::Node24;

// The set with the letter of node v, if a word ends there. Tile 0 is no letter. The ranks must be small enough for a bit each.
fn with_letter(set: u64, ranks: &[u8; 64], v: u32) -> u64
    requires { Small ranks.now }
    ensures { result ≡ marked set (get_or ranks.now (tile kbwg v) 0) (ends_in_letter v) }
{
    let tile = usize::from(Node24(v).tile());
    if tile != 0 && Node24(v).accepts() {
        set | 1u64 << ranks[tile]
    } else {
        set
    }
}

// The letter set of the run from p, by a table of ranks that are small enough.
pub(crate) fn letter_set(nodes: &[u32], ranks: &[u8; 64], p: usize) -> u64
    requires { Small ranks.now }
    ensures { result ≡ set_by ranks.now nodes.now p }
{
    let mut set: u64 = 0;
    for i in p..nodes.len() {
        let v = nodes[i];
        set = with_letter(set, ranks, v);
        if Node24(v).is_end() {
            return set;
        }
    }
    set
}
