// Macondo's letter sets, numbered from 0 by first appearance in the order of the blocks.
#![tactic(auto)]

mod runs;

ghost use Rattle.std.specs.Prelude.{◌*◌, ◌≤◌, length};
ghost use Rattle.letter_sets.specs.Letters.{Small};
ghost use Rattle.letter_sets.specs.SetNumbers.{RankedSetsNumbered};

use dictionary::number_key;
use runs::letter_set;

// Numbers the blocks' letter sets and answers how many there are. For n nodes the work list must have 8n places, and the blocks' runs must
// stand from place n on, in the order of the blocks. The number of each block's set goes to its place from 2n on; the places from 3n on are
// lent to a dictionary with the sets as its keys, whose n roots are cleared first. How many blocks there are stands beside the list,
// which is lent for more than them. Never inlined, so that its loop has the registers to itself.
#[inline(never)]
pub fn number_sets(nodes: &[u32], ranks: &[u8; 64], work: &mut [u32], blocks: usize) -> u32
    requires small { Small ranks.now }
    requires nodes_len_bound { length nodes.now ≤ 16777216 }
    requires nodes_in_bounds { 8 * length nodes.now ≤ length work.old }
    requires blocks_in_bounds { blocks ≤ length nodes.now }
    ensures { RankedSetsNumbered nodes.now ranks.now blocks work.old work.new result }
{
    let n = nodes.len();
    let (list, sets) = work.split_at_mut(3 * n);
    sets[..n].fill(0);
    let mut count = 0;
    for j in 0..blocks {
        let set = letter_set(nodes, ranks, list[n + j] as usize);
        let numbered = number_key(sets, n, count, set);
        list[2 * n + j] = numbered.number;
        count = numbered.count;
    }
    count
}
