// The places of runs in the graph: a run that is met for the first time takes those after the runs met before it. A run is known by the number
// of the tail that it begins with. With room for n tails, places and order stand in the first 2n numbers of the work list, and from 2n on four
// numbers for each tail, of which the first two are its node and the tail after it. All stand in one lent list (no heap), so n goes with it.
ghost use Rattle.std.specs.Prelude.{◌≡◌, ◌*◌, ◌≤◌, ◌<◌, eqb, length, get_or};
ghost use Rattle.export.specs.Blocks.{met, met_by};
ghost use Rattle.build.specs.Numbering.{node_at, after_at, IsTail, HasLength, Numberable, ArcNumberable, NumbersAs};

use block_record::{BlockTally, Place, place_of, push_block};
use node::Node24;

// As many nodes as the 24 bits of an arc can number.
pub(crate) const MOST_NODES: u32 = 16777216;

// The node of tail i, which must be there.
pub(crate) fn node_of(work: &[u32], n: usize, i: u32) -> u32
    requires { (n ≤ 16777216) × (6 * n ≤ length work.now) × (0 < i) × (i ≤ n) }
    ensures { result ≡ node_at n work.now i }
{
    work[2 * n + 4 * (i - 1) as usize]
}

// The tail after the node of tail i, which must be there.
pub(crate) fn tail_after(work: &[u32], n: usize, i: u32) -> u32
    requires { (n ≤ 16777216) × (6 * n ≤ length work.now) × (0 < i) × (i ≤ n) }
    ensures { result ≡ after_at n work.now i }
{
    work[2 * n + 4 * (i - 1) as usize + 1]
}

// How many nodes the run from tail i has.
fn run_length(work: &[u32], n: usize, i: u32) -> u32
    requires { IsTail n work.now i }
    ensures { HasLength n work.now i result }
{
    let mut at = i;
    let mut passed: u32 = 0;
    // A walk goes where the links lead, so no iterator counts its steps.
    while at != 0 {
        at = tail_after(work, n, at);
        passed += 1;
    }
    passed
}

// Numbers the run that a node's arc leads to and what is met from it, unless the arc is 0 or its run is numbered already. The record must be
// that of the runs met so far, and the arc that of a tail.
#[cycle(number_arc_number_run)]
fn number_arc(
    work: &mut [u32],
    n: usize,
    child: u32,
    t: BlockTally,
    chain_left: u32,
) -> Option<BlockTally>
    requires { ArcNumberable n work.old t child }
    ensures { NumbersAs n work.old t child (λ children seen. met_by children chain_left seen child) work.new result }
{
    if child == 0 {
        return Some(t);
    }
    let Place::Numbered(_) = place_of(work, child as usize) else {
        return number_run(work, n, child, t, chain_left);
    };
    Some(t)
}

// Numbers the run from tail i, which must not be numbered yet, and what its arcs lead to, by a record that must be that of the runs met so far.
// Answers none as soon as the graph has over 2^24 nodes.
#[cycle(number_arc_number_run)]
pub(crate) fn number_run(
    work: &mut [u32],
    n: usize,
    i: u32,
    t: BlockTally,
    chain_left: u32,
) -> Option<BlockTally>
    requires numberable { Numberable n work.old t i }
    requires i_value { get_or work.old i 0 ≡ 0 }
    ensures { NumbersAs n work.old t i (λ children seen. met eqb children chain_left seen i) work.new result }
{
    if chain_left == 0 {
        return Some(t);
    }
    let size = run_length(work, n, i);
    if MOST_NODES - t.nodes < size {
        return None;
    }
    let mut tally = push_block(n, work, i as usize, t, size);
    let mut at = i;
    // A walk goes where the links lead, so no iterator counts its steps.
    while at != 0 {
        let child = Node24(node_of(work, n, at)).arc_index();
        let after = tail_after(work, n, at);
        tally = number_arc(work, n, child, tally, chain_left - 1)?;
        at = after;
    }
    Some(tally)
}
