// The numbers of the blocks: "depth first, each before its children", by the arc order. The record of blocks and their depths stand in
// the work list.
ghost use Rattle.std.specs.Prelude.{◌≡◌, ◌*◌, ◌≤◌, ◌<◌, length, get_or};
ghost use Rattle.block_record.specs.Depths.{Below};
ghost use Rattle.macondo_blocks.specs.Blocks.{BlocksRecorded, NumberingIs, NumberingFrom};

use crate::arcs::arcs_in;
use crate::ready::ReadyGraph;
use block_record::{BlockTally, Place, depth_of, keep_depth, place_of, push_block};
use node::Node24;

// The tally after a block and what can be reached from it are numbered, and the runs in the longest chain from the block.
#[derive(Clone, Copy)]
pub struct Reached {
    pub tally: BlockTally,
    pub runs: u32,
}

// A chain with more runs than are left.
#[derive(Clone, Copy, Debug, PartialEq, Eq)]
pub struct TooDeep;

// Numbers the block of node `child`, and what can be reached from it, unless it is numbered already. The work list must hold the
// record of the blocks numbered so far, and their depths; and every chain from `child` must go on one from each block that is being
// followed, so that one of these, met again, closes a loop.
#[cycle(number_arc_number_run)]
fn number_arc(
    g: &ReadyGraph,
    work: &mut [u32],
    child: usize,
    t: BlockTally,
    chain_left: u32,
) -> Result<Reached, TooDeep>
    requires blocks_recorded { BlocksRecorded g.now.nodes.now g.now.labels.now work.old t }
    requires child_in_bounds { (child < length g.now.nodes.now) × Below g.now.nodes.now work.old child }
    ensures { NumberingFrom g.now.nodes.now g.now.labels.now work.old t chain_left child work.new result }
{
    let Place::Numbered(_) = place_of(work, child) else {
        return number_run(g, work, child, t, chain_left);
    };
    let runs = depth_of(g.nodes.len(), work, child);
    if runs == 0 || chain_left < runs {
        return Err(TooDeep);
    }
    Ok(Reached { tally: t, runs })
}

// Numbers the block of node p, which must not be numbered yet, and then what its arcs lead to. While they are followed its depth is 0.
#[cycle(number_arc_number_run)]
fn number_run(
    g: &ReadyGraph,
    work: &mut [u32],
    p: usize,
    t: BlockTally,
    chain_left: u32,
) -> Result<Reached, TooDeep>
    requires blocks_recorded { BlocksRecorded g.now.nodes.now g.now.labels.now work.old t }
    requires p_in_bounds { (p < length g.now.nodes.now) × Below g.now.nodes.now work.old p }
    requires p_value { get_or work.old p 0 ≡ 0 }
    ensures { NumberingFrom g.now.nodes.now g.now.labels.now work.old t chain_left p work.new result }
{
    if chain_left == 0 {
        return Err(TooDeep);
    }
    let mut list = [0u32; 64];
    let arcs = arcs_in(*g, p, &mut list);
    let mut sum = push_block(g.nodes.len(), work, p, t, arcs.len() as u32 + 1);
    keep_depth(g.nodes.len(), work, p, 0);
    let mut runs: u32 = 0;
    for arc in arcs {
        let child = Node24(*arc).arc_index() as usize;
        let reached = number_arc(g, work, child, sum, chain_left - 1)?;
        sum = reached.tally;
        runs = runs.max(reached.runs);
    }
    keep_depth(g.nodes.len(), work, p, runs + 1);
    Ok(Reached {
        tally: sum,
        runs: runs + 1,
    })
}

// Numbers the blocks from node s on, unless a chain from it has more than 64 runs, over a work list that has room for the record and
// the depths, three numbers a node.
pub fn number_blocks(g: ReadyGraph, work: &mut [u32], s: usize) -> Result<Reached, TooDeep>
    requires { (s < length g.nodes.now) × (3 * length g.nodes.now ≤ length work.old) }
    ensures { NumberingIs g.entry.nodes.now g.entry.labels.now s work.old work.new result }
{
    work[..g.nodes.len()].fill(0);
    number_run(
        &g,
        work,
        s,
        BlockTally {
            blocks: 0,
            nodes: 0,
        },
        64,
    )
}
