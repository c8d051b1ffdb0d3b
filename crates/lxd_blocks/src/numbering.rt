// The places of runs in the file: a run that is met for the first time takes those after the runs met before it. On the way back the walk
// finds the longest chain and the words from each run. With N nodes, places and order stand in the first 2 × N numbers of the work list,
// the chains from 2 × N on, and the words from 3 × N on.
ghost use Rattle.std.specs.Prelude.{◌≡◌, true, ◌*◌, ◌≤◌, ◌<◌, eqb, length, get_or, set};
ghost use Rattle.base.specs.Numbers.{most};
ghost use Rattle.node.specs.Nodes.{kbwg, arc};
ghost use Rattle.export.specs.Blocks.{met, met_by};
ghost use Rattle.block_record.specs.Record.{order_in};
ghost use Rattle.export.specs.Starts.{has_arc, arcs_from};
ghost use Rattle.block_record.specs.Depths.{depth_at, Below};
ghost use Rattle.lxd_file.specs.File.{run_size};
ghost use Rattle.lxd_blocks.specs.RunsNumbered.{words_at, node_passed, run_closed, looked_up, RunsRecorded, NumberedAs};

use block_record::{BlockTally, Place, depth_of, keep_depth, place_of, push_block};
use graph::FitGraph;
use node::Node24;
use survey::words_through;

// As many nodes as a child of 22 bits can number.
const MOST_NODES: u32 = 4194304;

// What the walk knows: the runs numbered so far, and of the run at hand the runs in the longest chain from it, itself included, and its
// words (at most 4,294,967,295); of no run, none.
#[derive(Clone, Copy)]
pub struct Walked {
    pub tally: BlockTally,
    pub runs: u32,
    pub words: u32,
}

// Why the walk stops. No refusal of a call, so without a number: the LXD writer gives each its own, and asks for chains and words first.
#[derive(Clone, Copy, Debug, PartialEq, Eq)]
pub enum WalkRefusal {
    TooDeep,
    TooMany,
}

// How many nodes the run from p has; p must be a node.
fn run_length(g: FitGraph<'_>, p: usize) -> u32
    requires { p < length g.nodes.now }
    ensures { result ≡ run_size g.entry.nodes.now p }
{
    let mut last = p;
    let mut passed: u32 = 1;
    // A run ends by a bit of its last node, so no range says how many nodes it has.
    while !Node24(g.nodes[last]).is_end() {
        last += 1;
        passed += 1;
    }
    passed
}

// What is known of a run's nodes up to one of them, by what was known before it and what its arc leads to.
fn pass_node(node: u32, before: Walked, child: Walked) -> Walked
    ensures { result ≡ node_passed node before child }
{
    Walked {
        tally: child.tally,
        runs: before.runs.max(child.runs),
        words: before
            .words
            .saturating_add(words_through(node, child.words)),
    }
}

// What is known of a run that is numbered already. While its arcs are being followed its chain is not known: an arc back to it
// closes a loop.
fn look_up(
    n: usize,
    work: &[u32],
    p: usize,
    t: BlockTally,
    chain_left: u32,
) -> Result<Walked, WalkRefusal>
    requires { (p < n) × (4 * n ≤ length work.now) }
    ensures { result ≡ looked_up n work.now p t chain_left }
{
    let runs = depth_of(n, work, p);
    if runs == 0 || chain_left < runs {
        return Err(WalkRefusal::TooDeep);
    }
    Ok(Walked {
        tally: t,
        runs,
        words: work[3 * n + p],
    })
}

// Keeps what is known of the run from p once its nodes are passed; one run more must be a number.
fn close_run(n: usize, work: &mut [u32], p: usize, sum: Walked) -> Walked
    requires { (p < n) × (4 * n ≤ length work.old) × (sum.runs < most) }
    ensures { (result ≡ run_closed sum) × (work.new ≡ set (set work.old (depth_at n p) (run_closed sum).runs) (words_at n p) sum.words) }
{
    let runs = sum.runs + 1;
    keep_depth(n, work, p, runs);
    work[3 * n + p] = sum.words;
    Walked { runs, ..sum }
}

// Numbers the run that a node's arc leads to and what is met from it, unless the arc is 0 or its run is numbered already. The arc must
// lead to a node, the record must be that of the runs met so far, and what it leads to must be below the runs whose arcs are being
// followed: every chain from it must go on one from each of them.
#[cycle(number_arc_number_run)]
fn number_arc(
    g: FitGraph<'_>,
    work: &mut [u32],
    node: u32,
    t: BlockTally,
    chain_left: u32,
) -> Result<Walked, WalkRefusal>
    requires runs_recorded { RunsRecorded g.nodes.now work.old t }
    requires node_in_bounds { arc kbwg node < length g.nodes.now }
    requires below { has_arc node ≡ true → Below g.nodes.now work.old (arc kbwg node) }
    ensures { NumberedAs g.entry.nodes.now work.old work.new
        (met_by (arcs_from g.entry.nodes.now) chain_left (order_in (length g.entry.nodes.now) work.old t) (arc kbwg node))
        (has_arc node) (arc kbwg node) chain_left result }
{
    let child = Node24(node).arc_index() as usize;
    if child == 0 {
        return Ok(Walked {
            tally: t,
            runs: 0,
            words: 0,
        });
    }
    let Place::Numbered(_) = place_of(work, child) else {
        return number_run(g, work, child, t, chain_left);
    };
    look_up(g.nodes.len(), work, child, t, chain_left)
}

// Numbers the run from p, a node that must not be numbered yet, and what its arcs lead to, by a record that must be that of the runs met
// so far; p must be below the runs whose arcs are being followed. Stops as soon as a chain is too long or the file has over 2^22 nodes.
#[cycle(number_arc_number_run)]
pub fn number_run(
    g: FitGraph<'_>,
    work: &mut [u32],
    p: usize,
    t: BlockTally,
    chain_left: u32,
) -> Result<Walked, WalkRefusal>
    requires runs_recorded { RunsRecorded g.nodes.now work.old t }
    requires p_in_bounds { p < length g.nodes.now }
    requires p_value { get_or work.old p 0 ≡ 0 }
    requires below { Below g.nodes.now work.old p }
    ensures { NumberedAs g.entry.nodes.now work.old work.new
        (met eqb (arcs_from g.entry.nodes.now) chain_left (order_in (length g.entry.nodes.now) work.old t) p) true p chain_left result }
{
    if chain_left == 0 {
        return Err(WalkRefusal::TooDeep);
    }
    let n = g.nodes.len();
    let size = run_length(g, p);
    if MOST_NODES - t.nodes < size {
        return Err(WalkRefusal::TooMany);
    }
    let pushed = push_block(n, work, p, t, size);
    keep_depth(n, work, p, 0);
    let mut sum = Walked {
        tally: pushed,
        runs: 0,
        words: 0,
    };
    let mut at = p;
    // By the bit that ends the run, and not over a slice of its nodes: that takes more registers at each call, and an eighth more steps.
    loop {
        let node = g.nodes[at];
        let child = number_arc(g, work, node, sum.tally, chain_left - 1)?;
        sum = pass_node(node, sum, child);
        if Node24(node).is_end() {
            break;
        }
        at += 1;
    }
    Ok(close_run(n, work, p, sum))
}
