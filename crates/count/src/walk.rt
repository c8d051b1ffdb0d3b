// A depth-first walk that keeps its path in the lent work list. With N nodes, the list holds N marks and then a stack of up to N nodes,
// each led to by the one below it. A mark is 0 for a node not met yet, i + 1 for the node at place i of the stack, and DONE for a node
// that is counted. Only marks say what is counted: 0 is a count like others. It is one list, since the caller lends all memory as one, and how
// high the stack is stands beside it.
ghost use Rattle.std.specs.Prelude.{◌<◌, ◌≤◌, length};
ghost use Rattle.graph.specs.Counting.{count_limit};
ghost use Rattle.count.specs.CountWalk.{CountWalk, NextIs, StepIs, WalkedIs};

use crate::sums::count_at;
use graph::FitGraph;
use loops::{DONE, push};
use node::Node24;

// The walk came back to its path.
#[derive(Clone, Copy, Debug, PartialEq, Eq)]
pub struct LoopMet;

// The first node that p leads to and that is not done.
fn next_to_count(g: FitGraph<'_>, work: &[u32], p: usize) -> Option<usize>
    requires p_in_bounds { p < length g.nodes.now }
    requires nodes_in_bounds { length g.nodes.now ≤ length work.now }
    ensures { NextIs g.entry.nodes.now work.now p result }
{
    let node = g.nodes[p];
    let arc = Node24(node).arc_index() as usize;
    if arc != 0 && work[arc] != DONE {
        return Some(arc);
    }
    if !Node24(node).is_end() && work[p + 1] != DONE {
        return Some(p + 1);
    }
    None
}

// One step at the top of a stack of so many nodes, and how many are on it then: a node that the top leads to goes on the stack, or the top
// is counted and goes off. A node that is on the stack already closes a loop.
fn take_step(
    g: FitGraph<'_>,
    counts: &mut [u32],
    work: &mut [u32],
    size: usize,
) -> Result<usize, LoopMet>
    requires size_nonzero { 0 < size }
    requires count_walk { CountWalk count_limit g.nodes.now counts.old work.old size }
    ensures { StepIs count_limit g.entry.nodes.now counts.old work.old counts.new work.new result }
{
    let n = g.nodes.len();
    let p = work[n + (size - 1)] as usize;
    match next_to_count(g, work, p) {
        Some(q) => {
            if work[q] != 0 {
                return Err(LoopMet);
            }
            push(work, n, size, q);
            Ok(size + 1)
        }
        None => {
            counts[p] = count_at(g, counts, p);
            work[p] = DONE;
            Ok(size - 1)
        }
    }
}

// Counts every node, or stops where it meets a loop. Every node is a root, the last first: the rest of a root's run is then done before it.
pub(crate) fn walk(g: FitGraph<'_>, counts: &mut [u32], work: &mut [u32]) -> Result<(), LoopMet>
    requires count_walk { CountWalk count_limit g.nodes.now counts.old work.old 0 }
    ensures { WalkedIs count_limit g.entry.nodes.now counts.old work.old counts.new work.new result }
{
    let n = g.nodes.len();
    for root in (0..n).rev() {
        if work[root] == 0 {
            push(work, n, 0, root);
            let mut size: usize = 1;
            // The stack grows and shrinks with each step, so no iterator counts the steps.
            while size > 0 {
                size = take_step(g, counts, work, size)?;
            }
        }
    }
    Ok(())
}
