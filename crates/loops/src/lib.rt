// The lowest node that can be reached from itself, by one depth-first search.
//
// With N nodes, the work list holds N marks and then a stack of up to N nodes: those that are met and not done, in the order in which they
// were met. The counts hold, for each place of the stack, the place of the node from which it was met. Places count from 1, and 0 is none.
// A mark is 0 for a node not met yet, and DONE for one from which only done nodes can be reached. A node on the stack is open, with its own
// place as its mark, until all nodes that it leads to are met. Then it takes the lowest of their marks, if that is below its own place; if
// not, it is done, and so are all nodes above it. It loops just where one of the nodes that it leads to is not done at that moment.
#![tactic(auto)]

mod next;
mod search;

ghost use Rattle.std.specs.Prelude.{◌≡◌, ◌*◌, ◌≤◌, ◌<◌, length};
ghost use Rattle.laws.specs.Cleared.{cleared};
ghost use Rattle.graph.specs.Lent.{Kept};
ghost use Rattle.loops.specs.NodeMarks.{node_pushed};
ghost use Rattle.loops.specs.Search.{LowestIs};

use graph::FitGraph;
use search::{LoopSearch, meet, search_step};

// The mark of a node that is done: the largest 32-bit number, which is no place of a stack. A mark is 32 bits, however wide a count is.
pub const DONE: u32 = 4294967295;

// Puts q on the stack of so many nodes above n marks, with its place, counted from 1, as its mark. There must be room for it.
// Marks and stack are one lent list (no heap), so how high the stack is stands beside it.
pub fn push(work: &mut [u32], n: usize, size: usize, q: usize)
    requires q_lt_n { q < n }
    requires size_lt_n { size < n }
    requires n_bound { n ≤ 16777216 }
    requires n_in_bounds { 2 * n ≤ length work.old }
    ensures { work.new ≡ node_pushed work.old n size q }
{
    work[q] = (size + 1) as u32;
    work[n + size] = q as u32;
}

// The lowest node that loops. The first N counts are 0 afterwards; what is in the first 2 × N work numbers is free.
pub fn lowest_loop(g: FitGraph<'_>, counts: &mut [u32], work: &mut [u32]) -> Option<usize>
    requires nodes_in_bounds { length g.nodes.now ≤ length counts.old }
    requires nodes_in_bounds_2 { 2 * length g.nodes.now ≤ length work.old }
    ensures lowest { LowestIs g.entry.nodes.now result }
    ensures counts_cleared { counts.new ≡ cleared (length g.entry.nodes.now) counts.old }
    ensures work_kept { Kept (2 * length g.entry.nodes.now) work.old work.new }
{
    let n = g.nodes.len();
    work[..n].fill(0);
    let mut s = LoopSearch {
        size: 0,
        top: 0,
        low: n,
    };
    for root in 0..n {
        if work[root] == 0 {
            s = meet(counts, work, n, s, root);
            // Each step opens a node or passes one, so no iterator counts the steps.
            while s.top > 0 {
                s = search_step(g, counts, work, s);
            }
        }
    }
    counts[..n].fill(0);
    if s.low < n { Some(s.low) } else { None }
}
