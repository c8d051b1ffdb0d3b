// The steps of the search: a node is met, or the last open node is passed.
ghost use Rattle.std.specs.Prelude.{ℕ, ◌*◌, ◌≤◌, ◌<◌, length};
ghost use Rattle.loops.specs.NodeMarks.{stacked};
ghost use Rattle.loops.specs.Search.{SearchState, SearchStepped, NodeMet, Released, LowIs};

use crate::next::lowest_next;
use crate::{DONE, push};
use graph::FitGraph;

// How many nodes are on the stack, the place of the last open one, and the lowest node found to loop, or N: above all nodes, so that it
// compares with them.
#[derive(Clone, Copy, Debug, PartialEq, Eq)]
pub struct LoopSearch {
    pub size: usize,
    pub top: usize,
    pub low: usize,
}

// Puts q on the stack, met from the last open node. The lent lists stay parameters: two `&mut` in the struct would make each proof longer.
pub(crate) fn meet(
    counts: &mut [u32],
    work: &mut [u32],
    n: usize,
    s: LoopSearch,
    q: usize,
) -> LoopSearch
    requires q_lt_n { q < n }
    requires size_lt_n { s.size < n }
    requires top_le_n { s.top ≤ n }
    requires n_bound { n ≤ 16777216 }
    requires n_in_bounds { n ≤ length counts.old }
    requires n_in_bounds_2 { 2 * n ≤ length work.old }
    ensures { NodeMet n counts.old work.old s q counts.new work.new result }
{
    let size = s.size;
    push(work, n, size, q);
    counts[size] = s.top as u32;
    LoopSearch {
        size: size + 1,
        top: size + 1,
        low: s.low,
    }
}

// The nodes at the places from i on and below j are done. Here places count from 0.
fn release(work: &mut [u32], n: usize, i: usize, j: usize)
    requires i_le_j { i ≤ j }
    requires j_le_n { j ≤ n }
    requires n_bound { n ≤ 16777216 }
    requires n_in_bounds { 2 * n ≤ length work.old }
    requires by_index { (k : ℕ) → k < j → stacked n work.old k < n }
    ensures { Released n work.old i j work.new }
{
    for k in i..j {
        let x = work[n + k] as usize;
        work[x] = DONE;
    }
}

// The lowest node found to loop, where p is passed with this lowest mark of the nodes that it leads to.
fn lower_loop(low: usize, p: usize, mark: u32) -> usize
    ensures { LowIs low p mark result }
{
    if mark == DONE { low } else { low.min(p) }
}

// One step at the last open node: a node that it leads to is met, or it is passed.
pub(crate) fn search_step(
    g: FitGraph<'_>,
    counts: &mut [u32],
    work: &mut [u32],
    s: LoopSearch,
) -> LoopSearch
    requires search_state { SearchState g.nodes.now counts.old work.old s }
    requires top_nonzero { 0 < s.top }
    ensures { SearchStepped g.entry.nodes.now counts.old work.old counts.new work.new s result }
{
    let n = g.nodes.len();
    let top = s.top;
    let p = work[n + (top - 1)] as usize;
    let next = lowest_next(g, work, p);
    let mark = next.mark;
    if mark == 0 {
        return meet(counts, work, n, s, next.node);
    }
    let before = counts[top - 1] as usize;
    let low = lower_loop(s.low, p, mark);
    if (mark as usize) < top {
        work[p] = mark;
        return LoopSearch {
            top: before,
            low,
            ..s
        };
    }
    release(work, n, top - 1, s.size);
    LoopSearch {
        size: top - 1,
        top: before,
        low,
    }
}
