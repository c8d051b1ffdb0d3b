// Which of the nodes that a node leads to has the lowest mark.
ghost use Rattle.std.specs.Prelude.{◌≡◌, true, false, ◌+◌, ◌≤◌, ◌<◌, length};
ghost use Rattle.node.specs.Nodes.{kbwg, arc, is_end};
ghost use Rattle.loops.specs.Search.{MarkIs, LowestNext};

use crate::DONE;
use graph::FitGraph;
use node::Node24;

// A node and its mark; with DONE as the mark, any node. No Option: a node that is done and no node count alike.
#[derive(Clone, Copy, Debug, PartialEq, Eq)]
pub struct NextMark {
    pub node: usize,
    pub mark: u32,
}

// The mark of the node that a node's arc leads to; DONE where it has no arc.
fn mark_by_arc(work: &[u32], node: u32) -> u32
    requires { arc kbwg node < length work.now }
    ensures { MarkIs work.now (arc kbwg node ≡ 0) (arc kbwg node) result }
{
    let arc = Node24(node).arc_index() as usize;
    if arc == 0 { DONE } else { work[arc] }
}

// The mark of the node after node p in its run; DONE where p is its end.
fn mark_by_run(work: &[u32], node: u32, p: usize) -> u32
    requires { is_end kbwg node ≡ false → p + 1 < length work.now }
    ensures { MarkIs work.now (is_end kbwg node ≡ true) (p + 1) result }
{
    if Node24(node).is_end() {
        DONE
    } else {
        work[p + 1]
    }
}

// The node with the lowest mark of those that p leads to, and that mark; DONE where all are done or there are none.
pub(crate) fn lowest_next(g: FitGraph<'_>, work: &[u32], p: usize) -> NextMark
    requires p_in_bounds { p < length g.nodes.now }
    requires nodes_in_bounds { length g.nodes.now ≤ length work.now }
    ensures { LowestNext g.entry.nodes.now work.now p result }
{
    let node = g.nodes[p];
    let by_arc = mark_by_arc(work, node);
    let by_run = mark_by_run(work, node, p);
    if by_run < by_arc {
        NextMark {
            node: p + 1,
            mark: by_run,
        }
    } else {
        NextMark {
            node: Node24(node).arc_index() as usize,
            mark: by_arc,
        }
    }
}
