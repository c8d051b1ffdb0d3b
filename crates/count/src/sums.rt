// The sum that gives a node its count, capped.
ghost use Rattle.std.specs.Prelude.{◌≡◌, false, ◌+◌, ◌<◌, ◌≤◌, min, length, get_or};
ghost use Rattle.graph.specs.Counting.{count_limit};
ghost use Rattle.node.specs.Nodes.{kbwg, arc, is_end};
ghost use Rattle.graph.specs.CountLaws.{by_arc, by_run, sum_at};

use graph::FitGraph;
use node::Node24;

// The words that go on by the node's arc. This and the next read counts as `loops` reads marks, two lines each: only the value for none and the
// words of the contract differ, so that one function for both would be no shorter.
#[tactic(auto, unfolding(graph::specs::CountLaws::by_arc))]
fn words_by_arc(counts: &[u32], node: u32) -> u32
    requires { arc kbwg node < length counts.now }
    ensures { result ≡ by_arc kbwg (λ q. get_or counts.now q 0) node }
{
    let arc = Node24(node).arc_index() as usize;
    if arc == 0 { 0 } else { counts[arc] }
}

// The words of the nodes after node p in its run.
#[tactic(auto, unfolding(graph::specs::CountLaws::by_run))]
fn words_by_run(counts: &[u32], node: u32, p: usize) -> u32
    requires { is_end kbwg node ≡ false → p + 1 < length counts.now }
    ensures { result ≡ by_run kbwg (λ q. get_or counts.now q 0) node p }
{
    if Node24(node).is_end() {
        0
    } else {
        counts[p + 1]
    }
}

// The count of p by the counts of the nodes that it leads to.
pub(crate) fn count_at(g: FitGraph<'_>, counts: &[u32], p: usize) -> u32
    requires p_in_bounds { p < length g.nodes.now }
    requires nodes_in_bounds { length g.nodes.now ≤ length counts.now }
    ensures { result ≡ min (sum_at kbwg g.entry.nodes.now (λ q. get_or counts.now q 0) p) count_limit }
{
    let node = g.nodes[p];
    let own = u32::from(Node24(node).accepts());
    let below = words_by_arc(counts, node);
    let after = words_by_run(counts, node, p);
    own.saturating_add(below).saturating_add(after)
}
