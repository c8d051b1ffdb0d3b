// The checks of graph, labels and name before the walk, and of the labels after it.
ghost use Rattle.std.specs.Prelude.{◌≡◌, ◌||◌, ℕ, ltb, leb, drop, IfOk};
ghost use Rattle.laws.specs.Lists.{some_of};
ghost use Rattle.node.specs.Nodes.{kbwg, tile, is_end};
ghost use Rattle.answers.specs.Answers.{first_of};
ghost use Rattle.graph.specs.Runs.{ascends};
ghost use Rattle.macondo_file.specs.Row.{no_code_point, macondo_checks};
ghost use Rattle.macondo.specs.Said.{checked_refusal};

use crate::MacondoRefusal;
use export::lacks_label;
use macondo_blocks::ReadyGraph;
use node::Node24;

// The graph and its labels, if they, the name and as many numbers of work list are as the walk needs them.
#[tactic(auto, unfolding(answers::specs::Answers::first_of))]
pub(crate) fn check<'a>(
    nodes: &'a [u32],
    labels: &'a [u32],
    name: &[u8],
    lent: usize,
) -> Result<ReadyGraph<'a>, MacondoRefusal>
    ensures refused { checked_refusal result ≡ first_of (macondo_checks nodes.now labels.now name.now lent) }
    ensures same_nodes { IfOk result (λ g. g.nodes.now ≡ nodes.now) }
    ensures same_labels { IfOk result (λ g. g.labels.now ≡ labels.now) }
{
    graph::check_graph(nodes)?;
    if labels.is_empty() || 50 < labels.len() {
        return Err(MacondoRefusal::LabelCount);
    }
    if 255 < name.len() {
        return Err(MacondoRefusal::NameTooLong);
    }
    if lacks_label(nodes, labels) {
        return Err(MacondoRefusal::NoLabel);
    }
    if !ascends(nodes) {
        return Err(MacondoRefusal::NotAscending);
    }
    if lent < 8 * nodes.len() {
        return Err(MacondoRefusal::WorkTooShort);
    }
    Ok(ReadyGraph { nodes, labels })
}

// The lowest tile that the node after v may have: any where v ends its run, else one above v's own.
#[tactic(auto, using(crate::proofs::Tests::higher))]
fn lowest_after(v: u32) -> u8
    ensures { (t : ℕ) → leb result t ≡ is_end kbwg v || ltb (tile kbwg v) t }
{
    if Node24(v).is_end() {
        0
    } else {
        Node24(v).tile() + 1
    }
}

// Whether the tiles of each run ascend. `is_sorted_by` would branch on every end of a run, which no processor foresees.
fn ascends(nodes: &[u32]) -> bool
    ensures { result ≡ ascends kbwg nodes.now }
{
    let mut lowest: u8 = 0;
    for v in nodes {
        if Node24(*v).tile() < lowest {
            return false;
        }
        lowest = lowest_after(*v);
    }
    true
}

// Whether the label of some letter, tiles 1 up, is not one code point.
pub(crate) fn lacks_code_point(labels: &[u32]) -> bool
    ensures { result ≡ some_of no_code_point (drop 1 labels.now) }
{
    labels
        .iter()
        .skip(1)
        .any(|label| char::from_u32(*label).is_none())
}
