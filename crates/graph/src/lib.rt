// A word graph: the meaning of its runs, words and loops is in specs/; here are the checks that several calls share.
#![tactic(auto)]

ghost use Rattle.std.specs.Prelude.{◌≡◌, IfOk};
ghost use Rattle.answers.specs.Answers.{first_of};
ghost use Rattle.node.specs.Nodes.{kbwg};
ghost use Rattle.graph.specs.Runs.{largest_arc, last_ends};
ghost use Rattle.graph.specs.Checks.{nodes_row, nodes_why, nodes_refusal, graph_row, graph_why, graph_refusal};
ghost use Rattle.graph.specs.declared.GraphRefusal.TheVariants as G;

mod fit;

use answers::Refuses;
pub use fit::FitGraph;
use node::Node24;

// The lowest count that is too many, and the largest sum of counts.
pub const COUNT_LIMIT: u32 = 4294967295;

#[derive(Clone, Copy, Debug, PartialEq, Eq)]
pub enum NodesRefusal {
    ArcPastEnd(u32),
    NoEnd,
}

impl Refuses for NodesRefusal {
    ghost refusal = { nodes_why };

    fn number(&self) -> u32 {
        match self {
            NodesRefusal::ArcPastEnd(_) => 8,
            NodesRefusal::NoEnd => 9,
        }
    }
}

#[derive(Clone, Copy, Debug, PartialEq, Eq)]
pub enum GraphRefusal {
    WrongSize,
    Nodes(NodesRefusal),
}

impl Refuses for GraphRefusal {
    ghost refusal = { graph_why };

    fn number(&self) -> u32 {
        match self {
            GraphRefusal::WrongSize => 10,
            GraphRefusal::Nodes(why) => why.number(),
        }
    }
}

impl From<NodesRefusal> for GraphRefusal {
    ghost from_gives = { λ why e. e ≡ G.Nodes why };

    fn from(why: NodesRefusal) -> GraphRefusal {
        GraphRefusal::Nodes(why)
    }
}

fn largest_arc(nodes: &[u32]) -> u32
    ensures { result ≡ largest_arc kbwg nodes.now }
{
    let mut largest: u32 = 0;
    for v in nodes {
        largest = largest.max(Node24(*v).arc_index());
    }
    largest
}

fn last_ends(nodes: &[u32]) -> bool
    ensures { result ≡ last_ends kbwg nodes.now }
{
    match nodes.last() {
        Some(v) => Node24(*v).is_end(),
        None => false,
    }
}

// Whether every arc leads to a node and the last node ends its run, so that no walk leaves the nodes.
#[tactic(auto, unfolding(answers::specs::Answers::first_of))]
pub fn check_nodes(nodes: &[u32]) -> Result<(), NodesRefusal>
    ensures { nodes_refusal result ≡ first_of (nodes_row nodes.now) }
{
    let largest = largest_arc(nodes);
    if nodes.len() <= largest as usize {
        return Err(NodesRefusal::ArcPastEnd(largest));
    }
    if !last_ends(nodes) {
        return Err(NodesRefusal::NoEnd);
    }
    Ok(())
}

// The same, of a graph that is neither too small nor too large to number its words; answers the nodes as checked ones.
#[tactic(auto, unfolding(answers::specs::Answers::first_of))]
pub fn check_graph(nodes: &[u32]) -> Result<FitGraph<'_>, GraphRefusal>
    ensures refused { graph_refusal result ≡ first_of (graph_row nodes.now) }
    ensures same { IfOk result (λ g. g.nodes.now ≡ nodes.now) }
{
    if nodes.len() < 2 || 16777216 < nodes.len() {
        return Err(GraphRefusal::WrongSize);
    }
    check_nodes(nodes)?;
    Ok(FitGraph { nodes })
}
