// Counting the words from every node of a graph.
#![tactic(auto)]

mod counts;
mod sums;
mod walk;

ghost use Rattle.std.specs.Prelude.{◌≡◌, ◌*◌, ◌≤◌, length};
ghost use Rattle.graph.specs.Counting.{IsCounted, count_row, count_limit};
ghost use Rattle.graph.specs.Lent.{Kept, WorkKept};
ghost use Rattle.count.specs.Said.{count_refusal, said_counting};
ghost use Rattle.count.specs.declared.CountRefusal.TheVariants as C;

use answers::Refuses;
use counts::reaches_limit;
use graph::{FitGraph, GraphRefusal};
use loops::lowest_loop;
use walk::walk;

#[derive(Clone, Copy, Debug, PartialEq, Eq)]
pub enum CountRefusal {
    Graph(GraphRefusal),
    ListTooShort,
    Loops(u32),
    TooMany,
}

impl Refuses for CountRefusal {
    ghost refusal = { count_refusal };

    fn number(&self) -> u32 {
        match self {
            CountRefusal::Graph(why) => why.number(),
            CountRefusal::ListTooShort => 11,
            CountRefusal::Loops(_) => 12,
            CountRefusal::TooMany => 13,
        }
    }
}

impl From<GraphRefusal> for CountRefusal {
    ghost from_gives = { λ why e. e ≡ C.Graph why };

    fn from(why: GraphRefusal) -> CountRefusal {
        CountRefusal::Graph(why)
    }
}

// Counts the words of a graph with lists long enough. Only a graph with a loop is searched for the lowest node that loops.
fn count_checked(g: FitGraph<'_>, counts: &mut [u32], work: &mut [u32]) -> Result<(), CountRefusal>
    requires counts_long { length g.nodes.now ≤ length counts.old }
    requires work_long { 2 * length g.nodes.now ≤ length work.old }
    ensures counted { IsCounted count_limit g.entry.nodes.now counts.old (length work.old)
        (said_counting result) counts.new }
    ensures free { Kept (2 * length g.entry.nodes.now) work.old work.new }
{
    let n = g.nodes.len();
    work[..n].fill(0);
    if walk(g, counts, work).is_err() {
        let node = lowest_loop(g, counts, work).unwrap();
        return Err(CountRefusal::Loops(node as u32));
    }
    if reaches_limit(&counts[..n]) {
        counts[..n].fill(0);
        return Err(CountRefusal::TooMany);
    }
    Ok(())
}

// Puts the number of words from each node into counts.
pub fn count_words(nodes: &[u32], counts: &mut [u32], work: &mut [u32]) -> Result<(), CountRefusal>
    ensures counted { IsCounted count_limit nodes.now counts.old (length work.old)
        (said_counting result) counts.new }
    ensures free { WorkKept (count_row nodes.now (length counts.old) (length work.old))
        (2 * length nodes.now) work.old work.new }
{
    let g = graph::check_graph(nodes)?;
    let n = nodes.len();
    if counts.len() < n || work.len() < 2 * n {
        return Err(CountRefusal::ListTooShort);
    }
    count_checked(g, counts, work)
}
