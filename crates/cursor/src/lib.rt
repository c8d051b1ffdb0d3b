// A cursor along one run of a word graph.
#![tactic(auto)]

ghost use Rattle.std.specs.Prelude.{◌≡◌};
ghost use Rattle.cursor.specs.RunSteps.{run_step, moves};
ghost use Rattle.cursor.specs.Said.{said_step, moved_as, Advances};

use lookup::{NotLent, lent, lent_part};
use node::Node24;

// One step along the run: from a node to the next, unless the node is an end.
#[tactic(auto, unfolding(crate::specs::RunSteps::run_step, crate::specs::RunSteps::step_in))]
pub fn run_step(nodes: &[u32], at: u32) -> Result<Option<u32>, NotLent>
    ensures { said_step result ≡ run_step nodes.now at }
{
    let nodes = lent_part(nodes);
    let i = at as usize;
    if Node24(lent(nodes, i)?).is_end() {
        return Ok(None);
    }
    lent(nodes, i + 1)?;
    Ok(Some(at + 1))
}

// The lent nodes and the node reached.
#[derive(Clone, Copy)]
pub struct RunCursor<'a> {
    pub nodes: &'a [u32],
    pub at: u32,
}

impl<'a> RunCursor<'a> {
    // A cursor at a node. It keeps the nodes and the place and no more: where that is not lent, each step is refused.
    pub fn new(nodes: &'a [u32], at: u32) -> RunCursor<'a>
        ensures { (result.nodes ≡ nodes.entry) × (result.at ≡ at) }
    {
        RunCursor { nodes, at }
    }

    // The cursor steps to the next node and answers it; at an end it answers none and stays.
    pub fn advance(&mut self) -> Result<Option<u32>, NotLent>
        ensures { Advances self.old self.new result }
    {
        let answer = run_step(self.nodes, self.at);
        if let Ok(Some(next)) = answer {
            self.at = next;
        }
        answer
    }
}

// What a step answers, and the node reached after it.
#[derive(Clone, Copy)]
pub struct Moved {
    pub at: u32,
    pub answer: Result<Option<u32>, NotLent>,
}

// A step of a cursor made for it, for callers that keep no cursor: what it answers, and the node that the cursor reached.
pub fn step_once(nodes: &[u32], at: u32) -> Moved
    ensures { moved_as result ≡ moves nodes.now at }
{
    let mut c = RunCursor::new(nodes, at);
    let answer = c.advance();
    Moved { at: c.at, answer }
}
