// A lexicon from a word list: one length byte and that many tiles a word, in ascending order.
//
// The words become tails of runs, each kept once (crate tails), so that a run is one number. The runs that are met from the list's own then take
// their places, and only when all places are known, and with them the number of nodes, the nodes are written. Of a work list for B bytes the
// tables take n numbers each, n being B or 16,777,216, whichever is less:
//
// from 0, n numbers: the place of each run, plus 1
// from n, n numbers: the trees of the dictionary; then the runs in the order of their places
// from 2n, 4n numbers: the tails, with the dictionary's links
// from 6n, B numbers: the way back from each word to the one before it
#![tactic(auto)]

mod nodes;
mod places;

ghost use Rattle.std.specs.Prelude.{◌≡◌, true, false, [], ◌∷◌, ◌+◌, ◌*◌, ◌≤◌, ◌<◌, min, length, ltb};
ghost use Rattle.std.proofs.lemmas.List.Edits.{sets};
ghost use Rattle.graph.specs.Lent.{WorkKept};
ghost use Rattle.built.specs.Built.{node_of, built};
ghost use Rattle.built.specs.Build.{build_checks, build_as};
ghost use Rattle.word_list.specs.Words.{IsLexicon};
ghost use Rattle.build.specs.Said.{build_why, built_as, past_checks, HasRoot, RunBuilds, WordsBuild};
ghost use Rattle.build.specs.declared.BuildRefusal.TheVariants as why;

use answers::Refuses;
use block_record::BlockTally;
use nodes::write_runs;
use places::{MOST_NODES, number_run};
use tails::close_words;
use word_list::{ListRefusal, check_list};

// Why there is no graph.
#[derive(Clone, Copy, Debug, PartialEq, Eq)]
pub enum BuildRefusal {
    List(ListRefusal),
    WorkTooShort,
    TooManyNodes,
    NodesTooShort,
}

impl From<ListRefusal> for BuildRefusal {
    ghost from_gives = { λ r b. b ≡ why.List r };

    fn from(refusal: ListRefusal) -> BuildRefusal {
        BuildRefusal::List(refusal)
    }
}

impl Refuses for BuildRefusal {
    ghost refusal = { build_why };

    fn number(&self) -> u32 {
        match self {
            BuildRefusal::List(refusal) => refusal.number(),
            BuildRefusal::WorkTooShort => 11,
            BuildRefusal::TooManyNodes => 25,
            BuildRefusal::NodesTooShort => 11,
        }
    }
}

// Writes the two nodes before the first run, which the list must have: node 0 with an arc of 24 bits, node 1 without one.
fn write_roots(nodes: &mut [u32], arc: u32)
    requires { (2 ≤ length nodes.old) × (arc < 16777216) }
    ensures { nodes.new ≡ sets nodes.old 0 (node_of 0 false true arc ∷ node_of 0 false true 0 ∷ []) }
{
    nodes[0] = arc * 0x100 + 0x40;
    nodes[1] = 0x40;
}

// Builds the graph of no words.
fn build_empty(nodes: &mut [u32]) -> Result<u32, BuildRefusal>
    ensures { built_as result nodes.new ≡ past_checks (built []) nodes.old }
{
    if nodes.len() < 2 {
        return Err(BuildRefusal::NodesTooShort);
    }
    write_roots(nodes, 0);
    Ok(2)
}

// Builds the graph of the words of a tail's run, by the tails in the work list; n is the size of its tables.
fn build_run(work: &mut [u32], n: usize, root: u32, nodes: &mut [u32]) -> Result<u32, BuildRefusal>
    requires { HasRoot n work.old root }
    ensures { RunBuilds n work.old root nodes.old nodes.new result }
{
    work[..n].fill(0);
    let none = BlockTally {
        blocks: 0,
        nodes: 2,
    };
    let tally = number_run(work, n, root, none, 64).ok_or(BuildRefusal::TooManyNodes)?;
    if nodes.len() < tally.nodes as usize {
        return Err(BuildRefusal::NodesTooShort);
    }
    write_roots(nodes, 2);
    write_runs(work, n, tally.blocks as usize, nodes);
    Ok(tally.nodes)
}

// Builds the graph of a list that has passed its checks, by a work list that is long enough.
fn build_words(list: &[u8], work: &mut [u32], nodes: &mut [u32]) -> Result<u32, BuildRefusal>
    requires lexicon { IsLexicon list.now }
    requires list_in_bounds { 8 * length list.now + 64 ≤ length work.old }
    ensures { WordsBuild list.now nodes.old nodes.new result }
{
    if list.is_empty() {
        return build_empty(nodes);
    }
    // No more than a graph has nodes.
    let n = list.len().min(MOST_NODES as usize);
    let root = close_words(list, work, n).ok_or(BuildRefusal::TooManyNodes)?;
    build_run(work, n, root, nodes)
}

// Whether a work list has too few numbers for a list of so many bytes.
fn is_short(bytes: usize, lent: usize) -> bool
    ensures { result ≡ ltb lent (8 * bytes + 64) }
{
    lent < 64 || (lent - 64) / 8 < bytes
}

// Builds the graph of the words of a list.
pub fn build(list: &[u8], work: &mut [u32], nodes: &mut [u32]) -> Result<u32, BuildRefusal>
    ensures built { built_as result nodes.new ≡ build_as list.now (length work.old) nodes.old }
    ensures free { WorkKept (build_checks list.now (length work.old)) (8 * length list.now + 64)
        work.old work.new }
{
    check_list(list)?;
    if is_short(list.len(), work.len()) {
        return Err(BuildRefusal::WorkTooShort);
    }
    let free = 8 * list.len() + 64;
    build_words(list, &mut work[..free], nodes)
}
