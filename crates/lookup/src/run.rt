// The run that begins at a node, and what is lent.
ghost use Rattle.std.specs.Prelude.{◌≡◌, ◌≤◌, drop};
ghost use Rattle.graph.specs.Counting.{count_limit};
ghost use Rattle.lookup.specs.Steps.{lent_part, lent, sum, difference};
ghost use Rattle.lookup.specs.Walks.{find_in, words_between};
ghost use Rattle.lookup.specs.Said.{lent_try, search_try, between_try};

use crate::refusals::{LookupRefusal, NotLent};
use node::Node24;

// What a walk can reach of a lent list: places are 32-bit numbers, so no walk gets further.
#[tactic(auto, using(std::proofs::lemmas::List::take_min))]
pub fn lent_part(list: &[u32]) -> &[u32]
    ensures { result.now ≡ lent_part list.now }
{
    let end: usize = 4294967296;
    &list[..end.min(list.len())]
}

// What stands at a place, if it is lent.
#[tactic(auto, unfolding(crate::specs::Steps::lent))]
pub fn lent(list: &[u32], i: usize) -> Result<u32, NotLent>
    ensures { lent_try result ≡ lent list.now i }
{
    list.get(i).copied().ok_or(NotLent)
}

// The first node with the tile in the run from p.
pub(crate) fn find_in(nodes: &[u32], p: usize, tile: u8) -> Result<Option<usize>, NotLent>
    ensures { search_try result ≡ find_in (drop p nodes.now) p tile }
{
    for i in p..nodes.len() {
        let v = nodes[i];
        if Node24(v).tile() == tile {
            return Ok(Some(i));
        }
        if Node24(v).is_end() {
            return Ok(None);
        }
    }
    Err(NotLent)
}

// A sum or a difference that is a word number: one call each, since they differ in what is refused.
#[tactic(auto, unfolding(crate::specs::Steps::sum))]
pub(crate) fn sum(a: u32, b: u32) -> Result<u32, LookupRefusal>
    ensures { between_try result ≡ sum count_limit a b }
{
    a.checked_add(b).ok_or(LookupRefusal::OutOfRange)
}

#[tactic(auto, unfolding(crate::specs::Steps::difference))]
pub(crate) fn difference(a: u32, b: u32) -> Result<u32, LookupRefusal>
    ensures { between_try result ≡ difference a b }
{
    a.checked_sub(b).ok_or(LookupRefusal::OutOfRange)
}

// The words of a run from its place p on that come before its place q, which must not be below p: where its count is lent, so is p's.
#[tactic(auto, unfolding(crate::specs::Walks::words_between, crate::specs::Steps::lent))]
pub(crate) fn words_between(counts: &[u32], p: usize, q: usize) -> Result<u32, LookupRefusal>
    requires { p ≤ q }
    ensures { between_try result ≡ words_between counts.now p q }
{
    let other = lent(counts, q)?;
    difference(counts[p], other)
}
