// Run lookup: the node with a tile in the run that a node's arc leads to, and the words of the run before it.
ghost use Rattle.std.specs.Prelude.{◌≡◌};
ghost use Rattle.lookup.specs.Steps.{lent_part};
ghost use Rattle.lookup.specs.Walks.{step_to, passed, passed_after, passed_from, seek as sought};
ghost use Rattle.lookup.specs.WordsBefore.{NamesBefore};
ghost use Rattle.lookup.specs.Said.{search_try, passed_try, said_seek};

use crate::refusals::{LookupRefusal, NotLent};
use crate::run::{find_in, lent, lent_part, words_between};
use node::Node24;

// The node found, and how many words of its run come before it.
#[derive(Clone, Copy, Debug, PartialEq, Eq)]
pub struct Sought {
    pub node: u32,
    pub before: u32,
}

// One tile on: the place of the node with the tile, and the words of its run before it.
#[derive(Clone, Copy)]
pub(crate) struct Passed {
    pub(crate) node: usize,
    pub(crate) before: u32,
}

// One step of a walk that reads no counts, as the alpha sets take it: from node p by its arc to the node with the tile.
// It goes through all the nodes given: a call that walks takes the lent part first.
#[tactic(auto, unfolding(crate::specs::Walks::step_to, crate::specs::Walks::arc_of))]
pub fn seek_from(nodes: &[u32], p: usize, tile: u8) -> Result<Option<usize>, NotLent>
    ensures { search_try result ≡ step_to nodes.now p tile }
{
    let arc = Node24(lent(nodes, p)?).arc_index() as usize;
    if arc == 0 {
        return Ok(None);
    }
    find_in(nodes, arc, tile)
}

// What a walk goes along: the lent part of a graph's nodes, and of the counts of their words.
#[derive(Clone, Copy)]
pub(crate) struct Numbered<'a> {
    pub(crate) nodes: &'a [u32],
    pub(crate) counts: &'a [u32],
}

impl<'a> Numbered<'a> {
    pub(crate) fn of_lent(nodes: &'a [u32], counts: &'a [u32]) -> Numbered<'a>
        ensures nodes { result.nodes.now ≡ lent_part nodes.now }
        ensures counts { result.counts.now ≡ lent_part counts.now }
    {
        Numbered {
            nodes: lent_part(nodes),
            counts: lent_part(counts),
        }
    }

    // The node with the tile in the run from p, and the words before it: counts are read only for a tile found.
    #[tactic(auto, unfolding(crate::specs::Walks::passed))]
    pub(crate) fn pass_to(self, p: usize, tile: u8) -> Result<Option<Passed>, LookupRefusal>
        ensures { passed_try result ≡ passed self.entry.nodes.now self.entry.counts.now p tile }
    {
        let Some(node) = find_in(self.nodes, p, tile)? else {
            return Ok(None);
        };
        let before = words_between(self.counts, p, node)?;
        Ok(Some(Passed { node, before }))
    }

    // The same from node v: in the run that its arc leads to.
    #[tactic(auto, unfolding(crate::specs::Walks::passed_after, crate::specs::Walks::arc_of))]
    pub(crate) fn pass_after(self, v: u32, tile: u8) -> Result<Option<Passed>, LookupRefusal>
        ensures { passed_try result ≡ passed_after self.entry.nodes.now self.entry.counts.now v tile }
    {
        let first = Node24(v).arc_index() as usize;
        if first == 0 {
            return Ok(None);
        }
        self.pass_to(first, tile)
    }

    // The same from place p.
    #[tactic(auto, unfolding(crate::specs::Walks::passed_from))]
    fn pass_from(self, p: usize, tile: u8) -> Result<Option<Passed>, LookupRefusal>
        ensures { passed_try result ≡ passed_from self.entry.nodes.now self.entry.counts.now p tile }
    {
        self.pass_after(lent(self.nodes, p)?, tile)
    }
}

// The node with the tile in the run that the arc of node p leads to, and how many words of the run come before it.
#[tactic(auto, unfolding(crate::specs::Walks::seek))]
pub fn seek(
    nodes: &[u32],
    counts: &[u32],
    p: u32,
    tile: u8,
) -> Result<Option<Sought>, LookupRefusal>
    ensures answer { said_seek result ≡ sought nodes.now counts.now p tile }
    ensures names { NamesBefore nodes.now counts.now p tile (said_seek result) }
{
    let Some(Passed { node, before }) = Numbered::of_lent(nodes, counts).pass_from(
        p as usize, tile,
    )?
    else {
        return Ok(None);
    };
    Ok(Some(Sought {
        node: node as u32,
        before,
    }))
}
