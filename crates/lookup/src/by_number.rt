// The word of a number.
ghost use Rattle.std.specs.Prelude.{◌≡◌, ◌&&◌, ◌+◌, ◌^◌, ◌<◌, eqb, length};
ghost use Rattle.node.specs.Nodes.{kbwg, accepts};
ghost use Rattle.lookup.specs.Walks.{words_here, word_from, word_by_index};
ghost use Rattle.lookup.specs.Said.{between_try, WordPut};

use crate::by_tile::Numbered;
use crate::refusals::{LookupRefusal, WordRefusal};
use crate::run::{lent, words_between};
use node::Node24;

// The words of node v, at place p, by the counts from it and from the node after it, whose place must be a number.
#[tactic(auto, unfolding(crate::specs::Walks::words_here))]
fn words_here(counts: &[u32], v: u32, p: usize) -> Result<u32, LookupRefusal>
    requires { p + 1 < 2 ^ 64 }
    ensures { between_try result ≡ words_here counts.now v p }
{
    if Node24(v).is_end() {
        return Ok(lent(counts, p)?);
    }
    words_between(counts, p, p + 1)
}

// Whether the word with number idx ends at node v: the first of its words is its tile alone, if it accepts.
fn ends_at(v: u32, idx: u32) -> bool
    ensures { result ≡ eqb idx 0 && accepts kbwg v }
{
    idx == 0 && Node24(v).accepts()
}

impl<'a> Numbered<'a> {
    fn word_from(self, p: usize, idx: u32, word: &mut [u8]) -> Result<Option<usize>, WordRefusal>
        ensures { WordPut (word_from self.entry.counts.now self.entry.nodes.now (length word.old) 0 p idx) word.old
            word.new result }
    {
        let mut p = p;
        let mut idx = idx;
        let mut n = 0;
        // A walk goes where the arcs lead, so no iterator counts its steps.
        while p < self.nodes.len() {
            let v = self.nodes[p];
            if ends_at(v, idx) {
                if word.len() <= n {
                    return Err(WordRefusal::BufferFull);
                }
                word[n] = Node24(v).tile();
                return Ok(Some(n + 1));
            }
            let words = words_here(self.counts, v, p)?;
            if idx < words {
                if n >= word.len() {
                    return Err(WordRefusal::BufferFull);
                }
                word[n] = Node24(v).tile();
                n += 1;
                idx -= Node24(v).accepts_bit();
                p = Node24(v).arc_index() as usize;
            } else {
                if Node24(v).is_end() {
                    return Ok(None);
                }
                idx -= words;
                p += 1;
            }
        }
        Err(WordRefusal::Lookup(LookupRefusal::NotLent))
    }
}

// Puts the tiles of the word with the number among those from node p, and answers how many.
#[tactic(auto, unfolding(crate::specs::Walks::word_by_index))]
pub fn get_word_by_index(
    nodes: &[u32],
    counts: &[u32],
    p: u32,
    idx: u32,
    word: &mut [u8],
) -> Result<Option<usize>, WordRefusal>
    ensures { WordPut (word_by_index counts.now nodes.now (length word.old) p idx) word.old
        word.new result }
{
    Numbered::of_lent(nodes, counts).word_from(p as usize, idx, word)
}
