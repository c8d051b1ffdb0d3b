// The number of a word.
ghost use Rattle.std.specs.Prelude.{◌≡◌};
ghost use Rattle.graph.specs.Counting.{count_limit};
ghost use Rattle.lookup.specs.Walks.{passed_first, number_ending, index_from, index_of_word, word_index};
ghost use Rattle.answers.specs.Answers.{said_option};
ghost use Rattle.lookup.specs.Said.{passed_try, said_index, said_number};

use crate::by_tile::{Numbered, Passed};
use crate::refusals::LookupRefusal;
use crate::run::{lent, sum};
use graph::COUNT_LIMIT;
use node::Node24;

// The number of the word that ends at node v, with idx words before it.
#[tactic(auto, unfolding(crate::specs::Walks::number_ending))]
fn number_ending(v: u32, idx: u32) -> Option<u32>
    ensures { said_option said_number result ≡ number_ending count_limit v idx }
{
    if Node24(v).accepts() && idx != COUNT_LIMIT {
        Some(idx)
    } else {
        None
    }
}

impl<'a> Numbered<'a> {
    // The first tile of a word, in the run that begins at the start itself, whose count must be lent, whatever the tile.
    #[tactic(auto, unfolding(crate::specs::Walks::passed_first))]
    fn pass_first(self, start: usize, tile: u8) -> Result<Option<Passed>, LookupRefusal>
        ensures { passed_try result ≡ passed_first self.entry.nodes.now self.entry.counts.now start tile }
    {
        if start == 0 {
            return Ok(None);
        }
        lent(self.counts, start)?;
        self.pass_to(start, tile)
    }

    // The tiles of a word after one that led to node v, with idx words before it.
    fn index_from(self, v: u32, idx: u32, tiles: &[u8]) -> Result<Option<u32>, LookupRefusal>
        ensures { said_index result ≡ index_from count_limit self.entry.nodes.now self.entry.counts.now v idx tiles.now }
    {
        let mut v = v;
        let mut idx = idx;
        for &tile in tiles {
            let here = sum(idx, Node24(v).accepts_bit())?;
            let Some(Passed { node, before }) = self.pass_after(v, tile)? else {
                return Ok(None);
            };
            idx = sum(here, before)?;
            v = self.nodes[node];
        }
        Ok(number_ending(v, idx))
    }

    // The number of a word among those from the start: its first tile, then the others.
    #[tactic(auto, unfolding(crate::specs::Walks::index_of_word))]
    fn index_of_word(self, start: usize, word: &[u8]) -> Result<Option<u32>, LookupRefusal>
        ensures { said_index result ≡ index_of_word count_limit self.entry.nodes.now self.entry.counts.now start word.now }
    {
        // With `split_first` a call takes a tenth longer.
        if word.is_empty() {
            return Ok(None);
        }
        let Some(Passed { node, before }) = self.pass_first(start, word[0])? else {
            return Ok(None);
        };
        self.index_from(self.nodes[node], before, &word[1..])
    }
}

// The number of the word among those from node p; none for start 0 and the empty word.
#[tactic(auto, unfolding(crate::specs::Walks::word_index))]
pub fn get_word_index(
    nodes: &[u32],
    counts: &[u32],
    p: u32,
    word: &[u8],
) -> Result<Option<u32>, LookupRefusal>
    ensures { said_index result ≡ word_index count_limit nodes.now counts.now p word.now }
{
    Numbered::of_lent(nodes, counts).index_of_word(p as usize, word)
}
