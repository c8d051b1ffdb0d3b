// Which word of the start's lexicon is meant.
ghost use Rattle.std.specs.Prelude.{◌≡◌, ◌*◌, ◌<◌, ◌≤◌, IfOk};
ghost use Rattle.graph.specs.Counting.{count_limit};
ghost use Rattle.in_play.specs.InPlay.{start_count, in_lexicon};
ghost use Rattle.in_play.specs.Said.{start_says, found_as};

use crate::refusals::PlayRefusal;
use lookup::NotLent;

// A word's number, and how many words there are.
#[derive(Clone, Copy)]
pub struct InLexicon {
    pub number: u32,
    pub total: u32,
}

// The words from a node, by what is lent.
#[derive(Clone, Copy)]
pub struct Lexicon<'a> {
    pub nodes: &'a [u32],
    pub counts: &'a [u32],
    pub start: u32,
}

impl Lexicon<'_> {
    // How many words there are. Start 0 has none, whatever its count.
    #[tactic(auto, unfolding(crate::specs::InPlay::start_count, lookup::specs::Steps::lent))]
    fn count(self) -> Result<u32, NotLent>
        ensures { start_says result ≡ start_count self.entry.nodes.now self.entry.counts.now self.entry.start }
    {
        let p = self.start as usize;
        if self.nodes.len() <= p {
            return Err(NotLent);
        }
        if p == 0 {
            return Ok(0);
        }
        self.counts.get(p).copied().ok_or(NotLent)
    }

    // The word's number, where a record of so many bytes has a bit for each word.
    #[tactic(auto, unfolding(crate::specs::InPlay::in_lexicon))]
    pub(crate) fn find(self, word: &[u8], bytes: usize) -> Result<InLexicon, PlayRefusal>
        ensures found { found_as result
            ≡ in_lexicon count_limit self.entry.nodes.now self.entry.counts.now self.entry.start word.now bytes }
        ensures within { IfOk result (λ f. (f.number < f.total) × (f.total ≤ 8 * bytes)) }
    {
        let total = self.count()?;
        if bytes < total.div_ceil(8) as usize {
            return Err(PlayRefusal::TooFewBits);
        }
        let found = lookup::get_word_index(self.nodes, self.counts, self.start, word)?;
        let number = found.ok_or(PlayRefusal::NoWord)?;
        if total <= number {
            return Err(PlayRefusal::NoWord);
        }
        Ok(InLexicon { number, total })
    }
}
