// Words in play: a record has a bit for each word of a start node, set while the word is in play.
#![tactic(auto)]

mod lexicon;
mod record;
mod refusals;

ghost use Rattle.std.specs.Prelude.{◌≡◌, ◌*◌, ◌≤◌, ◌<◌, length};
ghost use Rattle.graph.specs.Counting.{count_limit};
ghost use Rattle.in_play.specs.InPlay.{not_in_play, remaining, allowed, played, moved_by, play};
ghost use Rattle.in_play.specs.Said.{said_left, said_play, played_as, allowed_as};

use lexicon::{InLexicon, Lexicon};
use record::{Record, is_in_play, turn};
pub use refusals::PlayRefusal;

#[derive(Clone, Copy)]
pub enum Move {
    Arrives,
    Leaves,
}

impl Move {
    // What the word's bit makes of its move.
    fn allowed(self, there: bool) -> Result<(), PlayRefusal>
        ensures { allowed_as result ≡ allowed self there }
    {
        match (self, there) {
            (Move::Arrives, true) => Err(PlayRefusal::AlreadyInPlay),
            (Move::Leaves, false) => Err(PlayRefusal::NotInPlay),
            _ => Ok(()),
        }
    }
}

// How many words are not in play, and the lowest number among them.
#[derive(Clone, Copy)]
pub struct Remaining {
    pub count: u32,
    pub lowest: u32,
}

impl Record<'_> {
    fn remaining(self) -> Option<Remaining>
        ensures { let left = not_in_play self.entry.bits.now self.entry.total in
            said_left result ≡ remaining (length left) left }
    {
        let count = self.count_clear();
        if count == 0 {
            return None;
        }
        Some(Remaining {
            count,
            lowest: self.lowest_clear(),
        })
    }
}

// The move of a word, where its bit allows it. Its number must be one of so many, for which the record must have bits.
fn move_word(
    asked: Move,
    bits: &mut [u8],
    found: InLexicon,
) -> Result<Option<Remaining>, PlayRefusal>
    requires { (found.number < found.total) × (found.total ≤ 8 * length bits.old) }
    ensures { played_as result bits.new
        ≡ played bits.old (moved_by asked bits.old found.number found.total) }
{
    asked.allowed(is_in_play(bits, found.number))?;
    turn(bits, found.number);
    let record = Record {
        bits,
        total: found.total,
    };
    Ok(record.remaining())
}

#[tactic(auto, unfolding(crate::specs::InPlay::play))]
fn play_word(
    asked: Move,
    lexicon: Lexicon<'_>,
    word: &[u8],
    bits: &mut [u8],
) -> Result<Option<Remaining>, PlayRefusal>
    ensures { played_as result bits.new
        ≡ play count_limit asked lexicon.entry.nodes.now lexicon.entry.counts.now lexicon.entry.start word.now bits.old }
{
    let found = lexicon.find(word, bits.len())?;
    move_word(asked, bits, found)
}

// The word comes into play. What is left is none where all words are in play.
pub fn arrive(
    nodes: &[u32],
    counts: &[u32],
    start: u32,
    word: &[u8],
    bits: &mut [u8],
) -> Result<Option<Remaining>, PlayRefusal>
    ensures { played_as result bits.new
        ≡ play count_limit Move.Arrives nodes.now counts.now start word.now bits.old }
{
    let lexicon = Lexicon {
        nodes,
        counts,
        start,
    };
    play_word(Move::Arrives, lexicon, word, bits)
}

// The word is withdrawn: as `arrive`, but for the move. They are two calls of the C interface.
pub fn leave(
    nodes: &[u32],
    counts: &[u32],
    start: u32,
    word: &[u8],
    bits: &mut [u8],
) -> Result<Option<Remaining>, PlayRefusal>
    ensures { played_as result bits.new
        ≡ play count_limit Move.Leaves nodes.now counts.now start word.now bits.old }
{
    let lexicon = Lexicon {
        nodes,
        counts,
        start,
    };
    play_word(Move::Leaves, lexicon, word, bits)
}
