// Run lookup, the run cursor, and words and their numbers.
ghost use Rattle.std.specs.Prelude.{◌≡◌};
ghost use Rattle.stored.specs.Answers.{same};
ghost use Rattle.replay.specs.Lookups.{seek_reply, step_reply, index_reply, word_reply, word_reply_in, unmarked};

use stored::{byte_at, list_from, list_to, same, same_then, word_at};

// P TILE N, N nodes and the counts.
#[tactic(auto, unfolding(crate::specs::Lookups::seek_reply))]
pub(crate) fn seek(stored: &[u64], words: &[u32]) -> bool
    ensures { result ≡ same stored.now (seek_reply words.now) }
{
    let graph = list_from(words, 3);
    let count = word_at(words, 2) as usize;
    let sought = machirsun::machirsun_seek(
        list_to(graph, count),
        list_from(graph, count),
        word_at(words, 0),
        byte_at(words, 1),
    );
    let found = u32::from(sought.found);
    same(
        stored,
        &[sought.refusal, found, sought.place, sought.before],
    )
}

// P, and the nodes: one step.
#[tactic(auto, unfolding(crate::specs::Lookups::step_reply))]
pub(crate) fn step(stored: &[u64], words: &[u32]) -> bool
    ensures { result ≡ same stored.now (step_reply words.now) }
{
    let stepped = machirsun::machirsun_cursor_step(list_from(words, 1), word_at(words, 0));
    same(
        stored,
        &[stepped.refusal, u32::from(stepped.done), stepped.at],
    )
}

// P N, N nodes and the counts; the tiles of the word as bytes.
#[tactic(auto, unfolding(crate::specs::Lookups::index_reply))]
pub(crate) fn word_index(stored: &[u64], words: &[u32], word: &[u8]) -> bool
    ensures { result ≡ same stored.now (index_reply words.now word.now) }
{
    let graph = list_from(words, 2);
    let count = word_at(words, 1) as usize;
    let found = machirsun::machirsun_word_index(
        list_to(graph, count),
        list_from(graph, count),
        word_at(words, 0),
        word,
    );
    same(
        stored,
        &[found.refusal, u32::from(found.found), found.number],
    )
}

// No tile: what stands in the lent word until a tile is put.
pub(crate) const NO_TILE: u8 = 165;

// P INDEX N, N nodes and the counts.
pub(crate) fn word_by_index(stored: &[u64], words: &[u32]) -> bool
    ensures { result ≡ same stored.now (word_reply words.now) }
{
    let mut word = [NO_TILE; 514];
    let graph = list_from(words, 3);
    let count = word_at(words, 2) as usize;
    let found = machirsun::machirsun_word_by_index(
        list_to(graph, count),
        list_from(graph, count),
        word_at(words, 0),
        word_at(words, 1),
        &mut word,
    );
    let numbers = [
        u64::from(found.refusal),
        u64::from(found.found),
        found.tiles as u64,
    ];
    same_then(stored, &numbers, tiles_put(&word))
}

// The tiles that were put into a word.
pub(crate) fn tiles_put(word: &[u8]) -> &[u8]
    ensures { result.now ≡ unmarked word.now }
{
    let put = word.iter().position(|tile| *tile == NO_TILE);
    list_to(word, put.unwrap_or(word.len()))
}
