// Lookups in a loaded graph: a tile in a run, the steps along a run, words and their numbers.
ghost use Rattle.std.specs.Prelude.{◌≡◌, length};
ghost use Rattle.graph.specs.Counting.{count_limit};
ghost use Rattle.lookup.specs.Walks.{seek, word_index, word_by_index};
ghost use Rattle.lookup.specs.WordsBefore.{NamesBefore};
ghost use Rattle.cursor.specs.RunSteps.{moves};
ghost use Rattle.flat.specs.FlatLookups.{sought_of, flat_sought, made_at, cursor_of, flat_cursor, index_of, flat_index, FlatWordPut};

use answers::Refuses;
use flat::{FlatCursor, FlatIndex, FlatSought, FlatWord, flat_index, flat_sought, flat_word};

// The node with the tile in the run that the arc of a node leads to, and how many words of the run come before it.
pub fn machirsun_seek(nodes: &[u32], counts: &[u32], place: u32, tile: u8) -> FlatSought
    ensures answer { sought_of result ≡ seek nodes.now counts.now place tile }
    ensures names { NamesBefore nodes.now counts.now place tile (sought_of result) }
    ensures flat { result ≡ flat_sought (sought_of result) }
{
    flat_sought(lookup::seek(nodes, counts, place, tile))
}

// A cursor at a node. At one that is not lent it is refused, and so is each step from it.
#[tactic(auto, unfolding(flat::specs::FlatLookups::made_at, flat::specs::FlatLookups::made_in))]
pub fn machirsun_cursor_at(nodes: &[u32], at: u32) -> FlatCursor
    ensures answer { cursor_of result ≡ made_at nodes.now at }
    ensures flat { result ≡ flat_cursor (cursor_of result) }
{
    let refusal = match lookup::lent(lookup::lent_part(nodes), at as usize) {
        Ok(_) => 0,
        Err(why) => why.number(),
    };
    FlatCursor {
        refusal,
        done: false,
        at,
    }
}

// The cursor one node on; at an end it is done and stays.
pub fn machirsun_cursor_step(nodes: &[u32], at: u32) -> FlatCursor
    ensures answer { cursor_of result ≡ moves nodes.now at }
    ensures flat { result ≡ flat_cursor (cursor_of result) }
{
    let moved = cursor::step_once(nodes, at);
    let at = moved.at;
    match moved.answer {
        Ok(next) => FlatCursor {
            refusal: 0,
            done: next.is_none(),
            at,
        },
        Err(why) => FlatCursor {
            refusal: why.number(),
            done: false,
            at,
        },
    }
}

// The number of a word among those from a node.
pub fn machirsun_word_index(nodes: &[u32], counts: &[u32], start: u32, word: &[u8]) -> FlatIndex
    ensures answer { index_of result ≡ word_index count_limit nodes.now counts.now start word.now }
    ensures flat { result ≡ flat_index (index_of result) }
{
    flat_index(lookup::get_word_index(nodes, counts, start, word))
}

// Puts the tiles of the word with the number among those from a node.
pub fn machirsun_word_by_index(
    nodes: &[u32],
    counts: &[u32],
    start: u32,
    number: u32,
    word: &mut [u8],
) -> FlatWord
    ensures { FlatWordPut (word_by_index counts.now nodes.now (length word.old) start number)
        word.old word.new result }
{
    flat_word(lookup::get_word_by_index(nodes, counts, start, number, word))
}
