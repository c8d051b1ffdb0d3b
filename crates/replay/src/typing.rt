// Words as viewers type them.
ghost use Rattle.std.specs.Prelude.{◌≡◌, ◌++◌, take};
ghost use Rattle.stored.specs.Answers.{same};
ghost use Rattle.replay.specs.Typed.{typed_fields, typed_reply, typed_list_fields, typed_list_reply};

use crate::lookups::{NO_TILE, tiles_put};
use flat::{FlatTyped, FlatTypedList};
use stored::{list_from, list_to, same_then, starts_with, word_at};

// The most that a case has room for: tiles, and words.
const TILE_ROOM: usize = 64;

const SIZE_ROOM: usize = 16;

// AT ROOM L; L bytes of the label file, and the text.
pub(crate) fn next_word(stored: &[u64], words: &[u32], bytes: &[u8]) -> bool
    ensures { result ≡ same stored.now (typed_reply words.now bytes.now) }
{
    let mut word = [NO_TILE; TILE_ROOM];
    let room = (word_at(words, 1) as usize).min(TILE_ROOM);
    let word = &mut word[..room];
    let count = word_at(words, 2) as usize;
    let at = word_at(words, 0) as usize;
    let read = machirsun::machirsun_next_word(
        list_to(bytes, count),
        list_from(bytes, count),
        at,
        word,
    );
    same_typed(stored, read, tiles_put(word))
}

fn same_typed(stored: &[u64], read: FlatTyped, tiles: &[u8]) -> bool
    ensures { result ≡ same stored.now (typed_fields read ++ tiles.now) }
{
    let numbers = [
        u64::from(read.refusal),
        u64::from(read.found),
        read.bad as u64,
        read.start as u64,
        read.end as u64,
        read.after as u64,
        read.tiles as u64,
    ];
    same_then(stored, &numbers, tiles)
}

// AT ROOM SIZES L; L bytes of the label file, and the text.
pub(crate) fn read_words(stored: &[u64], words: &[u32], bytes: &[u8]) -> bool
    ensures { result ≡ same stored.now (typed_list_reply words.now bytes.now) }
{
    let mut tiles = [0u8; TILE_ROOM];
    let mut sizes = [0usize; SIZE_ROOM];
    let room = (word_at(words, 1) as usize).min(TILE_ROOM);
    let slots = (word_at(words, 2) as usize).min(SIZE_ROOM);
    let tiles = &mut tiles[..room];
    let sizes = &mut sizes[..slots];
    let count = word_at(words, 3) as usize;
    let at = word_at(words, 0) as usize;
    let read = machirsun::machirsun_read_words(
        list_to(bytes, count),
        list_from(bytes, count),
        at,
        tiles,
        sizes,
    );
    same_typed_list(stored, read, sizes, tiles)
}

fn same_typed_list(stored: &[u64], read: FlatTypedList, sizes: &[usize], tiles: &[u8]) -> bool
    ensures { result ≡ same stored.now
        (typed_list_fields read ++ (take read.words sizes.now ++ take read.tiles tiles.now)) }
{
    let numbers = [
        u64::from(read.refusal),
        u64::from(read.found),
        read.bad as u64,
        read.words as u64,
        read.tiles as u64,
        read.after as u64,
    ];
    starts_with(stored, &numbers)
        && same_then(
            list_from(stored, numbers.len()),
            list_to(sizes, read.words),
            list_to(tiles, read.tiles),
        )
}
