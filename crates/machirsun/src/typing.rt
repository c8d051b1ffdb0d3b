// Words as viewers type them, read from a text by the labels of a label file.
ghost use Rattle.std.specs.Prelude.{◌≡◌, length};
ghost use Rattle.laws.specs.Buffers.{Filled};
ghost use Rattle.typed.specs.Texts.{next_word};
ghost use Rattle.typed.specs.Batches.{read_words};
ghost use Rattle.typed.specs.Said.{BatchPut};
ghost use Rattle.flat.specs.FlatTyped.{typed_of, flat_typed, typed_list_of, flat_typed_list};

use flat::{FlatTyped, FlatTypedList, flat_typed, flat_typed_list};

// Puts the tiles of the next line that is not empty, from a place of the text on.
pub fn machirsun_next_word(labels: &[u8], text: &[u8], at: usize, word: &mut [u8]) -> FlatTyped
    ensures answer { Filled (next_word labels.now text.now (length word.old) at)
        word.old word.new (typed_of result) }
    ensures flat { result ≡ flat_typed (typed_of result) }
{
    flat_typed(typed::next_word(labels, text, at, word))
}

// Puts the tiles of as many lines that are not empty as there is room for, from a place of the text on, and how many each has.
pub fn machirsun_read_words(
    labels: &[u8],
    text: &[u8],
    at: usize,
    tiles: &mut [u8],
    sizes: &mut [usize],
) -> FlatTypedList
    ensures answer { BatchPut (read_words labels.now text.now (length sizes.old) (length tiles.old) at)
        tiles.old tiles.new sizes.old sizes.new (typed_list_of result) }
    ensures flat { result ≡ flat_typed_list (typed_list_of result) }
{
    flat_typed_list(typed::read_words(labels, text, at, tiles, sizes))
}
