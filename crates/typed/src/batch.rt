// As many words of a text as there is room for.
ghost use Rattle.std.specs.Prelude.{◌≡◌, ◌∷◌, [], eqb, length};
ghost use Rattle.answers.specs.Answers.{gives};
ghost use Rattle.label_index.specs.Labels.{labels_in};
ghost use Rattle.typed.specs.Batches.{or_stop, batch_from, read_words};
ghost use Rattle.typed.specs.Said.{said_batch, BatchPut};

use crate::next::{line_start, word_from_place};
use crate::refusal::TypedRefusal;
use label_index::{IndexRoom, LabelIndex};

#[derive(Clone, Copy)]
pub struct TypedWords {
    // how many words, and how many tiles they have in all
    pub words: usize,
    pub tiles: usize,
    // the place after the ending of the last line read
    pub after: usize,
}

// The words that were read; where there are none, what stopped the reading.
fn words_or(
    read: TypedWords,
    stop: Result<Option<TypedWords>, TypedRefusal>,
) -> Result<Option<TypedWords>, TypedRefusal>
    ensures { said_batch result
        ≡ or_stop (eqb read.words 0) (said_batch stop) (gives (read.words ∷ read.tiles ∷ read.after ∷ [])) }
{
    if read.words == 0 {
        stop
    } else {
        Ok(Some(read))
    }
}

// Reads line after line from a place on, while there is room for a word's number of tiles.
fn batch_from(
    index: &LabelIndex,
    text: &[u8],
    at: usize,
    tiles: &mut [u8],
    sizes: &mut [usize],
) -> Result<Option<TypedWords>, TypedRefusal>
    ensures { BatchPut (batch_from (labels_in index.now.file.now) text.now (length sizes.old) (length tiles.old) at)
        tiles.old tiles.new sizes.old sizes.new (said_batch result) }
{
    let mut read = TypedWords {
        words: 0,
        tiles: 0,
        after: at,
    };
    for words in 0..sizes.len() {
        let word = match word_from_place(index, text, read.after, &mut tiles[read.tiles..]) {
            Ok(Some(word)) => word,
            Ok(None) => return words_or(read, Ok(None)),
            Err(why) => return words_or(read, Err(why)),
        };
        sizes[words] = word.tiles;
        read = TypedWords {
            words: words + 1,
            tiles: read.tiles + word.tiles,
            after: word.after,
        };
    }
    if line_start(text, read.after) < text.len() {
        words_or(read, Err(TypedRefusal::BufferFull))
    } else {
        words_or(read, Ok(None))
    }
}

// Reads as many lines that are not empty, from a place of the text on, as there is room for: their tiles one after the other, and how many
// each has.
pub fn read_words(
    labels: &[u8],
    text: &[u8],
    at: usize,
    tiles: &mut [u8],
    sizes: &mut [usize],
) -> Result<Option<TypedWords>, TypedRefusal>
    ensures { BatchPut (read_words labels.now text.now (length sizes.old) (length tiles.old) at)
        tiles.old tiles.new sizes.old sizes.new (said_batch result) }
{
    let mut room = IndexRoom::EMPTY;
    let index = LabelIndex::new(labels, &mut room)?;
    batch_from(&index, text, at, tiles, sizes)
}
