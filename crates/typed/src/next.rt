// The next word of a text.
ghost use Rattle.std.specs.Prelude.{◌≡◌, ◌≤◌, ◌<◌, length, take_while};
ghost use Rattle.text.specs.Lines.{is_ending};
ghost use Rattle.label_index.specs.Labels.{labels_in};
ghost use Rattle.typed.specs.Texts.{line_start, word_of_line, word_from_place, next_word};
ghost use Rattle.laws.specs.Buffers.{Filled};
ghost use Rattle.typed.specs.Said.{said_word, said_next, part_of, line_handed};

use crate::refusal::TypedRefusal;
use label_index::{IndexRoom, LabelIndex};

#[derive(Clone, Copy)]
pub struct TypedWord {
    // the line's two ends, and the place after its ending
    pub start: usize,
    pub end: usize,
    pub after: usize,
    // how many tiles
    pub tiles: usize,
}

// How many bytes the empty lines at the front of a text have.
fn empty_width(text: &[u8]) -> usize
    ensures width { result ≡ length (take_while (λ b. is_ending b) text.now) }
    ensures fits { result ≤ length text.now }
{
    text.iter().take_while(|b| text::is_ending(**b)).count()
}

// Where the next line that is not empty begins, from place at on.
pub(crate) fn line_start(text: &[u8], at: usize) -> usize
    ensures { result ≡ line_start text.now at }
{
    at + empty_width(&text[at.min(text.len())..])
}

// The word of the line at a place, which the text must have.
#[inline(always)]
fn word_of_line(
    index: &LabelIndex,
    text: &[u8],
    start: usize,
    word: &mut [u8],
) -> Result<TypedWord, TypedRefusal>
    requires { start < length text.now }
    ensures { Filled (word_of_line (labels_in index.now.file.now) text.now (length word.old) start)
        word.old word.new (said_word result) }
{
    let mut after = start;
    let line = text::next_line(text, &mut after);
    let tiles = crate::word::read_word(index, line, start, word)?;
    Ok(TypedWord {
        start,
        end: start + line.len(),
        after,
        tiles,
    })
}

// The next word from a place. Inlined, as are `word_of_line` and `read_word`, since `read_words` asks it for each line.
#[inline(always)]
pub(crate) fn word_from_place(
    index: &LabelIndex,
    text: &[u8],
    at: usize,
    word: &mut [u8],
) -> Result<Option<TypedWord>, TypedRefusal>
    ensures { Filled (word_from_place (labels_in index.now.file.now) text.now (length word.old) at)
        word.old word.new (said_next result) }
{
    let start = line_start(text, at);
    if text.len() <= start {
        return Ok(None);
    }
    let found = word_of_line(index, text, start, word)?;
    Ok(Some(found))
}

// Reads the next line that is not empty from a place of the text, by the labels of a label file: the line's two ends, the place after its
// ending, and its tiles.
pub fn next_word(
    labels: &[u8],
    text: &[u8],
    at: usize,
    word: &mut [u8],
) -> Result<Option<TypedWord>, TypedRefusal>
    ensures { Filled (next_word labels.now text.now (length word.old) at)
        word.old word.new (said_next result) }
{
    let mut room = IndexRoom::EMPTY;
    let index = LabelIndex::new(labels, &mut room)?;
    word_from_place(&index, text, at, word)
}

// The part of a text from one place to another; there is none where the second is not past the first, and none past the text's end.
fn part<'a>(text: &'a [u8], start: usize, end: usize) -> &'a [u8]
    ensures { result.now ≡ part_of text.now start end }
{
    let end = end.min(text.len());
    &text[start.min(end)..end]
}

// The line that an answer hands out, as a part of the text; without a word, an empty part.
pub fn line_read<'a>(text: &'a [u8], answer: Result<Option<TypedWord>, TypedRefusal>) -> &'a [u8]
    ensures { result.now ≡ line_handed text.now answer }
{
    match answer {
        Ok(Some(word)) => part(text, word.start, word.end),
        Ok(None) | Err(_) => &text[..0],
    }
}
