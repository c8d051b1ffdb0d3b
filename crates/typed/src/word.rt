// The word of a line, read through the index of the labels.
ghost use Rattle.std.specs.Prelude.{◌≡◌, ◌+◌, ◌^◌, ◌<◌, eqb, leb, length};
ghost use Rattle.label_index.specs.Labels.{labels_in};
ghost use Rattle.typed.specs.Words.{unmatched, typed_word};
ghost use Rattle.laws.specs.Buffers.{Filled};
ghost use Rattle.typed.specs.Said.{said_typed};

use crate::refusal::TypedRefusal;
use label_index::LabelIndex;

// What no label matches at place i of a line that begins at place start of the text, after n tiles: the word's end, or a byte that
// cannot be read. The place must be below 2^64.
fn at_no_label(b: u8, start: usize, i: usize, n: usize) -> Result<usize, TypedRefusal>
    requires { start + i < 2 ^ 64 }
    ensures { said_typed result ≡ unmatched (eqb i 0) (leb b 32) (start + i) n }
{
    if 0 < i && b <= 32 {
        Ok(n)
    } else {
        Err(TypedRefusal::Unreadable(start + i))
    }
}

// Puts the tiles of a line that begins at place start of the text, and answers how many. The line's places must be below 2^64.
#[inline(always)]
pub(crate) fn read_word(
    index: &LabelIndex,
    line: &[u8],
    start: usize,
    word: &mut [u8],
) -> Result<usize, TypedRefusal>
    requires { start + length line.now < 2 ^ 64 }
    ensures { Filled (typed_word (labels_in index.now.file.now) line.now start (length word.old))
        word.old word.new (said_typed result) }
{
    // A copy, which no write to the word can change: so its fields are read once, and not at each place.
    let index = *index;
    let mut i = 0;
    let mut n = 0;
    // Each label has its own length, so no iterator counts the places.
    while i < line.len() {
        let Some((tile, size)) = index.match_at(line, i) else {
            return at_no_label(line[i], start, i, n);
        };
        if word.len() <= n {
            return Err(TypedRefusal::BufferFull);
        }
        word[n] = tile;
        n += 1;
        i += size;
    }
    Ok(n)
}
