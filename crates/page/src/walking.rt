// The words of a page's rows: one walk for each number, until one names no word.
ghost use Rattle.std.specs.Prelude.{◌≡◌, ◌+◌, ◌-◌, min, length};
ghost use Rattle.lookup.specs.Walks.{word_by_index};
ghost use Rattle.page.specs.Rows.{page_widths, word_rows, tile_room};
ghost use Rattle.page.specs.Shown.{shown_from};
ghost use Rattle.page.specs.Said.{RowPut, walked_try};

use crate::held::Held;
use graph::COUNT_LIMIT;
use lookup::{LookupRefusal, WordRefusal};

// The rows below the title.
pub const ROWS: usize = 23;

// The columns of a word, a tile each.
pub const COLUMNS: usize = 28;

// The size of a word that has more tiles than columns.
const LONGER: usize = 29;

// The tiles that a page has room for.
pub const TILES: usize = 644;

// Puts the tiles of a number's word into a buffer of as many as there are columns, and answers its size, or none where there is no word.
fn find_row(
    nodes: &[u32],
    counts: &[u32],
    p: u32,
    number: u32,
    word: &mut [u8],
) -> Result<Option<usize>, LookupRefusal>
    requires { length word.old ≡ page_widths.word }
    ensures { RowPut number (word_by_index counts.now nodes.now page_widths.word p number) word.old
        word.new result }
{
    match lookup::get_word_by_index(nodes, counts, p, number, word) {
        Ok(found) => Ok(found),
        Err(WordRefusal::Lookup(e)) => Err(e),
        Err(WordRefusal::BufferFull) => Ok(Some(LONGER)),
    }
}

// How many tiles of a word are shown.
pub(crate) fn shown_tiles(size: usize) -> usize
    ensures { result ≡ min size page_widths.word }
{
    size.min(COLUMNS)
}

// How many rows have a number that is not too large.
fn numbered_rows(first: u32) -> usize
    ensures { result ≡ min word_rows (page_widths.greatest + 1 - first) }
{
    let after = (COUNT_LIMIT - first) as usize;
    ROWS.min(after + 1)
}

// Walks the numbers from the first one on. The lists must have room for all rows.
pub(crate) fn walk_rows<'a>(
    nodes: &[u32],
    counts: &[u32],
    p: u32,
    first: u32,
    tiles: &'a mut [u8],
    sizes: &'a mut [usize],
) -> Result<Held<'a>, LookupRefusal>
    requires { (length tiles.old ≡ tile_room page_widths) × (length sizes.old ≡ word_rows) }
    ensures { walked_try result ≡ shown_from page_widths nodes.now counts.now p word_rows first }
{
    let rows = numbered_rows(first);
    let mut count = 0;
    for row in 0..rows {
        let word = &mut tiles[count..count + COLUMNS];
        let Some(size) = find_row(nodes, counts, p, first + row as u32, word)? else {
            return Ok(Held {
                first,
                tiles: &tiles[..count],
                sizes: &sizes[..row],
            });
        };
        sizes[row] = size;
        count += shown_tiles(size);
    }
    Ok(Held {
        first,
        tiles: &tiles[..count],
        sizes: &sizes[..rows],
    })
}
