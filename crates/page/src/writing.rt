// The bytes of a page.
ghost use Rattle.std.specs.Prelude.{◌≡◌, map, ◌++◌, ◌+◌, ◌≤◌, length, drop};
ghost use Rattle.endian.specs.Puts.{Puts};
ghost use Rattle.page.specs.Rows.{page_widths, row_length, page_length, blanks, more_mark, label_of, row_of, page_text};
ghost use Rattle.page.specs.Held.{held_rows};
ghost use Rattle.page.specs.Said.{Labelled, held_by};

use crate::PAGE;
use crate::checks::label_of;
use crate::held::Held;
use crate::walking::{COLUMNS, shown_tiles};
use decimal::put_digits;
use endian::{put_byte, write_bytes};

// The bytes of a row.
pub const ROW: usize = 40;

// The columns of a number.
const DIGITS: usize = 10;

// The first column of the labels, and the last of all.
const WORD: usize = 11;

const LAST: usize = 39;

// Each of these puts its bytes from a place on, where they must have room, and answers the place after them.
fn put_blanks(count: usize, out: &mut [u8], at: usize) -> usize
    requires { at + count ≤ length out.old }
    ensures { Puts (blanks count) out.old at out.new result }
{
    let end = at + count;
    out[at..end].fill(b' ');
    end
}

// The tiles must have labels that are bytes.
fn put_labels(tiles: &[u8], labels: &[u32], out: &mut [u8], at: usize) -> usize
    requires tiles_in_bounds { at + length tiles.now ≤ length out.old }
    requires labelled { Labelled labels.now tiles.now }
    ensures { Puts (map (label_of labels.now) tiles.now) out.old at out.new result }
{
    for (i, &tile) in tiles.iter().enumerate() {
        out[at + i] = label_of(tile, labels) as u8;
    }
    at + tiles.len()
}

fn more_mark(more: bool) -> u8
    ensures { result ≡ more_mark more }
{
    if more { b'+' } else { b' ' }
}

// The tiles must have labels that are bytes, and fit into their columns.
fn put_row(
    number: u32,
    tiles: &[u8],
    more: bool,
    labels: &[u32],
    out: &mut [u8],
    at: usize,
) -> usize
    requires page_widths_in_bounds { (at + row_length page_widths ≤ length out.old) × (length tiles.now ≤ page_widths.word) }
    requires labelled { Labelled labels.now tiles.now }
    ensures { Puts (row_of page_widths labels.now (record { number = number; tiles = tiles.now; more = more }))
        out.old at out.new result }
{
    let end = put_blanks(ROW, out, at);
    put_digits(number, out, at + DIGITS);
    put_labels(tiles, labels, out, at + WORD);
    put_byte(more_mark(more), out, at + LAST);
    end
}

// The rows of the words that are held, whose tiles must have labels that are bytes.
fn put_rows(words: Held<'_>, labels: &[u32], out: &mut [u8], at: usize) -> usize
    requires room { at + length (held_rows page_widths labels.now words.first words.tiles.now words.sizes.now) ≤ length out.old }
    requires labelled { Labelled labels.now words.tiles.now }
    ensures { Puts (held_rows page_widths labels.now words.entry.first words.entry.tiles.now words.entry.sizes.now) out.old at
        out.new result }
{
    let mut at = at;
    let mut from = 0;
    for (row, &size) in words.sizes.iter().enumerate() {
        let end = from + shown_tiles(size);
        at = put_row(
            words.first + row as u32,
            &words.tiles[from..end],
            COLUMNS < size,
            labels,
            out,
            at,
        );
        from = end;
    }
    at
}

// Writes the whole page: the title, the words that are held, and blank rows.
pub(crate) fn write_words(words: Held<'_>, labels: &[u32], title: &[u8], page: &mut [u8])
    requires lengths { (length title.now ≤ row_length page_widths) × (page_length page_widths ≤ length page.old) }
    requires labelled { Labelled labels.now words.tiles.now }
    ensures { page.new
        ≡ page_text page_widths labels.now title.now (held_by words.entry) ++ drop (page_length page_widths) page.old }
{
    write_bytes(page, 0, title);
    let rows = put_blanks(ROW - title.len(), page, title.len());
    let end = put_rows(words, labels, page, rows);
    put_blanks(PAGE - end, page, end);
}
