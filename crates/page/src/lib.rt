// A page of words for the text service: 24 rows of 40 bytes, a title and up to 23 words with their numbers.
#![tactic(auto)]

mod checks;
mod held;
mod refusals;
mod walking;
mod writing;

ghost use Rattle.std.specs.Prelude.{◌≡◌, ◌≤◌, length};
ghost use Rattle.page.specs.Rows.{page_widths, row_length, page_length};
ghost use Rattle.page.specs.Page.{judged, page_written, write_page};
ghost use Rattle.page.specs.Said.{held_by, page_written_as};

use checks::{label_outside, some_unlabelled, text_outside};
use held::Held;
pub use refusals::PageRefusal;
use walking::{ROWS, TILES, walk_rows};
use writing::{ROW, write_words};

// The bytes of a page.
pub const PAGE: usize = 960;

// Writes the words that are held, where every tile has a label and everything can be shown. Title and page must have their lengths.
fn show_words(
    words: Held<'_>,
    labels: &[u32],
    title: &[u8],
    page: &mut [u8],
) -> Result<(), PageRefusal>
    requires { (length title.now ≤ row_length page_widths) × (page_length page_widths ≤ length page.old) }
    ensures { page_written_as result page.new
        ≡ page_written page_widths labels.now title.now page.old (judged labels.now title.now (held_by words.entry)) }
{
    if some_unlabelled(words.tiles, labels) {
        return Err(PageRefusal::NoLabel);
    }
    if text_outside(title) || label_outside(words.tiles, labels) {
        return Err(PageRefusal::NotPrintable);
    }
    write_words(words, labels, title, page);
    Ok(())
}

// Writes the page of the words from node p with the numbers from the first one on.
#[tactic(auto, unfolding(crate::specs::Page::page_words, answers::specs::Answers::first_of))]
pub fn write_page(
    nodes: &[u32],
    counts: &[u32],
    labels: &[u32],
    title: &[u8],
    p: u32,
    first: u32,
    page: &mut [u8],
) -> Result<(), PageRefusal>
    ensures { page_written_as result page.new
        ≡ write_page page_widths nodes.now counts.now labels.now title.now p first page.old }
{
    if ROW < title.len() {
        return Err(PageRefusal::TitleTooLong);
    }
    if page.len() < PAGE {
        return Err(PageRefusal::PageTooShort);
    }
    let mut tiles = [0u8; TILES];
    let mut sizes = [0usize; ROWS];
    let words = walk_rows(nodes, counts, p, first, &mut tiles, &mut sizes)?;
    show_words(words, labels, title, page)
}
