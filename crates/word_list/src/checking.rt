// The checks of a list, word by word.
ghost use Rattle.std.specs.Prelude.{◌≡◌, not, ◌<◌, length};
ghost use Rattle.laws.specs.Lists.{some_of};
ghost use Rattle.built.specs.Listed.{no_tile};
ghost use Rattle.word_list.specs.Checks.{list_why, Found, ChecksAs};

use crate::words::is_above;
use answers::Refuses;

// Why a list is refused.
#[derive(Clone, Copy, Debug, PartialEq, Eq)]
pub enum ListRefusal {
    BadWord,
    NotAbove,
}

impl Refuses for ListRefusal {
    ghost refusal = { list_why };

    fn number(&self) -> u32 {
        match self {
            ListRefusal::BadWord => 32,
            ListRefusal::NotAbove => 33,
        }
    }
}

// Whether each byte is a tile of a word.
fn are_tiles(word: &[u8]) -> bool
    ensures { result ≡ not (some_of no_tile word.now) }
{
    word.iter().all(|tile| (1..=63).contains(tile))
}

// The word that a list begins with, and what follows it; the list must not be empty.
fn next_word(list: &[u8]) -> Option<(&[u8], &[u8])>
    requires { 0 < length list.now }
    ensures { Found list.now result }
{
    let (tiles, rest) = list.split_first()?;
    if !(1..=64).contains(tiles) {
        return None;
    }
    let (word, after) = rest.split_at_checked(usize::from(*tiles))?;
    if are_tiles(word) {
        Some((word, after))
    } else {
        None
    }
}

// Checks the words one by one: each must be a word, and above the one before it. Before the first there is the empty word.
pub fn check_list(list: &[u8]) -> Result<(), ListRefusal>
    ensures { ChecksAs list.now result }
{
    let mut before: &[u8] = &[];
    let mut left = list;
    // Each word says by its length byte where the next one begins, so no iterator goes along the list.
    while !left.is_empty() {
        let (word, after) = next_word(left).ok_or(ListRefusal::BadWord)?;
        if !is_above(before, word) {
            return Err(ListRefusal::NotAbove);
        }
        before = word;
        left = after;
    }
    Ok(())
}
