// The words of a list as tails of runs, each kept once.
//
// A tail is a node of a run with all that follows it there. It is known by its number, from 1 on; 0 stands for no tail. Two numbers say all of
// it: its node, whose arc is the number of the tail that the arc's run begins with, and the number of the tail after the node. Together they
// are the key of the tail in a dictionary, so that two tails with the same words have one number. A tail's two numbers are below its own.
//
// The words are taken from the last to the first. While a word is at hand, entry d of `behind` is the tail after the word's tile d, counted from 0, in
// that tile's run: what words further on have left there. The entry after its last tile is the tail of the run that the whole word leads to. What the
// word does not share with the word before it can have nothing added and is closed, the last tile first.
#![tactic(auto)]

ghost use Rattle.std.specs.Prelude.{◌≡◌, ◌+◌, ◌*◌, ◌≤◌, ◌<◌, min, length};
ghost use Rattle.shelf.specs.Shelving.{shelf_entry};
ghost use Rattle.word_list.specs.Words.{IsLexicon};
ghost use Rattle.tails.specs.Tails.{key_of, Closable, WordCloses, WordsClose};

use dictionary::number_key;
use word_list::{mark_words, shared};

// The key of a tail. A node ends its run where no tail follows. Tile and child must fit their fields, so none is tested, as `Node24::pack` would.
fn tail_key(tile: u8, accepts: bool, child: u32, next: u32) -> u64
    requires { (tile < 64) × (child < 16777216) }
    ensures { result ≡ key_of (shelf_entry tile accepts child next) }
{
    let node = child * 0x100
        + u32::from(accepts) * 0x80
        + u32::from(next == 0) * 0x40
        + u32::from(tile);
    u64::from(next) * 0x1_0000_0000 + u64::from(node)
}

// Closes a word down to its first `kept` tiles: each of the others becomes a tail, the last one's node an accepting one. Answers how many tails
// there are then; or none where there are as many as a graph has room for. The dictionary of the tails must stand in `dict`, with room for n and
// `count` tails in it, and `behind` must be that of the word. The dictionary's call takes list, n and count so; see there.
fn close_word(
    word: &[u8],
    kept: usize,
    behind: &mut [u32; 65],
    dict: &mut [u32],
    n: usize,
    count: u32,
) -> Option<u32>
    requires { Closable word.now kept behind.old n dict.old count }
    ensures { WordCloses word.now kept behind.old n dict.old count behind.new dict.new result }
{
    let mut tails = count;
    for d in (kept..word.len()).rev() {
        if n <= tails as usize + 1 {
            return None;
        }
        let key = tail_key(word[d], d + 1 == word.len(), behind[d + 1], behind[d]);
        let numbered = number_key(dict, n, tails, key);
        behind[d + 1] = 0;
        behind[d] = numbered.number + 1;
        tails = numbered.count;
    }
    Some(tails)
}

// Closes the words one by one, from the last to the first. Answers the tail that the list's own run begins with; or none where there are as many
// tails as a graph has room for. The list must be that of a lexicon and not empty, n its length or 16,777,216, whichever is less. The work list has
// numbers that are not used here in its first n places, then the dictionary of the tails with room for n of them, and from 6n on the way back from
// word to word, with a number for each byte of the list.
pub fn close_words(list: &[u8], work: &mut [u32], n: usize) -> Option<u32>
    requires lexicon { IsLexicon list.now }
    requires list_nonzero { 0 < length list.now }
    requires n_value { n ≡ min (length list.now) 16777216 }
    requires list_in_bounds { 6 * n + length list.now ≤ length work.old }
    ensures { WordsClose list.now n work.new result }
{
    let (tables, marks) = work.split_at_mut(6 * n);
    let dict = &mut tables[n..];
    dict[..n].fill(0);
    let mut at = mark_words(list, marks);
    let mut behind = [0u32; 65];
    let mut tails: u32 = 0;
    // The way back goes where the marks lead, so no iterator counts its steps.
    loop {
        let from = at + 1;
        let word = &list[from..from + usize::from(list[at])];
        let before = at - marks[at] as usize;
        let kept = shared(&list[before..at], word);
        tails = close_word(word, kept, &mut behind, dict, n, tails)?;
        if before == at {
            return Some(behind[0]);
        }
        at = before - 1;
    }
}
