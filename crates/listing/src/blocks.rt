// The lines of a graph's words, a block at a time.
ghost use Rattle.std.specs.Prelude.{◌≡◌, ◌+◌, ◌≤◌, length};
ghost use Rattle.listing.specs.Blocks.{longest, numbers_in, block};
ghost use Rattle.listing.specs.Printing.{walk_from, next_block};
ghost use Rattle.listing.specs.Said.{PutWord, FillsBlock, Makes};

use crate::lines::{put_line, put_refusal};
use crate::opening::{NODES, Unprinted};
use answers::Refuses;
use std::ops::ControlFlow;

// The most tiles of a word.
const TILES: usize = 256;

// The bytes of the longest line: 10 digits, a tab, 256 tiles of 2 digits separated by spaces, the line's end.
const LONGEST: usize = 779;

// The bytes that a block has room for.
pub const BLOCK: usize = 65536;

// A block of the output, of so many bytes, and what is left to print after it.
#[derive(Clone, Copy)]
pub struct BlockMade {
    pub written: usize,
    pub unprinted: Unprinted,
}

// How many bytes a block has, and the number to go on from; none is left where that is the count.
#[derive(Clone, Copy)]
pub struct BlockFilled {
    pub next: u32,
    pub written: usize,
}

// The number after a block's last: as many as the longest lines have room for, or all that are left.
fn block_end(count: u32, next: u32, room: usize) -> u32
    ensures { result ≡ next + numbers_in count next room }
{
    let lines = room / LONGEST;
    let left = count.saturating_sub(next);
    next + lines.min(left as usize) as u32
}

// The words that are listed: those from the start, by the nodes and their counts.
#[derive(Clone, Copy)]
pub struct Listed<'a> {
    pub nodes: &'a [u32],
    pub counts: &'a [u32],
    pub start: u32,
}

impl Listed<'_> {
    // Puts the line of a number's word, or of a refusal, from a place on; the longest must have room. Answers the place after it: the
    // list goes on after a word, and breaks off after a refusal, or where there is no word.
    fn put_word(self, number: u32, out: &mut [u8], at: usize) -> ControlFlow<usize, usize>
        requires { at + longest ≤ length out.old }
        ensures { PutWord number (walk_from self.entry.nodes.now self.entry.counts.now self.entry.start number) out.old at
            out.new result }
    {
        let mut word = [0u8; TILES];
        match lookup::get_word_by_index(self.nodes, self.counts, self.start, number, &mut word) {
            Ok(Some(tiles)) => ControlFlow::Continue(put_line(number, &word[..tiles], out, at)),
            Ok(None) => ControlFlow::Break(at),
            Err(why) => ControlFlow::Break(put_refusal(why.number(), out, at)),
        }
    }

    // Writes the lines of words `next` to `count - 1` to the front of `out`, as many as its length allows where each is the longest.
    fn fill(self, count: u32, next: u32, out: &mut [u8]) -> BlockFilled
        ensures { FillsBlock (block (walk_from self.entry.nodes.now self.entry.counts.now self.entry.start) count next (length out.old))
            out.old out.new result }
    {
        let end = block_end(count, next, out.len());
        let mut at = 0;
        for number in next..end {
            match self.put_word(number, out, at) {
                ControlFlow::Continue(after) => at = after,
                ControlFlow::Break(written) => {
                    return BlockFilled {
                        next: count,
                        written,
                    };
                }
            }
        }
        BlockFilled {
            next: end,
            written: at,
        }
    }
}

// Makes the next block of the output, or none where nothing is left.
pub fn next_block(
    nodes: &[u32; NODES],
    counts: &[u32; NODES],
    unprinted: Unprinted,
    out: &mut [u8; BLOCK],
) -> Option<BlockMade>
    ensures { Makes (next_block nodes.now counts.now unprinted) out.old out.new result }
{
    match unprinted {
        Unprinted::Refusal(number) => Some(BlockMade {
            written: put_refusal(number, out, 0),
            unprinted: Unprinted::Words {
                start: 0,
                count: 0,
                next: 0,
            },
        }),
        Unprinted::Words { start, count, next } => {
            if count <= next {
                return None;
            }
            let listed = Listed {
                nodes,
                counts,
                start,
            };
            let filled = listed.fill(count, next, out);
            Some(BlockMade {
                written: filled.written,
                unprinted: Unprinted::Words {
                    start,
                    count,
                    next: filled.next,
                },
            })
        }
    }
}
