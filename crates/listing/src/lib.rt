// The words of a graph as lines of text: what the program `wordlist` prints, made in blocks.
#![tactic(auto)]

mod blocks;
mod lines;
mod opening;

pub use blocks::{BLOCK, BlockMade, next_block};
pub use opening::{INPUT, NODES, Unprinted, WORK, open};
