// What the Macondo writer computes before it writes: the letters in rank order, the letter written for each tile, a run's arcs in
// the arc order, and the numbers of the blocks.
#![tactic(auto)]

mod alphabet;
mod arcs;
mod blocks;
mod ready;
mod sorting;

pub use alphabet::{letters, ranks};
pub use arcs::{arcs_in, arcs_of};
pub use blocks::{Reached, TooDeep, number_blocks};
pub use ready::ReadyGraph;
