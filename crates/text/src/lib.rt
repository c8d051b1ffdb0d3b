// Texts as bytes: their lines, and tiles written in decimal.
#![tactic(auto)]

mod line;
mod tile;

pub use line::{is_ending, next_line};
pub use tile::read_tile;
