// Sets of tiles: the letters of each node's run, and the alpha sets of a tally of letters.
#![tactic(auto)]

mod alpha;
mod letter_bits;
mod refusals;
mod tiles;

pub use alpha::{accepts_alpha, compute_alpha_cross_set};
pub use letter_bits::compute_letter_bits;
pub use refusals::{AlphaRefusal, ListTooShort};
