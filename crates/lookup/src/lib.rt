// Lookups along the walks of a word graph: a tile in a run, the number of a word, and the word of a number.
#![tactic(auto)]

mod by_number;
mod by_tile;
mod by_word;
mod refusals;
mod run;

pub use by_number::get_word_by_index;
pub use by_tile::{Sought, seek, seek_from};
pub use by_word::get_word_index;
pub use refusals::{LookupRefusal, NotLent, WordRefusal};
pub use run::{lent, lent_part};
