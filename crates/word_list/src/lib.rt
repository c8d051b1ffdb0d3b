// The words of a list of bytes: one length byte and that many tiles each, in ascending order.
#![tactic(auto)]

mod checking;
mod words;

pub use checking::{ListRefusal, check_list};
pub use words::{mark_words, shared};
