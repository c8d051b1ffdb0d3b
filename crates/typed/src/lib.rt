// Words as viewers type them: the lines of a text read as tiles, by the labels of a label file.
#![tactic(auto)]

mod batch;
mod next;
mod refusal;
mod word;

pub use batch::{TypedWords, read_words};
pub use next::{TypedWord, line_read, next_word};
pub use refusal::TypedRefusal;
