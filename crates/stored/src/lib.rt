// Stored answers of another program: a list has a case to a line, and a case is a line's numbers
// after the call's: a list of words and a list of bytes, which are the inputs, and then the answer.
#![tactic(auto)]

mod answers;
mod inputs;
mod lines;
mod numbers;
mod parts;
mod tally;

pub use answers::{Verdict, same, same_then, starts_with, verdict_of};
pub use inputs::list_in;
pub use lines::{Ended, Line, ROOM};
pub use numbers::{Input, Number};
pub use parts::{byte_at, list_from, list_to, word_at};
pub use tally::{CALLS, CaseTally, print_cases};
