// The label file, and its index by first byte: which label is taken at a place of a text.
#![tactic(auto)]

mod index;
mod labels;
mod order;
mod ranges;
mod refusal;

pub use index::{IndexRoom, LabelIndex, index_labels, match_at};
pub use refusal::BadLabelLine;
