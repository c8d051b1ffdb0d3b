// The runs of an LXD file: their places in it, and their nodes as its bytes. Parts of the writer in crate lxd, which alone uses them.
#![tactic(auto)]

mod nodes;
mod numbering;

pub use nodes::write_runs;
pub use numbering::{WalkRefusal, Walked, number_run};
