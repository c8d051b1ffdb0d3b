// Files of word graphs: loaded piece by piece, or repacked from one layout to the other.
#![tactic(auto)]

mod held;
mod loader;
mod refusals;
mod repack;

pub use loader::{Begun, Fed, Loader};
pub use refusals::{BeginRefusal, FeedRefusal, FinishRefusal, StateRefusal};
pub use repack::{Misfit, repack_in_place};
