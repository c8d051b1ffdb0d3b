// The cases of a stored list asked again: each call is made, through the C interface where that has
// it, on the inputs of a case, and what it answers is held to what is stored. The capital letters
// before a function are the words of its case as oracle/README.md names them; after a semicolon,
// its bytes.
#![tactic(auto)]

mod building;
mod counts;
mod files;
mod loads;
mod lookups;
mod nodes;
mod pages;
mod sets;
mod typing;
mod verdicts;

pub use verdicts::judge;
