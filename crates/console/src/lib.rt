// What a program reads and prints: an input up to a buffer's end, and bytes and numbers one after another.
#![tactic(auto)]

mod input;
mod output;

pub use input::read_full;
pub use output::Output;

#[cfg(test)]
mod tests;
