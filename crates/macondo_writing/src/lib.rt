// The bytes of a Macondo file, written from tables: its sections, and its nodes block by block. Parts of the writer in crate macondo, which
// alone uses them.
#![tactic(auto)]

mod file;
mod nodes;
mod sections;
mod tables;

pub use file::write_file;
pub use tables::{SectionCounts, Tables, file_size};
