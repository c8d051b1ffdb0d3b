// Flat answers: what a call of the engine answers, as a struct of numbers for the C interface, and each number read back.
#![tactic(auto)]

mod building;
mod counting;
mod files;
mod loading;
mod lookups;
mod pages;
mod playing;
mod sets;
mod typing;

pub use building::{FlatBuilt, flat_built};
pub use counting::{FlatCounted, flat_counted};
pub use files::{FlatFile, flat_lxd, flat_macondo, format_numbered};
pub use loading::{
    FlatBegun, FlatFed, FlatFinished, FlatLoaded, FlatLoader, FlatRepacked, begin_refusal,
    flat_feed, flat_finished, flat_loader, flat_repacked, layout_of, state_of,
};
pub use lookups::{
    FlatCursor, FlatIndex, FlatSought, FlatWord, flat_index, flat_sought, flat_word,
};
pub use pages::page_refusal;
pub use playing::{FlatInPlay, flat_in_play};
pub use sets::{FlatAccepts, FlatCross, bits_refusal, flat_accepts, flat_cross};
pub use typing::{FlatTyped, FlatTypedList, flat_typed, flat_typed_list};
