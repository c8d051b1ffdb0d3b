// The engine's calls as `machirsun_c` exports them. Every answer is flat: the number of the refusal, or 0, and then its values.
#![tactic(auto)]

mod building;
mod counting;
mod files;
mod loading;
mod lookups;
mod pages;
mod playing;
mod sets;
mod typing;

pub use building::machirsun_build;
pub use counting::machirsun_count_words;
pub use files::{machirsun_to_lxd, machirsun_to_macondo};
pub use loading::{
    machirsun_begin, machirsun_feed, machirsun_finish, machirsun_load_in_pieces, machirsun_repack,
};
pub use lookups::{
    machirsun_cursor_at, machirsun_cursor_step, machirsun_seek, machirsun_word_by_index,
    machirsun_word_index,
};
pub use pages::machirsun_write_page;
pub use playing::{machirsun_arrive, machirsun_leave};
pub use sets::{machirsun_accepts_alpha, machirsun_alpha_cross_set, machirsun_letter_bits};
pub use typing::{machirsun_next_word, machirsun_read_words};
