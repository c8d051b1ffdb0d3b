// The verdict on a case: its inputs are read, its call is made, and the answer compared.
ghost use Rattle.std.specs.Prelude.{◌≡◌, ◌+◌, ◌≤◌, length, drop};
ghost use Rattle.replay.specs.Judged.{Replied, Judged};

use crate::{building, counts, files, loads, lookups, nodes, pages, sets, typing};
use stored::{ROOM, Verdict, list_from, list_in, list_to, verdict_of};

pub fn judge(call: u64, case: &[u64]) -> Verdict
    ensures { Judged 32768 32768 call case.now result }
{
    if call < 1 || 19 < call {
        return Verdict::Malformed;
    }
    let mut words = [0u32; ROOM];
    let mut bytes = [0u8; ROOM];
    let Some(word_count) = list_in(case, &mut words) else {
        return Verdict::Malformed;
    };
    let rest = after_list(case, word_count);
    let Some(byte_count) = list_in(rest, &mut bytes) else {
        return Verdict::Malformed;
    };
    let stored = after_list(rest, byte_count);
    verdict_of(replies(
        call,
        stored,
        list_to(&words, word_count),
        &mut bytes[..byte_count],
    ))
}

// What stands after a list of so many numbers and its length: the list and then one more, so that no sum has to fit.
fn after_list(case: &[u64], count: usize) -> &[u64]
    ensures { result.now ≡ drop (count + 1) case.now }
{
    list_from(list_from(case, count), 1)
}

// Only repacking writes the bytes. The numbers are those of the stored lists, and each call has its own inputs.
fn replies(call: u64, stored: &[u64], words: &[u32], bytes: &mut [u8]) -> bool
    requires { (1 ≤ call) × (call ≤ 19) }
    ensures { Replied words.now bytes.old call stored.now result }
{
    match call {
        1 => nodes::node_fields(stored, words),
        2 => nodes::pack(stored, words),
        3 => nodes::repack_node(stored, words),
        4 => loads::repack(stored, words, bytes),
        5 => loads::load(stored, words, bytes),
        6 => counts::count(stored, words),
        7 => lookups::word_index(stored, words, bytes),
        8 => lookups::word_by_index(stored, words),
        9 => lookups::seek(stored, words),
        10 => lookups::step(stored, words),
        11 => sets::letter_bits(stored, words),
        12 => sets::accepts_alpha(stored, words, bytes),
        13 => sets::alpha_cross_set(stored, words, bytes),
        14 => files::to_macondo(stored, words, bytes),
        15 => files::to_lxd(stored, words),
        16 => pages::write_page(stored, words, bytes),
        17 => typing::next_word(stored, words, bytes),
        18 => typing::read_words(stored, words, bytes),
        _ => building::build(stored, words, bytes),
    }
}
