// Repacking and loading.
ghost use Rattle.std.specs.Prelude.{◌≡◌, ◌++◌, take, replicate};
ghost use Rattle.stored.specs.Answers.{same};
ghost use Rattle.replay.specs.Loads.{finished_fields, repack_reply, load_reply};

use flat::FlatFinished;
use stored::{list_from, list_to, same, same_then, word_at};

// FROM TO; the bytes.
#[tactic(auto, unfolding(crate::specs::Loads::repack_reply))]
pub(crate) fn repack(stored: &[u64], words: &[u32], bytes: &mut [u8]) -> bool
    ensures { result ≡ same stored.now (repack_reply words.now bytes.old) }
{
    let repacked = machirsun::machirsun_repack(bytes, word_at(words, 0), word_at(words, 1));
    let numbers = [
        u64::from(repacked.refusal),
        u64::from(repacked.arc),
        repacked.node as u64,
        u64::from(repacked.tile),
    ];
    same_then(stored, &numbers, bytes)
}

// LAYOUT CUT; the bytes of the file, which come in two pieces.
pub(crate) fn load(stored: &[u64], words: &[u32], bytes: &[u8]) -> bool
    ensures { result ≡ same stored.now (load_reply words.now bytes.now (replicate 8192 0)) }
{
    let mut nodes = [0u32; 8192];
    load_lent(stored, words, bytes, &mut nodes)
}

// A function of its own: its proof is found for lent nodes of any length, and not for the array's 8192.
#[tactic(auto, using(flat::specs::PlainLaws::plain_refusal), unfolding(crate::specs::Loads::load_reply, crate::specs::Loads::load_fields, pieces::specs::Pieces::load_pieces, pieces::specs::Pieces::fed_pieces, pieces::specs::Pieces::feed_all))]
fn load_lent(stored: &[u64], words: &[u32], bytes: &[u8], nodes: &mut [u32]) -> bool
    ensures { result ≡ same stored.now (load_reply words.now bytes.now nodes.old) }
{
    let cut = word_at(words, 1) as usize;
    let begun = machirsun::machirsun_begin(bytes.len(), word_at(words, 0), nodes);
    if begun.refusal != 0 {
        return same(stored, &[begun.refusal]);
    }
    let fed = machirsun::machirsun_feed(begun.loader, list_to(bytes, cut), nodes);
    let fed = machirsun::machirsun_feed(fed.loader, list_from(bytes, cut), nodes);
    let finished = machirsun::machirsun_finish(fed.loader, nodes);
    same_finished(stored, finished, nodes)
}

fn same_finished(stored: &[u64], finished: FlatFinished, nodes: &[u32]) -> bool
    ensures { result ≡ same stored.now (finished_fields finished ++ take finished.nodes nodes.now) }
{
    let numbers = [
        u64::from(finished.refusal),
        u64::from(finished.arc),
        finished.nodes as u64,
        finished.node as u64,
        u64::from(finished.tile),
    ];
    same_then(stored, &numbers, list_to(nodes, finished.nodes))
}
