// The calls on single nodes, which the C interface does not have.
ghost use Rattle.std.specs.Prelude.{◌≡◌};
ghost use Rattle.node.specs.Said.{said_node};
ghost use Rattle.stored.specs.Answers.{same};
ghost use Rattle.replay.specs.Nodes.{answer_numbers, fields_reply, pack_reply, repack_node_reply};

use answers::Refuses;
use flat::layout_of;
use node::{DoesNotFit, Fields};
use stored::{byte_at, same, word_at};

// LAYOUT NODE.
#[tactic(auto, unfolding(crate::specs::Nodes::fields_reply, crate::specs::Nodes::fields_of))]
pub(crate) fn node_fields(stored: &[u64], words: &[u32]) -> bool
    ensures { result ≡ same stored.now (fields_reply words.now) }
{
    let fields = node::unpack(layout_of(word_at(words, 0)), word_at(words, 1));
    let numbers = [
        u32::from(fields.tile),
        u32::from(fields.accepts),
        u32::from(fields.is_end),
        fields.arc_index,
    ];
    same(stored, &numbers)
}

// LAYOUT TILE ACCEPTS END ARC.
#[tactic(auto, unfolding(crate::specs::Nodes::pack_reply))]
pub(crate) fn pack(stored: &[u64], words: &[u32]) -> bool
    ensures { result ≡ same stored.now (pack_reply words.now) }
{
    let fields = Fields {
        tile: byte_at(words, 1),
        accepts: word_at(words, 2) != 0,
        is_end: word_at(words, 3) != 0,
        arc_index: word_at(words, 4),
    };
    same_packed(stored, node::pack(layout_of(word_at(words, 0)), fields))
}

// FROM TO NODE.
#[tactic(auto, unfolding(crate::specs::Nodes::repack_node_reply))]
pub(crate) fn repack_node(stored: &[u64], words: &[u32]) -> bool
    ensures { result ≡ same stored.now (repack_node_reply words.now) }
{
    let from = layout_of(word_at(words, 0));
    let to = layout_of(word_at(words, 1));
    same_packed(stored, node::repack_node(from, to, word_at(words, 2)))
}

fn same_packed(stored: &[u64], packed: Result<u32, DoesNotFit>) -> bool
    ensures { result ≡ same stored.now (answer_numbers (said_node packed)) }
{
    match packed {
        Ok(node) => same(stored, &[0, node]),
        Err(why) => same(stored, &[why.number(), u32::from(why.tile), why.arc_index]),
    }
}
