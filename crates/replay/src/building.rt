// A lexicon from a word list.
ghost use Rattle.std.specs.Prelude.{◌≡◌};
ghost use Rattle.stored.specs.Answers.{same};
ghost use Rattle.replay.specs.Builds.{build_reply};

use stored::{list_to, same_then, word_at};

// The most that a case has room for: numbers of the work list, and nodes.
const WORK_ROOM: usize = 4096;

const NODE_ROOM: usize = 512;

// WORK NODES; the list.
pub(crate) fn build(stored: &[u64], words: &[u32], list: &[u8]) -> bool
    ensures { result ≡ same stored.now (build_reply words.now list.now) }
{
    let mut work = [0u32; WORK_ROOM];
    let mut nodes = [0u32; NODE_ROOM];
    let work_room = (word_at(words, 0) as usize).min(WORK_ROOM);
    let node_room = (word_at(words, 1) as usize).min(NODE_ROOM);
    let nodes = &mut nodes[..node_room];
    let built = machirsun::machirsun_build(list, &mut work[..work_room], nodes);
    same_then(
        stored,
        &[built.refusal, built.nodes],
        list_to(nodes, built.nodes as usize),
    )
}
