// Counting.
ghost use Rattle.std.specs.Prelude.{replicate};
ghost use Rattle.replay.specs.Counts.{CountReplied};

use stored::{list_to, same_then};

// The words of the case are the nodes.
pub(crate) fn count(stored: &[u64], nodes: &[u32]) -> bool
    ensures { CountReplied nodes.now (replicate 512 0) 1024 stored.now result }
{
    let mut counts = [0u32; 512];
    let mut work = [0u32; 1024];
    let counted = machirsun::machirsun_count_words(nodes, &mut counts, &mut work);
    same_then(
        stored,
        &[counted.refusal, counted.arc, counted.node],
        list_to(&counts, nodes.len()),
    )
}
