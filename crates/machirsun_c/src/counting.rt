// Counting the words from every node.
ghost use Rattle.std.specs.Prelude.{◌≡◌, ◌*◌, length};
ghost use Rattle.graph.specs.Counting.{IsCounted, count_row, count_limit};
ghost use Rattle.graph.specs.Lent.{WorkKept};
ghost use Rattle.flat.specs.FlatCounts.{counted_of, flat_counted};

use flat::FlatCounted;

// Puts the number of words from each node into counts.
#[unsafe(no_mangle)]
pub extern "C" fn machirsun_count_words(
    nodes: &[u32],
    counts: &mut [u32],
    work: &mut [u32],
) -> FlatCounted
    ensures counted { IsCounted count_limit nodes.now counts.old (length work.old) (counted_of result) counts.new }
    ensures free { WorkKept (count_row nodes.now (length counts.old) (length work.old))
        (2 * length nodes.now) work.old work.new }
    ensures flat { result ≡ flat_counted (counted_of result) }
{
    machirsun::machirsun_count_words(nodes, counts, work)
}
