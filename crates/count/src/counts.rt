// The counts together.
ghost use Rattle.std.specs.Prelude.{◌≡◌};
ghost use Rattle.graph.specs.Counting.{count_limit};
ghost use Rattle.count.specs.CountWalk.{reaches_limit};

use graph::COUNT_LIMIT;

// Whether a count is too many.
pub(crate) fn reaches_limit(counts: &[u32]) -> bool
    ensures { result ≡ reaches_limit count_limit counts.now }
{
    counts.iter().any(|count| COUNT_LIMIT <= *count)
}
