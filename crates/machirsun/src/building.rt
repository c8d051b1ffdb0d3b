// A lexicon from a word list.
ghost use Rattle.std.specs.Prelude.{◌≡◌, ◌+◌, ◌*◌, length};
ghost use Rattle.graph.specs.Lent.{WorkKept};
ghost use Rattle.built.specs.Build.{build_checks, build_as};
ghost use Rattle.flat.specs.FlatBuilds.{built_of, building_of, flat_built};

use flat::{FlatBuilt, flat_built};

// Builds the graph of the words of a list.
pub fn machirsun_build(list: &[u8], work: &mut [u32], nodes: &mut [u32]) -> FlatBuilt
    ensures built { building_of result nodes.new ≡ build_as list.now (length work.old) nodes.old }
    ensures free { WorkKept (build_checks list.now (length work.old)) (8 * length list.now + 64)
        work.old work.new }
    ensures flat { result ≡ flat_built (built_of result) }
{
    flat_built(build::build(list, work, nodes))
}
