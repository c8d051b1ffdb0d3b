// A lexicon from a word list.
ghost use Rattle.std.specs.Prelude.{◌≡◌};
ghost use Rattle.build.specs.Said.{said_built};
ghost use Rattle.flat.specs.FlatBuilds.{built_of, flat_built};

use answers::Refuses;
use build::BuildRefusal;

#[repr(C)]
#[derive(Clone, Copy)]
pub struct FlatBuilt {
    pub refusal: u32,
    pub nodes: u32,
}

pub fn flat_built(answer: Result<u32, BuildRefusal>) -> FlatBuilt
    ensures answer { built_of result ≡ said_built answer }
    ensures flat { result ≡ flat_built (built_of result) }
{
    match answer {
        Ok(nodes) => FlatBuilt { refusal: 0, nodes },
        Err(why) => FlatBuilt {
            refusal: why.number(),
            nodes: 0,
        },
    }
}
