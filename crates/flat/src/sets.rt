// Sets of tiles: the letters of each node's run, and the alpha sets of a tally of letters.
ghost use Rattle.std.specs.Prelude.{◌≡◌, []};
ghost use Rattle.answers.specs.Answers.{gives};
ghost use Rattle.letters.specs.Said.{said_bits, said_alpha, said_cross};
ghost use Rattle.flat.specs.Flat.{plainly};
ghost use Rattle.flat.specs.FlatSets.{accepts_of, flat_accepts, cross_of, flat_cross};

use answers::Refuses;
use letters::{AlphaRefusal, ListTooShort};

#[repr(C)]
#[derive(Clone, Copy)]
pub struct FlatAccepts {
    pub refusal: u32,
    pub accepts: bool,
}

#[repr(C)]
#[derive(Clone, Copy)]
pub struct FlatCross {
    pub refusal: u32,
    pub tiles: u64,
}

// A match of two arms: one function for all would have to say that the refusals carry nothing.
pub fn bits_refusal(answer: Result<(), ListTooShort>) -> u32
    ensures { plainly result (gives []) ≡ said_bits answer }
{
    match answer {
        Ok(()) => 0,
        Err(why) => why.number(),
    }
}

pub fn flat_accepts(answer: Result<bool, AlphaRefusal>) -> FlatAccepts
    ensures answer { accepts_of result ≡ said_alpha answer }
    ensures flat { result ≡ flat_accepts (accepts_of result) }
{
    match answer {
        Ok(accepts) => FlatAccepts {
            refusal: 0,
            accepts,
        },
        Err(why) => FlatAccepts {
            refusal: why.number(),
            accepts: false,
        },
    }
}

// One for each struct of the C interface.
pub fn flat_cross(answer: Result<u64, AlphaRefusal>) -> FlatCross
    ensures answer { cross_of result ≡ said_cross answer }
    ensures flat { result ≡ flat_cross (cross_of result) }
{
    match answer {
        Ok(tiles) => FlatCross { refusal: 0, tiles },
        Err(why) => FlatCross {
            refusal: why.number(),
            tiles: 0,
        },
    }
}
