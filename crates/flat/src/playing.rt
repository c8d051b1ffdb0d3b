// Words in play.
ghost use Rattle.std.specs.Prelude.{◌≡◌};
ghost use Rattle.in_play.specs.Said.{said_play};
ghost use Rattle.flat.specs.FlatPlays.{play_of, flat_play};

use answers::Refuses;
use in_play::{PlayRefusal, Remaining};

#[repr(C)]
#[derive(Clone, Copy, Default)]
pub struct FlatInPlay {
    pub refusal: u32,
    pub found: bool,
    pub remaining: u32,
    pub lowest: u32,
}

pub fn flat_in_play(answer: Result<Option<Remaining>, PlayRefusal>) -> FlatInPlay
    ensures answer { play_of result ≡ said_play answer }
    ensures flat { result ≡ flat_play (play_of result) }
{
    match answer {
        Ok(Some(left)) => FlatInPlay {
            found: true,
            remaining: left.count,
            lowest: left.lowest,
            ..FlatInPlay::default()
        },
        Ok(None) => FlatInPlay::default(),
        Err(e) => FlatInPlay {
            refusal: e.number(),
            ..FlatInPlay::default()
        },
    }
}
