// Why a move of a word is refused.
ghost use Rattle.std.specs.Prelude.{◌≡◌};
ghost use Rattle.lookup.specs.declared.refusals.LookupRefusal.TheVariants.{NotLent};
ghost use Rattle.in_play.specs.Said.{play_refusal};
ghost use Rattle.in_play.specs.declared.refusals.PlayRefusal.TheVariants.{Lookup};

use answers::Refuses;
use lookup::{LookupRefusal, NotLent};

#[derive(Clone, Copy, Debug, PartialEq, Eq)]
pub enum PlayRefusal {
    Lookup(LookupRefusal),
    TooFewBits,
    NoWord,
    AlreadyInPlay,
    NotInPlay,
}

impl From<LookupRefusal> for PlayRefusal {
    ghost from_gives = { λ e r. r ≡ Lookup e };

    fn from(e: LookupRefusal) -> PlayRefusal {
        PlayRefusal::Lookup(e)
    }
}

impl From<NotLent> for PlayRefusal {
    ghost from_gives = { λ _ r. r ≡ Lookup NotLent };

    fn from(e: NotLent) -> PlayRefusal {
        PlayRefusal::Lookup(LookupRefusal::from(e))
    }
}

impl Refuses for PlayRefusal {
    ghost refusal = { play_refusal };

    fn number(&self) -> u32 {
        match self {
            PlayRefusal::Lookup(e) => e.number(),
            PlayRefusal::TooFewBits => 11,
            PlayRefusal::NoWord => 29,
            PlayRefusal::AlreadyInPlay => 30,
            PlayRefusal::NotInPlay => 31,
        }
    }
}
