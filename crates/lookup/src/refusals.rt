// Why a lookup is refused.
ghost use Rattle.std.specs.Prelude.{◌≡◌};
ghost use Rattle.lookup.specs.Refusals.{not_lent_refusal, lookup_refusal, word_refusal};
ghost use Rattle.lookup.specs.declared.refusals.LookupRefusal.TheVariants as L;
ghost use Rattle.lookup.specs.declared.refusals.WordRefusal.TheVariants as W;

use answers::Refuses;

// A step to a node or a count that is not lent.
#[derive(Clone, Copy, Debug, PartialEq, Eq)]
pub struct NotLent;

impl Refuses for NotLent {
    ghost refusal = { not_lent_refusal };

    fn number(&self) -> u32 {
        14
    }
}

#[derive(Clone, Copy, Debug, PartialEq, Eq)]
pub enum LookupRefusal {
    NotLent,
    OutOfRange,
}

impl From<NotLent> for LookupRefusal {
    ghost from_gives = { λ _ e. e ≡ L.NotLent };

    fn from(_e: NotLent) -> LookupRefusal {
        LookupRefusal::NotLent
    }
}

impl Refuses for LookupRefusal {
    ghost refusal = { lookup_refusal };

    fn number(&self) -> u32 {
        match self {
            LookupRefusal::NotLent => NotLent.number(),
            LookupRefusal::OutOfRange => 15,
        }
    }
}

// Why there is no word to a number.
#[derive(Clone, Copy, Debug, PartialEq, Eq)]
pub enum WordRefusal {
    Lookup(LookupRefusal),
    BufferFull,
}

impl From<LookupRefusal> for WordRefusal {
    ghost from_gives = { λ e r. r ≡ W.Lookup e };

    fn from(e: LookupRefusal) -> WordRefusal {
        WordRefusal::Lookup(e)
    }
}

impl Refuses for WordRefusal {
    ghost refusal = { word_refusal };

    fn number(&self) -> u32 {
        match self {
            WordRefusal::Lookup(e) => e.number(),
            WordRefusal::BufferFull => 16,
        }
    }
}
