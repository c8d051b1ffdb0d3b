// Why letter bits and alpha sets are refused.
ghost use Rattle.std.specs.Prelude.{◌≡◌};
ghost use Rattle.letters.specs.Refusals.{list_too_short_refusal, alpha_refusal};
ghost use Rattle.letters.specs.declared.refusals.AlphaRefusal.TheVariants as A;

use answers::Refuses;
use lookup::NotLent;

// A list of sets that has fewer entries than there are nodes.
#[derive(Clone, Copy, Debug, PartialEq, Eq)]
pub struct ListTooShort;

impl Refuses for ListTooShort {
    ghost refusal = { list_too_short_refusal };

    fn number(&self) -> u32 {
        11
    }
}

#[derive(Clone, Copy, Debug, PartialEq, Eq)]
pub enum AlphaRefusal {
    NotLent,
    TallyTooLong,
}

impl From<NotLent> for AlphaRefusal {
    ghost from_gives = { λ _ e. e ≡ A.NotLent };

    fn from(_e: NotLent) -> AlphaRefusal {
        AlphaRefusal::NotLent
    }
}

impl Refuses for AlphaRefusal {
    ghost refusal = { alpha_refusal };

    fn number(&self) -> u32 {
        match self {
            AlphaRefusal::NotLent => NotLent.number(),
            AlphaRefusal::TallyTooLong => 17,
        }
    }
}
