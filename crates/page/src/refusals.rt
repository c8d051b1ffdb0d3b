// Why a page is refused.
ghost use Rattle.std.specs.Prelude.{◌≡◌};
ghost use Rattle.page.specs.Said.{page_refusal};
ghost use Rattle.page.specs.declared.refusals.PageRefusal.TheVariants.{Lookup};

use answers::Refuses;
use lookup::LookupRefusal;

#[derive(Clone, Copy, Debug, PartialEq, Eq)]
pub enum PageRefusal {
    TitleTooLong,
    PageTooShort,
    Lookup(LookupRefusal),
    NoLabel,
    NotPrintable,
}

impl From<LookupRefusal> for PageRefusal {
    ghost from_gives = { λ e r. r ≡ Lookup e };

    fn from(e: LookupRefusal) -> PageRefusal {
        PageRefusal::Lookup(e)
    }
}

impl Refuses for PageRefusal {
    ghost refusal = { page_refusal };

    fn number(&self) -> u32 {
        match self {
            PageRefusal::TitleTooLong => 19,
            PageRefusal::PageTooShort => 11,
            PageRefusal::Lookup(e) => e.number(),
            PageRefusal::NoLabel => 21,
            PageRefusal::NotPrintable => 26,
        }
    }
}
