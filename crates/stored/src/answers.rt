// Whether what is stored is what a call answered.
ghost use Rattle.std.specs.Prelude.{◌≡◌, ◌++◌, length, take};
ghost use Rattle.stored.specs.Answers.{same, verdict_of};

use crate::numbers::Number;
use crate::parts::{list_from, list_to};

#[derive(Clone, Copy, Debug, PartialEq, Eq)]
pub enum Verdict {
    Same,
    Different,
    Malformed,
}

pub fn verdict_of(same: bool) -> Verdict
    ensures { result ≡ verdict_of same }
{
    if same {
        Verdict::Same
    } else {
        Verdict::Different
    }
}

// Whether the stored numbers are those of the list.
pub fn same<T: Number>(stored: &[u64], list: &[T]) -> bool
    ensures { result ≡ same stored.now (T.values list.now) }
{
    stored.len() == list.len() && stored.iter().zip(list).all(|(s, n)| *s == n.wide())
}

// Whether what is stored starts with the list.
pub fn starts_with<T: Number>(stored: &[u64], list: &[T]) -> bool
    ensures { result ≡ same (take (length list.now) stored.now) (T.values list.now) }
{
    same(list_to(stored, list.len()), list)
}

// Whether it is one list and then the other, and nothing more.
pub fn same_then<F: Number, T: Number>(stored: &[u64], first: &[F], list: &[T]) -> bool
    ensures { result ≡ same stored.now (F.values first.now ++ T.values list.now) }
{
    starts_with(stored, first) && same(list_from(stored, first.len()), list)
}
