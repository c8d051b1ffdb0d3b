// The lists of inputs that a case has, each with its length before it.
ghost use Rattle.std.specs.Prelude.{◌≡◌, true, ◌≤◌, length, MatchOption};
ghost use Rattle.std.proofs.Math.Option.{none, some};
ghost use Rattle.std.proofs.lemmas.List.Edits.{sets};
ghost use Rattle.stored.specs.Inputs.{all_within, list_in, count_of, copied_to};

use crate::numbers::Input;
use crate::parts::{list_from, list_to};

// Copies the list that a case starts with to the front of the list lent, where the case has all of
// it, there is room for it and no number of it is too high, and answers how many there are.
pub fn list_in<T: Input>(case: &[u64], list: &mut [T]) -> Option<usize>
    ensures count { result ≡ count_of (list_in T.MOST (length list.old) case.now) }
    ensures copied { T.values list.new ≡ copied_to (T.values list.old) (list_in T.MOST (length list.old) case.now) }
{
    let numbers = list_at_start(case, T::MOST, list.len())?;
    copy_to(numbers, list);
    Some(numbers.len())
}

// The list that a case starts with: none of it is above the most, and there are no more than there
// is room for.
fn list_at_start(case: &[u64], most: u64, room: usize) -> Option<&[u64]>
    ensures { MatchOption result (list_in most room case.now ≡ none) (λ list. list_in most room case.now ≡ some list.now) }
{
    let (count, rest) = case.split_first()?;
    let count = *count as usize;
    if rest.len() < count || room < count {
        return None;
    }
    let list = &rest[..count];
    if all_within(list, most) {
        Some(list)
    } else {
        None
    }
}

fn all_within(numbers: &[u64], most: u64) -> bool
    ensures { result ≡ all_within most numbers.now }
{
    numbers.iter().all(|n| *n <= most)
}

// Copies the numbers to the front of the list.
fn copy_to<T: Input>(numbers: &[u64], list: &mut [T])
    requires room { length numbers.now ≤ length list.old }
    requires within { all_within T.MOST numbers.now ≡ true }
    ensures { T.values list.new ≡ sets (T.values list.old) 0 numbers.now }
{
    for (i, n) in numbers.iter().enumerate() {
        list[i] = T::of(*n);
    }
}
