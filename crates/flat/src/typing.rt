// Words as viewers type them, one by one and as many as there is room for.
ghost use Rattle.std.specs.Prelude.{◌≡◌};
ghost use Rattle.typed.specs.Refusals.{typed_refusal};
ghost use Rattle.typed.specs.Said.{said_next, said_batch};
ghost use Rattle.answers.specs.Answers.{as_answer};
ghost use Rattle.flat.specs.FlatTyped.{bad_carried, typed_of, flat_typed, typed_list_of, flat_typed_list};

use answers::Refuses;
use typed::{TypedRefusal, TypedWord, TypedWords};

#[repr(C)]
#[derive(Clone, Copy, Default)]
pub struct FlatTyped {
    pub refusal: u32,
    pub found: bool,
    pub bad: usize,
    pub start: usize,
    pub end: usize,
    pub after: usize,
    pub tiles: usize,
}

#[repr(C)]
#[derive(Clone, Copy, Default)]
pub struct FlatTypedList {
    pub refusal: u32,
    pub found: bool,
    pub bad: usize,
    pub words: usize,
    pub tiles: usize,
    pub after: usize,
}

// The bad line of the label file, or the place of the byte that cannot be read.
fn bad_of(why: TypedRefusal) -> usize
    ensures { result ≡ bad_carried (as_answer (typed_refusal why)) }
{
    match why {
        TypedRefusal::BadLabelLine(line) => line.0,
        TypedRefusal::Unreadable(place) => place,
        TypedRefusal::BufferFull => 0,
    }
}

pub fn flat_typed(answer: Result<Option<TypedWord>, TypedRefusal>) -> FlatTyped
    ensures answer { typed_of result ≡ said_next answer }
    ensures flat { result ≡ flat_typed (typed_of result) }
{
    match answer {
        Ok(Some(word)) => FlatTyped {
            found: true,
            start: word.start,
            end: word.end,
            after: word.after,
            tiles: word.tiles,
            ..FlatTyped::default()
        },
        Ok(None) => FlatTyped::default(),
        Err(why) => FlatTyped {
            refusal: why.number(),
            bad: bad_of(why),
            ..FlatTyped::default()
        },
    }
}

pub fn flat_typed_list(answer: Result<Option<TypedWords>, TypedRefusal>) -> FlatTypedList
    ensures answer { typed_list_of result ≡ said_batch answer }
    ensures flat { result ≡ flat_typed_list (typed_list_of result) }
{
    match answer {
        Ok(Some(read)) => FlatTypedList {
            found: true,
            words: read.words,
            tiles: read.tiles,
            after: read.after,
            ..FlatTypedList::default()
        },
        Ok(None) => FlatTypedList::default(),
        Err(stop) => FlatTypedList {
            refusal: stop.number(),
            bad: bad_of(stop),
            ..FlatTypedList::default()
        },
    }
}
