// Lookups in a loaded graph: a tile in a run, the steps along a run, words and their numbers.
ghost use Rattle.std.specs.Prelude.{◌≡◌};
ghost use Rattle.lookup.specs.Said.{said_seek, said_index, said_word};
ghost use Rattle.flat.specs.FlatLookups.{sought_of, flat_sought, index_of, flat_index, word_of, flat_word};

use answers::Refuses;
use lookup::{LookupRefusal, Sought, WordRefusal};

#[repr(C)]
#[derive(Clone, Copy)]
pub struct FlatSought {
    pub refusal: u32,
    pub found: bool,
    pub place: u32,
    pub before: u32,
}

// A cursor at a node, and what the step to it said.
#[repr(C)]
#[derive(Clone, Copy)]
pub struct FlatCursor {
    pub refusal: u32,
    pub done: bool,
    pub at: u32,
}

#[repr(C)]
#[derive(Clone, Copy)]
pub struct FlatIndex {
    pub refusal: u32,
    pub found: bool,
    pub number: u32,
}

#[repr(C)]
#[derive(Clone, Copy)]
pub struct FlatWord {
    pub refusal: u32,
    pub found: bool,
    pub tiles: usize,
}

fn sought(refusal: u32, found: bool, place: u32, before: u32) -> FlatSought
    ensures { result ≡ record { refusal = refusal; found = found; place = place; before = before } }
{
    FlatSought {
        refusal,
        found,
        place,
        before,
    }
}

pub fn flat_sought(answer: Result<Option<Sought>, LookupRefusal>) -> FlatSought
    ensures answer { sought_of result ≡ said_seek answer }
    ensures flat { result ≡ flat_sought (sought_of result) }
{
    match answer {
        Ok(Some(Sought { node, before })) => sought(0, true, node, before),
        Ok(None) => sought(0, false, 0, 0),
        Err(why) => sought(why.number(), false, 0, 0),
    }
}

fn index(refusal: u32, found: bool, number: u32) -> FlatIndex
    ensures { result ≡ record { refusal = refusal; found = found; number = number } }
{
    FlatIndex {
        refusal,
        found,
        number,
    }
}

pub fn flat_index(answer: Result<Option<u32>, LookupRefusal>) -> FlatIndex
    ensures answer { index_of result ≡ said_index answer }
    ensures flat { result ≡ flat_index (index_of result) }
{
    match answer {
        Ok(Some(number)) => index(0, true, number),
        Ok(None) => index(0, false, 0),
        Err(why) => index(why.number(), false, 0),
    }
}

fn word(refusal: u32, found: bool, tiles: usize) -> FlatWord
    ensures { result ≡ record { refusal = refusal; found = found; tiles = tiles } }
{
    FlatWord {
        refusal,
        found,
        tiles,
    }
}

pub fn flat_word(answer: Result<Option<usize>, WordRefusal>) -> FlatWord
    ensures answer { word_of result ≡ said_word answer }
    ensures flat { result ≡ flat_word (word_of result) }
{
    match answer {
        Ok(Some(tiles)) => word(0, true, tiles),
        Ok(None) => word(0, false, 0),
        Err(why) => word(why.number(), false, 0),
    }
}
