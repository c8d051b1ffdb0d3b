// A whole load, its file cut into pieces: what the calls of a loader come to.
#![tactic(auto)]

ghost use Rattle.std.specs.Prelude.{◌≡◌, set};
ghost use Rattle.answers.specs.Answers.{refusal_in};
ghost use Rattle.load.specs.Said.{said_feed};
ghost use Rattle.pieces.specs.Pieces.{cut_at, load_pieces};
ghost use Rattle.pieces.specs.Said.{load_leaves, loaded_as};

use answers::Refuses;
use load::{BeginRefusal, Begun, FeedRefusal, FinishRefusal, Loader};
use node::Layout;

// What begin and finish answered, and the state after the last feed.
#[derive(Clone, Copy)]
pub struct Loaded {
    pub begun: Result<(), BeginRefusal>,
    pub loader: Loader,
    pub finished: Result<usize, FinishRefusal>,
}

// Puts a feed's answer at its place, if the list has that place.
fn store_answer(answers: &mut [u32], place: usize, answer: Result<(), FeedRefusal>)
    ensures { answers.new ≡ set answers.old place (refusal_in (said_feed answer)) }
{
    let number = match answer {
        Ok(()) => 0,
        Err(why) => why.number(),
    };
    if place < answers.len() {
        answers[place] = number;
    }
}

// Feeds the bytes in pieces of the lengths in cuts and then the rest; a cut past the end takes what is there. Each feed's answer goes
// to answers, in order: its refusal's number, or 0. Where answers is shorter than the feeds are many, the later ones are not stored.
pub fn load_in_pieces(
    announced: usize,
    layout: Layout,
    bytes: &[u8],
    cuts: &[u32],
    answers: &mut [u32],
    nodes: &mut [u32],
) -> Loaded
    ensures { loaded_as result answers.new nodes.new
        ≡ load_leaves answers.old (load_pieces announced layout nodes.old (cut_at cuts.now bytes.now)) }
{
    let Begun {
        answer: begun,
        mut loader,
    } = Loader::begin(announced, layout, nodes);
    let mut rest = bytes;
    for (place, cut) in cuts.iter().enumerate() {
        let (piece, after) = rest.split_at((*cut as usize).min(rest.len()));
        let fed = loader.feed(piece, nodes);
        store_answer(answers, place, fed.answer);
        loader = fed.loader;
        rest = after;
    }
    let fed = loader.feed(rest, nodes);
    store_answer(answers, cuts.len(), fed.answer);
    Loaded {
        begun,
        loader: fed.loader,
        finished: fed.loader.finish(nodes),
    }
}
