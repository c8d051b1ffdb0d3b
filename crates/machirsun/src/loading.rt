// Loading and repacking. A layout is a number: 0 is KWG, every other number KBWG.
ghost use Rattle.std.specs.Prelude.{◌≡◌, length};
ghost use Rattle.node.specs.Said.{bit_layout};
ghost use Rattle.load.specs.Repacking.{repack_answer, repacked_bytes};
ghost use Rattle.load.specs.Loading.{begin, feed, finish};
ghost use Rattle.pieces.specs.Pieces.{cut_at, load_pieces};
ghost use Rattle.pieces.specs.Said.{load_leaves};
ghost use Rattle.flat.specs.Flat.{layout_of};
ghost use Rattle.flat.specs.FlatLoads.{repacked_of, flat_repacked, state_of, begun_of, flat_begun, fed_of, flat_fed, finished_of, finishes_of, flat_finished, loaded_of, flat_loaded};

use flat::{
    FlatBegun, FlatFed, FlatFinished, FlatLoaded, FlatLoader, FlatRepacked, begin_refusal,
    flat_feed, flat_finished, flat_loader, flat_repacked, layout_of, state_of,
};
use load::Loader;

// Puts the nodes in bytes into the other layout, where they stand.
pub fn machirsun_repack(bytes: &mut [u8], from: u32, to: u32) -> FlatRepacked
    ensures answer { repacked_of result ≡ repack_answer (bit_layout (layout_of from)) (bit_layout (layout_of to)) bytes.old }
    ensures rewritten { bytes.new ≡ repacked_bytes (bit_layout (layout_of from)) (bit_layout (layout_of to)) bytes.old }
    ensures flat { result ≡ flat_repacked (repacked_of result) }
{
    let old = layout_of(from);
    let new = layout_of(to);
    flat_repacked(load::repack_in_place(bytes, old, new))
}

// Announces a file of so many bytes. Of the nodes only their number counts.
pub fn machirsun_begin(announced: usize, layout: u32, nodes: &[u32]) -> FlatBegun
    ensures answer { begun_of result ≡ begin announced (layout_of layout) (length nodes.now) }
    ensures flat { result ≡ flat_begun (begun_of result) }
{
    let begun = Loader::begin(announced, layout_of(layout), nodes);
    FlatBegun {
        refusal: begin_refusal(begun.answer),
        loader: flat_loader(begun.loader),
    }
}

// The next piece of the file, of any length.
pub fn machirsun_feed(loader: FlatLoader, piece: &[u8], nodes: &mut [u32]) -> FlatFed
    ensures answer { fed_of result nodes.new ≡ feed (state_of loader) nodes.old piece.now }
    ensures flat { result ≡ flat_fed (fed_of result nodes.new) }
{
    let fed = state_of(loader).feed(piece, nodes);
    let flat = flat_feed(fed.answer);
    FlatFed {
        refusal: flat.refusal,
        arc: flat.arc,
        node: flat.node,
        tile: flat.tile,
        loader: flat_loader(fed.loader),
    }
}

// The end of the file: the number of its nodes, once they are found sound.
pub fn machirsun_finish(loader: FlatLoader, nodes: &mut [u32]) -> FlatFinished
    ensures answer { finishes_of result nodes.new ≡ finish (state_of loader) nodes.old }
    ensures flat { result ≡ flat_finished (finished_of result) }
{
    flat_finished(state_of(loader).finish(nodes))
}

// A whole load: begin, a feed of each piece and of the rest, finish. Each feed's answer goes to answers.
pub fn machirsun_load_in_pieces(
    announced: usize,
    layout: u32,
    bytes: &[u8],
    cuts: &[u32],
    answers: &mut [u32],
    nodes: &mut [u32],
) -> FlatLoaded
    ensures answer { loaded_of result answers.new nodes.new
        ≡ load_leaves answers.old (load_pieces announced (layout_of layout) nodes.old
        (cut_at cuts.now bytes.now)) }
    ensures flat { result ≡ flat_loaded (loaded_of result answers.new nodes.new) }
{
    let read = layout_of(layout);
    let loaded = pieces::load_in_pieces(announced, read, bytes, cuts, answers, nodes);
    FlatLoaded {
        begun: begin_refusal(loaded.begun),
        loader: flat_loader(loaded.loader),
        finished: flat_finished(loaded.finished),
    }
}
