// Loading and repacking. A layout is a number: 0 is KWG, every other number KBWG.
ghost use Rattle.std.specs.Prelude.{◌≡◌, []};
ghost use Rattle.answers.specs.Answers.{gives};
ghost use Rattle.load.specs.Repacking.{said_repack};
ghost use Rattle.load.specs.Said.{said_begin, said_feed, said_finish};
ghost use Rattle.flat.specs.Flat.{layout_of, layout_number, plainly};
ghost use Rattle.flat.specs.FlatLoads.{kept_of, repacked_of, flat_repacked, state_of, flat_loader, finished_of, flat_finished};

use answers::Refuses;
use graph::NodesRefusal;
use load::{BeginRefusal, FeedRefusal, FinishRefusal, Loader, Misfit, StateRefusal};
use node::Layout;

#[repr(C)]
#[derive(Clone, Copy, Default)]
pub struct FlatRepacked {
    pub refusal: u32,
    pub arc: u32,
    pub node: usize,
    pub tile: u8,
}

// The state of a load. Where refusal is not 0 it keeps refusal 6 with node, tile and arc.
#[repr(C)]
#[derive(Clone, Copy)]
pub struct FlatLoader {
    pub announced: usize,
    pub taken: usize,
    pub held_count: usize,
    pub node: usize,
    pub layout: u32,
    pub refusal: u32,
    pub arc: u32,
    pub tile: u8,
    pub held: [u8; 3],
}

#[repr(C)]
#[derive(Clone, Copy)]
pub struct FlatBegun {
    pub refusal: u32,
    pub loader: FlatLoader,
}

#[repr(C)]
#[derive(Clone, Copy)]
pub struct FlatFed {
    pub refusal: u32,
    pub arc: u32,
    pub node: usize,
    pub tile: u8,
    pub loader: FlatLoader,
}

#[repr(C)]
#[derive(Clone, Copy, Default)]
pub struct FlatFinished {
    pub refusal: u32,
    pub arc: u32,
    pub nodes: usize,
    pub node: usize,
    pub tile: u8,
}

// A whole load: begun is the number of begin's refusal, or 0; the state is that after the last feed.
#[repr(C)]
#[derive(Clone, Copy)]
pub struct FlatLoaded {
    pub begun: u32,
    pub loader: FlatLoader,
    pub finished: FlatFinished,
}

// A layout is a number in the C interface.
pub fn layout_of(number: u32) -> Layout
    ensures { result ≡ layout_of number }
{
    if number == 0 {
        Layout::Kwg
    } else {
        Layout::Kbwg
    }
}

fn layout_number(layout: Layout) -> u32
    ensures { result ≡ layout_number layout }
{
    match layout {
        Layout::Kwg => 0,
        Layout::Kbwg => 1,
    }
}

fn kept_of(refusal: u32, node: usize, tile: u8, arc_index: u32) -> Option<Misfit>
    ensures { result ≡ kept_of refusal node tile arc_index }
{
    if refusal == 0 {
        return None;
    }
    Some(Misfit {
        node,
        tile,
        arc_index,
    })
}

// Every flat state is some state: none is refused before the calls judge it.
pub fn state_of(flat: FlatLoader) -> Loader
    ensures { result ≡ state_of flat }
{
    let held = flat.held;
    Loader {
        announced: flat.announced,
        layout: layout_of(flat.layout),
        taken: flat.taken,
        held,
        held_count: flat.held_count,
        kept: kept_of(flat.refusal, flat.node, flat.tile, flat.arc),
    }
}

pub fn flat_loader(state: Loader) -> FlatLoader
    ensures { result ≡ flat_loader state }
{
    let kept = match state.kept {
        None => FlatRepacked::default(),
        Some(misfit) => flat_misfit(misfit),
    };
    let held = state.held;
    FlatLoader {
        announced: state.announced,
        taken: state.taken,
        held_count: state.held_count,
        node: kept.node,
        layout: layout_number(state.layout),
        refusal: kept.refusal,
        arc: kept.arc,
        tile: kept.tile,
        held,
    }
}

fn flat_misfit(misfit: Misfit) -> FlatRepacked
    ensures { result ≡ record { refusal = 6; arc = misfit.arc_index; node = misfit.node; tile = misfit.tile } }
{
    FlatRepacked {
        refusal: misfit.number(),
        arc: misfit.arc_index,
        node: misfit.node,
        tile: misfit.tile,
    }
}

pub fn flat_repacked(answer: Result<(), Misfit>) -> FlatRepacked
    ensures answer { repacked_of result ≡ said_repack answer }
    ensures flat { result ≡ flat_repacked (repacked_of result) }
{
    match answer {
        Ok(()) => FlatRepacked::default(),
        Err(misfit) => flat_misfit(misfit),
    }
}

// A match of two arms: one function for all would have to say that the refusals carry nothing.
pub fn begin_refusal(answer: Result<(), BeginRefusal>) -> u32
    ensures { plainly result (gives []) ≡ said_begin answer }
{
    match answer {
        Ok(()) => 0,
        Err(why) => why.number(),
    }
}

pub fn flat_feed(answer: Result<(), FeedRefusal>) -> FlatRepacked
    ensures answer { repacked_of result ≡ said_feed answer }
    ensures flat { result ≡ flat_repacked (repacked_of result) }
{
    match answer {
        Ok(()) => FlatRepacked::default(),
        Err(FeedRefusal::State(StateRefusal::DoesNotFit(misfit))) => flat_misfit(misfit),
        Err(why) => FlatRepacked {
            refusal: why.number(),
            ..FlatRepacked::default()
        },
    }
}

pub fn flat_finished(answer: Result<usize, FinishRefusal>) -> FlatFinished
    ensures answer { finished_of result ≡ said_finish answer }
    ensures flat { result ≡ flat_finished (finished_of result) }
{
    match answer {
        Ok(nodes) => FlatFinished {
            nodes,
            ..FlatFinished::default()
        },
        Err(FinishRefusal::State(StateRefusal::DoesNotFit(misfit))) => FlatFinished {
            refusal: misfit.number(),
            arc: misfit.arc_index,
            node: misfit.node,
            tile: misfit.tile,
            ..FlatFinished::default()
        },
        Err(FinishRefusal::Nodes(why @ NodesRefusal::ArcPastEnd(arc))) => FlatFinished {
            refusal: why.number(),
            arc,
            ..FlatFinished::default()
        },
        Err(why) => FlatFinished {
            refusal: why.number(),
            ..FlatFinished::default()
        },
    }
}
