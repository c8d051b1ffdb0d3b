// Why a load is refused.
ghost use Rattle.std.specs.Prelude.{◌≡◌};
ghost use Rattle.load.specs.Said.{begin_why, state_why, feed_why, finish_why};
ghost use Rattle.load.specs.declared.refusals.FeedRefusal.TheVariants as Feed;
ghost use Rattle.load.specs.declared.refusals.FinishRefusal.TheVariants as Finish;

use crate::repack::Misfit;
use answers::Refuses;
use graph::NodesRefusal;

#[derive(Clone, Copy, Debug, PartialEq, Eq)]
pub enum BeginRefusal {
    NotWholeNodes,
    OverLimit,
    NodesTooShort,
}

impl Refuses for BeginRefusal {
    ghost refusal = { begin_why };

    fn number(&self) -> u32 {
        match self {
            BeginRefusal::NotWholeNodes => 1,
            BeginRefusal::OverLimit => 2,
            BeginRefusal::NodesTooShort => 3,
        }
    }
}

// Why the state of a load takes no more calls.
#[derive(Clone, Copy, Debug, PartialEq, Eq)]
pub enum StateRefusal {
    BadState,
    DoesNotFit(Misfit),
}

impl Refuses for StateRefusal {
    ghost refusal = { state_why };

    fn number(&self) -> u32 {
        match self {
            StateRefusal::BadState => 4,
            StateRefusal::DoesNotFit(misfit) => misfit.number(),
        }
    }
}

#[derive(Clone, Copy, Debug, PartialEq, Eq)]
pub enum FeedRefusal {
    State(StateRefusal),
    TooLong,
}

impl Refuses for FeedRefusal {
    ghost refusal = { feed_why };

    fn number(&self) -> u32 {
        match self {
            FeedRefusal::State(why) => why.number(),
            FeedRefusal::TooLong => 5,
        }
    }
}

impl From<StateRefusal> for FeedRefusal {
    ghost from_gives = { λ why e. e ≡ Feed.State why };

    fn from(why: StateRefusal) -> FeedRefusal {
        FeedRefusal::State(why)
    }
}

#[derive(Clone, Copy, Debug, PartialEq, Eq)]
pub enum FinishRefusal {
    State(StateRefusal),
    Missing,
    Nodes(NodesRefusal),
}

impl Refuses for FinishRefusal {
    ghost refusal = { finish_why };

    fn number(&self) -> u32 {
        match self {
            FinishRefusal::State(why) => why.number(),
            FinishRefusal::Missing => 7,
            FinishRefusal::Nodes(why) => why.number(),
        }
    }
}

impl From<StateRefusal> for FinishRefusal {
    ghost from_gives = { λ why e. e ≡ Finish.State why };

    fn from(why: StateRefusal) -> FinishRefusal {
        FinishRefusal::State(why)
    }
}

impl From<NodesRefusal> for FinishRefusal {
    ghost from_gives = { λ why e. e ≡ Finish.Nodes why };

    fn from(why: NodesRefusal) -> FinishRefusal {
        FinishRefusal::Nodes(why)
    }
}
