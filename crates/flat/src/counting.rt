// Counting the words from every node.
ghost use Rattle.std.specs.Prelude.{◌≡◌};
ghost use Rattle.count.specs.Said.{said_counting};
ghost use Rattle.flat.specs.FlatCounts.{counted_of, flat_counted};

use answers::Refuses;
use count::CountRefusal;
use graph::{GraphRefusal, NodesRefusal};

#[repr(C)]
#[derive(Clone, Copy)]
pub struct FlatCounted {
    pub refusal: u32,
    pub arc: u32,
    pub node: u32,
}

pub fn flat_counted(answer: Result<(), CountRefusal>) -> FlatCounted
    ensures answer { counted_of result ≡ said_counting answer }
    ensures flat { result ≡ flat_counted (counted_of result) }
{
    let Err(why) = answer else {
        return FlatCounted {
            refusal: 0,
            arc: 0,
            node: 0,
        };
    };
    let (arc, node) = match why {
        CountRefusal::Graph(GraphRefusal::Nodes(NodesRefusal::ArcPastEnd(arc))) => (arc, 0),
        CountRefusal::Loops(node) => (0, node),
        _ => (0, 0),
    };
    FlatCounted {
        refusal: why.number(),
        arc,
        node,
    }
}
