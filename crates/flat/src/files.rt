// Files for other programs. A format is a number: 0 is a DAWG, every other number a GADDAG.
ghost use Rattle.std.specs.Prelude.{◌≡◌};
ghost use Rattle.answers.specs.Answers.{as_answer};
ghost use Rattle.graph.specs.Checks.{graph_why};
ghost use Rattle.macondo.specs.Said.{said_macondo};
ghost use Rattle.lxd.specs.Said.{said_lxd};
ghost use Rattle.flat.specs.Flat.{arc_carried};
ghost use Rattle.flat.specs.FlatFiles.{format_numbered, file_of, flat_file};

use answers::Refuses;
use graph::{GraphRefusal, NodesRefusal};
use lxd::LxdRefusal;
use macondo::{MacondoFormat, MacondoRefusal};

// What a writer answers: the file's length in bytes.
#[repr(C)]
#[derive(Clone, Copy)]
pub struct FlatFile {
    pub refusal: u32,
    pub arc: u32,
    pub written: usize,
}

fn file(refusal: u32, arc: u32, written: usize) -> FlatFile
    ensures { result ≡ record { refusal = refusal; arc = arc; written = written } }
{
    FlatFile {
        refusal,
        arc,
        written,
    }
}

// A format is a number in the C interface.
pub fn format_numbered(number: u32) -> MacondoFormat
    ensures { result ≡ format_numbered number }
{
    if number == 0 {
        MacondoFormat::Dawg
    } else {
        MacondoFormat::Gaddag
    }
}

// The arc that the refusal of a graph carries, or 0.
fn arc_past_end(why: GraphRefusal) -> u32
    ensures { result ≡ arc_carried (as_answer (graph_why why)) }
{
    match why {
        GraphRefusal::Nodes(NodesRefusal::ArcPastEnd(arc)) => arc,
        _ => 0,
    }
}

// The like of `flat_lxd`: a trait for the arc that a writer's refusal carries would be longer than the two.
pub fn flat_macondo(answer: Result<usize, MacondoRefusal>) -> FlatFile
    ensures answer { file_of result ≡ said_macondo answer }
    ensures flat { result ≡ flat_file (file_of result) }
{
    match answer {
        Ok(written) => file(0, 0, written),
        Err(MacondoRefusal::Graph(why)) => file(why.number(), arc_past_end(why), 0),
        Err(why) => file(why.number(), 0, 0),
    }
}

pub fn flat_lxd(answer: Result<usize, LxdRefusal>) -> FlatFile
    ensures answer { file_of result ≡ said_lxd answer }
    ensures flat { result ≡ flat_file (file_of result) }
{
    match answer {
        Ok(written) => file(0, 0, written),
        Err(LxdRefusal::Graph(why)) => file(why.number(), arc_past_end(why), 0),
        Err(why) => file(why.number(), 0, 0),
    }
}
