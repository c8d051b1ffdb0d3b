// Writes a graph as a file for Macondo.
#![tactic(auto)]

mod checks;
mod walk;

ghost use Rattle.std.specs.Prelude.{◌≡◌, ◌*◌, length};
ghost use Rattle.graph.specs.Lent.{WorkKept};
ghost use Rattle.macondo_file.specs.Row.{macondo_checks, to_macondo};
ghost use Rattle.macondo.specs.Said.{format_of, macondo_refusal, macondo_written_as};
ghost use Rattle.macondo.specs.declared.MacondoRefusal.TheVariants as M;

use answers::Refuses;
use checks::check;
use graph::GraphRefusal;
use macondo_blocks::TooDeep;
use walk::write_checked;

#[derive(Clone, Copy)]
pub enum MacondoFormat {
    Dawg,
    Gaddag,
}

// Why no file is written.
#[derive(Clone, Copy, Debug, PartialEq, Eq)]
pub enum MacondoRefusal {
    Graph(GraphRefusal),
    LabelCount,
    NameTooLong,
    NoLabel,
    NotAscending,
    WorkTooShort,
    ChainTooLong,
    NotOneCodePoint,
    TooManyNodes,
    FileTooShort,
}

impl Refuses for MacondoRefusal {
    ghost refusal = { macondo_refusal };

    fn number(&self) -> u32 {
        match self {
            MacondoRefusal::Graph(why) => why.number(),
            MacondoRefusal::LabelCount => 18,
            MacondoRefusal::NameTooLong => 19,
            MacondoRefusal::NoLabel => 21,
            MacondoRefusal::NotAscending => 24,
            MacondoRefusal::WorkTooShort | MacondoRefusal::FileTooShort => 11,
            MacondoRefusal::ChainTooLong => 22,
            MacondoRefusal::NotOneCodePoint => 23,
            MacondoRefusal::TooManyNodes => 25,
        }
    }
}

impl From<GraphRefusal> for MacondoRefusal {
    ghost from_gives = { λ why e. e ≡ M.Graph why };

    fn from(why: GraphRefusal) -> MacondoRefusal {
        MacondoRefusal::Graph(why)
    }
}

impl From<TooDeep> for MacondoRefusal {
    ghost from_gives = { λ why e. e ≡ M.ChainTooLong };

    fn from(_why: TooDeep) -> MacondoRefusal {
        MacondoRefusal::ChainTooLong
    }
}

// Writes the words of a graph as a Macondo file; labels are one number a tile, the blank's first. Answers the file's length. The work list is
// free afterwards as far as 8 numbers a node.
pub fn to_macondo(
    nodes: &[u32],
    labels: &[u32],
    name: &[u8],
    format: MacondoFormat,
    work: &mut [u32],
    file: &mut [u8],
) -> Result<usize, MacondoRefusal>
    ensures written { macondo_written_as result file.new
        ≡ to_macondo nodes.now labels.now name.now (format_of format) (length work.old)
        file.old }
    ensures free { WorkKept (macondo_checks nodes.now labels.now name.now (length work.old))
        (8 * length nodes.now) work.old work.new }
{
    let g = check(nodes, labels, name, work.len())?;
    write_checked(g, name, format, &mut work[..8 * nodes.len()], file)
}
