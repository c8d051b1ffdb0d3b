// Writing a graph's words as an LXD file.
#![tactic(auto)]

mod checks;
mod file;
mod header;

ghost use Rattle.std.specs.Prelude.{◌≡◌, false, ◌+◌, ◌*◌, ◌^◌, ◌≤◌, ◌<◌, length};
ghost use Rattle.laws.specs.Lists.{some_of};
ghost use Rattle.graph.specs.Runs.{start_node};
ghost use Rattle.graph.specs.Lent.{WorkKept};
ghost use Rattle.survey.specs.Survey.{byteless, SurveyIs};
ghost use Rattle.lxd_file.specs.File.{reached};
ghost use Rattle.lxd_file.specs.Row.{lxd_checks, to_lxd};
ghost use Rattle.lxd.specs.Said.{lxd_refusal, lxd_written_as, after_checks, WalkRefuses};
ghost use Rattle.lxd.specs.declared.LxdRefusal.TheVariants as L;

use answers::Refuses;
use block_record::BlockTally;
use checks::{check, lacks_byte};
use file::write_file;
use graph::{FitGraph, GraphRefusal};
use lxd_blocks::{WalkRefusal, number_run};
use node::Node24;
use survey::{ChainTooDeep, Findings, Labelled, survey};

// Why no file is written.
#[derive(Clone, Copy, Debug, PartialEq, Eq)]
pub enum LxdRefusal {
    Graph(GraphRefusal),
    TitleNotWindows1252,
    TitleTooLong,
    DateNotWindows1252,
    DateTooLong,
    NoLabel,
    WorkTooShort,
    ChainTooLong,
    LetterNotWindows1252,
    TooManyWords,
    TooManyNodes,
    FileTooShort,
}

impl Refuses for LxdRefusal {
    ghost refusal = { lxd_refusal };

    fn number(&self) -> u32 {
        match self {
            LxdRefusal::Graph(why) => why.number(),
            LxdRefusal::TitleNotWindows1252 | LxdRefusal::DateNotWindows1252 => 20,
            LxdRefusal::TitleTooLong | LxdRefusal::DateTooLong => 19,
            LxdRefusal::NoLabel => 21,
            LxdRefusal::WorkTooShort | LxdRefusal::FileTooShort => 11,
            LxdRefusal::ChainTooLong => 22,
            LxdRefusal::LetterNotWindows1252 => 23,
            LxdRefusal::TooManyWords => 13,
            LxdRefusal::TooManyNodes => 25,
        }
    }
}

impl From<GraphRefusal> for LxdRefusal {
    ghost from_gives = { λ why e. e ≡ L.Graph why };

    fn from(why: GraphRefusal) -> LxdRefusal {
        LxdRefusal::Graph(why)
    }
}

impl From<ChainTooDeep> for LxdRefusal {
    ghost from_gives = { λ why e. e ≡ L.ChainTooLong };

    fn from(_why: ChainTooDeep) -> LxdRefusal {
        LxdRefusal::ChainTooLong
    }
}

// What a file is called, and when it is from.
#[derive(Clone, Copy)]
pub(crate) struct Texts<'a> {
    pub title: &'a [u32],
    pub date: &'a [u32],
}

// The node where the words begin.
fn start_node(g: FitGraph<'_>) -> usize
    ensures start { result ≡ start_node g.entry.nodes.now 0 }
    ensures inside { result < length g.entry.nodes.now }
{
    Node24(g.nodes[0]).arc_index() as usize
}

// The survey from the node where the words begin. The work list must be 8 × N long.
fn survey_start(g: Labelled<'_>, work: &mut [u32]) -> Result<Findings, ChainTooDeep>
    requires nodes_in_bounds { 8 * length g.graph.nodes.now ≤ length work.old }
    ensures { SurveyIs g.entry.graph.nodes.now g.entry.labels.now 64 (start_node g.entry.graph.nodes.now 0) result }
{
    survey(g, work, start_node(g.graph))
}

// Why a file with too many nodes is not written: chains and words are tested before the nodes. No label that is reached may lack a byte, and
// the work list must be 8 × N long.
fn refuse_too_many(g: Labelled<'_>, work: &mut [u32]) -> LxdRefusal
    requires nodes_in_bounds { 8 * length g.graph.nodes.now ≤ length work.old }
    requires nodes_value { some_of (byteless g.labels.now) (reached g.graph.nodes.now) ≡ false }
    requires bound { 2 ^ 22 < 2 + length (reached g.graph.nodes.now) }
    ensures { WalkRefuses g.entry.graph.nodes.now g.entry.labels.now result }
{
    match survey_start(g, work) {
        Err(deep) => LxdRefusal::from(deep),
        Ok(found) if found.words == u32::MAX => LxdRefusal::TooManyWords,
        Ok(_) => LxdRefusal::TooManyNodes,
    }
}

// Numbers the runs and writes the file. No label that is reached may lack a byte, and the work list must be 8 × N long.
fn write_numbered(
    g: Labelled<'_>,
    texts: Texts<'_>,
    work: &mut [u32],
    file: &mut [u8],
) -> Result<usize, LxdRefusal>
    requires nodes_in_bounds { 8 * length g.graph.nodes.now ≤ length work.old }
    requires nodes_value { some_of (byteless g.labels.now) (reached g.graph.nodes.now) ≡ false }
    ensures { lxd_written_as result file.new
        ≡ after_checks g.entry.graph.nodes.now g.entry.labels.now texts.entry.title.now texts.entry.date.now file.old }
{
    work[..g.graph.nodes.len()].fill(0);
    let none = BlockTally {
        blocks: 0,
        nodes: 2,
    };
    match number_run(g.graph, work, start_node(g.graph), none, 64) {
        Ok(walked) if walked.words == u32::MAX => Err(LxdRefusal::TooManyWords),
        Ok(walked) => write_file(g, texts, work, walked, file),
        Err(WalkRefusal::TooDeep) => Err(LxdRefusal::ChainTooLong),
        Err(WalkRefusal::TooMany) => Err(refuse_too_many(g, work)),
    }
}

// Writes the file. Only where some label has no byte are the labels that are reached looked at, by the survey. The work list must be
// 8 × N long.
fn write_checked(
    g: Labelled<'_>,
    texts: Texts<'_>,
    work: &mut [u32],
    file: &mut [u8],
) -> Result<usize, LxdRefusal>
    requires nodes_in_bounds { 8 * length g.graph.nodes.now ≤ length work.old }
    ensures { lxd_written_as result file.new
        ≡ after_checks g.entry.graph.nodes.now g.entry.labels.now texts.entry.title.now texts.entry.date.now file.old }
{
    if lacks_byte(g.labels) && survey_start(g, work)?.byteless {
        return Err(LxdRefusal::LetterNotWindows1252);
    }
    write_numbered(g, texts, work, file)
}

// Writes the LXD file of the words from node 0's arc, and answers its length.
pub fn to_lxd(
    nodes: &[u32],
    labels: &[u32],
    title: &[u32],
    date: &[u32],
    work: &mut [u32],
    file: &mut [u8],
) -> Result<usize, LxdRefusal>
    ensures written { lxd_written_as result file.new
        ≡ to_lxd nodes.now labels.now title.now date.now (length work.old) file.old }
    ensures free { WorkKept (lxd_checks nodes.now labels.now title.now date.now (length work.old))
        (8 * length nodes.now) work.old work.new }
{
    let texts = Texts { title, date };
    let g = check(nodes, labels, texts, work.len())?;
    let free = 8 * nodes.len();
    write_checked(g, texts, &mut work[..free], file)
}
