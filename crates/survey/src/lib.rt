// The LXD writer's survey of a graph from a start: the runs in the longest chain, the words, and whether a label that can be reached has
// no byte. With N nodes, three tables of N numbers at the front of the work list keep what is known of the run from each node: its runs
// (0 where nothing is known yet), its words, and 1 where a label has no byte. A run is filled in from its last node, or from the one
// before a node that is known already, back to where it was entered, so that each node is filled in once. The tables are no lists of their
// own, since the caller lends all memory as one list.
// Where a function takes a place, it must be in the graph, and the work list must have room for the tables, which must be right.
#![tactic(auto)]

ghost use Rattle.std.specs.Prelude.{◌≡◌, true, false, ◌||◌, ◌+◌, ◌*◌, ◌<◌, ◌≤◌, length};
ghost use Rattle.base.specs.Numbers.{most};
ghost use Rattle.node.specs.Nodes.{kbwg, tile, arc};
ghost use Rattle.export.specs.Starts.{has_arc, unlabelled};
ghost use Rattle.survey.specs.RunCounted.{words_through};
ghost use Rattle.survey.specs.Survey.{node_joined, findings_at, findings_kept, findings_after, if_shallow};
ghost use Rattle.survey.specs.Survey.{LastIs, SurveyTables, SurveyAnswers, SurveyIs};

use graph::FitGraph;
use node::Node24;
use windows1252::no_byte;

// A graph that has passed the checks 10, 8, 9 and 21, and the code point of each tile.
#[derive(Clone, Copy)]
pub struct Labelled<'a> {
    pub graph: FitGraph<'a>,
    pub labels: &'a [u32],
    pub ghost labelled: { unlabelled graph.nodes.now labels.now ≡ false },
}

// What is known of a run: the runs in the longest chain from it, itself included, its words (at most 4,294,967,295), and whether a label
// that can be reached has no byte. The last is a fact of its own: no value goes with it.
#[derive(Clone, Copy)]
pub struct Findings {
    pub runs: u32,
    pub words: u32,
    pub byteless: bool,
}

// What is known of no run.
const NO_RUN: Findings = Findings {
    runs: 0,
    words: 0,
    byteless: false,
};

// A chain has more runs than may follow one another.
#[derive(Clone, Copy, Debug, PartialEq, Eq)]
pub struct ChainTooDeep;

// The words through a node: its own, where it ends one, and those of the run that its arc leads to; at most 4,294,967,295.
pub fn words_through(node: u32, child: u32) -> u32
    ensures { result ≡ words_through node child }
{
    u32::from(Node24(node).accepts()).saturating_add(child)
}

// What is known of a run by its first node, the run that this node's arc leads to, and the rest. The node's tile must have a label, and
// one run more must be a number.
fn join_node(labels: &[u32], node: u32, child: Findings, rest: Findings) -> Findings
    requires node_in_bounds { tile kbwg node < length labels.now }
    requires runs_lt_most { child.runs < most }
    ensures { result ≡ node_joined labels.now node child rest }
{
    let label = labels[Node24(node).tile() as usize];
    Findings {
        runs: (child.runs + 1).max(rest.runs),
        words: words_through(node, child.words).saturating_add(rest.words),
        byteless: no_byte(label) || child.byteless || rest.byteless,
    }
}

// What three tables of n numbers say of the run from q; the list must hold them, and q must be below n.
fn read_findings(work: &[u32], n: usize, q: usize) -> Findings
    requires q_lt_n { q < n }
    requires n_in_bounds { 3 * n ≤ length work.now }
    ensures { result ≡ findings_at n work.now q }
{
    Findings {
        runs: work[q],
        words: work[n + q],
        byteless: work[2 * n + q] == 1,
    }
}

// Puts what is known of the run from q into three tables of n numbers; the list must hold them, and q must be below n.
fn keep_findings(work: &mut [u32], n: usize, q: usize, run: Findings)
    requires q_lt_n { q < n }
    requires n_in_bounds { 3 * n ≤ length work.old }
    ensures { work.new ≡ findings_kept n work.old q run }
{
    work[q] = run.runs;
    work[n + q] = run.words;
    work[2 * n + q] = u32::from(run.byteless);
}

// The last node of the run from p before one that is known, or the run's last.
fn last_unknown(g: FitGraph<'_>, work: &[u32], p: usize) -> usize
    requires p_in_bounds { p < length g.nodes.now }
    requires nodes_in_bounds { length g.nodes.now ≤ length work.now }
    ensures { LastIs g.entry.nodes.now work.now p result }
{
    let mut at = p;
    // A run ends by a bit of its last node, so no range says how many nodes it has.
    while !Node24(g.nodes[at]).is_end() && work[at + 1] == 0 {
        at += 1;
    }
    at
}

// What the tables say of the run after its node `at`.
fn findings_after(g: FitGraph<'_>, work: &[u32], at: usize) -> Findings
    requires at_in_bounds { at < length g.nodes.now }
    requires nodes_in_bounds { 3 * length g.nodes.now ≤ length work.now }
    ensures { result ≡ findings_after g.entry.nodes.now work.now at }
{
    if Node24(g.nodes[at]).is_end() {
        NO_RUN
    } else {
        read_findings(work, g.nodes.len(), at + 1)
    }
}

// A run, where it has no more runs in a chain than are left.
fn if_shallow(run: Findings, chain_left: u32) -> Result<Findings, ChainTooDeep>
    ensures { result ≡ if_shallow run chain_left }
{
    if chain_left < run.runs {
        return Err(ChainTooDeep);
    }
    Ok(run)
}

// What a node's arc leads to: no run, or one that is looked up in the tables before it is surveyed.
#[cycle(survey_arc_survey_run)]
fn survey_arc(
    g: &Labelled<'_>,
    work: &mut [u32],
    node: u32,
    chain_left: u32,
) -> Result<Findings, ChainTooDeep>
    requires survey_tables { SurveyTables g.now.graph.nodes.now g.now.labels.now work.old }
    requires node_in_bounds { arc kbwg node < length g.now.graph.nodes.now }
    ensures run { SurveyAnswers g.now.graph.nodes.now g.now.labels.now (has_arc node) (arc kbwg node) chain_left result }
    ensures tables { SurveyTables g.now.graph.nodes.now g.now.labels.now work.new }
{
    let arc = Node24(node).arc_index() as usize;
    if arc == 0 {
        return Ok(NO_RUN);
    }
    if work[arc] == 0 {
        return survey_run(g, work, arc, chain_left);
    }
    if_shallow(read_findings(work, g.graph.nodes.len(), arc), chain_left)
}

// The run from node p, with so many runs left in the chain. What it goes over is lent by reference, since each run in the chain has its place on the stack.
#[cycle(survey_arc_survey_run)]
fn survey_run(
    g: &Labelled<'_>,
    work: &mut [u32],
    p: usize,
    chain_left: u32,
) -> Result<Findings, ChainTooDeep>
    requires survey_tables { SurveyTables g.now.graph.nodes.now g.now.labels.now work.old }
    requires p_in_bounds { p < length g.now.graph.nodes.now }
    ensures run { SurveyAnswers g.now.graph.nodes.now g.now.labels.now true p chain_left result }
    ensures tables { SurveyTables g.now.graph.nodes.now g.now.labels.now work.new }
{
    if chain_left == 0 {
        return Err(ChainTooDeep);
    }
    let last = last_unknown(g.graph, work, p);
    let mut run = findings_after(g.graph, work, last);
    for at in (p..last + 1).rev() {
        let node = g.graph.nodes[at];
        let child = survey_arc(g, work, node, chain_left - 1)?;
        run = join_node(g.labels, node, child, run);
        keep_findings(work, g.graph.nodes.len(), at, run);
    }
    if_shallow(run, chain_left)
}

// The survey from node s. The work list must be at least 3 × N numbers long.
pub fn survey(g: Labelled<'_>, work: &mut [u32], s: usize) -> Result<Findings, ChainTooDeep>
    requires nodes_in_bounds { 3 * length g.graph.nodes.now ≤ length work.old }
    requires s_in_bounds { s < length g.graph.nodes.now }
    ensures { SurveyIs g.entry.graph.nodes.now g.entry.labels.now 64 s result }
{
    work[..g.graph.nodes.len()].fill(0);
    survey_run(&g, work, s, 64)
}
