// An input is loaded and its words are counted, before any line is made.
ghost use Rattle.std.specs.Prelude.{◌≡◌, ◌<◌, length, Ok};
ghost use Rattle.graph.specs.Runs.{start_node};
ghost use Rattle.listing.specs.Wordlist.{most_bytes, LongEnough, load_input};
ghost use Rattle.listing.specs.Said.{open_why, unprinted_by, LoadsAs, at_start, CountsAs, OpensRead};
ghost use Rattle.listing.specs.declared.opening.OpenRefusal.TheVariants as O;

use answers::Refuses;
use count::CountRefusal;
use load::{BeginRefusal, FinishRefusal, Loader};
use node::{Layout, Node24};

// The most nodes of an input, and their bytes.
pub const NODES: usize = 4096;

const MOST_BYTES: usize = 16384;

// One byte more than the longest input that is accepted, so that a longer one is noticed.
pub const INPUT: usize = 16385;

// Two numbers a node, to count the words in.
pub const WORK: usize = 8192;

// What is left to print: a refusal's line, which shows its number alone, or the lines of words `next` to `count - 1` of those from the
// start. It is no result: `next_block` prints either and hands on what is left.
#[derive(Clone, Copy)]
pub enum Unprinted {
    Refusal(u32),
    Words { start: u32, count: u32, next: u32 },
}

// Why an input is not listed.
#[derive(Clone, Copy, Debug, PartialEq, Eq)]
pub enum OpenRefusal {
    TooLong,
    Begin(BeginRefusal),
    Finish(FinishRefusal),
    Count(CountRefusal),
}

impl From<BeginRefusal> for OpenRefusal {
    ghost from_gives = { λ why e. e ≡ O.Begin why };

    fn from(why: BeginRefusal) -> OpenRefusal {
        OpenRefusal::Begin(why)
    }
}

impl From<FinishRefusal> for OpenRefusal {
    ghost from_gives = { λ why e. e ≡ O.Finish why };

    fn from(why: FinishRefusal) -> OpenRefusal {
        OpenRefusal::Finish(why)
    }
}

impl From<CountRefusal> for OpenRefusal {
    ghost from_gives = { λ why e. e ≡ O.Count why };

    fn from(why: CountRefusal) -> OpenRefusal {
        OpenRefusal::Count(why)
    }
}

impl Refuses for OpenRefusal {
    ghost refusal = { open_why };

    fn number(&self) -> u32 {
        match self {
            OpenRefusal::TooLong => 2,
            OpenRefusal::Begin(why) => why.number(),
            OpenRefusal::Finish(why) => why.number(),
            OpenRefusal::Count(why) => why.number(),
        }
    }
}

// Where the words begin, and how many there are.
#[derive(Clone, Copy)]
pub struct StartWords {
    pub start: u32,
    pub count: u32,
}

// Loads the input in one piece, and answers how many nodes it has. Where feed refuses, finish does too.
fn load_input(input: &[u8], nodes: &mut [u32]) -> Result<usize, OpenRefusal>
    ensures { LoadsAs (load_input input.now nodes.old) result nodes.new }
{
    let begun = Loader::begin(input.len(), Layout::Kwg, nodes);
    let fed = begun.loader.feed(input, nodes);
    let finished = fed.loader.finish(nodes);
    begun.answer?;
    Ok(finished?)
}

// The words from node 0's arc; the start must be among the counts.
fn at_start(nodes: &[u32], counts: &[u32]) -> StartWords
    requires { (0 < length nodes.now) × (start_node nodes.now 0 < length counts.now) }
    ensures { unprinted_by (Ok result) ≡ at_start nodes.now counts.now }
{
    let start = Node24(nodes[0]).arc_index();
    let count = if start == 0 {
        0
    } else {
        counts[start as usize]
    };
    StartWords { start, count }
}

fn count_loaded(
    nodes: &[u32],
    counts: &mut [u32],
    work: &mut [u32],
) -> Result<StartWords, OpenRefusal>
    ensures { CountsAs nodes.now counts.old work.old (unprinted_by result) counts.new work.new }
{
    count::count_words(nodes, counts, work)?;
    Ok(at_start(nodes, counts))
}

// Opens an input of which `read` bytes are in a buffer of more than 16,384 bytes; the lists must be long enough for 4,096 nodes.
fn open_read(
    input: &[u8],
    read: usize,
    nodes: &mut [u32],
    counts: &mut [u32],
    work: &mut [u32],
) -> Result<StartWords, OpenRefusal>
    requires { (most_bytes < length input.now) × LongEnough nodes.old counts.old work.old }
    ensures { OpensRead input.now read nodes.old counts.old work.old (unprinted_by result) nodes.new
        counts.new work.new }
{
    if MOST_BYTES < read {
        return Err(OpenRefusal::TooLong);
    }
    let count = load_input(&input[..read], nodes)?;
    count_loaded(&nodes[..count], counts, work)
}

// Loads a KWG of up to 4,096 nodes and counts its words. `read` is how many of its first bytes are in `input`; it stands beside the buffer
// and cuts no slice off it, since it may be any number, and `WholeOutput` speaks of both.
pub fn open(
    input: &[u8; INPUT],
    read: usize,
    nodes: &mut [u32; NODES],
    counts: &mut [u32; NODES],
    work: &mut [u32; WORK],
) -> Unprinted
    ensures { OpensRead input.now read nodes.old counts.old work.old result nodes.new
        counts.new work.new }
{
    match open_read(input, read, nodes, counts, work) {
        Ok(words) => Unprinted::Words {
            start: words.start,
            count: words.count,
            next: 0,
        },
        Err(why) => Unprinted::Refusal(why.number()),
    }
}
