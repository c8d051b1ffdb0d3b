// From the checks of graph, labels and name to the file: the walk from the start, the sizes, the bytes.
ghost use Rattle.std.specs.Prelude.{◌≡◌, ◌≤◌, length};
ghost use Rattle.endian.specs.Bytes.{big_endian};
ghost use Rattle.graph.specs.Runs.{start_node};
ghost use Rattle.macondo_file.specs.File.{marks};
ghost use Rattle.macondo_file.specs.RowLaws.{MacondoChecked};
ghost use Rattle.macondo.specs.Said.{format_of, macondo_written_as, written_past};
ghost use Rattle.macondo.specs.BlocksHeld.{BlocksHeld};

use crate::checks::lacks_code_point;
use crate::{MacondoFormat, MacondoRefusal};
use block_record::BlockTally;
use letter_sets::number_sets;
use macondo_blocks::{ReadyGraph, number_blocks};
use macondo_writing::{SectionCounts, Tables, file_size, write_file};
use node::Node24;

// "The start node s is node 0's arc, for a Macondo gaddag node 1's arc"; there must be two nodes.
fn start_of(nodes: &[u32], format: MacondoFormat) -> usize
    requires { 2 ≤ length nodes.now }
    ensures { result ≡ start_node nodes.now (marks (format_of format)).root }
{
    let root = match format {
        MacondoFormat::Dawg => 0,
        MacondoFormat::Gaddag => 1,
    };
    Node24(nodes[root]).arc_index() as usize
}

// "`cdwg` or `cgdg`", as one number.
fn magic(format: MacondoFormat) -> u32
    ensures { big_endian 4 result ≡ (marks (format_of format)).magic }
{
    match format {
        MacondoFormat::Dawg => 0x63647767,
        MacondoFormat::Gaddag => 0x63676467,
    }
}

// Writes the file of the blocks numbered, whose record must stand in the work list, unless the file would be too large or is lent too few
// bytes. All other checks must have passed.
fn write_numbered(
    g: ReadyGraph,
    name: &[u8],
    format: MacondoFormat,
    work: &mut [u32],
    tally: BlockTally,
    file: &mut [u8],
) -> Result<usize, MacondoRefusal>
    requires macondo_checked { MacondoChecked g.nodes.now g.labels.now name.now (length work.old) }
    requires blocks_held { BlocksHeld g.nodes.now g.labels.now (format_of format) work.old tally }
    ensures { macondo_written_as result file.new
        ≡ written_past 2 g.entry.nodes.now g.entry.labels.now name.now (format_of format) file.old }
{
    if 16777216 < tally.nodes {
        return Err(MacondoRefusal::TooManyNodes);
    }
    let list = macondo_blocks::letters(g.labels);
    let ranks = macondo_blocks::ranks(&list[..g.labels.len() - 1]);
    let counts = SectionCounts {
        blocks: tally.blocks,
        sets: number_sets(g.nodes, &ranks, work, tally.blocks as usize),
        nodes: tally.nodes,
    };
    let size = file_size(g.labels.len(), name.len(), counts);
    if file.len() < size {
        return Err(MacondoRefusal::FileTooShort);
    }
    let t = Tables {
        letters: &list,
        ranks: &ranks,
        work,
        counts,
    };
    write_file(g, name, magic(format), t, file);
    Ok(size)
}

// The walk and what comes after it, of graph, labels and name that have passed the checks before it. Never inlined, so that its loops have
// the registers to themselves.
#[inline(never)]
pub(crate) fn write_checked(
    g: ReadyGraph,
    name: &[u8],
    format: MacondoFormat,
    work: &mut [u32],
    file: &mut [u8],
) -> Result<usize, MacondoRefusal>
    requires { MacondoChecked g.nodes.now g.labels.now name.now (length work.old) }
    ensures { macondo_written_as result file.new
        ≡ written_past 0 g.entry.nodes.now g.entry.labels.now name.now (format_of format) file.old }
{
    let s = start_of(g.nodes, format);
    let reached = number_blocks(g, work, s)?;
    if lacks_code_point(g.labels) {
        return Err(MacondoRefusal::NotOneCodePoint);
    }
    write_numbered(g, name, format, work, reached.tally, file)
}
