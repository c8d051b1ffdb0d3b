// The file, written from the record of runs.
ghost use Rattle.std.specs.Prelude.{◌≡◌, ◌+◌, ◌*◌, ◌≤◌, length};
ghost use Rattle.std.proofs.lemmas.List.Edits.{sets};
ghost use Rattle.endian.specs.Bytes.{node_bytes};
ghost use Rattle.lxd_file.specs.File.{lxd_nodes};
ghost use Rattle.lxd.specs.Planned.{Planned, nodes_written};
ghost use Rattle.lxd.specs.Said.{lxd_written_as, after_checks};

use crate::header::write_header;
use crate::{LxdRefusal, Texts};
use endian::write_le_u32;
use lxd_blocks::{Walked, write_runs};
use survey::Labelled;

// How many nodes the file has: with no words, 3.
#[tactic(auto, unfolding(crate::specs::Planned::nodes_written))]
fn node_count(words: u32, nodes: u32) -> u32
    ensures { result ≡ nodes_written words nodes }
{
    if words == 0 { 3 } else { nodes }
}

// Writes the nodes to the bytes after the header, which must be there, from the record of the runs met from the start.
fn write_nodes(g: Labelled<'_>, work: &[u32], walked: Walked, file: &mut [u8])
    requires planned { Planned g.graph.nodes.now g.labels.now work.now walked.words walked.tally }
    requires labels_in_bounds { 64 + 4 * length (lxd_nodes g.graph.nodes.now g.labels.now) ≤ length file.old }
    ensures { file.new ≡ sets file.old 64 (node_bytes (lxd_nodes g.entry.graph.nodes.now g.entry.labels.now)) }
{
    write_le_u32(file, 64, 0x8A800000);
    write_le_u32(file, 68, 0x8A800002);
    if walked.words == 0 {
        write_le_u32(file, 72, 0x8A800000);
        return;
    }
    write_runs(g, work, walked.tally.blocks as usize, file);
}

// Writes the file where it fits, from the record of the runs met from the start.
pub(crate) fn write_file(
    g: Labelled<'_>,
    texts: Texts<'_>,
    work: &[u32],
    walked: Walked,
    file: &mut [u8],
) -> Result<usize, LxdRefusal>
    requires { Planned g.graph.nodes.now g.labels.now work.now walked.words walked.tally }
    ensures { lxd_written_as result file.new
        ≡ after_checks g.entry.graph.nodes.now g.entry.labels.now texts.entry.title.now texts.entry.date.now file.old }
{
    let count = node_count(walked.words, walked.tally.nodes);
    let long = 64 + 4 * (count as usize);
    if file.len() < long {
        return Err(LxdRefusal::FileTooShort);
    }
    write_header(file, count, texts, walked.words);
    write_nodes(g, work, walked, file);
    Ok(long)
}
