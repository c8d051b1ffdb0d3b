// Files for other programs. A format is a number: 0 is a DAWG, every other number a GADDAG.
ghost use Rattle.std.specs.Prelude.{◌≡◌, ◌*◌, length};
ghost use Rattle.graph.specs.Lent.{WorkKept};
ghost use Rattle.macondo_file.specs.Row.{macondo_checks, to_macondo};
ghost use Rattle.macondo.specs.Said.{format_of};
ghost use Rattle.lxd_file.specs.Row.{lxd_checks, to_lxd};
ghost use Rattle.flat.specs.FlatFiles.{format_numbered, file_of, file_written, flat_file};

use flat::{FlatFile, flat_lxd, flat_macondo, format_numbered};

// Writes the words of a graph as a Macondo file.
pub fn machirsun_to_macondo(
    nodes: &[u32],
    labels: &[u32],
    name: &[u8],
    format: u32,
    work: &mut [u32],
    file: &mut [u8],
) -> FlatFile
    ensures written { file_written result file.new
        ≡ to_macondo nodes.now labels.now name.now (format_of (format_numbered format)) (length work.old)
        file.old }
    ensures free { WorkKept (macondo_checks nodes.now labels.now name.now (length work.old))
        (8 * length nodes.now) work.old work.new }
    ensures flat { result ≡ flat_file (file_of result) }
{
    let kind = format_numbered(format);
    flat_macondo(macondo::to_macondo(nodes, labels, name, kind, work, file))
}

// Writes the LXD file of the words from node 0's arc.
pub fn machirsun_to_lxd(
    nodes: &[u32],
    labels: &[u32],
    title: &[u32],
    date: &[u32],
    work: &mut [u32],
    file: &mut [u8],
) -> FlatFile
    ensures written { file_written result file.new
        ≡ to_lxd nodes.now labels.now title.now date.now (length work.old) file.old }
    ensures free { WorkKept (lxd_checks nodes.now labels.now title.now date.now
        (length work.old)) (8 * length nodes.now) work.old work.new }
    ensures flat { result ≡ flat_file (file_of result) }
{
    flat_lxd(lxd::to_lxd(nodes, labels, title, date, work, file))
}
