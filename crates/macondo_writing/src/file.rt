// The file whole, from the tables.
ghost use Rattle.std.specs.Prelude.{◌≡◌, ℕ, ◌+◌, ◌-◌, ◌*◌, ◌≤◌, ◌<◌, length, get_or};
ghost use Rattle.std.proofs.lemmas.List.Edits.{sets};
ghost use Rattle.macondo_writing.specs.FileTables.{file_in, TablesFilled};

use crate::nodes::write_nodes;
use crate::sections::{write_code_points, write_opening, write_sets};
use crate::tables::Tables;
use macondo_blocks::ReadyGraph;

// Writes the file from tables that hold what it needs, with the format's magic as one number; the letters must have labels, and the bytes
// must be there.
pub fn write_file(g: ReadyGraph, name: &[u8], magic: u32, t: Tables, file: &mut [u8])
    requires tables_filled { TablesFilled g.nodes.now g.labels.now t.ranks.now t.work.now t.counts }
    requires labels_nonzero { (0 < length g.labels.now) × (length g.labels.now - 1 ≤ length t.letters.now) × (length name.now ≤ 255) }
    requires by_index { (i : ℕ) → i < length g.labels.now - 1 → get_or t.letters.now i 0 < length g.labels.now }
    requires nodes_in_bounds { 17 + length name.now + 4 * (length g.labels.now - 1) + 8 * t.counts.sets + 4 * t.counts.nodes ≤ length file.old }
    ensures { file.new ≡ sets file.old 0
        (file_in magic name.now g.entry.nodes.now g.entry.labels.now t.entry.letters.now t.entry.ranks.now t.entry.work.now
        t.entry.counts) }
{
    let letters = &t.letters[..g.labels.len() - 1];
    let set_count = t.counts.sets as usize;
    let letters_at = 5 + name.len();
    let sets_at = letters_at + 4 + 4 * letters.len();
    let nodes_at = sets_at + 4 + 8 * set_count;
    write_opening(magic, name, file);
    write_code_points(g.labels, letters, file, letters_at);
    write_sets(t.work, g.nodes.len(), set_count, file, sets_at);
    write_nodes(g, t, file, nodes_at);
}
