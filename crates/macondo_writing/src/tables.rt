// What is numbered before a byte is written: blocks and letter sets, in the work list.
ghost use Rattle.std.specs.Prelude.{◌≡◌, ◌+◌, ◌-◌, ◌*◌, ◌≤◌, ◌<◌};

// The blocks and sets in the work list, and the nodes that the file will have.
#[derive(Clone, Copy)]
pub struct SectionCounts {
    pub blocks: u32,
    pub sets: u32,
    pub nodes: u32,
}

// What a file is written from: a list that begins with the letters in rank order, the letter of each tile, and the work list with the blocks and the sets.
#[derive(Clone, Copy)]
pub struct Tables<'a> {
    pub letters: &'a [u32],
    pub ranks: &'a [u8; 64],
    pub work: &'a [u32],
    pub counts: SectionCounts,
}

// The length of a file with a name of so many bytes; there must be a label, and at most 50, and the name must not be too long.
pub fn file_size(labels: usize, name: usize, counts: SectionCounts) -> usize
    requires { (0 < labels) × (labels ≤ 50) × (name ≤ 255) }
    ensures { result ≡ 17 + name + 4 * (labels - 1) + 8 * counts.sets + 4 * counts.nodes }
{
    17 + name + 4 * (labels - 1) + 8 * (counts.sets as usize) + 4 * (counts.nodes as usize)
}
