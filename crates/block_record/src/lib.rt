// The record of blocks already numbered, in a work list: for each node 0, or the place of its block plus 1; then, from n on, the blocks
// in the order of their places; and from 2n on, for each node whose block's arcs are all followed, the runs in the longest chain from it.
// The functions take the list and n apart: the walks lend the list on as a slice, and keep more in it than the record.
#![tactic(auto)]

ghost use Rattle.std.specs.Prelude.{◌≡◌, ◌+◌, ◌*◌, ◌≤◌, ◌<◌, length, get_or, set};
ghost use Rattle.block_record.specs.Record.{place_at, child_in, Pushed};
ghost use Rattle.block_record.specs.Depths.{depth_at};

// What the record says of a node: where its block stands. Document 01 names this enum: "let else on the block record's enum: Numbered(at),
// otherwise number the child first".
#[derive(Clone, Copy, Debug, PartialEq, Eq)]
pub enum Place {
    Numbered(u32),
    Unnumbered,
}

// The blocks numbered, and the nodes of the file so far.
#[derive(Clone, Copy)]
pub struct BlockTally {
    pub blocks: u32,
    pub nodes: u32,
}

// Node p's block; the work list must have an entry for p.
pub fn place_of(work: &[u32], p: usize) -> Place
    requires { p < length work.now }
    ensures { result ≡ place_at work.now p }
{
    match work[p].checked_sub(1) {
        Some(at) => Place::Numbered(at),
        None => Place::Unnumbered,
    }
}

// Where the block that an arc leads to stands by the record, which must have an entry for it; arc 0 leads nowhere. The entry is read before it
// is known whether it is asked for, so that no branch can be mispredicted.
#[tactic(auto, unfolding(crate::specs::Record::child_in))]
pub fn child_place(work: &[u32], arc: u32) -> u32
    requires { arc < length work.now }
    ensures { result ≡ child_in work.now arc }
{
    let place = place_of(work, arc as usize);
    if arc == 0 {
        return 0;
    }
    let Place::Numbered(at) = place else {
        return 0;
    };
    at
}

// Numbers the block of node p, which takes `size` nodes; the record must have room for it, and the sum must fit 32 bits.
pub fn push_block(n: usize, work: &mut [u32], p: usize, t: BlockTally, size: u32) -> BlockTally
    requires { (n ≤ 16777216) × (n + n ≤ length work.old) × (p < n) × (t.blocks < n) × (t.nodes + size < 4294967296) × (t.nodes < 4294967295) }
    ensures { Pushed n work.old p t size work.new result }
{
    let at = n + (t.blocks as usize);
    work[p] = t.nodes + 1;
    work[at] = p as u32;
    BlockTally {
        blocks: t.blocks + 1,
        nodes: t.nodes + size,
    }
}

// The runs in the longest chain from node p, 0 while they are not known; the work list must have an entry for them.
pub fn depth_of(n: usize, work: &[u32], p: usize) -> u32
    requires { (p < n) × (3 * n ≤ length work.now) }
    ensures { result ≡ get_or work.now (depth_at n p) 0 }
{
    work[2 * n + p]
}

// Keeps the runs in the longest chain from node p; the work list must have an entry for them.
pub fn keep_depth(n: usize, work: &mut [u32], p: usize, depth: u32)
    requires { (p < n) × (3 * n ≤ length work.old) }
    ensures { work.new ≡ set work.old (depth_at n p) depth }
{
    work[2 * n + p] = depth;
}
