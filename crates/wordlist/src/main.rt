// Lists the words of a KWG on standard input, a line each: the number, a tab, the tiles.
#![tactic(auto)]

use listing::{BLOCK, INPUT, NODES, WORK};
use std::io;
use std::io::Write;

fn main(rt: HostRuntime) -> io::Result<()> {
    let mut input = [0u8; INPUT];
    let read = console::read_full(&mut rt.stdin(), &mut input)?;
    print_list(&mut rt.stdout(), &input, read)
}

// A write that fails ends the list.
fn print_list<W: Write>(writer: &mut W, input: &[u8; INPUT], read: usize) -> io::Result<()> {
    let mut nodes = [0u32; NODES];
    let mut counts = [0u32; NODES];
    let mut work = [0u32; WORK];
    let mut block = [0u8; BLOCK];
    let mut unprinted = listing::open(input, read, &mut nodes, &mut counts, &mut work);
    // What is left after a block stands in the block made, so each is asked for by the last.
    while let Some(made) = listing::next_block(&nodes, &counts, unprinted, &mut block) {
        writer.write_all(&block[..made.written])?;
        unprinted = made.unprinted;
    }
    Ok(())
}
