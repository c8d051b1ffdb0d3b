// Loads document 01's five nodes in pieces, and prints in hexadecimal what each load leaves: the answers of begin, of every feed and of
// finish, the bytes taken, and the nodes. Lent entries that no call may write are 9 among the answers and 7 among the nodes.
#![tactic(auto)]

use answers::Refuses;
use console::Output;
use graph::NodesRefusal;
use load::{FinishRefusal, StateRefusal};
use node::Layout;
use std::io;
use std::io::Write;

fn main(rt: HostRuntime) -> io::Result<()> {
    let mut output = Output::new(rt.stdout());
    show_loads(&mut output);
    output.finish()
}

fn show_loads<W: Write>(output: &mut Output<W>) {
    let g = b"\x02\x00\x40\x00\x00\x00\x40\x00\x04\x00\x80\x01\x04\x00\x40\x02\x00\x00\xC0\x02";
    // The third node has tile 64.
    let wide = b"\x02\x00\x40\x00\x00\x00\x40\x00\x04\x00\x80\x40\x04\x00\x40\x02\x00\x00\xC0\x02";
    let one = b"\x00\x00\x40\x00";
    show_load(output, b"in one piece\n", 20, g, &[], &mut [9; 2]);
    show_load(
        output,
        b"cut inside nodes, one piece empty\n",
        20,
        g,
        &[5, 2, 0],
        &mut [9; 5],
    );
    show_load(
        output,
        b"by three bytes\n",
        20,
        g,
        &[3, 3, 3, 3, 3, 3],
        &mut [9; 8],
    );
    show_load(
        output,
        b"a cut past the end\n",
        20,
        g,
        &[21, 3],
        &mut [9; 4],
    );
    show_load(
        output,
        b"room for two answers of four\n",
        20,
        g,
        &[5, 2, 0],
        &mut [9; 2],
    );
    show_load(output, b"room for no answer\n", 20, g, &[5, 2, 0], &mut []);
    show_load(
        output,
        b"12 bytes announced: a piece too long, then one that is not\n",
        12,
        g,
        &[8, 8],
        &mut [9; 4],
    );
    show_load(
        output,
        b"24 bytes announced: bytes are missing\n",
        24,
        g,
        &[7],
        &mut [9; 3],
    );
    show_load(output, b"7 bytes announced\n", 7, g, &[7], &mut [9; 3]);
    show_load(
        output,
        b"28 bytes announced for 6 nodes\n",
        28,
        g,
        &[7],
        &mut [9; 3],
    );
    show_load(
        output,
        b"a node that does not fit, begun in the piece before\n",
        20,
        wide,
        &[10, 3, 0],
        &mut [9; 5],
    );
    show_load(
        output,
        b"after it a piece that is too long\n",
        16,
        wide,
        &[12],
        &mut [9; 3],
    );
    show_load(
        output,
        b"one node, cut in the middle\n",
        4,
        one,
        &[2],
        &mut [9; 3],
    );
}

fn show_load<W: Write>(
    output: &mut Output<W>,
    name: &[u8],
    announced: usize,
    bytes: &[u8],
    cuts: &[u32],
    answers: &mut [u32],
) {
    let mut nodes = [7; 6];
    let loaded = pieces::load_in_pieces(announced, Layout::Kwg, bytes, cuts, answers, &mut nodes);
    let begun = match loaded.begun {
        Ok(()) => 0,
        Err(why) => why.number(),
    };
    output.print(name);
    print_line(output, b"begin", &[begun]);
    print_line(output, b"feeds", answers);
    print_finished(output, loaded.finished);
    print_line(output, b"taken", &[capped(loaded.loader.taken)]);
    print_line(output, b"nodes", &nodes);
}

// The number of the refusal with what it carries, or 0 with the number of nodes.
fn print_finished<W: Write>(output: &mut Output<W>, answer: Result<usize, FinishRefusal>) {
    match answer {
        Ok(count) => print_line(output, b"finish", &[0, capped(count)]),
        Err(FinishRefusal::State(StateRefusal::DoesNotFit(misfit))) => {
            let tile = u32::from(misfit.tile);
            print_line(
                output,
                b"finish",
                &[misfit.number(), capped(misfit.node), tile, misfit.arc_index],
            )
        }
        Err(FinishRefusal::Nodes(why @ NodesRefusal::ArcPastEnd(arc))) => {
            print_line(output, b"finish", &[why.number(), arc])
        }
        Err(why) => print_line(output, b"finish", &[why.number()]),
    }
}

fn capped(number: usize) -> u32 {
    u32::try_from(number).unwrap_or(u32::MAX)
}

fn print_line<W: Write>(output: &mut Output<W>, name: &[u8], numbers: &[u32]) {
    output.print(name);
    for number in numbers {
        print_hex(output, *number);
    }
    output.print(b"\n");
}

// A blank and eight digits, printed at once: an output writes each part that it is given by itself.
fn print_hex<W: Write>(output: &mut Output<W>, number: u32) {
    let digits = b"0123456789ABCDEF";
    let mut text = [b' '; 9];
    for (i, byte) in number.to_be_bytes().into_iter().enumerate() {
        text[2 * i + 1] = digits[usize::from(byte / 16)];
        text[2 * i + 2] = digits[usize::from(byte % 16)];
    }
    output.print(&text);
}
