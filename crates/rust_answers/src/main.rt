// Replays the stored answers of a Rust program, which stand on standard input a case to a line, and
// says which lines our calls answer otherwise.
#![tactic(auto)]

ghost use Rattle.std.specs.Prelude.{◌<◌, length};

use console::Output;
use std::io;
use std::io::{Read, Write};
use stored::{CaseTally, Ended, Line, ROOM, print_cases};

// The most bytes of a read.
const PIECE: usize = 65536;

// The line so far, and what the lines before it came to.
#[derive(Drop)]
struct Progress {
    line: Line,
    tally: CaseTally,
}

fn main(rt: HostRuntime) -> io::Result<()> {
    let mut numbers = [0u64; ROOM];
    let mut output = Output::new(rt.stdout());
    let mut progress = Progress {
        line: Line::new(),
        tally: CaseTally::new(),
    };
    progress.read_all(&mut rt.stdin(), &mut output, &mut numbers);
    // The last line may lack its end.
    if !progress.line.is_empty() {
        progress.end_line(&mut output, &mut numbers);
    }
    print(&mut output, &progress.tally);
    output.finish()
}

impl Progress {
    // Every loop has to be proved to end, and an input may have any length: the loop counts up to a
    // number of reads that no run makes.
    fn read_all<R: Read, W: Write>(
        &mut self,
        input: &mut R,
        output: &mut Output<W>,
        numbers: &mut [u64],
    ) {
        let mut piece = [0u8; PIECE];
        for _ in 0..u64::MAX {
            match input.read(&mut piece) {
                Ok(0) => return,
                Ok(count) => self.add_bytes(output, &piece[..count], numbers),
                // A read that fails is no end of the input: it must show in the output.
                Err(_) => {
                    output.print(b"the input cannot be read\n");
                    return;
                }
            }
        }
    }

    fn add_bytes<W: Write>(&mut self, output: &mut Output<W>, bytes: &[u8], numbers: &mut [u64]) {
        for byte in bytes {
            if *byte == b'\n' {
                self.end_line(output, numbers);
                self.line = Line::new();
            } else {
                self.line.add_byte(*byte, numbers);
            }
        }
    }

    fn end_line<W: Write>(&mut self, output: &mut Output<W>, numbers: &mut [u64]) {
        match self.line.end(numbers) {
            Ended::Comment => {}
            Ended::Malformed => self.tally.malformed(output),
            Ended::Case(count) => judge_line(&mut self.tally, output, &numbers[..count]),
        }
        self.tally.begin_line();
    }
}

// The first of a line's numbers is the call's.
fn judge_line<W: Write>(tally: &mut CaseTally, output: &mut Output<W>, line: &[u64])
    requires { 0 < length line.now }
{
    let call = line[0];
    tally.verdict(output, call, replay::judge(call, &line[1..]));
}

// A line for each call: a table of names would have to keep the places of the cases too.
fn print<W: Write>(output: &mut Output<W>, tally: &CaseTally) {
    let cases = &tally.cases;
    print_cases(output, b"node fields: ", cases[1]);
    print_cases(output, b"pack: ", cases[2]);
    print_cases(output, b"repack_node: ", cases[3]);
    print_cases(output, b"repack_in_place: ", cases[4]);
    print_cases(output, b"loading: ", cases[5]);
    print_cases(output, b"counting: ", cases[6]);
    print_cases(output, b"word to number: ", cases[7]);
    print_cases(output, b"number to word: ", cases[8]);
    print_cases(output, b"run lookup: ", cases[9]);
    print_cases(output, b"run cursor: ", cases[10]);
    print_cases(output, b"letter bits: ", cases[11]);
    print_cases(output, b"accepts_alpha: ", cases[12]);
    print_cases(output, b"alpha cross set: ", cases[13]);
    print_cases(output, b"Macondo: ", cases[14]);
    print_cases(output, b"LXD: ", cases[15]);
    print_cases(output, b"pages: ", cases[16]);
    print_cases(output, b"words typed: ", cases[17]);
    print_cases(output, b"lists of words typed: ", cases[18]);
    print_cases(output, b"lexicons built: ", cases[19]);
    tally.print_findings(output);
}
