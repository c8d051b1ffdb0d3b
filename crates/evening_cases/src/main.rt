// Plays the stored evenings on standard input through the exported calls, and prints a line for each call: the fields of its answer, and
// then the record's bytes. oracle/README.md has the format.
#![tactic(auto)]

use console::Output;
use flat::FlatInPlay;
use machirsun::{machirsun_arrive, machirsun_leave};
use std::io;
use std::io::Write;
use stored::{Ended, Line, list_from, list_in, list_to, word_at};

// The most bytes of the input, and the most numbers of a line and bytes of a record.
const INPUT: usize = 131072;

const MOST: usize = 1024;

// What the calls are lent: so many words, START BYTES N, N nodes and the counts; and the record of an evening.
#[derive(Drop)]
struct Evening {
    words: [u32; MOST],
    lent: usize,
    bits: [u8; MOST],
}

fn main(rt: HostRuntime) -> io::Result<()> {
    let mut text = [0u8; INPUT];
    let size = console::read_full(&mut rt.stdin(), &mut text)?;
    let mut output = Output::new(rt.stdout());
    if INPUT <= size {
        output.print(b"the input is too long\n");
    } else {
        play_text(&mut output, list_to(&text, size));
    }
    output.finish()
}

fn play_text<W: Write>(output: &mut Output<W>, text: &[u8]) {
    let mut evening = Evening {
        words: [0; MOST],
        lent: 0,
        bits: [0; MOST],
    };
    let mut numbers = [0u64; MOST];
    let mut line = Line::new();
    for byte in text {
        if *byte == b'\n' {
            evening.end_line(output, line, &mut numbers);
            line = Line::new();
        } else {
            line.add_byte(*byte, &mut numbers);
        }
    }
}

fn malformed<W: Write>(output: &mut Output<W>) {
    output.print(b"malformed\n");
}

impl Evening {
    fn end_line<W: Write>(&mut self, output: &mut Output<W>, line: Line, numbers: &mut [u64]) {
        match line.end(numbers) {
            Ended::Comment => {}
            Ended::Malformed => malformed(output),
            Ended::Case(count) => self.play_line(output, list_to(numbers, count)),
        }
    }

    // The first number is the line's kind: an evening begins, a word arrives, a word leaves.
    fn play_line<W: Write>(&mut self, output: &mut Output<W>, line: &[u64]) {
        let Some((kind, list)) = line.split_first() else {
            malformed(output);
            return;
        };
        match *kind {
            0 => self.begin(output, list),
            1 => self.play_word(output, true, list),
            2 => self.play_word(output, false, list),
            _ => malformed(output),
        }
    }

    fn begin<W: Write>(&mut self, output: &mut Output<W>, list: &[u64]) {
        match list_in(list, &mut self.words) {
            Some(count) => {
                self.lent = count;
                self.bits.fill(0);
            }
            None => malformed(output),
        }
    }

    // A call over as many bytes of the record as the evening has. A flag says which: each move is an exported call of its own.
    fn play_word<W: Write>(&mut self, output: &mut Output<W>, arrives: bool, list: &[u64]) {
        let mut word = [0u8; MOST];
        let Some(tiles) = list_in(list, &mut word) else {
            malformed(output);
            return;
        };
        let lent = list_to(&self.words, self.lent);
        let bytes = word_at(lent, 1) as usize;
        match self.bits.get_mut(..bytes) {
            Some(bits) => call_and_print(output, arrives, list_to(&word, tiles), lent, bits),
            None => malformed(output),
        }
    }
}

fn call_and_print<W: Write>(
    output: &mut Output<W>,
    arrives: bool,
    word: &[u8],
    lent: &[u32],
    bits: &mut [u8],
) {
    let start = word_at(lent, 0);
    let count = word_at(lent, 2) as usize;
    let graph = list_from(lent, 3);
    let nodes = list_to(graph, count);
    let counts = list_from(graph, count);
    let answer = if arrives {
        machirsun_arrive(nodes, counts, start, word, bits)
    } else {
        machirsun_leave(nodes, counts, start, word, bits)
    };
    print_answer(output, answer, bits);
}

fn print_answer<W: Write>(output: &mut Output<W>, answer: FlatInPlay, bits: &[u8]) {
    output.print_number(u64::from(answer.refusal));
    print_next(output, u32::from(answer.found));
    print_next(output, answer.remaining);
    print_next(output, answer.lowest);
    for byte in bits {
        print_next(output, u32::from(*byte));
    }
    output.print(b"\n");
}

fn print_next<W: Write>(output: &mut Output<W>, number: u32) {
    output.print(b" ");
    output.print_number(u64::from(number));
}
