// What the lines so far came to.
ghost use Rattle.std.specs.Prelude.{◌≡◌, ◌<◌, codes};
ghost use Rattle.console.specs.Printing.{Prints};
ghost use Rattle.stored.specs.CaseTally.{new_tally, with_next_line, with_malformed, with_difference, with_case, with_verdict, line_said, malformed_said, differs_said, verdict_said, findings_said, number_said};

use crate::answers::Verdict;
use console::Output;
use std::io::Write;

// One more than the highest number that a call may have.
pub const CALLS: usize = 32;

#[derive(Clone, Copy, Debug, PartialEq, Eq)]
pub struct CaseTally {
    // The number of the line that is being read.
    line: u64,
    // For each call by its number.
    pub cases: [u64; CALLS],
    malformed: u64,
    differences: u64,
}

impl CaseTally {
    pub fn new() -> CaseTally
        ensures { result ≡ new_tally }
    {
        CaseTally {
            line: 1,
            cases: [0; CALLS],
            malformed: 0,
            differences: 0,
        }
    }

    pub fn begin_line(&mut self)
        ensures { self.new ≡ with_next_line self.old }
    {
        self.line = self.line.saturating_add(1);
    }

    pub fn malformed<W: Write>(&mut self, output: &mut Output<W>)
        ensures tally { self.new ≡ with_malformed self.old }
        ensures printed { Prints W.contents output.old output.new (malformed_said self.old.line) }
    {
        self.malformed = self.malformed.saturating_add(1);
        report(output, self.line, b" malformed\n");
    }

    // A call that has no place in the tally makes its line malformed, so that no case goes uncounted.
    pub fn verdict<W: Write>(&mut self, output: &mut Output<W>, call: u64, verdict: Verdict)
        ensures tally { self.new ≡ with_verdict call verdict self.old }
        ensures printed { Prints W.contents output.old output.new (verdict_said call verdict self.old.line) }
    {
        let call = call as usize;
        if CALLS <= call {
            self.malformed(output);
            return;
        }
        match verdict {
            Verdict::Same => self.case(call),
            Verdict::Different => {
                self.difference(output);
                self.case(call);
            }
            Verdict::Malformed => self.malformed(output),
        }
    }

    fn case(&mut self, call: usize)
        requires { call < CALLS }
        ensures { self.new ≡ with_case call self.old }
    {
        self.cases[call] = self.cases[call].saturating_add(1);
    }

    fn difference<W: Write>(&mut self, output: &mut Output<W>)
        ensures tally { self.new ≡ with_difference self.old }
        ensures printed { Prints W.contents output.old output.new (differs_said self.old.line) }
    {
        self.differences = self.differences.saturating_add(1);
        report(output, self.line, b" differs\n");
    }

    pub fn print_findings<W: Write>(self, output: &mut Output<W>)
        ensures { Prints W.contents output.old output.new (findings_said self) }
    {
        print_number(output, b"malformed lines: ", self.malformed, b"\n");
        print_number(output, b"differences: ", self.differences, b"\n");
    }
}

fn report<W: Write>(output: &mut Output<W>, line: u64, finding: &[u8])
    ensures { Prints W.contents output.old output.new (line_said line finding.now) }
{
    print_number(output, b"line ", line, finding);
}

pub fn print_cases<W: Write>(output: &mut Output<W>, call: &[u8], cases: u64)
    ensures { Prints W.contents output.old output.new (number_said call.now cases (codes " cases\n")) }
{
    print_number(output, call, cases, b" cases\n");
}

fn print_number<W: Write>(output: &mut Output<W>, before: &[u8], number: u64, after: &[u8])
    ensures { Prints W.contents output.old output.new (number_said before.now number after.now) }
{
    output.print(before);
    output.print_number(number);
    output.print(after);
}
