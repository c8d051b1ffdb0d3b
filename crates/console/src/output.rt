// Printing.
ghost use Rattle.std.specs.Prelude.{◌≡◌, IsNone, IsSome, MatchResult, Some, decimal};
ghost use Rattle.console.specs.Printing.{Prints};

use std::io;
use std::io::Write;

// A writer with its first failure, after which nothing more is written.
#[derive(Drop)]
pub struct Output<W> {
    writer: W,
    failed: Option<io::Error>,
}

impl<W: Write> Output<W> {
    pub fn new(writer: W) -> Output<W>
        ensures writer { result.writer ≡ writer }
        ensures failed { IsNone result.failed }
    {
        Output {
            writer,
            failed: None,
        }
    }

    pub fn print(&mut self, bytes: &[u8])
        ensures printed { Prints W.contents self.old self.new bytes.now }
        ensures kept { IsSome self.old.failed → self.new ≡ self.old }
    {
        if self.failed.is_some() {
            return;
        }
        if let Err(failure) = self.writer.write_all(bytes) {
            self.failed = Some(failure);
        }
    }

    // In decimal digits.
    pub fn print_number(&mut self, number: u64)
        ensures printed { Prints W.contents self.old self.new (decimal number) }
        ensures kept { IsSome self.old.failed → self.new ≡ self.old }
    {
        if self.failed.is_some() {
            return;
        }
        if let Err(failure) = self.writer.write_fmt(number) {
            self.failed = Some(failure);
        }
    }
}

impl<W: Write + Drop> Output<W> {
    // The first failure, if a write failed.
    pub fn finish(self) -> io::Result<()>
        ensures { MatchResult result (λ _. IsNone self.failed) (λ failure. self.failed ≡ Some failure) }
    {
        match self.failed {
            None => Ok(()),
            Some(failure) => Err(failure),
        }
    }
}
