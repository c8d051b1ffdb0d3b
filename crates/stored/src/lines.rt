// A line of the input, read byte by byte: unsigned decimal numbers separated by single spaces, or a
// comment. The bytes of a line may come in any number of pieces.
ghost use Rattle.std.specs.Prelude.{◌≡◌, length, set, ltb};
ghost use Rattle.stored.specs.Lines.{empty_line, is_start, first_part, with_digit, with_byte, line_ended, line_completed, completed_by, count_kept};

// The most numbers that a line may hold.
pub const ROOM: usize = 32768;

// What the bytes so far end in.
#[derive(Clone, Copy, Debug, PartialEq, Eq)]
pub enum Part {
    Start,
    Number(u64),
    Blank,
    Comment,
    // No further byte can make this line a case.
    Spoilt,
}

// The numbers before that part are complete, and there are count of them. They stand in a list that the program lends, since memory is fixed.
#[derive(Clone, Copy, Debug, PartialEq, Eq)]
pub struct Line {
    pub count: usize,
    pub part: Part,
}

// What a whole line is; a case has so many numbers.
#[derive(Clone, Copy, Debug, PartialEq, Eq)]
pub enum Ended {
    Comment,
    Case(usize),
    Malformed,
}

impl Line {
    pub fn new() -> Line
        ensures { result ≡ empty_line }
    {
        Line {
            count: 0,
            part: Part::Start,
        }
    }

    // Whether no byte of the line has come yet.
    pub fn is_empty(self) -> bool
        ensures { result ≡ is_start self.part }
    {
        self.part == Part::Start
    }

    // Takes one byte more, which is not a line's end.
    pub fn add_byte(&mut self, byte: u8, numbers: &mut [u64])
        ensures line { self.new ≡ with_byte (length numbers.old) self.old.count self.old.part byte }
        ensures numbers_after { numbers.new ≡ completed_by byte self.old.count self.old.part numbers.old }
    {
        match self.part {
            Part::Start => self.part = Part::first(byte),
            Part::Number(value) => self.after_number(value, byte, numbers),
            Part::Blank => self.part = Part::with_digit(0, byte),
            Part::Comment | Part::Spoilt => {}
        }
    }

    // A blank completes the number. Any other byte can only be its next digit.
    fn after_number(&mut self, value: u64, byte: u8, numbers: &mut [u64])
        ensures line { self.new ≡ with_byte (length numbers.old) self.old.count (Part.Number value) byte }
        ensures numbers_after { numbers.new ≡ completed_by byte self.old.count (Part.Number value) numbers.old }
    {
        if byte != b' ' {
            self.part = Part::with_digit(value, byte);
        } else if self.keep(value, numbers) {
            self.part = Part::Blank;
        } else {
            self.part = Part::Spoilt;
        }
    }

    // A line that ends in a blank, or holds nothing at all, is no case.
    pub fn end(mut self, numbers: &mut [u64]) -> Ended
        ensures value { result ≡ line_ended (length numbers.old) self.count self.part }
        ensures numbers_after { numbers.new ≡ line_completed self.count self.part numbers.old }
    {
        match self.part {
            Part::Number(value) => {
                if self.keep(value, numbers) {
                    Ended::Case(self.count)
                } else {
                    Ended::Malformed
                }
            }
            Part::Comment => Ended::Comment,
            Part::Start | Part::Blank | Part::Spoilt => Ended::Malformed,
        }
    }

    // Puts a complete number after the others, and answers whether there was room for it. By the length: what `get_mut` ensures
    // where it answers none does not say that the list stays as it was.
    fn keep(&mut self, value: u64, numbers: &mut [u64]) -> bool
        ensures value { result ≡ ltb self.old.count (length numbers.old) }
        ensures line { self.new ≡ record self.old { count = count_kept (length numbers.old) self.old.count } }
        ensures numbers_after { numbers.new ≡ set numbers.old self.old.count value }
    {
        if numbers.len() <= self.count {
            return false;
        }
        numbers[self.count] = value;
        self.count += 1;
        true
    }
}

impl Part {
    fn first(byte: u8) -> Part
        ensures { result ≡ first_part byte }
    {
        if byte == b'#' {
            Part::Comment
        } else {
            Part::with_digit(0, byte)
        }
    }

    // The number with one digit more.
    fn with_digit(value: u64, byte: u8) -> Part
        ensures { result ≡ with_digit value byte }
    {
        if !byte.is_ascii_digit() {
            return Part::Spoilt;
        }
        let digit = u64::from(byte - b'0');
        match value
            .checked_mul(10)
            .and_then(|tens| tens.checked_add(digit))
        {
            Some(value) => Part::Number(value),
            None => Part::Spoilt,
        }
    }
}
