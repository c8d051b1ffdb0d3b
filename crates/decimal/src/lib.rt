// A number in decimal digits, as bytes of text: how many digits it has, and its digits put into bytes.
#![tactic(auto)]

ghost use Rattle.std.specs.Prelude.{◌≡◌, ◌+◌, ◌≤◌, length};
ghost use Rattle.endian.specs.Puts.{Puts};
ghost use Rattle.decimal.specs.Decimal.{decimal};

// How many digits the number has: 0 has one, as 1 has.
pub fn digit_count(number: u32) -> usize
    ensures { result ≡ length (decimal number) }
{
    number.max(1).ilog10() as usize + 1
}

// Writes the digits over bytes, of which there must be as many, the last digit first.
fn write_digits(number: u32, digits: &mut [u8])
    requires { length digits.old ≡ length (decimal number) }
    ensures { digits.new ≡ decimal number }
{
    let mut left = number;
    for i in (0..digits.len()).rev() {
        digits[i] = b'0' + (left % 10) as u8;
        left /= 10;
    }
}

// Puts the digits so that they end before a place, where they must have room, and answers where they begin.
pub fn put_digits(number: u32, out: &mut [u8], end: usize) -> usize
    requires { (length (decimal number) ≤ end) × (end ≤ length out.old) }
    ensures { Puts (decimal number) out.old result out.new end }
{
    let start = end - digit_count(number);
    write_digits(number, &mut out[start..end]);
    start
}

// Puts the digits from a place on, where they must have room, and answers the place after them.
pub fn put_number(number: u32, out: &mut [u8], at: usize) -> usize
    requires { at + length (decimal number) ≤ length out.old }
    ensures { Puts (decimal number) out.old at out.new result }
{
    // Many tiles of a list of words are below 10: their digit is put without a count and a division.
    if number < 10 {
        return endian::put_byte(b'0' + number as u8, out, at);
    }
    let end = at + digit_count(number);
    write_digits(number, &mut out[at..end]);
    end
}
