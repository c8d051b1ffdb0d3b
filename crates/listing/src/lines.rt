// The bytes of a line.
ghost use Rattle.std.specs.Prelude.{◌+◌, ◌≤◌, length};
ghost use Rattle.endian.specs.Puts.{Puts};
ghost use Rattle.listing.specs.Lines.{parted, line, refusal_line};

use decimal::put_number;
use endian::put_byte;

// Each of these puts its bytes from a place on, where they must have room, and answers the place after them.
fn put_tiles(word: &[u8], out: &mut [u8], at: usize) -> usize
    requires { at + length (parted word.now) ≤ length out.old }
    ensures { Puts (parted word.now) out.old at out.new result }
{
    let Some((&first, rest)) = word.split_first() else {
        return at;
    };
    let mut end = put_number(u32::from(first), out, at);
    for &tile in rest {
        let after = put_byte(b' ', out, end);
        end = put_number(u32::from(tile), out, after);
    }
    end
}

pub(crate) fn put_line(number: u32, word: &[u8], out: &mut [u8], at: usize) -> usize
    requires { at + length (line number word.now) ≤ length out.old }
    ensures { Puts (line number word.now) out.old at out.new result }
{
    let tab = put_number(number, out, at);
    let tiles = put_byte(b'\t', out, tab);
    let end = put_tiles(word, out, tiles);
    put_byte(b'\n', out, end)
}

pub(crate) fn put_refusal(number: u32, out: &mut [u8], at: usize) -> usize
    requires { at + length (refusal_line number) ≤ length out.old }
    ensures { Puts (refusal_line number) out.old at out.new result }
{
    endian::write_bytes(out, at, b"refused\t");
    let end = put_number(number, out, at + 8);
    put_byte(b'\n', out, end)
}
