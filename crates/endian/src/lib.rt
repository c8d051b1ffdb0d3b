// Numbers in the bytes of a file. The calls that read and write files use these; each asks that its bytes are there. Numbers are taken apart and put
// together byte by byte, and not by `to_le_bytes` and its like: what the LXD writer uses has no local array (tests/lxd_header).
#![tactic(auto)]

ghost use Rattle.std.specs.Prelude.{◌≡◌, [], ◌∷◌, ◌+◌, ◌*◌, ◌<◌, ◌≤◌, length};
ghost use Rattle.std.proofs.lemmas.List.Edits.{sets};
ghost use Rattle.endian.specs.Bytes.{from_bytes, to_bytes, node_at, big_endian};
ghost use Rattle.endian.specs.Puts.{Puts};

pub fn from_le_bytes(a: u8, b: u8, c: u8, d: u8) -> u32
    ensures { result ≡ from_bytes a b c d }
{
    u32::from(a) + u32::from(b) * 0x100 + u32::from(c) * 0x10000 + u32::from(d) * 0x1000000
}

// The number in the four bytes from p on, which must be there.
pub fn read_le_u32(bytes: &[u8], p: usize) -> u32
    requires { p + 3 < length bytes.now }
    ensures { result ≡ node_at bytes.now p }
{
    from_le_bytes(bytes[p], bytes[p + 1], bytes[p + 2], bytes[p + 3])
}

// Stores v in the four bytes from p on, which must be there.
pub fn write_le_u32(bytes: &mut [u8], p: usize, v: u32)
    requires { p + 3 < length bytes.old }
    ensures { bytes.new ≡ sets bytes.old p (to_bytes v) }
{
    bytes[p] = (v % 0x100) as u8;
    bytes[p + 1] = (v / 0x100 % 0x100) as u8;
    bytes[p + 2] = (v / 0x10000 % 0x100) as u8;
    bytes[p + 3] = (v / 0x1000000 % 0x100) as u8;
}

// The same with the highest byte first.
pub fn write_be_u32(bytes: &mut [u8], p: usize, v: u32)
    requires { p + 3 < length bytes.old }
    ensures { bytes.new ≡ sets bytes.old p (big_endian 4 v) }
{
    bytes[p] = (v / 0x1000000 % 0x100) as u8;
    bytes[p + 1] = (v / 0x10000 % 0x100) as u8;
    bytes[p + 2] = (v / 0x100 % 0x100) as u8;
    bytes[p + 3] = (v % 0x100) as u8;
}

// Stores a number of eight bytes, given by its halves, from p on; the bytes must be there.
pub fn write_be_halves(bytes: &mut [u8], p: usize, high: u32, low: u32)
    requires { p + 7 < length bytes.old }
    ensures { bytes.new ≡ sets bytes.old p (big_endian 8 (high * 4294967296 + low)) }
{
    write_be_u32(bytes, p, high);
    write_be_u32(bytes, p + 4, low);
}

// Copies text to the bytes from p on, which must be there.
pub fn write_bytes(bytes: &mut [u8], p: usize, text: &[u8])
    requires { p + length text.now ≤ length bytes.old }
    ensures { bytes.new ≡ sets bytes.old p text.now }
{
    // Byte by byte: `copy_from_slice` is a call of C's `memmove`, a name that the static library would need from outside.
    for (i, &byte) in text.iter().enumerate() {
        bytes[p + i] = byte;
    }
}

// Puts a byte at a place, which must be there, and answers the place after it.
pub fn put_byte(byte: u8, out: &mut [u8], at: usize) -> usize
    requires { at + 1 ≤ length out.old }
    ensures { Puts (byte ∷ []) out.old at out.new result }
{
    out[at] = byte;
    at + 1
}
