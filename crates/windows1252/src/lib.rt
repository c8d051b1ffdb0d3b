// Characters as bytes of Windows-1252, by the Unicode Consortium's CP1252 table. Most code points that have a byte are their own: for these
// the table is not read.
#![tactic(auto)]

ghost use Rattle.std.specs.Prelude.{◌≡◌};
ghost use Rattle.windows1252.specs.Windows1252.{is_itself, byte_of, no_byte, byte_written};
ghost use Rattle.windows1252.specs.Encoded.{OnlyPlace, encoded};

// The code points of the bytes 80 to 9F, 0 where the table has none.
const CODE_POINTS: [u32; 32] = [
    0x20AC, // 80 €
    0x0000, // 81
    0x201A, // 82 ‚
    0x0192, // 83 ƒ
    0x201E, // 84 „
    0x2026, // 85 …
    0x2020, // 86 †
    0x2021, // 87 ‡
    0x02C6, // 88 ˆ
    0x2030, // 89 ‰
    0x0160, // 8A Š
    0x2039, // 8B ‹
    0x0152, // 8C Œ
    0x0000, // 8D
    0x017D, // 8E Ž
    0x0000, // 8F
    0x0000, // 90
    0x2018, // 91 ‘
    0x2019, // 92 ’
    0x201C, // 93 “
    0x201D, // 94 ”
    0x2022, // 95 •
    0x2013, // 96 –
    0x2014, // 97 —
    0x02DC, // 98 ˜
    0x2122, // 99 ™
    0x0161, // 9A š
    0x203A, // 9B ›
    0x0153, // 9C œ
    0x0000, // 9D
    0x017E, // 9E ž
    0x0178, // 9F Ÿ
];

// The code points of the table leave different remainders by 79. For each remainder the place in the table of the one that leaves it, 0
// where none does.
const PLACES: [u8; 79] = [
    17, // 2018 ‘
    18, // 2019 ’
    2, // 201A ‚
    0, 19, // 201C “
    20, // 201D ”
    4, // 201E „
    3, // 0192 ƒ
    6, // 2020 †
    7, // 2021 ‡
    21, // 2022 •
    0, 0, 0, 5, // 2026 …
    0, 0, 0, 0, 0, 0, 24, // 02DC ˜
    12, // 0152 Œ
    28, // 0153 œ
    9, // 2030 ‰
    0, 0, 0, 0, 25, // 2122 ™
    0, 0, 0, 11, // 2039 ‹
    27, // 203A ›
    0, 10, // 0160 Š
    26, // 0161 š
    0, 0, 0, 0, 0, 0, 0, 0, 0, 0, 0, 0, 0, 0, 0, 0, 0, 0, 0, 0, 0, 0, 31, // 0178 Ÿ
    0, 0, 0, 0, 14, // 017D Ž
    30, // 017E ž
    0, 0, 0, // 20AC €
    0, 0, 0, 0, 22, // 2013 –
    23, // 2014 —
    0, 0, 8, // 02C6 ˆ
];

// Whether a code point is its own byte.
fn is_itself(c: u32) -> bool
    ensures { result ≡ is_itself c }
{
    matches!(c, 0..=0x7F | 0xA0..=0xFF)
}

// The one place where a code point can stand in the table.
fn table_place(c: u32) -> u8
    ensures { OnlyPlace c result }
{
    PLACES[(c % 79) as usize]
}

// The byte of a code point, where it has one.
pub fn encode(c: u32) -> Option<u8>
    ensures { encoded result ≡ byte_of c }
{
    if is_itself(c) {
        return Some(c as u8);
    }
    let place = table_place(c);
    if CODE_POINTS[place as usize] == c {
        Some(0x80 + place)
    } else {
        None
    }
}

// Whether a code point has no byte.
pub fn no_byte(c: u32) -> bool
    ensures { result ≡ no_byte c }
{
    encode(c).is_none()
}

// The byte of a code point, 0 where it has none.
pub fn byte_of(c: u32) -> u8
    ensures { result ≡ byte_written c }
{
    encode(c).unwrap_or(0)
}
