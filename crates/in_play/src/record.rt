// The record: bit n mod 8 of byte n / 8 stands for number n. It is scanned in groups of eight bytes, the bits of 64 numbers.
ghost use Rattle.std.specs.Prelude.{◌≡◌, ◌*◌, ◌/◌, ◌≤◌, ◌<◌, length, take};
ghost use Rattle.std.specs.Simd.{first_chunks};
ghost use Rattle.in_play.specs.InPlay.{in_play, turned, not_in_play};
ghost use Rattle.in_play.specs.Groups.{Bytes, joined, last_clear, first_or};

// Whether the number is in play. The record must have its bit.
pub(crate) fn is_in_play(bits: &[u8], n: u32) -> bool
    requires { n / 8 < length bits.now }
    ensures { result ≡ in_play bits.now n }
{
    (bits[(n / 8) as usize] >> (n % 8)) % 2 == 1
}

// Turns the number's bit over, which the record must have.
pub(crate) fn turn(bits: &mut [u8], n: u32)
    requires { n / 8 < length bits.old }
    ensures { bits.new ≡ turned bits.old n }
{
    bits[(n / 8) as usize] ^= 1 << (n % 8);
}

// At most eight bytes as a group.
fn short_group(bytes: &[u8]) -> u64
    requires { length bytes.now ≤ 8 }
    ensures { result ≡ joined bytes.now }
{
    let mut group = [0u8; 8];
    group[..bytes.len()].copy_from_slice(bytes);
    u64::from_le_bytes(group)
}

// The bits of so many words.
#[derive(Clone, Copy)]
pub struct Record<'a> {
    pub bits: &'a [u8],
    pub total: u32,
    pub ghost enough: { total ≤ 8 * length bits.now },
    pub ghost bytes: { Bytes bits.now },
}

impl<'a> Record<'a> {
    // Of the group in which the count ends, the bits below the count that are clear.
    fn last_clear(self) -> u64
        ensures { result ≡ last_clear self.entry.bits.now self.entry.total }
    {
        let first = (self.total / 64) as usize * 8;
        let end = self.total.div_ceil(8) as usize;
        let past = 1u64 << (self.total % 64);
        !short_group(&self.bits[first..end]) % past
    }

    // The groups that lie wholly below the count.
    fn whole_groups(self) -> &'a [[u8; 8]]
        ensures groups { result.now ≡ first_chunks 8 (self.entry.total / 64) (take (self.entry.total / 64 * 8) self.entry.bits.now) }
        ensures count { length result.now ≡ self.entry.total / 64 }
    {
        let (groups, _) = self.bits[..(self.total / 64) as usize * 8].as_chunks::<8>();
        groups
    }

    // How many words are not in play.
    pub(crate) fn count_clear(self) -> u32
        ensures { result ≡ length (not_in_play self.entry.bits.now self.entry.total) }
    {
        let mut count: u32 = 0;
        for group in self.whole_groups() {
            count += u64::from_le_bytes(*group).count_zeros();
        }
        count + self.last_clear().count_ones()
    }

    // The lowest of their numbers. There must be one.
    pub(crate) fn lowest_clear(self) -> u32
        requires { 0 < length (not_in_play self.bits.now self.total) }
        ensures { result ≡ first_or 0 (not_in_play self.entry.bits.now self.entry.total) }
    {
        for (g, group) in self.whole_groups().iter().enumerate() {
            let clear = !u64::from_le_bytes(*group);
            if clear != 0 {
                return g as u32 * 64 + clear.trailing_zeros();
            }
        }
        self.total / 64 * 64 + self.last_clear().trailing_zeros()
    }
}
