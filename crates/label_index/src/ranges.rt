// The range of each first byte in the order of the label file's lines.
ghost use Rattle.std.specs.Prelude.{◌≡◌, ◌+◌, ◌/◌, ◌<◌, ◌≤◌, length};
ghost use Rattle.label_index.specs.Index.{RangesBegin, RangesEnd, RangesWithin, FirstBytes};

// The first byte of a line, by its number in the order.
fn first_byte(key: u32) -> usize
    ensures { result ≡ key / 262144 }
{
    (key / 262144) as usize
}

// Where each first byte's range begins, from the last line to the first, so that the first place of a byte is the one that stays.
pub(crate) fn fill_begins(numbers: &[u32], begin: &mut [usize])
    requires firsts { FirstBytes (length numbers.now) numbers.now }
    requires room { 256 ≤ length begin.old }
    ensures { RangesBegin (length numbers.now) numbers.now begin.new }
{
    for i in (0..numbers.len()).rev() {
        begin[first_byte(numbers[i])] = i;
    }
}

// Where each first byte's range ends; of a byte with no line, where it ended before.
pub(crate) fn fill_ends(numbers: &[u32], end: &mut [usize])
    requires firsts { FirstBytes (length numbers.now) numbers.now }
    requires room { 256 ≤ length end.old }
    requires within { RangesWithin (length numbers.now) end.old }
    ensures ended { RangesEnd (length numbers.now) numbers.now end.new }
    ensures within { RangesWithin (length numbers.now) end.new }
{
    for i in 0..numbers.len() {
        end[first_byte(numbers[i])] = i + 1;
    }
}
