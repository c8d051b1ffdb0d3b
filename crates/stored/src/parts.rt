// Parts of a list, and its entries, at any place: past its end there is nothing, and an entry is 0.
ghost use Rattle.std.specs.Prelude.{◌≡◌, get_or, take, drop, ◌%◌};

pub fn list_to<T>(list: &[T], end: usize) -> &[T]
    ensures { result.now ≡ take end list.now }
{
    &list[..end.min(list.len())]
}

pub fn list_from<T>(list: &[T], start: usize) -> &[T]
    ensures { result.now ≡ drop start list.now }
{
    &list[start.min(list.len())..]
}

pub fn word_at(words: &[u32], at: usize) -> u32
    ensures { result ≡ get_or words.now at 0 }
{
    words.get(at).copied().unwrap_or(0)
}

// The lowest byte of the word there.
pub fn byte_at(words: &[u32], at: usize) -> u8
    ensures { result ≡ get_or words.now at 0 % 256 }
{
    (word_at(words, at) % 256) as u8
}
