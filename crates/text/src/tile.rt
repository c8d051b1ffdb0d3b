// A tile written in decimal.
ghost use Rattle.std.specs.Prelude.{◌≡◌, ◌≤◌, ◌<◌, length, drop, IfSome};
ghost use Rattle.text.specs.Tiles.{first_digit, leading_tile};
ghost use Rattle.text.specs.Said.{tile_in};

// The value of the digit that stands at place at of a text.
fn digit_at(text: &[u8], at: usize) -> Option<u8>
    ensures value { result ≡ first_digit (drop at text.now) }
    ensures small { IfSome result (λ d. (d ≤ 9) × (at < length text.now)) }
{
    let b = *text.get(at)?;
    if b.is_ascii_digit() {
        Some(b - b'0')
    } else {
        None
    }
}

// The tile, 1 to 63 in decimal with no leading zero, that stands at place at of a text, and how many digits it has: one, or two. What follows
// them is not looked at, nor is a third digit.
pub fn read_tile(text: &[u8], at: usize) -> Option<(u8, usize)>
    ensures { tile_in result ≡ leading_tile (drop at text.now) }
{
    let first = digit_at(text, at)?;
    if first == 0 {
        return None;
    }
    match digit_at(text, at + 1) {
        Some(second) => {
            let tile = first * 10 + second;
            if tile <= 63 { Some((tile, 2)) } else { None }
        }
        None => Some((first, 1)),
    }
}
