// Whether what a page would show can stand on it.
ghost use Rattle.std.specs.Prelude.{◌≡◌, false, ◌<◌, leb, length};
ghost use Rattle.laws.specs.Lists.{some_of};
ghost use Rattle.page.specs.Rows.{label_of};
ghost use Rattle.page.specs.Page.{outside};

// Whether a character is outside 20 to 7E hexadecimal.
fn is_outside(character: u32) -> bool
    ensures { result ≡ outside character }
{
    !(0x20..=0x7E).contains(&character)
}

// Whether some byte cannot be shown.
pub(crate) fn text_outside(text: &[u8]) -> bool
    ensures { result ≡ some_of outside text.now }
{
    text.iter().any(|&byte| is_outside(u32::from(byte)))
}

// A tile's label; it must have one.
pub(crate) fn label_of(tile: u8, labels: &[u32]) -> u32
    requires { tile < length labels.now }
    ensures { result ≡ label_of labels.now tile }
{
    labels[usize::from(tile)]
}

// Whether some tile has no label.
pub(crate) fn some_unlabelled(tiles: &[u8], labels: &[u32]) -> bool
    ensures { result ≡ some_of (λ t. leb (length labels.now) t) tiles.now }
{
    tiles.iter().any(|&tile| labels.len() <= usize::from(tile))
}

// Whether some tile's label cannot be shown; each tile must have one.
pub(crate) fn label_outside(tiles: &[u8], labels: &[u32]) -> bool
    requires { some_of (λ t. leb (length labels.now) t) tiles.now ≡ false }
    ensures { result ≡ some_of (λ t. outside (label_of labels.now t)) tiles.now }
{
    tiles.iter().any(|&tile| is_outside(label_of(tile, labels)))
}
