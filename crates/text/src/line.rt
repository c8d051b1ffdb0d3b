// The lines of a text.
ghost use Rattle.std.specs.Prelude.{◌≡◌, ◌≤◌, not, length, take_while};
ghost use Rattle.text.specs.Lines.{is_ending, ending_width};
ghost use Rattle.text.specs.Said.{LineRead};

// Whether a byte ends a line.
pub fn is_ending(b: u8) -> bool
    ensures { result ≡ is_ending b }
{
    b == b'\n' || b == b'\r'
}

// How many bytes a text's first line has, its ending left off.
fn line_length(text: &[u8]) -> usize
    ensures line { result ≡ length (take_while (λ b. not (is_ending b)) text.now) }
    ensures fits { result ≤ length text.now }
{
    text.iter().take_while(|b| !is_ending(**b)).count()
}

// How many bytes the ending takes that a text begins with: 0A, 0D 0A or a lone 0D.
fn ending_width(text: &[u8]) -> usize
    ensures width { result ≡ ending_width text.now }
    ensures fits { result ≤ length text.now }
{
    if text.starts_with(b"\r\n") {
        2
    } else {
        text.len().min(1)
    }
}

// The line from place at on, its ending left off, as a part of the text; at moves past its ending.
pub fn next_line<'a>(text: &'a [u8], at: &mut usize) -> &'a [u8]
    ensures { LineRead text.now at.old at.new result.now }
{
    let rest = &text[(*at).min(text.len())..];
    let end = line_length(rest);
    *at += end + ending_width(&rest[end..]);
    &rest[..end]
}
