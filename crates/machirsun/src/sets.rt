// Sets of tiles: the letters of each node's run, and the alpha sets of a tally of letters.
ghost use Rattle.std.specs.Prelude.{◌≡◌};
ghost use Rattle.letters.specs.LetterBits.{letter_bits_of};
ghost use Rattle.letters.specs.AlphaSets.{accepts_alpha, cross_set};
ghost use Rattle.flat.specs.FlatSets.{bits_of, accepts_of, flat_accepts, cross_of, flat_cross};

use flat::{FlatAccepts, FlatCross, bits_refusal, flat_accepts, flat_cross};

// Writes for each node all tiles, and the accepting tiles, from it to its run's end; answers the number of the refusal, or 0.
pub fn machirsun_letter_bits(
    nodes: &[u32],
    letter_bits: &mut [u64],
    accepting_bits: &mut [u64],
) -> u32
    ensures { bits_of result letter_bits.new accepting_bits.new
        ≡ letter_bits_of nodes.now letter_bits.old accepting_bits.old }
{
    bits_refusal(letters::compute_letter_bits(nodes, letter_bits, accepting_bits))
}

// Whether the letters of the tally, entry 0 left out, spell a word in ascending order.
pub fn machirsun_accepts_alpha(nodes: &[u32], tally: &[u8]) -> FlatAccepts
    ensures answer { accepts_of result ≡ accepts_alpha nodes.now tally.now }
    ensures flat { result ≡ flat_accepts (accepts_of result) }
{
    flat_accepts(letters::accepts_alpha(nodes, tally))
}

// The tiles that make a word with the letters of the tally; bit 0 is always set. This and the call above are two calls of the C interface.
pub fn machirsun_alpha_cross_set(nodes: &[u32], tally: &[u8]) -> FlatCross
    ensures answer { cross_of result ≡ cross_set nodes.now tally.now }
    ensures flat { result ≡ flat_cross (cross_of result) }
{
    flat_cross(letters::compute_alpha_cross_set(nodes, tally))
}
