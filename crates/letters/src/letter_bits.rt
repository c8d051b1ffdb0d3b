// The tiles of each node's run, from the node to the run's end.
ghost use Rattle.std.specs.Prelude.{◌≡◌};
ghost use Rattle.letters.specs.LetterBits.{carry, letter_bits_of};
ghost use Rattle.letters.specs.Said.{lettered_as};

use crate::refusals::ListTooShort;
use crate::tiles::marked;
use node::Node24;

// What the nodes after v leave of their set: nothing where v is an end.
fn carry(set: u64, v: u32) -> u64
    ensures { result ≡ carry set v }
{
    if Node24(v).is_end() { 0 } else { set }
}

// Writes for each node all tiles, and the accepting tiles, from it to its run's end.
#[tactic(auto, unfolding(crate::specs::LetterBits::letter_bits_of, answers::specs::Answers::first_of))]
pub fn compute_letter_bits(
    nodes: &[u32],
    letter_bits: &mut [u64],
    accepting_bits: &mut [u64],
) -> Result<(), ListTooShort>
    ensures { lettered_as result letter_bits.new accepting_bits.new
        ≡ letter_bits_of nodes.now letter_bits.old accepting_bits.old }
{
    if letter_bits.len() < nodes.len() || accepting_bits.len() < nodes.len() {
        return Err(ListTooShort);
    }
    let mut all = 0;
    let mut accepting = 0;
    for i in (0..nodes.len()).rev() {
        let v = nodes[i];
        all = marked(carry(all, v), v, true);
        accepting = marked(carry(accepting, v), v, Node24(v).accepts());
        letter_bits[i] = all;
        accepting_bits[i] = accepting;
    }
    Ok(())
}
