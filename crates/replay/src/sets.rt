// Letter bits and alpha sets.
ghost use Rattle.std.specs.Prelude.{◌≡◌, ◌∷◌, ◌++◌, replicate};
ghost use Rattle.stored.specs.Answers.{same};
ghost use Rattle.replay.specs.Sets.{bits_reply, accepts_reply, cross_reply};

use stored::{list_from, list_to, same, same_then, starts_with};

// The words of the case are the nodes.
#[tactic(auto, unfolding(crate::specs::Sets::bits_reply))]
pub(crate) fn letter_bits(stored: &[u64], nodes: &[u32]) -> bool
    ensures { result ≡ same stored.now (bits_reply nodes.now (replicate 512 0) (replicate 512 0)) }
{
    let mut all = [0u64; 512];
    let mut accepting = [0u64; 512];
    let refusal = machirsun::machirsun_letter_bits(nodes, &mut all, &mut accepting);
    let count = nodes.len();
    same_then_both(
        stored,
        refusal,
        list_to(&all, count),
        list_to(&accepting, count),
    )
}

fn same_then_both(stored: &[u64], refusal: u32, all: &[u64], accepting: &[u64]) -> bool
    ensures { result ≡ same stored.now (refusal ∷ all.now ++ accepting.now) }
{
    starts_with(stored, &[refusal]) && same_then(list_from(stored, 1), all, accepting)
}

// The nodes; the tally as bytes.
#[tactic(auto, unfolding(crate::specs::Sets::accepts_reply))]
pub(crate) fn accepts_alpha(stored: &[u64], nodes: &[u32], tally: &[u8]) -> bool
    ensures { result ≡ same stored.now (accepts_reply nodes.now tally.now) }
{
    let answer = machirsun::machirsun_accepts_alpha(nodes, tally);
    same(stored, &[answer.refusal, u32::from(answer.accepts)])
}

// The nodes; the tally as bytes.
#[tactic(auto, unfolding(crate::specs::Sets::cross_reply))]
pub(crate) fn alpha_cross_set(stored: &[u64], nodes: &[u32], tally: &[u8]) -> bool
    ensures { result ≡ same stored.now (cross_reply nodes.now tally.now) }
{
    let answer = machirsun::machirsun_alpha_cross_set(nodes, tally);
    same(stored, &[u64::from(answer.refusal), answer.tiles])
}
