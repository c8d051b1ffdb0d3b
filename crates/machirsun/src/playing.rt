// Words in play.
ghost use Rattle.std.specs.Prelude.{◌≡◌};
ghost use Rattle.graph.specs.Counting.{count_limit};
ghost use Rattle.in_play.specs.InPlay.{play};
ghost use Rattle.in_play.specs.declared.Move.TheVariants.{Arrives, Leaves};
ghost use Rattle.flat.specs.FlatPlays.{play_of, played_of, flat_play};

use flat::{FlatInPlay, flat_in_play};

// A word of the start comes into play.
pub fn machirsun_arrive(
    nodes: &[u32],
    counts: &[u32],
    start: u32,
    word: &[u8],
    bits: &mut [u8],
) -> FlatInPlay
    ensures answer { played_of result bits.new
        ≡ play count_limit Arrives nodes.now counts.now start word.now bits.old }
    ensures flat { result ≡ flat_play (play_of result) }
{
    flat_in_play(in_play::arrive(nodes, counts, start, word, bits))
}

// A word of the start is withdrawn: as above, but for the move. They are two calls of the C interface.
pub fn machirsun_leave(
    nodes: &[u32],
    counts: &[u32],
    start: u32,
    word: &[u8],
    bits: &mut [u8],
) -> FlatInPlay
    ensures answer { played_of result bits.new
        ≡ play count_limit Leaves nodes.now counts.now start word.now bits.old }
    ensures flat { result ≡ flat_play (play_of result) }
{
    flat_in_play(in_play::leave(nodes, counts, start, word, bits))
}
