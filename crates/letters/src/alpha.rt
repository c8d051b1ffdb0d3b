// Alpha sets: what the letters of a tally, in ascending order, spell from the start.
ghost use Rattle.std.specs.Prelude.{◌≡◌, ◌≤◌, length, drop};
ghost use Rattle.letters.specs.AlphaSets.{completes, accepts_alpha, closing as closed, cross_from, cross_set};
ghost use Rattle.letters.specs.Said.{completes_try, said_tiles, said_alpha, said_cross};

use crate::refusals::AlphaRefusal;
use crate::tiles::marked;
use lookup::{NotLent, lent, lent_part, seek_from};
use node::Node24;

// Whether the letters of the tally from next_letter on lead from p to a node that accepts.
fn completes_alpha_cross_set(
    nodes: &[u32],
    p: usize,
    tally: &[u8],
    next_letter: usize,
) -> Result<bool, NotLent>
    requires { length tally.now ≤ 64 }
    ensures { completes_try result ≡ completes nodes.now tally.now next_letter p }
{
    let mut p = p;
    'letters: for letter in next_letter..tally.len() {
        // With a range here the alpha sets take up to a twentieth longer.
        let mut left = tally[letter];
        'copies: while 0 < left {
            let Some(q) = seek_from(nodes, p, letter as u8)? else {
                return Ok(false);
            };
            p = q;
            left -= 1;
        }
    }
    let v = lent(nodes, p)?;
    Ok(Node24(v).accepts())
}

// Whether the letters of the tally, entry 0 left out, spell a word in ascending order.
#[tactic(auto, unfolding(crate::specs::AlphaSets::accepts_alpha, answers::specs::Answers::first_of))]
pub fn accepts_alpha(nodes: &[u32], tally: &[u8]) -> Result<bool, AlphaRefusal>
    ensures { said_alpha result ≡ accepts_alpha nodes.now tally.now }
{
    if 64 < tally.len() {
        return Err(AlphaRefusal::TallyTooLong);
    }
    Ok(completes_alpha_cross_set(lent_part(nodes), 0, tally, 1)?)
}

// The set with the tiles that accept in the run from p.
fn closing(nodes: &[u32], p: usize, set: u64) -> Result<u64, NotLent>
    ensures { said_tiles result ≡ closed (drop p nodes.now) set }
{
    let mut answer = set;
    for i in p..nodes.len() {
        let v = nodes[i];
        answer = marked(answer, v, Node24(v).accepts());
        if Node24(v).is_end() {
            return Ok(answer);
        }
    }
    Err(NotLent)
}

// The walk of the cross set: for each letter, for each of its copies, along the run to the letter's node. Document 01 names the form, three
// nested labelled loops; with the run in a function of its own a cross set takes a twentieth longer.
#[tactic(auto, unfolding(crate::specs::AlphaSets::cross_from))]
fn cross_from(nodes: &[u32], tally: &[u8]) -> Result<u64, NotLent>
    requires { length tally.now ≤ 64 }
    ensures { said_tiles result ≡ cross_from nodes.now tally.now }
{
    let mut answer = 1; // always set bit 0 here
    let mut p = Node24(lent(nodes, 0)?).arc_index() as usize;
    if p == 0 {
        return Ok(answer);
    }
    'letters: for letter in 1..tally.len() {
        'copies: for _left in (0..tally[letter]).rev() {
            'run: for i in p..nodes.len() {
                let v = nodes[i];
                let tile = Node24(v).tile() as usize;
                if letter < tile {
                    return Ok(answer);
                }
                if tile == letter {
                    p = Node24(v).arc_index() as usize;
                    if p == 0 {
                        return Ok(answer);
                    }
                    continue 'copies;
                }
                let yes = completes_alpha_cross_set(nodes, i, tally, letter)?;
                answer = marked(answer, v, yes);
                if Node24(v).is_end() {
                    return Ok(answer);
                }
            }
            return Err(NotLent);
        }
    }
    closing(nodes, p, answer)
}

// The tiles that make a word with the letters of the tally, all in ascending order; bit 0 is always set.
#[tactic(auto, unfolding(crate::specs::AlphaSets::cross_set, answers::specs::Answers::first_of))]
pub fn compute_alpha_cross_set(nodes: &[u32], tally: &[u8]) -> Result<u64, AlphaRefusal>
    ensures { said_cross result ≡ cross_set nodes.now tally.now }
{
    if 64 < tally.len() {
        return Err(AlphaRefusal::TallyTooLong);
    }
    Ok(cross_from(lent_part(nodes), tally)?)
}
