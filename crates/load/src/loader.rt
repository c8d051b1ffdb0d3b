// A load: begun with the length of the file, fed its bytes in pieces, finished.
ghost use Rattle.std.specs.Prelude.{◌≡◌, ◌+◌, ◌/◌, ◌<◌, ◌≤◌, length};
ghost use Rattle.std.proofs.Math.Option.{none};
ghost use Rattle.answers.specs.Answers.{first_of};
ghost use Rattle.load.specs.Repacking.{misfit_of};
ghost use Rattle.load.specs.Loading.{begin_row, state_row, feed_row, begin, fresh_loader, stopped, misfit_in, state_after, nodes_after, held_then, feed, finish};
ghost use Rattle.load.specs.Said.{begin_refusal, state_refusal, begun_as, feeds_as, fed_as, finished_as, left_by};

use crate::refusals::{BeginRefusal, FeedRefusal, FinishRefusal, StateRefusal};
use crate::repack::Misfit;
use node::Layout;

// The state of a load. The first held_count places of held are the bytes after the last whole node. It keeps the refusal of a node that
// does not fit.
#[derive(Clone, Copy, Debug, PartialEq, Eq)]
pub struct Loader {
    pub announced: usize,
    pub layout: Layout,
    pub taken: usize,
    pub held: [u8; 3],
    pub held_count: usize,
    pub kept: Option<Misfit>,
}

// A refused begin gives a state too, so the state stands beside the answer.
#[derive(Clone, Copy)]
pub struct Begun {
    pub answer: Result<(), BeginRefusal>,
    pub loader: Loader,
}

// A refused feed gives a state too: by document 01 "each feed hands a new one back".
#[derive(Clone, Copy)]
pub struct Fed {
    pub answer: Result<(), FeedRefusal>,
    pub loader: Loader,
}

#[tactic(auto, unfolding(answers::specs::Answers::first_of))]
fn check_length(announced: usize, room: usize) -> Result<(), BeginRefusal>
    ensures { begin_refusal result ≡ first_of (begin_row announced room) }
{
    if announced == 0 || announced % 4 != 0 {
        return Err(BeginRefusal::NotWholeNodes);
    }
    if 67108864 < announced {
        return Err(BeginRefusal::OverLimit);
    }
    if room < (announced / 4).max(2) {
        return Err(BeginRefusal::NodesTooShort);
    }
    Ok(())
}

impl Loader {
    // A file of so many bytes is announced. A refused load has length 0, so that it refuses every call after it.
    #[tactic(auto, unfolding(crate::specs::Loading::begin))]
    pub fn begin(announced: usize, layout: Layout, nodes: &[u32]) -> Begun
        ensures { begun_as result ≡ begin announced layout (length nodes.now) }
    {
        let answer = check_length(announced, nodes.len());
        let length = if answer.is_ok() { announced } else { 0 };
        Begun {
            answer,
            loader: Loader::fresh(length, layout),
        }
    }

    #[tactic(auto, unfolding(crate::specs::Loading::holding))]
    fn fresh(announced: usize, layout: Layout) -> Loader
        ensures { result ≡ fresh_loader announced layout }
    {
        Loader {
            announced,
            layout,
            taken: 0,
            held: [0; 3],
            held_count: 0,
            kept: None,
        }
    }

    // Whether begin takes this length for so many nodes, the bytes taken and held can be those of a load, and no node has stopped it.
    #[tactic(auto, unfolding(answers::specs::Answers::first_of))]
    fn check(self, room: usize) -> Result<(), StateRefusal>
        ensures { state_refusal result ≡ first_of (state_row self room) }
    {
        if check_length(self.announced, room).is_err()
            || self.announced < self.taken
            || self.held_count != self.taken % 4
            || !crate::held::unused_zero(self.held, self.held_count)
        {
            return Err(StateRefusal::BadState);
        }
        match self.kept {
            Some(misfit) => Err(StateRefusal::DoesNotFit(misfit)),
            None => Ok(()),
        }
    }

    // The next piece of the file, of any length. Document 01 names the form: the state by value, and a new one handed back.
    pub fn feed(mut self, piece: &[u8], nodes: &mut [u32]) -> Fed
        ensures { fed_as result nodes.new ≡ feed self nodes.old piece.now }
    {
        let answer = self.take(piece, nodes);
        Fed {
            answer,
            loader: self,
        }
    }

    #[tactic(auto, unfolding(answers::specs::Answers::first_of, crate::specs::Loading::feed))]
    fn take(&mut self, piece: &[u8], nodes: &mut [u32]) -> Result<(), FeedRefusal>
        ensures { feeds_as result self.new nodes.new ≡ feed self.old nodes.old piece.now }
    {
        self.check(nodes.len())?;
        if self.announced - self.taken < piece.len() {
            return Err(FeedRefusal::TooLong);
        }
        match self.read(piece, nodes) {
            Ok(after) => {
                *self = after;
                Ok(())
            }
            Err(misfit) => {
                *self = self.stopped(misfit);
                Err(FeedRefusal::State(StateRefusal::DoesNotFit(misfit)))
            }
        }
    }

    // The end of the file: the number of its nodes, once they are found sound.
    #[tactic(auto, unfolding(answers::specs::Answers::first_of, crate::specs::Loading::finish))]
    pub fn finish(self, nodes: &mut [u32]) -> Result<usize, FinishRefusal>
        ensures { finished_as result nodes.new ≡ finish self nodes.old }
    {
        self.check(nodes.len())?;
        if self.taken < self.announced {
            return Err(FinishRefusal::Missing);
        }
        let n = self.announced / 4;
        graph::check_nodes(&nodes[..n])?;
        if n == 1 {
            nodes[1] = nodes[0];
            return Ok(2);
        }
        Ok(n)
    }

    // The state that keeps a node that does not fit; later bytes are ignored.
    #[tactic(auto, unfolding(crate::specs::Loading::stopped, crate::specs::Loading::holding))]
    fn stopped(self, misfit: Misfit) -> Loader
        requires { misfit.node < 4_294_967_296 }
        ensures { result ≡ stopped self.announced self.layout misfit }
    {
        Loader {
            taken: 4 * misfit.node,
            kept: Some(misfit),
            ..Loader::fresh(self.announced, self.layout)
        }
    }

    // The state after a piece that is no longer than what is missing.
    #[tactic(auto, unfolding(answers::specs::Answers::first_of))]
    fn read(self, piece: &[u8], nodes: &mut [u32]) -> Result<Loader, Misfit>
        requires { first_of (feed_row self (length nodes.old) piece.now) ≡ none }
        ensures stop { misfit_of result ≡ misfit_in self.layout (self.taken / 4) (held_then self piece.now) }
        ensures state { left_by self result ≡ state_after self.announced self.layout (self.taken / 4) (held_then self piece.now) }
        ensures written { nodes.new ≡ nodes_after self.layout (self.taken / 4) (held_then self piece.now) nodes.old }
    {
        let k = self.taken / 4;
        if self.held_count == 0 {
            return self.read_whole(piece, nodes, k);
        }
        let held_count = self.held_count + piece.len();
        if held_count < 4 {
            return Ok(Loader {
                taken: self.taken + piece.len(),
                held: crate::held::hold(self.held, self.held_count, piece),
                held_count,
                kept: None,
                ..self
            });
        }
        let first = crate::held::joined_node(self.held, self.held_count, piece);
        nodes[k] = crate::repack::repack_node(k, first, self.layout, Layout::Kbwg)?;
        self.read_whole(&piece[4 - self.held_count..], nodes, k + 1)
    }

    // The state after the whole nodes of bytes, of which the first begins node k, with the bytes after them held.
    fn read_whole(self, bytes: &[u8], nodes: &mut [u32], k: usize) -> Result<Loader, Misfit>
        requires { (k + length bytes.now / 4 ≤ length nodes.old) × (k + length bytes.now / 4 ≤ 16_777_216) }
        ensures stop { misfit_of result ≡ misfit_in self.layout k bytes.now }
        ensures state { left_by self result ≡ state_after self.announced self.layout k bytes.now }
        ensures written { nodes.new ≡ nodes_after self.layout k bytes.now nodes.old }
    {
        crate::repack::repack_into(nodes, k, bytes, self.layout)?;
        let held_count = bytes.len() % 4;
        Ok(Loader {
            taken: 4 * k + bytes.len(),
            held: crate::held::hold([0; 3], 0, &bytes[bytes.len() - held_count..]),
            held_count,
            kept: None,
            ..self
        })
    }
}
