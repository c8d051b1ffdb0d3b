// The words of a list, one beside another, and the way back from each to the one before it.
ghost use Rattle.std.specs.Prelude.{◌≡◌, ◌≤◌, ◌<◌, length};
ghost use Rattle.graph.specs.Order.{shared};
ghost use Rattle.built.specs.Listed.{word_below};
ghost use Rattle.word_list.specs.Words.{IsLexicon, Marked};

// How many tiles two words share before they part.
pub fn shared(v: &[u8], w: &[u8]) -> usize
    ensures { result ≡ shared v.now w.now }
{
    // Cut to one length, so that a step along both tests one end.
    let most = v.len().min(w.len());
    v[..most]
        .iter()
        .zip(&w[..most])
        .take_while(|(a, b)| a == b)
        .count()
}

// Whether word w is above word v. By the tiles where they part: by the library's order of slices the check of a list takes a seventh longer.
pub(crate) fn is_above(v: &[u8], w: &[u8]) -> bool
    ensures { result ≡ word_below v.now w.now }
{
    let c = shared(v, w);
    c < w.len() && (c == v.len() || v[c] < w[c])
}

// Keeps for each word how many tiles the word before it has, in the number that stands where the word's length byte does in the list; the
// first word keeps 0. The list must be that of a lexicon and not empty, and the numbers must be there. Answers the place of the last word.
pub fn mark_words(list: &[u8], marks: &mut [u32]) -> usize
    requires lexicon { IsLexicon list.now }
    requires list_nonzero { 0 < length list.now }
    requires list_in_bounds { length list.now ≤ length marks.old }
    ensures { Marked list.now marks.new result }
{
    let mut last: usize = 0;
    let mut before: u32 = 0;
    let mut at: usize = 0;
    // The way goes where the length bytes lead, so no iterator counts its steps.
    while at < list.len() {
        marks[at] = before;
        before = u32::from(list[at]);
        last = at;
        at += 1 + before as usize;
    }
    last
}
