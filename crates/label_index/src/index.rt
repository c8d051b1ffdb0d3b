// The index of a label file: made once, and asked at each place of a text.
ghost use Rattle.std.specs.Prelude.{◌≡◌, ℕ, ◌<◌, ◌≤◌, length, get_or, drop};
ghost use Rattle.label_index.specs.Labels.{labels_in};
ghost use Rattle.label_index.specs.Index.{IndexReady};
ghost use Rattle.label_index.specs.Matches.{starts_with, match_in};
ghost use Rattle.label_index.specs.Said.{FileIndexed, matched};

use crate::refusal::BadLabelLine;

// Makes the index of the label file: where each line's label begins, the order of the lines, and for each first byte its range in that
// order. There must be room for 256 entries in each, and the ranges' ends must be 0. This and `match_at` stand beside `LabelIndex`, since
// a caller may hold the index in slices of its own.
pub fn index_labels(
    file: &[u8],
    starts: &mut [usize],
    order: &mut [u32],
    begin: &mut [usize],
    end: &mut [usize],
) -> Result<usize, BadLabelLine>
    requires in_bounds { (256 ≤ length starts.old) × (256 ≤ length order.old) }
    requires in_bounds_2 { (256 ≤ length begin.old) × (256 ≤ length end.old) × ((b : ℕ) → get_or end.old b 0 ≡ 0) }
    ensures { FileIndexed file.now starts.new order.new begin.new end.new result }
{
    let lines = crate::labels::read_labels(file, starts, order)?;
    crate::ranges::fill_begins(&order[..lines], begin);
    crate::ranges::fill_ends(&order[..lines], end);
    Ok(lines)
}

// Whether a text, which must not be empty, begins with a label. Most labels are one byte: for them no call compares.
#[inline(always)]
fn label_matches(label: &[u8], text: &[u8]) -> bool
    requires { 0 < length text.now }
    ensures { result ≡ starts_with label.now text.now }
{
    if label.len() == 1 {
        label[0] == text[0]
    } else {
        text.starts_with(label)
    }
}

// The label taken at place i of a line, which must have that place, by the index of the whole label file: its tile, and how many bytes it has.
#[inline(always)]
pub fn match_at(
    file: &[u8],
    starts: &[usize],
    order: &[u32],
    begin: &[usize],
    end: &[usize],
    line: &[u8],
    i: usize,
) -> Option<(u8, usize)>
    requires { IndexReady file.now (labels_in file.now) starts.now order.now begin.now end.now × (i < length line.now) }
    ensures { matched result ≡ match_in (labels_in file.now) (drop i line.now) }
{
    let text = &line[i..];
    let b = usize::from(line[i]);
    for k in begin[b]..end[b] {
        let key = order[k];
        let start = starts[(key % 256) as usize];
        let size = (15 - key / 16384 % 16) as usize;
        if label_matches(&file[start..start + size], text) {
            return Some(((key / 256 % 64) as u8, size));
        }
    }
    None
}

// Room for the index of a label file: where each line's label begins, the order of the lines, and for each first byte its range in that order.
#[derive(Clone, Copy)]
pub struct IndexRoom {
    starts: [usize; 256],
    order: [u32; 256],
    begin: [usize; 256],
    end: [usize; 256],
}

impl IndexRoom {
    pub const EMPTY: IndexRoom = IndexRoom {
        starts: [0; 256],
        order: [0; 256],
        begin: [0; 256],
        end: [0; 256],
    };
}

// The index of a label file, in the room that was lent for it.
#[derive(Clone, Copy)]
pub struct LabelIndex<'a> {
    pub file: &'a [u8],
    // how many lines the file has
    pub lines: usize,
    room: &'a IndexRoom,
    pub ghost count: { lines ≡ length (labels_in file.now) },
    pub ghost ready: { IndexReady file.now (labels_in file.now) room.now.starts room.now.order room.now.begin room.now.end },
}

impl<'a> LabelIndex<'a> {
    ghost use Rattle.std.specs.Prelude.{IfOk};
    ghost use Rattle.text.specs.Lines.{lines};
    ghost use Rattle.label_index.specs.Labels.{bad_line};
    ghost use Rattle.label_index.specs.Said.{bad_in};

    // Makes the index of a label file, or names its first bad line.
    pub fn new(file: &'a [u8], room: &'a mut IndexRoom) -> Result<LabelIndex<'a>, BadLabelLine>
        ensures bad { bad_in result ≡ bad_line 1 (lines file.now) }
        ensures of_file { IfOk result (λ index. index.file.now ≡ file.now) }
    {
        room.end.fill(0);
        let lines = index_labels(
            file,
            &mut room.starts,
            &mut room.order,
            &mut room.begin,
            &mut room.end,
        )?;
        Ok(LabelIndex { file, lines, room })
    }

    // The label taken at place i of a line, which must have that place: its tile, and how many bytes it has.
    #[inline(always)]
    pub fn match_at(&self, line: &[u8], i: usize) -> Option<(u8, usize)>
        requires { i < length line.now }
        ensures { matched result ≡ match_in (labels_in self.now.file.now) (drop i line.now) }
    {
        let room = self.room;
        match_at(
            self.file,
            &room.starts,
            &room.order,
            &room.begin,
            &room.end,
            line,
            i,
        )
    }
}
