// Why a label file is refused.
ghost use Rattle.label_index.specs.Refusals.{bad_label_line_refusal};

use answers::Refuses;

// The number, from 1, of the label file's first bad line.
#[derive(Clone, Copy, Debug, PartialEq, Eq)]
pub struct BadLabelLine(pub usize);

impl Refuses for BadLabelLine {
    ghost refusal = { bad_label_line_refusal };

    fn number(&self) -> u32 {
        27
    }
}
