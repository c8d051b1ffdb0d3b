// Why words are refused.
ghost use Rattle.std.specs.Prelude.{◌≡◌};
ghost use Rattle.typed.specs.Refusals.{typed_refusal};
ghost use Rattle.typed.specs.declared.refusal.TypedRefusal.TheVariants as T;

use answers::Refuses;

#[derive(Clone, Copy, Debug, PartialEq, Eq)]
pub enum TypedRefusal {
    // of the label file, which is read before any word
    BadLabelLine(label_index::BadLabelLine),
    // the byte's place in the text
    Unreadable(usize),
    BufferFull,
}

impl From<label_index::BadLabelLine> for TypedRefusal {
    ghost from_gives = { λ e r. r ≡ T.BadLabelLine e };

    fn from(e: label_index::BadLabelLine) -> TypedRefusal {
        TypedRefusal::BadLabelLine(e)
    }
}

impl Refuses for TypedRefusal {
    ghost refusal = { typed_refusal };

    fn number(&self) -> u32 {
        match self {
            TypedRefusal::BadLabelLine(line) => line.number(),
            TypedRefusal::Unreadable(_) => 28,
            TypedRefusal::BufferFull => 16,
        }
    }
}
