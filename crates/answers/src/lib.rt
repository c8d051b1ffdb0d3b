// Document 01's answers and its rows of checks: their meaning is in specs/; here is what all refusals have in common.
#![tactic(auto)]

ghost use Rattle.std.specs.Prelude.{◌≡◌};
ghost use Rattle.answers.specs.Answers.{Refusal};

// Why a call is refused.
pub trait Refuses {
    // The refusal as document 01 writes it.
    ghost refusal: { Self → Refusal };

    // Its number.
    fn number(&self) -> u32
        ensures { result ≡ (refusal self.now).number };
}
