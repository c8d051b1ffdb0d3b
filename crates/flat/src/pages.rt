// Pages of words.
ghost use Rattle.std.specs.Prelude.{◌≡◌, []};
ghost use Rattle.answers.specs.Answers.{gives};
ghost use Rattle.page.specs.Said.{said_page};
ghost use Rattle.flat.specs.Flat.{plainly};

use answers::Refuses;
use page::PageRefusal;

// A match of two arms: one function for all would have to say that the refusals carry nothing.
pub fn page_refusal(answer: Result<(), PageRefusal>) -> u32
    ensures { plainly result (gives []) ≡ said_page answer }
{
    match answer {
        Ok(()) => 0,
        Err(e) => e.number(),
    }
}
