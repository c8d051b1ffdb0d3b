// Pages of words.
ghost use Rattle.std.specs.Prelude.{◌≡◌, replicate};
ghost use Rattle.stored.specs.Answers.{same};
ghost use Rattle.replay.specs.Pages.{page_fields, page_reply};

use page::PAGE;
use stored::{list_from, list_to, same, same_then, word_at};

// P FIRST L N, L labels, N nodes and the counts; the title.
#[tactic(auto, unfolding(crate::specs::Pages::page_reply))]
pub(crate) fn write_page(stored: &[u64], words: &[u32], title: &[u8]) -> bool
    ensures { result ≡ same stored.now (page_reply words.now title.now (replicate 960 0)) }
{
    let mut page = [0u8; PAGE];
    let labels = list_from(words, 4);
    let label_count = word_at(words, 2) as usize;
    let graph = list_from(labels, label_count);
    let count = word_at(words, 3) as usize;
    let refusal = machirsun::machirsun_write_page(
        list_to(graph, count),
        list_from(graph, count),
        list_to(labels, label_count),
        title,
        word_at(words, 0),
        word_at(words, 1),
        &mut page,
    );
    same_page(stored, refusal, &page)
}

#[tactic(auto, unfolding(crate::specs::Pages::page_fields))]
fn same_page(stored: &[u64], refusal: u32, page: &[u8]) -> bool
    ensures { result ≡ same stored.now (page_fields refusal page.now) }
{
    if refusal == 0 {
        same_then(stored, &[0u32], list_to(page, PAGE))
    } else {
        same(stored, &[refusal])
    }
}
