// The checks before the walk.
ghost use Rattle.std.specs.Prelude.{◌≡◌, IfOk};
ghost use Rattle.laws.specs.Lists.{some_of};
ghost use Rattle.answers.specs.Answers.{first_of};
ghost use Rattle.windows1252.specs.Windows1252.{no_byte};
ghost use Rattle.lxd_file.specs.Row.{lxd_checks};
ghost use Rattle.lxd.specs.Said.{checked_refusal};

use crate::{LxdRefusal, Texts};
use export::lacks_label;
use graph::check_graph;
use survey::Labelled;
use windows1252::no_byte;

// Whether some code point of a text has no byte.
pub(crate) fn lacks_byte(text: &[u32]) -> bool
    ensures { result ≡ some_of no_byte text.now }
{
    text.iter().any(|c| no_byte(*c))
}

// The checks of the graph, the texts, the labels and a work list of so many numbers; answers the graph with its labels.
#[tactic(auto, unfolding(answers::specs::Answers::first_of))]
pub(crate) fn check<'a>(
    nodes: &'a [u32],
    labels: &'a [u32],
    texts: Texts<'_>,
    lent_work: usize,
) -> Result<Labelled<'a>, LxdRefusal>
    ensures refused { checked_refusal result
        ≡ first_of (lxd_checks nodes.now labels.now texts.entry.title.now texts.entry.date.now lent_work) }
    ensures same { IfOk result (λ g. (g.graph.nodes.now ≡ nodes.now) × (g.labels.now ≡ labels.now)) }
{
    let graph = check_graph(nodes)?;
    if lacks_byte(texts.title) {
        return Err(LxdRefusal::TitleNotWindows1252);
    }
    if 31 < texts.title.len() {
        return Err(LxdRefusal::TitleTooLong);
    }
    if lacks_byte(texts.date) {
        return Err(LxdRefusal::DateNotWindows1252);
    }
    if 19 < texts.date.len() {
        return Err(LxdRefusal::DateTooLong);
    }
    if lacks_label(graph.nodes, labels) {
        return Err(LxdRefusal::NoLabel);
    }
    if lent_work < 8 * graph.nodes.len() {
        return Err(LxdRefusal::WorkTooShort);
    }
    Ok(Labelled { graph, labels })
}
