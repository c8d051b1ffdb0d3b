// What both writers read of a graph and of its labels; the meaning of chains and blocks is in specs/.
#![tactic(auto)]

ghost use Rattle.std.specs.Prelude.{◌≡◌};
ghost use Rattle.export.specs.Starts.{unlabelled};

use node::Node24;

// Whether some node's tile has no label.
pub fn lacks_label(nodes: &[u32], labels: &[u32]) -> bool
    ensures { result ≡ unlabelled nodes.now labels.now }
{
    nodes
        .iter()
        .any(|v| labels.len() <= Node24(*v).tile() as usize)
}
