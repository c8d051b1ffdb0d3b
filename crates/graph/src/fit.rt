// A graph that has passed the checks.
ghost use Rattle.graph.specs.Checks.{IsFit};

// Nodes that have passed `check_graph`: no walk along arcs and runs leaves them.
#[derive(Clone, Copy)]
pub struct FitGraph<'a> {
    pub nodes: &'a [u32],
    pub ghost fit: { IsFit nodes.now },
}
