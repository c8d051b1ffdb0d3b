// A graph and its labels that have passed the checks before the walk.
ghost use Rattle.macondo_file.specs.RowLaws.{MacondoReady};

// Nodes and labels of which arcs, tiles and labels are as the walk needs them.
#[derive(Clone, Copy)]
pub struct ReadyGraph<'a> {
    pub nodes: &'a [u32],
    pub labels: &'a [u32],
    pub ghost ready: { MacondoReady nodes.now labels.now },
}
