// A node of the search tree: an entry, the node above it, and links to nodes with lower and with higher codes.
ghost use Rattle.std.specs.Prelude.{◌≡◌};
ghost use Rattle.registers.specs.Nodes.{linked};

#[derive(Clone, Copy)]
pub struct Node {
    pub code: u64,
    pub mark: u32,
    pub above: u32,
    pub low: Option<u32>,
    pub high: Option<u32>,
}

impl Node {
    // Links to a node on the side of the code.
    pub(crate) fn link(&mut self, code: u64, to: u32)
        ensures { self.new ≡ linked self.old code to }
    {
        if code < self.code {
            self.low = Some(to);
        } else {
            self.high = Some(to);
        }
    }
}
