// The walk down the tree.
ghost use Rattle.std.specs.Prelude.{◌≡◌, ℕ, ◌<◌, ◌≤◌, length, MatchResult};
ghost use Rattle.registers.specs.Nodes.{node_at, below, Has, Ends};

use crate::tree::node::Node;

// The node below `at` on the side of the code, if there is one.
fn below(nodes: &[Node], at: usize, code: u64) -> Option<usize>
    requires { at < length nodes.now }
    ensures { result ≡ below nodes.now (length nodes.now) at code }
{
    let node = &nodes[at];
    let lower = code < node.code;
    let link = if lower { node.low } else { node.high };
    let to = link? as usize;
    let child = nodes.get(to)?;
    let beside = if lower {
        child.code < node.code
    } else {
        child.code > node.code
    };
    (child.above as usize == at && beside).then_some(to)
}

// The mark of the node that holds the code; or else the last node on the way to it, none where there is no node.
pub(crate) fn search(nodes: &[Node], code: u64) -> Result<u32, Option<usize>>
    requires { (l : ℕ) → l < length nodes.now → (node_at nodes.now l).above ≤ l }
    ensures { MatchResult result (Has nodes.now (length nodes.now) code) (Ends nodes.now (length nodes.now) code) }
{
    if nodes.is_empty() {
        return Err(None);
    }
    let mut at = 0;
    while nodes[at].code != code {
        at = below(nodes, at, code).ok_or(Some(at))?;
    }
    Ok(nodes[at].mark)
}
