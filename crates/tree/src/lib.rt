// The numbers of a node in a tree table of two numbers a node, and the links that evaluation walks beside the parents, in time linear in
// the table's length.
#![tactic(auto)]

ghost use Rattle.std.specs.Prelude.{◌≡◌, ◌<◌};
ghost use Rattle.model.specs.Tree.{tree_of, size_of};
ghost use Rattle.model.specs.Accepted.{Sound};
ghost use Rattle.tree.specs.Links.{PreviousSiblings};

// The parent of node x.
pub fn parent(tree: &[u16], x: usize) -> usize
    requires { x < size_of tree.now }
    ensures { result ≡ (tree_of tree.now).parent x }
{
    usize::from(tree[2 * x])
}

// The tag of node x.
pub fn tag(tree: &[u16], x: usize) -> u16
    requires { x < size_of tree.now }
    ensures { result ≡ (tree_of tree.now).tag x }
{
    tree[2 * x + 1]
}

// Each node's previous sibling, or 65535 where it has none: at 2 × y, where a tree table has y's parent. One turn a node: it
// reads the last child so far of its parent, and then is that child. Out of line, so that what it keeps stands on no caller's frame.
#[inline(never)]
pub fn previous_siblings(tree: &[u16]) -> [u16; 512]
    requires { Sound (tree_of tree.now) }
    ensures { PreviousSiblings (tree_of tree.now) (size_of tree.now) result }
{
    let n = tree.len() / 2;
    let mut links = [65535u16; 512];
    let mut last = [65535u16; 256];
    for y in 1..n {
        let p = parent(tree, y);
        links[2 * y] = last[p];
        last[p] = y as u16;
    }
    links
}
