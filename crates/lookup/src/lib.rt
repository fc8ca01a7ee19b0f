// The descendants of a node of an accepted tree that have a tag, found by following an index. All else that is malformed is refused, the
// index as far as the chain reads it, and then the buffer is left as it was.
#![tactic(auto)]

ghost use Rattle.std.specs.Prelude.{◌≡◌, ◌<◌, suc, length};
ghost use Rattle.model.specs.Tree.{tree_of, size_of};
ghost use Rattle.model.specs.Axes.{following};
ghost use Rattle.model.specs.Refusals.{lowest, told_counting};
ghost use Rattle.model.specs.Accepted.{AcceptedTree, Sound, Ordered};
ghost use Rattle.index.specs.Index.{first_from};
ghost use Rattle.lookup.specs.Chain.{wrong, chain_of, chain_checks, lookup_checks, LookupLeaves};
ghost use Rattle.lookup.specs.Parts.{Follows, Judged};

use model::Refusal;

// The number that stands for no node in an index.
const NO_NODE: usize = 65535;

// The first node beyond the subtree of a node, or the number of nodes. The subtree is a run of nodes, and goes on while no parent comes
// before the node. One turn for each node of it.
fn subtree_end(tree: &[u16], start: usize) -> usize
    requires { Sound (tree_of tree.now) × (start < size_of tree.now) }
    ensures { result ≡ lowest (size_of tree.now) (following (tree_of tree.now) start) }
{
    let n = tree.len() / 2;
    for y in start + 1..n {
        let beyond = tree::parent(tree, y) < start;
        if beyond {
            return y;
        }
    }
    n
}

// The first node after a node that has the tag, or 65535 where there is none. One turn for each node passed.
fn first_after(tree: &[u16], start: usize, tag: u16) -> usize
    requires { start < size_of tree.now }
    ensures { result ≡ first_from (tree_of tree.now) tag (suc start) }
{
    for y in start + 1..tree.len() / 2 {
        let found = tree::tag(tree, y) == tag;
        if found {
            return y;
        }
    }
    NO_NODE
}

// Refusal 27: whether z, read at node y, is none that an index can have there.
fn is_wrong(tree: &[u16], tag: u16, y: usize, z: usize) -> bool
    ensures { result ≡ wrong (tree_of tree.now) tag y z }
{
    if z == NO_NODE {
        return false;
    }
    if z <= y {
        return true;
    }
    if tree.len() / 2 <= z {
        return true;
    }
    tree::tag(tree, z) != tag
}

// The walk along the chain: a 1 for each node that it meets. One turn for each node met, which reads one number of the index.
fn follow(tree: &[u16], next: &[u16], start: usize, tag: u16) -> Result<[u8; 256], Refusal>
    requires { Ordered (tree_of tree.now)
        × ((start < size_of tree.now) × (length next.now ≡ size_of tree.now)) }
    ensures { Follows (chain_of (tree_of tree.now) next.now start tag) result }
{
    let end = subtree_end(tree, start);
    let mut y = first_after(tree, start, tag);
    let mut nodes = [0u8; 256];
    while y < end {
        let z = usize::from(next[y]);
        let broken = is_wrong(tree, tag, y, z);
        if broken {
            return Err(Refusal::BadIndex(y as u16));
        }
        nodes[y] = 1;
        y = z;
    }
    Ok(nodes)
}

// The checks 36 and 27, and the walk.
fn check_chain(tree: &[u16], next: &[u16], start: usize, tag: u16) -> Result<[u8; 256], Refusal>
    requires { Ordered (tree_of tree.now) }
    ensures { Judged (chain_checks tree.now next.now start tag)
        (chain_of (tree_of tree.now) next.now start tag)
        result }
{
    let n = tree.len() / 2;
    if n <= start {
        return Err(Refusal::NoStart);
    }
    if next.len() != n {
        return Err(Refusal::BadIndex(0));
    }
    follow(tree, next, start, tag)
}

// The checks 36, 27 and 20, for a buffer of so many bytes, and the walk. The tree has passed 5 to 7.
fn check(
    tree: &[u16],
    next: &[u16],
    start: usize,
    tag: u16,
    room: usize,
) -> Result<[u8; 256], Refusal>
    requires { AcceptedTree tree.now }
    ensures { Judged (lookup_checks tree.now next.now start tag room)
        (chain_of (tree_of tree.now) next.now start tag)
        result }
{
    let nodes = check_chain(tree, next, start, tag)?;
    checks::check_room(room, tree.len() / 2)?;
    Ok(nodes)
}

// The descendants of a node that have a tag, by the index that is lent, and how many they are. Beside a scan
// of the subtree and one up to the first node with the tag, it visits the nodes that it answers, and reads one number of the index
// for each.
pub fn descendants(
    tree: &[u16],
    next: &[u16],
    start: u16,
    tag: u16,
    to: &mut [u8],
) -> Result<usize, Refusal>
    requires { AcceptedTree tree.now }
    ensures { LookupLeaves tree.now next.now start tag to.old
        (told_counting result) to.new }
{
    let nodes = check(tree, next, usize::from(start), tag, to.len())?;
    sets::put(to, nodes, tree.len() / 2);
    Ok(sets::count_of(nodes))
}
