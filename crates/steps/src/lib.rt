// The image of a node set under a step, for every axis by a fixed number of passes along two links: the parent, and the
// previous sibling. A link is a lower number than its node's, so that one pass serves for any number of hops too.
// Every function here is O(n). The two passes are kept out of the frames and the code of what calls them: the C header promises how
// much stack a call takes, and how large the archive is.
// Which way a link is gone, and whether more than once, are Booleans, as the definitions have them (`turn`, `along`): enums would be no
// plainer, since each would be turned into its Boolean again in the clauses and in the branch-free test of a pass.
#![tactic(auto)]

ghost use Rattle.std.specs.Prelude.{◌≡◌, true, ◌*◌, ◌≤◌, ◌<◌, length, eqb};
ghost use Rattle.model.specs.Sets.{tab, ones, memb, upto, turn, image};
ghost use Rattle.model.specs.Tree.{tree_of, size_of};
ghost use Rattle.model.specs.Axes.{following, axis, matches, passes, steps};
ghost use Rattle.model.specs.Numbers.{axis_number};
ghost use Rattle.tree.specs.Links.{links};
ghost use Rattle.steps.specs.Moves.{along, star, forward, is_converse, pair_of, passes_all, Linked};

use model::Axis;

// From each node to those whose link it is; by one hop or more where closed is set. One pass: the byte of the link is final
// before it is read.
#[inline(never)]
fn gather(link: &[u16], n: usize, closed: bool, from: [u8; 256]) -> [u8; 256]
    requires { (n ≤ 256) × (2 * n ≤ length link.now) }
    ensures { result ≡ tab 256 (image n (along closed (links link.now)) (memb from)) }
{
    let mut r = [0u8; 256];
    for y in 0..n {
        let p = usize::from(link[2 * y]);
        if p < y {
            r[y] = sets::byte((from[p] != 0) | (closed & (r[p] != 0)));
        }
    }
    r
}

// From each node to its link; by one hop or more where closed is set. One pass from the last node down: a node's byte is
// final before its link is set.
#[inline(never)]
fn scatter(link: &[u16], n: usize, closed: bool, from: [u8; 256]) -> [u8; 256]
    requires { (n ≤ 256) × (2 * n ≤ length link.now) }
    ensures { result ≡ tab 256 (image n (turn true (along closed (links link.now))) (memb from)) }
{
    let mut r = [0u8; 256];
    for y in (0..n).rev() {
        let p = usize::from(link[2 * y]);
        let sends = (p < y) & ((from[y] != 0) | (closed & (r[y] != 0)));
        if sends {
            r[p] = 1;
        }
    }
    r
}

// One hop along a link, or one or more where closed is set: away from node 0, or back.
fn link_image(link: &[u16], n: usize, closed: bool, back: bool, from: [u8; 256]) -> [u8; 256]
    requires { (n ≤ 256) × (2 * n ≤ length link.now) }
    ensures { result ≡ tab 256 (image n (turn back (along closed (links link.now))) (memb from)) }
{
    if back {
        return scatter(link, n, closed, from);
    }
    gather(link, n, closed, from)
}

// The set itself, as far as it is below n.
fn self_image(n: usize, back: bool, from: [u8; 256]) -> [u8; 256]
    requires { n ≤ 256 }
    ensures { result ≡ tab 256 (image n (turn back eqb) (memb from)) }
{
    let all = sets::full(n);
    sets::combined(sets::Operation::Intersection, all, from)
}

// No hop, one or more.
fn star_image(link: &[u16], n: usize, back: bool, from: [u8; 256]) -> [u8; 256]
    requires { (n ≤ 256) × (2 * n ≤ length link.now) }
    ensures { result ≡ tab 256 (image n (turn back (star (links link.now))) (memb from)) }
{
    let a = self_image(n, back, from);
    let b = link_image(link, n, true, back, from);
    sets::combined(sets::Operation::Union, a, b)
}

// Following, or its converse, preceding: up or stay, along the siblings, down or stay. Three passes.
fn following_image(tree: &[u16], prev: &[u16], back: bool, from: [u8; 256]) -> [u8; 256]
    requires { Linked tree.now prev.now }
    ensures { result
        ≡ tab 256 (image (size_of tree.now) (turn back (following (tree_of tree.now))) (memb from)) }
{
    let n = tree.len() / 2;
    let a = star_image(tree, n, true, from);
    let b = link_image(prev, n, true, back, a);
    star_image(tree, n, false, b)
}

// Whether an axis is the converse of a forward one: the axes with an even number are, a node itself being its own.
pub fn is_converse(a: Axis) -> bool
    ensures { result ≡ is_converse (axis_number a) }
{
    matches!(
        a,
        Axis::Itself
            | Axis::Parent
            | Axis::Left
            | Axis::Ancestor
            | Axis::Preceding
            | Axis::PrecedingSibling
            | Axis::AncestorOrSelf
    )
}

// The forward axis of a pair of converses, or, where the flag is set, its converse.
fn forward_image(tree: &[u16], prev: &[u16], a: Axis, back: bool, from: [u8; 256]) -> [u8; 256]
    requires { Linked tree.now prev.now }
    ensures { result
        ≡ tab 256 (image (size_of tree.now) (turn back (forward (tree_of tree.now) (pair_of (axis_number a)))) (memb from)) }
{
    let n = tree.len() / 2;
    match a {
        Axis::Itself => self_image(n, back, from),
        Axis::Child | Axis::Parent => link_image(tree, n, false, back, from),
        Axis::Right | Axis::Left => link_image(prev, n, false, back, from),
        Axis::Descendant | Axis::Ancestor => link_image(tree, n, true, back, from),
        Axis::Following | Axis::Preceding => following_image(tree, prev, back, from),
        Axis::FollowingSibling | Axis::PrecedingSibling => link_image(prev, n, true, back, from),
        Axis::DescendantOrSelf | Axis::AncestorOrSelf => star_image(tree, n, back, from),
    }
}

// An axis, or its converse.
fn axis_image(tree: &[u16], prev: &[u16], a: Axis, back: bool, from: [u8; 256]) -> [u8; 256]
    requires { Linked tree.now prev.now }
    ensures { result
        ≡ tab 256 (image (size_of tree.now) (turn back (axis (tree_of tree.now) (axis_number a))) (memb from)) }
{
    let turned = is_converse(a);
    if turned {
        return forward_image(tree, prev, a, !back, from);
    }
    forward_image(tree, prev, a, back, from)
}

// Whether every node passes the name test: node() in each tree, the star where node 0 is no document node.
pub fn passes_all(tree: &[u16], name: usize) -> bool
    requires { 0 < size_of tree.now }
    ensures { result ≡ passes_all (tree_of tree.now) name }
{
    (name == 65534) | ((name == 65535) & (tree::tag(tree, 0) != 65534))
}

// The name test matches the tag. Tags are compared as they are, in 16 bits, so that vector code takes more of them at a time.
pub fn matches_tag(name: usize, tag: u16) -> bool
    ensures { result ≡ matches name tag }
{
    let same = (name < 65536) & (tag == (name % 65536) as u16);
    (name == 65534) | (((name == 65535) & (tag != 65534)) | same)
}

// The nodes that pass the name test. One pass.
fn named(tree: &[u16], name: usize) -> [u8; 256]
    requires { size_of tree.now ≤ 256 }
    ensures { result ≡ tab 256 (upto (size_of tree.now) (passes (tree_of tree.now) name)) }
{
    let n = tree.len() / 2;
    let mut r = [0u8; 256];
    for y in 0..n {
        r[y] = sets::byte(matches_tag(name, tree::tag(tree, y)));
    }
    r
}

// The image under a step, by its axis and its name test, or under the step's converse: forwards the test cuts the
// image, backwards the set. Where every node passes, nothing is cut.
fn step_image(
    tree: &[u16],
    prev: &[u16],
    a: Axis,
    name: usize,
    back: bool,
    from: [u8; 256],
) -> [u8; 256]
    requires { Linked tree.now prev.now }
    ensures { result
        ≡ tab 256 (image (size_of tree.now) (turn back (steps (tree_of tree.now) (axis_number a) name)) (memb from)) }
{
    let all = passes_all(tree, name);
    if all {
        return axis_image(tree, prev, a, back, from);
    }
    let s = named(tree, name);
    if back {
        let m = sets::combined(sets::Operation::Intersection, from, s);
        return axis_image(tree, prev, a, true, m);
    }
    let m = axis_image(tree, prev, a, false, from);
    sets::combined(sets::Operation::Intersection, m, s)
}

// The image under a step or its converse, and how many nodes it has.
pub fn step(
    tree: &[u16],
    prev: &[u16],
    a: Axis,
    name: usize,
    back: bool,
    from: [u8; 256],
    count: &mut usize,
) -> [u8; 256]
    requires { Linked tree.now prev.now }
    ensures { (result
        ≡ tab 256 (image (size_of tree.now) (turn back (steps (tree_of tree.now) (axis_number a) name)) (memb from)))
        × (count.new ≡ ones result) }
{
    let r = step_image(tree, prev, a, name, back, from);
    *count = sets::count_of(r);
    r
}
