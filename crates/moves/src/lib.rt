// A step composed with a whole table of bits, in place, for every axis by a fixed number of passes along two links: the parent, and
// the previous sibling. Column y of the table is the set of the nodes with a pair to y. The step takes each column to its image under
// the step's converse, as crate steps does it for one node set; here a pass moves all columns at once. Every function here takes O(n)
// turns, of a row of four words each.
#![tactic(auto)]

mod pass;
mod row;

ghost use Rattle.std.specs.Prelude.{true, ◌*◌, ◌≤◌, length};
ghost use Rattle.model.specs.Sets.{turn};
ghost use Rattle.model.specs.Tree.{tree_of, size_of};
ghost use Rattle.model.specs.Axes.{following, axis, passes, steps};
ghost use Rattle.model.specs.Numbers.{axis_number};
ghost use Rattle.tree.specs.Links.{links};
ghost use Rattle.steps.specs.Moves.{hop, plus, star, forward, pair_of, Linked};
ghost use Rattle.bits.specs.BitTables.{bit_relation};
ghost use Rattle.bits.specs.Rows.{Becomes, composed, starting_in};
ghost use Rattle.moves.specs.Columns.{Moved};

use model::Axis;

// One hop along a link, away from node 0, or back.
fn move_hop(link: &[u16], n: usize, back: bool, acc: &mut [u64])
    requires { (n ≤ 256) × ((2 * n ≤ length link.now) × (4 * n ≤ length acc.old)) }
    ensures { Moved n (turn back (hop (links link.now))) acc.old acc.new }
{
    if back {
        pass::hop_back(link, n, acc);
        return;
    }
    pass::hop_away(link, n, acc);
}

// No hop, one or more.
fn move_star(link: &[u16], n: usize, back: bool, acc: &mut [u64])
    requires { (n ≤ 256) × ((2 * n ≤ length link.now) × (4 * n ≤ length acc.old)) }
    ensures { Moved n (turn back (star (links link.now))) acc.old acc.new }
{
    if back {
        pass::star_back(link, n, acc);
        return;
    }
    pass::star_away(link, n, acc);
}

// One hop or more. Two passes.
fn move_plus(link: &[u16], n: usize, back: bool, acc: &mut [u64])
    requires { (n ≤ 256) × ((2 * n ≤ length link.now) × (4 * n ≤ length acc.old)) }
    ensures { Moved n (turn back (plus (links link.now))) acc.old acc.new }
{
    move_star(link, n, back, acc);
    move_hop(link, n, back, acc);
}

// Following, or its converse, preceding: up or stay, along the siblings, down or stay. Four passes.
fn move_following(tree: &[u16], prev: &[u16], back: bool, acc: &mut [u64])
    requires { Linked tree.now prev.now × (4 * size_of tree.now ≤ length acc.old) }
    ensures { Moved (size_of tree.now) (turn back (following (tree_of tree.now))) acc.old acc.new }
{
    let n = tree.len() / 2;
    move_star(tree, n, true, acc);
    move_plus(prev, n, back, acc);
    move_star(tree, n, false, acc);
}

// The forward axis of a pair of converses, or, where the flag is set, its converse.
fn move_forward(tree: &[u16], prev: &[u16], a: Axis, back: bool, acc: &mut [u64])
    requires { Linked tree.now prev.now × (4 * size_of tree.now ≤ length acc.old) }
    ensures { Moved (size_of tree.now)
        (turn back (forward (tree_of tree.now) (pair_of (axis_number a)))) acc.old acc.new }
{
    let n = tree.len() / 2;
    match a {
        Axis::Itself => {}
        Axis::Child | Axis::Parent => move_hop(tree, n, back, acc),
        Axis::Right | Axis::Left => move_hop(prev, n, back, acc),
        Axis::Descendant | Axis::Ancestor => move_plus(tree, n, back, acc),
        Axis::Following | Axis::Preceding => move_following(tree, prev, back, acc),
        Axis::FollowingSibling | Axis::PrecedingSibling => move_plus(prev, n, back, acc),
        Axis::DescendantOrSelf | Axis::AncestorOrSelf => move_star(tree, n, back, acc),
    }
}

// The converse of an axis: of a forward one by moves back, of the converse of one by moves away.
fn move_axis(tree: &[u16], prev: &[u16], a: Axis, acc: &mut [u64])
    requires { Linked tree.now prev.now × (4 * size_of tree.now ≤ length acc.old) }
    ensures { Moved (size_of tree.now) (turn true (axis (tree_of tree.now) (axis_number a))) acc.old acc.new }
{
    let back = !steps::is_converse(a);
    move_forward(tree, prev, a, back, acc);
}

// The rows of the nodes that do not pass the name test are cleared. One pass.
fn keep_named(tree: &[u16], name: usize, acc: &mut [u64])
    requires { 4 * size_of tree.now ≤ length acc.old }
    ensures { Becomes (size_of tree.now)
        (starting_in (passes (tree_of tree.now) name) (bit_relation acc.old)) acc.old acc.new }
{
    let n = tree.len() / 2;
    for y in 0..n {
        let kept = steps::matches_tag(name, tree::tag(tree, y));
        tables::row::keep_if(acc, y, kept);
    }
}

// The table becomes that of a step, by its axis and its name test, composed with it: (x, y) is a pair of it
// exactly if some z is one step from x and (z, y) was one. Where every node passes the test, none is asked.
pub fn step(tree: &[u16], prev: &[u16], a: Axis, name: usize, acc: &mut [u64])
    requires { Linked tree.now prev.now × (4 * size_of tree.now ≤ length acc.old) }
    ensures { Becomes (size_of tree.now)
        (composed (size_of tree.now) (steps (tree_of tree.now) (axis_number a) name) (bit_relation acc.old))
        acc.old acc.new }
{
    let all = steps::passes_all(tree, name);
    if all {
        move_axis(tree, prev, a, acc);
        return;
    }
    keep_named(tree, name, acc);
    move_axis(tree, prev, a, acc);
}
