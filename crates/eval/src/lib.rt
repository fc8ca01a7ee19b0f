// Evaluation of a query over node sets: a path forwards or backwards from a set, a node expression at all nodes at once.
// Path and node evaluation call each other, the entry number falling.
//
// A path without intersect, except, star and `same` costs O(entries × n), whatever its nesting: every entry is evaluated once, and
// `some` is one backward image of all nodes. Intersect, except and `same` go over the start nodes one at a time, and a star over
// at most n images, O(n) times the cost of their operands, which multiplies where they nest: such queries go to the other engine (crates
// `nesting`, `engines`). Sets travel by value, so that a level of calls takes a few KiB of stack, and a query has at most 64 levels.
//
// Each evaluation tells how many nodes its result has, in a number that it is lent: a set is counted where it is made, and one that
// is handed on keeps its count. What an operand tells is overwritten. The number is lent, and not returned beside the set: as a
// pair the two are copied at each level, which was timed, forwards 5 to 10 in a hundred slower and pages 8 to 20.
#![tactic(auto)]

ghost use Rattle.std.specs.Prelude.{◌≡◌, true, false, ◌≤◌, ◌<◌, length};
ghost use Rattle.model.specs.Sets.{tab, ones, memb, upto, turn, image};
ghost use Rattle.model.specs.Results.{assigned};
ghost use Rattle.sets.specs.NodeSets.{only};
ghost use Rattle.eval.specs.Evaluation.{ReadyFor, KindIn, SortIn, passed_for, reached_for, row_for, joined_for, operation_of, ending};

use model::{Call, Kind};
use sets::Operation;

// The node of variable k, as a set.
fn variable(nodes: &[u16], k: usize) -> [u8; 256]
    requires { (k < length nodes.now) × (assigned nodes.now k < 256) }
    ensures { result ≡ tab 256 (only (assigned nodes.now k)) }
{
    let x = model::wide(nodes[k]);
    sets::single(x)
}

// The image under the pairs that end in a set, whatever node they start from. Forwards it is that set, and its count stays as it was
// lent, if there is a node to start from; backwards it is all nodes, if the set has one of those to be reached. O(n).
fn ending_image(
    n: usize,
    to: [u8; 256],
    back: bool,
    from: [u8; 256],
    count: &mut usize,
) -> [u8; 256]
    requires { (n ≤ 256) × ((to ≡ tab 256 (upto n (memb to))) × (count.old ≡ ones to)) }
    ensures { (result ≡ tab 256 (image n (turn back (ending to)) (memb from)))
        × (count.new ≡ ones result) }
{
    if back {
        let hits = sets::combined(Operation::Intersection, from, to);
        let hit = sets::occupied(n, hits);
        let all = sets::full_if(hit, n);
        *count = sets::count_of(all);
        return all;
    }
    let some = sets::occupied(n, from);
    if some {
        // The set made anew: returned as it was lent, it would be moved by memmove, which the archive has no other need of.
        let all = sets::full(n);
        return sets::combined(Operation::Intersection, all, to);
    }
    *count = 0;
    sets::full(0)
}

// How the operands of an entry of a kind are combined.
fn operation(kind: Kind) -> Operation
    ensures { result ≡ operation_of kind }
{
    match kind {
        Kind::Union | Kind::Or => Operation::Union,
        Kind::Intersect | Kind::And => Operation::Intersection,
        _ => Operation::Difference,
    }
}

// What a set reaches by the path at entry e, or what reaches the set where back is set. Of a composition the operand at the
// side of the set goes first.
#[cycle(evaluation)]
pub fn path(call: &Call, e: usize, back: bool, from: [u8; 256], count: &mut usize) -> [u8; 256]
    requires { ReadyFor call.now × SortIn call.now e true }
    ensures { (result ≡ reached_for call.now e back from) × (count.new ≡ ones result) }
{
    let f = query::entry_at(call.query, e);
    match model::kind_of(f.kind) {
        Kind::Step => {
            let axis = model::axis_of(f.left);
            steps::step(call.tree, call.prev, axis, f.tag, back, from, count)
        }
        Kind::Compose => {
            let (first, second) = if back {
                (f.right, f.left)
            } else {
                (f.left, f.right)
            };
            let m = path(call, first, back, from, count);
            path(call, second, back, m, count)
        }
        Kind::Union => operands(call, e, back, from, count),
        Kind::Intersect | Kind::Except => by_rows(call, e, back, from, count),
        Kind::Filter => filter(call, e, back, from, count),
        Kind::Star => star(call, e, back, from, count),
        Kind::Variable | Kind::Root => {
            let to = ends(call, e, count);
            ending_image(call.tree.len() / 2, to, back, from, count)
        }
        _ => unreachable!(),
    }
}

// The nodes where the node expression at entry e holds.
#[cycle(evaluation)]
pub fn node(call: &Call, e: usize, count: &mut usize) -> [u8; 256]
    requires { ReadyFor call.now × SortIn call.now e false }
    ensures { (result ≡ passed_for call.now e) × (count.new ≡ ones result) }
{
    let n = call.tree.len() / 2;
    let f = query::entry_at(call.query, e);
    let kind = model::kind_of(f.kind);
    match kind {
        Kind::Exists => {
            let all = sets::full(n);
            path(call, f.left, true, all, count)
        }
        Kind::Not => {
            let all = sets::full(n);
            let a = node(call, f.left, count);
            sets::combined_counted(Operation::Difference, all, a, count)
        }
        Kind::And | Kind::Or => {
            let a = node(call, f.left, count);
            let b = node(call, f.right, count);
            sets::combined_counted(operation(kind), a, b, count)
        }
        Kind::Is => {
            *count = 1;
            variable(call.nodes, f.left)
        }
        Kind::Same => same(call, e, count),
        _ => unreachable!(),
    }
}

// A filter. Its test holds at the end node: forwards it cuts the image, backwards the set. It has a frame of its own, as operands has.
#[cycle(evaluation)]
#[inline(never)]
fn filter(call: &Call, e: usize, back: bool, from: [u8; 256], count: &mut usize) -> [u8; 256]
    requires { ReadyFor call.now × KindIn call.now e 5 5 }
    ensures { (result ≡ reached_for call.now e back from) × (count.new ≡ ones result) }
{
    let f = query::entry_at(call.query, e);
    let s = node(call, f.right, count);
    if back {
        let m = sets::combined(Operation::Intersection, from, s);
        return path(call, f.left, back, m, count);
    }
    let m = path(call, f.left, back, from, count);
    sets::combined_counted(Operation::Intersection, m, s, count)
}

// What a set reaches by each operand of a union, intersect or except, combined so. For a union that is what the set
// reaches by the entry itself; for the others it is only where the set has one node. It has a frame of its own, so that a level of
// `path` without it takes less stack.
#[cycle(evaluation)]
#[inline(never)]
fn operands(call: &Call, e: usize, back: bool, from: [u8; 256], count: &mut usize) -> [u8; 256]
    requires { ReadyFor call.now × KindIn call.now e 2 4 }
    ensures { (result ≡ joined_for call.now e back from) × (count.new ≡ ones result) }
{
    let f = query::entry_at(call.query, e);
    let a = path(call, f.left, back, from, count);
    let b = path(call, f.right, back, from, count);
    let op = operation(model::kind_of(f.kind));
    sets::combined_counted(op, a, b, count)
}

// An intersect or except, one start node after the other.
#[cycle(evaluation)]
fn by_rows(call: &Call, e: usize, back: bool, from: [u8; 256], count: &mut usize) -> [u8; 256]
    requires { ReadyFor call.now × KindIn call.now e 3 4 }
    ensures { (result ≡ reached_for call.now e back from) × (count.new ≡ ones result) }
{
    let n = call.tree.len() / 2;
    let mut found = sets::full(0);
    for x in 0..n {
        if from[x] != 0 {
            let s = sets::single(x);
            let row = operands(call, e, back, s, count);
            let next = sets::combined(Operation::Union, found, row);
            found = next;
        }
    }
    *count = sets::count_of(found);
    found
}

// The nodes at which a variable or a path from the root ends, from any start. It has a frame of its own, as operands has.
#[cycle(evaluation)]
#[inline(never)]
fn ends(call: &Call, e: usize, count: &mut usize) -> [u8; 256]
    requires { ReadyFor call.now × KindIn call.now e 6 7 }
    ensures { (result ≡ row_for call.now e false 0) × (count.new ≡ ones result) }
{
    let f = query::entry_at(call.query, e);
    match model::kind_of(f.kind) {
        Kind::Variable => {
            *count = 1;
            variable(call.nodes, f.left)
        }
        Kind::Root => {
            let root = sets::single(0);
            path(call, f.left, false, root, count)
        }
        _ => unreachable!(),
    }
}

// A star: from the nodes found last the operand is followed on, until it finds none that is new. At most n rounds, since each but the last
// finds a node more, and each node is followed from once.
#[cycle(evaluation)]
fn star(call: &Call, e: usize, back: bool, from: [u8; 256], count: &mut usize) -> [u8; 256]
    requires { ReadyFor call.now × KindIn call.now e 13 13 }
    ensures { (result ≡ reached_for call.now e back from) × (count.new ≡ ones result) }
{
    let n = call.tree.len() / 2;
    let f = query::entry_at(call.query, e);
    let l = f.left;
    let all = sets::full(n);
    let mut known = sets::combined(Operation::Intersection, all, from);
    let mut last = known;
    loop {
        let next = path(call, l, back, last, count);
        let fresh = sets::combined(Operation::Difference, next, known);
        let more = sets::occupied(n, fresh);
        if !more {
            *count = sets::count_of(known);
            return known;
        }
        let grown = sets::combined(Operation::Union, known, fresh);
        known = grown;
        last = fresh;
    }
}

// The nodes from which both operands of a `same` reach some one node: one start node after the other, since from more than one
// they might reach it from different ones.
#[cycle(evaluation)]
fn same(call: &Call, e: usize, count: &mut usize) -> [u8; 256]
    requires { ReadyFor call.now × KindIn call.now e 14 14 }
    ensures { (result ≡ passed_for call.now e) × (count.new ≡ ones result) }
{
    let n = call.tree.len() / 2;
    let f = query::entry_at(call.query, e);
    let mut starts = sets::full(0);
    for x in 0..n {
        let start = sets::single(x);
        let a = path(call, f.left, false, start, count);
        let b = path(call, f.right, false, start, count);
        let met = sets::combined(Operation::Intersection, a, b);
        let some = sets::occupied(n, met);
        starts[x] = sets::byte(some);
    }
    *count = sets::count_of(starts);
    starts
}
