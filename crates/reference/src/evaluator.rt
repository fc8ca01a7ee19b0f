// For each entry of a query the table of all its pairs, each pair by its definition from the tables of the operands. A node
// expression is the pairs (x, x) of the nodes x where it holds. A closure is found by a search from each node. A query of e entries over n
// nodes costs at most e × n × n × n.
use super::query::{ANY_NODE, Entry, Query, STAR, axis_of};
use super::tree::{DOCUMENT, Tree};
use harness::table;
use model::{Axis, Kind};

// For each of 64 entries, the pairs (x, y) of 256 nodes.
pub type Pairs = [u8; 4194304];

// What is evaluated: a query over a tree, under an assignment.
#[derive(Clone, Copy)]
pub struct Asked<'a> {
    pub tree: &'a Tree,
    pub query: &'a Query,
    pub nodes: &'a table::Table,
}

fn related(pairs: &Pairs, e: usize, x: usize, y: usize) -> bool {
    if (e < 64) & (x < 256) & (y < 256) {
        return pairs[65536 * e + 256 * x + y] != 0;
    }
    false
}

fn relate(pairs: &mut Pairs, e: usize, x: usize, y: usize, holds: bool) {
    if (e < 64) & (x < 256) & (y < 256) {
        pairs[65536 * e + 256 * x + y] = u8::from(holds);
    }
}

// The pairs of an entry among n nodes, or these turned.
#[derive(Clone, Copy)]
pub struct Relation<'a> {
    pub pairs: &'a Pairs,
    pub n: usize,
    pub entry: usize,
    pub back: bool,
}

impl<'a> Relation<'a> {
    fn has(&self, x: usize, y: usize) -> bool {
        if self.back {
            return related(self.pairs, self.entry, y, x);
        }
        related(self.pairs, self.entry, x, y)
    }

    // Some y has the pair (x, y).
    fn starts_at(&self, x: usize) -> bool {
        (0..self.n).any(|y| self.has(x, y))
    }

    // There is a pair.
    pub fn has_pair(&self) -> bool {
        (0..self.n).any(|x| self.starts_at(x))
    }

    // Some x of the set leads to y.
    fn reaches(&self, set: &table::Set, y: usize) -> bool {
        (0..self.n).any(|x| (table::at(set, x) == 1) && self.has(x, y))
    }

    // Writes the image of a set to the front of a buffer, and answers how many nodes are in it.
    pub fn image(&self, set: &table::Set, to: &mut table::Set) -> usize {
        let mut found: usize = 0;
        for y in 0..self.n {
            let reached = self.reaches(set, y);
            table::put(to, y, u8::from(reached));
            found = found.wrapping_add(usize::from(reached));
        }
        found
    }

    // Writes all pairs to the front of a buffer, row after row, and answers how many there are.
    pub fn all_pairs(&self, to: &mut table::Cells) -> usize {
        let mut found: usize = 0;
        for x in 0..self.n {
            for y in 0..self.n {
                let pair = self.has(x, y);
                table::put(to, x.wrapping_mul(self.n).wrapping_add(y), u8::from(pair));
                found = found.wrapping_add(usize::from(pair));
            }
        }
        found
    }
}

// Axes, node against node.

// y is a child of x.
fn is_child(tree: &Tree, x: usize, y: usize) -> bool {
    (y != 0) && (tree.parent(y) == x)
}

// Steps up from y meet x.
pub fn is_descendant(tree: &Tree, x: usize, y: usize) -> bool {
    let mut z = y;
    for _ in 0..256 {
        if is_child(tree, x, z) {
            return true;
        }
        if z == 0 {
            return false;
        }
        z = tree.parent(z);
    }
    false
}

// y is a sibling of x and comes after it.
fn is_later_sibling(tree: &Tree, x: usize, y: usize) -> bool {
    (x != 0) && (x < y) && (tree.parent(x) == tree.parent(y))
}

// y is the first sibling after x.
fn is_next_sibling(tree: &Tree, x: usize, y: usize) -> bool {
    is_later_sibling(tree, x, y) && !(x..y).any(|z| is_later_sibling(tree, x, z))
}

// y is on the axis from x.
fn on_axis(tree: &Tree, axis: Axis, x: usize, y: usize) -> bool {
    match axis {
        Axis::Itself => x == y,
        Axis::Child => is_child(tree, x, y),
        Axis::Parent => is_child(tree, y, x),
        Axis::Right => is_next_sibling(tree, x, y),
        Axis::Left => is_next_sibling(tree, y, x),
        Axis::Descendant => is_descendant(tree, x, y),
        Axis::Ancestor => is_descendant(tree, y, x),
        Axis::Following => (x < y) && !is_descendant(tree, x, y),
        Axis::Preceding => (y < x) && !is_descendant(tree, y, x),
        Axis::FollowingSibling => is_later_sibling(tree, x, y),
        Axis::PrecedingSibling => is_later_sibling(tree, y, x),
        Axis::DescendantOrSelf => (x == y) || is_descendant(tree, x, y),
        Axis::AncestorOrSelf => (x == y) || is_descendant(tree, y, x),
    }
}

// A node with a tag passes a name test: `node()` passes every node, the star all but a document node, and a tag the nodes that
// have it.
fn passes(test: usize, tag: usize) -> bool {
    match test {
        ANY_NODE => true,
        STAR => tag != DOCUMENT,
        _ => tag == test,
    }
}

// The pair (x, y) is in a step.
fn is_step(tree: &Tree, f: Entry, x: usize, y: usize) -> bool {
    match axis_of(f.left) {
        Some(axis) => passes(f.tag, tree.tag(y)) && on_axis(tree, axis, x, y),
        None => false,
    }
}

// Kinds.

// Some z has (x, z) in one relation and (z, y) in another.
fn is_composed(left: Relation, right: Relation, x: usize, y: usize) -> bool {
    (0..left.n).any(|z| left.has(x, z) && right.has(z, y))
}

// The pair (x, y) is in entry f; in none of a closure, which is not found pair by pair.
fn holds(pairs: &Pairs, asked: &Asked, f: Entry, x: usize, y: usize) -> bool {
    let relation = Relation {
        pairs,
        n: asked.tree.size(),
        entry: f.left,
        back: false,
    };
    let right = Relation {
        entry: f.right,
        ..relation
    };
    match f.kind {
        Kind::Step => is_step(asked.tree, f, x, y),
        Kind::Compose => is_composed(relation, right, x, y),
        Kind::Union => relation.has(x, y) || right.has(x, y),
        Kind::Intersect => relation.has(x, y) && right.has(x, y),
        Kind::Except => relation.has(x, y) && !right.has(x, y),
        Kind::Filter => relation.has(x, y) && right.has(y, y),
        Kind::Variable => y == asked.nodes.at(f.left),
        Kind::Root => relation.has(0, y),
        Kind::Exists => (x == y) && relation.starts_at(x),
        Kind::Not => (x == y) && !relation.has(x, x),
        Kind::And => (x == y) && relation.has(x, x) && right.has(x, x),
        Kind::Or => (x == y) && (relation.has(x, x) || right.has(x, x)),
        Kind::Is => (x == y) && (x == asked.nodes.at(f.left)),
        Kind::Star => false,
        Kind::Same => {
            let turned = Relation {
                back: true,
                ..right
            };
            (x == y) && is_composed(relation, turned, x, x)
        }
    }
}

// The pairs of entry e that start at x.
fn fill_row(pairs: &mut Pairs, asked: &Asked, e: usize, f: Entry, x: usize) {
    for y in 0..asked.tree.size() {
        let pair = holds(pairs, asked, f, x, y);
        relate(pairs, e, x, y, pair);
    }
}

// Entry e gets the pair (x, y), and y comes behind the nodes that were found before, unless it is one of them.
fn find(pairs: &mut Pairs, e: usize, x: usize, y: usize, found: &mut table::Table) {
    if !related(pairs, e, x, y) {
        relate(pairs, e, x, y, true);
        found.push(y);
    }
}

// The pairs of entry e, the closure of entry l, that start at x, where none is known: x is found, and what entry l leads to from the
// first so many nodes that are found.
fn search(pairs: &mut Pairs, n: usize, l: usize, e: usize, x: usize, most: usize) {
    let mut found = table::Table::new();
    find(pairs, e, x, x, &mut found);
    for i in 0..most {
        if found.length() <= i {
            return;
        }
        let z = found.at(i);
        for y in 0..n {
            if related(pairs, l, z, y) {
                find(pairs, e, x, y, &mut found);
            }
        }
    }
}

// From how many nodes the search for a closure goes on: from all that are found, of which there are at most n. Where the right number of
// the entry, which is 0 in every query that is accepted, is 1, the path is taken once at most.
fn most(f: Entry, n: usize) -> usize {
    if f.right == 1 { 1 } else { n }
}

// The table of entry e.
fn fill_entry(pairs: &mut Pairs, asked: &Asked, e: usize) {
    let n = asked.tree.size();
    let f = asked.query.entry(e);
    for x in 0..n {
        fill_row(pairs, asked, e, f, x);
        if f.kind == Kind::Star {
            search(pairs, n, f.left, e, x, most(f, n));
        }
    }
}

// The tables of all entries.
pub fn fill(pairs: &mut Pairs, asked: &Asked) {
    for e in 0..asked.query.entries() {
        fill_entry(pairs, asked, e);
    }
}

// The result of a query whose tables are filled, or that turned.
pub fn outcome<'a>(pairs: &'a Pairs, asked: &Asked, back: bool) -> Relation<'a> {
    Relation {
        pairs,
        n: asked.tree.size(),
        entry: asked.query.last(),
        back,
    }
}
