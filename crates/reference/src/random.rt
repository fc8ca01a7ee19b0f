// Trees, queries, assignments and node sets from a seed. Each is accepted by the way it is made.
use super::query::{
    ANY_NODE, Entry, Query, STAR, Sort, axis_of, kind_of, left_of, right_of, sort_of,
};
use super::tree::{DOCUMENT, Tree};
use harness::line::Line;
use harness::table;
use model::{Axis, Kind};

#[derive(Clone, Copy)]
pub struct Seed {
    state: u64,
}

impl Seed {
    pub fn new(state: usize) -> Seed {
        Seed {
            state: state as u64,
        }
    }

    // The next number of the seed (xorshift).
    fn next(&mut self) -> u64 {
        let a = self.state ^ (self.state << 13);
        let b = a ^ (a >> 7);
        self.state = b ^ (b << 17);
        self.state
    }

    // A number below n; 0 where there is none.
    pub fn below(&mut self, n: usize) -> usize {
        if n == 0 {
            return 0;
        }
        let high = (self.next() >> 32) as usize;
        high % n
    }

    // A number from least to most.
    pub fn between(&mut self, least: usize, most: usize) -> usize {
        if most < least {
            return least;
        }
        let more = self.below((most - least).wrapping_add(1));
        least.wrapping_add(more)
    }

    // Numbers that a part of a line bounds, LEAST MOST, from its number k on.
    pub fn within(&mut self, line: &Line, part: usize, k: usize) -> usize {
        self.between(line.number(part, k), line.number(part, k.wrapping_add(1)))
    }

    // Of so many times once.
    pub fn one_in(&mut self, n: usize) -> bool {
        self.below(n) == 0
    }

    // Any axis.
    pub fn axis(&mut self) -> Axis {
        axis_of(self.below(13)).unwrap_or(Axis::Itself)
    }

    // Child, parent, right or left.
    pub fn near_axis(&mut self) -> Axis {
        axis_of(self.between(1, 4)).unwrap_or(Axis::Itself)
    }

    // Two operands in either order.
    pub fn either_way(&mut self, kind: Kind, a: usize, b: usize) -> Entry {
        if self.one_in(2) {
            return Entry::joining(kind, a, b);
        }
        Entry::joining(kind, b, a)
    }
}

// One of a few tags, or of all but the reserved ones the highest.
pub fn tag(seed: &mut Seed) -> usize {
    match seed.below(12) {
        11 => 65533,
        t => t % 3,
    }
}

// A tree of n nodes. Each hangs from the node before it or, at most so many steps up, from an ancestor of that node.
pub fn make_tree(seed: &mut Seed, n: usize) -> Tree {
    let mut tree = Tree::new();
    let steps = seed.between(1, 6);
    for x in 0..n {
        let parent = if x == 0 {
            65535
        } else {
            tree.climbed(x - 1, seed.below(steps))
        };
        tree.push(parent, tag(seed));
    }
    tree
}

// In one tree of four, node 0 becomes a document node.
pub fn maybe_document(seed: &mut Seed, tree: &mut Tree) {
    if seed.one_in(4) {
        tree.set_tag(0, DOCUMENT);
    }
}

// A node below n for each variable, of which there are at most three.
pub fn make_nodes(seed: &mut Seed, columns: usize, n: usize) -> table::Table {
    let mut nodes = table::Table::with_length(columns);
    for k in 0..3 {
        nodes.put(k, seed.below(n));
    }
    nodes
}

// A set of nodes below n: few, half or all of them.
pub fn make_set(seed: &mut Seed, set: &mut table::Set, n: usize) {
    let share = seed.between(1, 6);
    for x in 0..n {
        table::put(set, x, u8::from(seed.one_in(share)));
    }
}

// What each entry is free for as an operand; nothing where it is one already.
#[derive(Drop)]
struct Free {
    sorts: [Option<Sort>; 64],
}

impl Free {
    fn mark(&mut self, e: usize, sort: Option<Sort>) {
        table::put(&mut self.sorts, e, sort);
    }

    // How many entries are free for an operand of this sort.
    fn count(&self, sort: Sort) -> usize {
        self.sorts.iter().filter(|s| **s == Some(sort)).count()
    }

    // The first entry from a place on, and round to it again, that is free for an operand of this sort.
    fn find(&self, sort: Sort, start: usize) -> Option<usize> {
        for i in 0..64 {
            let e = start.wrapping_add(i) % 64;
            if self.sorts[e] == Some(sort) {
                return Some(e);
            }
        }
        None
    }

    // Any entry that is free for an operand of this sort is taken, if one is.
    fn take(&mut self, seed: &mut Seed, sort: Sort) -> Option<usize> {
        let e = self.find(sort, seed.below(64))?;
        self.mark(e, None);
        Some(e)
    }

    // An entry over any two free operands, if there are enough.
    fn take_two(&mut self, seed: &mut Seed, kind: Kind, left: Sort, right: Sort) -> Option<Entry> {
        let l = self.take(seed, left)?;
        let Some(r) = self.take(seed, right) else {
            self.mark(l, Some(left));
            return None;
        };
        Some(Entry::joining(kind, l, r))
    }
}

// The star, half as often `node()`, and as often a tag.
fn name_test(seed: &mut Seed) -> usize {
    match seed.below(4) {
        0 => tag(seed),
        1 => ANY_NODE,
        _ => STAR,
    }
}

// A step along any axis.
pub fn step(seed: &mut Seed) -> Entry {
    let axis = seed.axis();
    Entry::step(axis, name_test(seed))
}

// Appends the closure of entry e. If that is a step, it mostly becomes one along child, parent, right or left: those lead further where
// they are taken again, as most axes do not.
pub fn append_closure(seed: &mut Seed, query: &mut Query, e: usize) {
    let f = query.entry(e);
    let stays = seed.one_in(4);
    if (f.kind == Kind::Step) & !stays {
        let axis = seed.near_axis();
        query.put(e, Entry::step(axis, f.tag));
    }
    query.push(Entry::over(Kind::Star, e));
}

// Appends a step and, one time in four, its closure.
pub fn append_path(seed: &mut Seed, query: &mut Query) {
    query.push(step(seed));
    if seed.one_in(4) {
        append_closure(seed, query, query.last());
    }
}

// The query goes on by a path.
pub fn go_on(seed: &mut Seed, query: &mut Query) {
    let p = query.last();
    append_path(seed, query);
    query.join(Kind::Compose, p);
}

// An entry with no operands: of a variable, if asked for and there is one, else a step.
fn leaf(seed: &mut Seed, kind: Kind, columns: usize) -> Entry {
    if (kind == Kind::Step) || (columns == 0) {
        return step(seed);
    }
    Entry::over(kind, seed.below(columns))
}

// An entry of this kind over any free operands, if there are enough.
fn over_free(seed: &mut Seed, free: &mut Free, kind: Kind) -> Option<Entry> {
    let left = left_of(kind)?;
    match right_of(kind) {
        Some(right) => free.take_two(seed, kind, left, right),
        None => {
            let l = free.take(seed, left)?;
            Some(Entry::over(kind, l))
        }
    }
}

// The same; a step where there are not enough.
fn make_entry(seed: &mut Seed, free: &mut Free, kind: Kind, columns: usize) -> Entry {
    if left_of(kind).is_none() {
        return leaf(seed, kind, columns);
    }
    match over_free(seed, free, kind) {
        Some(f) => f,
        None => step(seed),
    }
}

// A kind that joins two paths: more often compose or union than intersect or except, which leave less.
fn joint(seed: &mut Seed) -> Kind {
    match seed.below(6) {
        0 | 2 => Kind::Compose,
        1 | 3 => Kind::Union,
        4 => Kind::Intersect,
        _ => Kind::Except,
    }
}

// Any kind, closure and `same` twice as often as any other.
fn any_kind(seed: &mut Seed) -> Kind {
    match seed.below(17) {
        15 => Kind::Star,
        16 => Kind::Same,
        k => kind_of(k).unwrap_or(Kind::Step),
    }
}

// The kind of entry e: any at first; then such that one path remains, and none where the query is whole.
fn choose(seed: &mut Seed, free: &Free, e: usize, grown: usize) -> Option<Kind> {
    if e < grown {
        return Some(any_kind(seed));
    }
    match (free.count(Sort::Path), free.count(Sort::Expr)) {
        (1, 0) => None,
        (_, 0) => Some(joint(seed)),
        (0, _) => Some(Kind::Step),
        (_, exprs) => {
            let joins = seed.one_in(2);
            if (1 < exprs) & joins {
                return Some(if seed.one_in(2) { Kind::And } else { Kind::Or });
            }
            Some(Kind::Filter)
        }
    }
}

// A query of at most one entry more than twice as many as are grown. Operands are taken from anywhere, so that the
// entries come in any order that the rules admit.
fn make_query(seed: &mut Seed, grown: usize, columns: usize) -> Query {
    let mut query = Query::new();
    let mut free = Free { sorts: [None; 64] };
    for e in 0..64 {
        let Some(kind) = choose(seed, &free, e, grown) else {
            return query;
        };
        let f = make_entry(seed, &mut free, kind, columns);
        free.mark(e, Some(sort_of(f.kind)));
        if f.kind == Kind::Star {
            append_closure(seed, &mut query, f.left);
        } else {
            query.push(f);
        }
    }
    query
}

// The third part of a line says how many variables a query may use, LEAST MOST; they are 0 to 3 where it says nothing.
fn columns(seed: &mut Seed, line: &Line) -> usize {
    if line.length(2) == 0 {
        return seed.below(4);
    }
    seed.within(line, 2, 0)
}

// A query over a tree, and how many variables it may use.
#[derive(Clone, Copy)]
pub struct Made {
    pub tree: Tree,
    pub query: Query,
    pub columns: usize,
}

// The tree and the query that a line asks for, LEAST MOST ENTRIES; it names none of its variables yet where it is to be bare.
pub fn make_both(seed: &mut Seed, line: &Line, bare: bool) -> Made {
    let n = seed.within(line, 1, 0);
    let grown = seed.between(1, line.number(1, 2));
    let columns = columns(seed, line);
    let mut tree = make_tree(seed, n);
    maybe_document(seed, &mut tree);
    let named = if bare { 0 } else { columns };
    Made {
        tree,
        query: make_query(seed, grown, named),
        columns,
    }
}
