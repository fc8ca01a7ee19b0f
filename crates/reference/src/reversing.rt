// The query turned round, straight from document 02, §10. No entry is an operand twice, so that each has one part of the new table: how
// long the parts are is found from the front of the query on, and where they begin from its end back, which also says what stands there.
use super::query::{ANY_NODE, Entry, Query, axis_of, left_of, right_of};
use harness::table;
use model::{Axis, Kind};

// Whether an entry stands as it is or reversed.
#[derive(Clone, Copy, PartialEq, Eq)]
enum Way {
    Plain,
    Turned,
}

// What is noted of an entry: how many entries it comes to as it is, and reversed; where its part begins; and which of the two stands
// there.
#[derive(Clone, Copy)]
struct Part {
    plain: usize,
    turned: usize,
    start: usize,
    way: Way,
}

impl Part {
    fn length(&self, way: Way) -> usize {
        match way {
            Way::Plain => self.plain,
            Way::Turned => self.turned,
        }
    }
}

// An entry that comes to nothing.
const NO_PART: Part = Part {
    plain: 0,
    turned: 0,
    start: 0,
    way: Way::Plain,
};

fn plus(a: usize, b: usize) -> usize {
    a.wrapping_add(b)
}

fn before(a: usize) -> usize {
    a.wrapping_sub(1)
}

// How many entries a kind has beside those of its operands, where it is reversed; node expressions never are.
fn own(kind: Kind) -> usize {
    match kind {
        Kind::Step | Kind::Filter => 3,
        Kind::Compose | Kind::Union | Kind::Intersect | Kind::Except | Kind::Star => 1,
        Kind::Variable => 7,
        Kind::Root => 8,
        _ => 0,
    }
}

// The converse of an axis: past self they come in twos.
fn converse(axis: usize) -> usize {
    if axis == 0 {
        return 0;
    }
    if axis % 2 == 0 {
        before(axis)
    } else {
        plus(axis, 1)
    }
}

// A plan of the new table, and the table as far as it is laid.
#[derive(Drop)]
struct Laying {
    plan: [Part; 256],
    to: Query,
}

impl Laying {
    fn part(&self, e: usize) -> Part {
        if e < 256 { self.plan[e] } else { NO_PART }
    }

    // Both lengths of an entry, whose operands have theirs. A filter is reversed with its node expression as it is.
    fn measure(&self, f: Entry) -> Part {
        let mut left = NO_PART;
        let mut right = NO_PART;
        if left_of(f.kind).is_some() {
            left = self.part(f.left);
        }
        if right_of(f.kind).is_some() {
            right = self.part(f.right);
        }
        let behind = match f.kind {
            Kind::Filter => right.plain,
            _ => right.turned,
        };
        Part {
            plain: plus(1, plus(left.plain, right.plain)),
            turned: plus(own(f.kind), plus(left.turned, behind)),
            ..NO_PART
        }
    }

    // The part of entry e begins at a place, with the entry as it is or reversed; answers where the part ends.
    fn begin(&mut self, e: usize, start: usize, way: Way) -> usize {
        let mut part = self.part(e);
        part.start = start;
        part.way = way;
        table::put(&mut self.plan, e, part);
        plus(start, part.length(way))
    }

    // Writes entry `at` of the new table.
    fn put(&mut self, at: usize, f: Entry) {
        self.to.put(at, f);
    }

    // A step along an axis to any node.
    fn put_any(&mut self, at: usize, axis: Axis) {
        self.put(at, Entry::step(axis, ANY_NODE));
    }

    // An entry over the two parts before it, of which one ends where the other begins.
    fn put_over(&mut self, at: usize, kind: Kind, middle: usize) {
        self.put(at, Entry::joining(kind, before(middle), before(at)));
    }

    // Two operands, one part behind the other, and the entry over them.
    fn lay_two(&mut self, kind: Kind, first: usize, second: usize, start: usize, way: Way) {
        let middle = self.begin(first, start, way);
        let end = self.begin(second, middle, way);
        self.put_over(end, kind, middle);
    }

    // An entry as it is.
    fn lay_plain(&mut self, f: Entry, start: usize) {
        if left_of(f.kind).is_none() {
            self.put(start, f);
            return;
        }
        if right_of(f.kind).is_none() {
            let end = self.begin(f.left, start, Way::Plain);
            self.put(end, Entry::over(f.kind, before(end)));
            return;
        }
        self.lay_two(f.kind, f.left, f.right, start, Way::Plain);
    }

    // self::TEST/CONVERSE::node()
    fn lay_step(&mut self, f: Entry, start: usize) {
        let axis = axis_of(converse(f.left)).unwrap_or(Axis::Itself);
        self.put(start, Entry::step(Axis::Itself, f.tag));
        self.put_any(plus(start, 1), axis);
        self.put_over(plus(start, 2), Kind::Compose, plus(start, 1));
    }

    // self::node()[. is $k]/ancestor-or-self::node()/descendant-or-self::node()
    fn lay_variable(&mut self, k: usize, start: usize) {
        self.put_any(start, Axis::Itself);
        self.put(plus(start, 1), Entry::over(Kind::Is, k));
        self.put_over(plus(start, 2), Kind::Filter, plus(start, 1));
        self.put_any(plus(start, 3), Axis::AncestorOrSelf);
        self.put_over(plus(start, 4), Kind::Compose, plus(start, 3));
        self.put_any(plus(start, 5), Axis::DescendantOrSelf);
        self.put_over(plus(start, 6), Kind::Compose, plus(start, 5));
    }

    // The reversed path, then /self::node()[not(parent::node())]/descendant-or-self::node()
    fn lay_root(&mut self, end: usize) {
        self.put_any(end, Axis::Itself);
        self.put_any(plus(end, 1), Axis::Parent);
        self.put(plus(end, 2), Entry::over(Kind::Exists, plus(end, 1)));
        self.put(plus(end, 3), Entry::over(Kind::Not, plus(end, 2)));
        self.put_over(plus(end, 4), Kind::Filter, plus(end, 1));
        self.put_over(plus(end, 5), Kind::Compose, end);
        self.put_any(plus(end, 6), Axis::DescendantOrSelf);
        self.put_over(plus(end, 7), Kind::Compose, plus(end, 6));
    }

    // self::node()[TEST]/, then the reversed path
    fn lay_filter(&mut self, f: Entry, start: usize) {
        self.put_any(start, Axis::Itself);
        let under = self.begin(f.right, plus(start, 1), Way::Plain);
        self.put_over(under, Kind::Filter, plus(start, 1));
        let end = self.begin(f.left, plus(under, 1), Way::Turned);
        self.put_over(end, Kind::Compose, plus(under, 1));
    }

    // A path reversed: a compose swaps its operands.
    fn lay_turned(&mut self, f: Entry, start: usize) {
        match f.kind {
            Kind::Step => self.lay_step(f, start),
            Kind::Compose => self.lay_two(f.kind, f.right, f.left, start, Way::Turned),
            Kind::Union | Kind::Intersect | Kind::Except => {
                self.lay_two(f.kind, f.left, f.right, start, Way::Turned);
            }
            Kind::Filter => self.lay_filter(f, start),
            Kind::Variable => self.lay_variable(f.left, start),
            Kind::Root => {
                let end = self.begin(f.left, start, Way::Turned);
                self.lay_root(end);
            }
            _ => {
                let end = self.begin(f.left, start, Way::Turned);
                self.put(end, Entry::over(f.kind, before(end)));
            }
        }
    }

    // What entry e adds to its part; its operands' parts begin.
    fn lay(&mut self, f: Entry, e: usize) {
        let part = self.part(e);
        match part.way {
            Way::Turned => self.lay_turned(f, part.start),
            Way::Plain => self.lay_plain(f, part.start),
        }
    }
}

// A reversed query as far as 256 entries reach, and how many it has.
#[derive(Clone, Copy)]
pub struct Reversed {
    pub query: Query,
    pub entries: usize,
}

// The reversed query of one that is accepted.
pub fn make(query: &Query) -> Reversed {
    let mut laying = Laying {
        plan: [NO_PART; 256],
        to: Query::new(),
    };
    for e in 0..query.entries() {
        let part = laying.measure(query.entry(e));
        table::put(&mut laying.plan, e, part);
    }
    let entries = laying.begin(query.last(), 0, Way::Turned);
    for e in (0..query.entries()).rev() {
        laying.lay(query.entry(e), e);
    }
    let mut reversed = laying.to;
    reversed.table.set_length(entries.wrapping_mul(4));
    Reversed {
        query: reversed,
        entries,
    }
}
