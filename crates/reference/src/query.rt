// Queries, as tables of four numbers an entry.
use harness::table::Table;
use model::{Axis, Kind};

// The name tests that are no tags: `node()`, and the star.
pub const ANY_NODE: usize = 65534;

pub const STAR: usize = 65535;

// The kind of a number. Those of kinds and axes are written out from the document (docs/REFERENCE.md, "The query table" and "Axes"), and
// go by no conversion of `model`, so that a wrong number there shows.
pub fn kind_of(number: usize) -> Option<Kind> {
    match number {
        0 => Some(Kind::Step),
        1 => Some(Kind::Compose),
        2 => Some(Kind::Union),
        3 => Some(Kind::Intersect),
        4 => Some(Kind::Except),
        5 => Some(Kind::Filter),
        6 => Some(Kind::Variable),
        7 => Some(Kind::Root),
        8 => Some(Kind::Exists),
        9 => Some(Kind::Not),
        10 => Some(Kind::And),
        11 => Some(Kind::Or),
        12 => Some(Kind::Is),
        13 => Some(Kind::Star),
        14 => Some(Kind::Same),
        _ => None,
    }
}

// And its number.
pub fn kind_number(kind: Kind) -> usize {
    match kind {
        Kind::Step => 0,
        Kind::Compose => 1,
        Kind::Union => 2,
        Kind::Intersect => 3,
        Kind::Except => 4,
        Kind::Filter => 5,
        Kind::Variable => 6,
        Kind::Root => 7,
        Kind::Exists => 8,
        Kind::Not => 9,
        Kind::And => 10,
        Kind::Or => 11,
        Kind::Is => 12,
        Kind::Star => 13,
        Kind::Same => 14,
    }
}

// The axis of a number.
pub fn axis_of(number: usize) -> Option<Axis> {
    match number {
        0 => Some(Axis::Itself),
        1 => Some(Axis::Child),
        2 => Some(Axis::Parent),
        3 => Some(Axis::Right),
        4 => Some(Axis::Left),
        5 => Some(Axis::Descendant),
        6 => Some(Axis::Ancestor),
        7 => Some(Axis::Following),
        8 => Some(Axis::Preceding),
        9 => Some(Axis::FollowingSibling),
        10 => Some(Axis::PrecedingSibling),
        11 => Some(Axis::DescendantOrSelf),
        12 => Some(Axis::AncestorOrSelf),
        _ => None,
    }
}

// And its number.
pub fn axis_number(axis: Axis) -> usize {
    match axis {
        Axis::Itself => 0,
        Axis::Child => 1,
        Axis::Parent => 2,
        Axis::Right => 3,
        Axis::Left => 4,
        Axis::Descendant => 5,
        Axis::Ancestor => 6,
        Axis::Following => 7,
        Axis::Preceding => 8,
        Axis::FollowingSibling => 9,
        Axis::PrecedingSibling => 10,
        Axis::DescendantOrSelf => 11,
        Axis::AncestorOrSelf => 12,
    }
}

#[derive(Clone, Copy)]
pub struct Entry {
    pub kind: Kind,
    pub left: usize,
    pub right: usize,
    pub tag: usize,
}

// What an entry can be as an operand.
#[derive(Clone, Copy, PartialEq, Eq)]
pub enum Sort {
    Path,
    Expr,
}

// What a kind is.
pub fn sort_of(kind: Kind) -> Sort {
    match kind {
        Kind::Exists | Kind::Not | Kind::And | Kind::Or | Kind::Is | Kind::Same => Sort::Expr,
        _ => Sort::Path,
    }
}

// What it has for its left operand, if it has any.
pub fn left_of(kind: Kind) -> Option<Sort> {
    match kind {
        Kind::Step | Kind::Variable | Kind::Is => None,
        Kind::Not | Kind::And | Kind::Or => Some(Sort::Expr),
        _ => Some(Sort::Path),
    }
}

// And for its right one.
pub fn right_of(kind: Kind) -> Option<Sort> {
    match kind {
        Kind::Compose | Kind::Union | Kind::Intersect | Kind::Except | Kind::Same => {
            Some(Sort::Path)
        }
        Kind::Filter | Kind::And | Kind::Or => Some(Sort::Expr),
        _ => None,
    }
}

impl Entry {
    // A step along an axis with a name test.
    pub fn step(axis: Axis, test: usize) -> Entry {
        Entry {
            kind: Kind::Step,
            left: axis_number(axis),
            right: 0,
            tag: test,
        }
    }

    // An entry that names variable k, or has one operand.
    pub fn over(kind: Kind, left: usize) -> Entry {
        Entry {
            kind,
            left,
            right: 0,
            tag: 0,
        }
    }

    // An entry of two operands.
    pub fn joining(kind: Kind, left: usize, right: usize) -> Entry {
        Entry {
            kind,
            left,
            right,
            tag: 0,
        }
    }

    // The entry names a variable.
    pub fn is_variable(&self) -> bool {
        (self.kind == Kind::Variable) || (self.kind == Kind::Is)
    }

    // The operands, where there are any.
    pub fn left_operand(&self) -> Option<usize> {
        match left_of(self.kind) {
            Some(_) => Some(self.left),
            None => None,
        }
    }

    pub fn right_operand(&self) -> Option<usize> {
        match right_of(self.kind) {
            Some(_) => Some(self.right),
            None => None,
        }
    }
}

#[derive(Clone, Copy)]
pub struct Query {
    pub table: Table,
}

impl Query {
    // No entry yet.
    pub fn new() -> Query {
        Query {
            table: Table::new(),
        }
    }

    pub fn numbers(&self) -> &[u16] {
        self.table.numbers()
    }

    // How many entries there are.
    pub fn entries(&self) -> usize {
        self.table.length() / 4
    }

    // The last entry.
    pub fn last(&self) -> usize {
        self.entries().saturating_sub(1)
    }

    // Entry e. Queries that are evaluated have none of an unknown kind.
    pub fn entry(&self, e: usize) -> Entry {
        let at = e.wrapping_mul(4);
        Entry {
            kind: kind_of(self.table.at(at)).unwrap_or(Kind::Step),
            left: self.table.at(at.wrapping_add(1)),
            right: self.table.at(at.wrapping_add(2)),
            tag: self.table.at(at.wrapping_add(3)),
        }
    }

    // Writes entry e.
    pub fn put(&mut self, e: usize, f: Entry) {
        let at = e.wrapping_mul(4);
        self.table.put(at, kind_number(f.kind));
        self.table.put(at.wrapping_add(1), f.left);
        self.table.put(at.wrapping_add(2), f.right);
        self.table.put(at.wrapping_add(3), f.tag);
    }

    // Writes an entry behind the others, of which there are at most 64.
    pub fn push(&mut self, f: Entry) {
        let e = self.entries();
        if e < 64 {
            self.put(e, f);
            self.table.set_length(4 * e + 4);
        }
    }

    // Writes an entry over the last one.
    pub fn wrap(&mut self, kind: Kind) {
        let last = self.last();
        self.push(Entry::over(kind, last));
    }

    // Writes an entry over entry p and the last one.
    pub fn join(&mut self, kind: Kind, p: usize) {
        let last = self.last();
        self.push(Entry::joining(kind, p, last));
    }
}
