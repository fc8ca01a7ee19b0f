// Faults in what a page is lent: another shared table or party, another query, another number of variables, another cursor, or too
// little room; each with the refusal that is due.
use super::listing::{Space, choose};
use super::query::{Entry, Query, STAR, left_of, right_of};
use super::random::Seed;
use super::tree::DOCUMENT;
use harness::shared::Shared;
use harness::table::{byte, narrow};
use model::{Axis, Cursor, Kind, Refusal};

// A tag that node x may not have: 65535, or past node 0 also that of a document node.
fn reserved(seed: &mut Seed, x: usize) -> usize {
    if x == 0 {
        return 65535;
    }
    seed.between(DOCUMENT, 65535)
}

// A length within node x, of no node, or of 257 nodes.
fn bad_length(seed: &mut Seed, x: usize) -> usize {
    match seed.below(8) {
        6 => 0,
        7 => seed.between(769, 771),
        form => x.wrapping_mul(3).wrapping_add(form % 2 + 1),
    }
}

// An owner that node x may not have: above 2 or, where it is node 0, any but 0.
fn bad_owner(seed: &mut Seed, x: usize) -> usize {
    match seed.below(4) {
        0 => 65535,
        1 => seed.between(3, 65535),
        _ => {
            if x == 0 {
                return seed.between(1, 2);
            }
            3
        }
    }
}

// No party: 0, 3, or any number above.
fn bad_party(seed: &mut Seed) -> usize {
    match seed.below(4) {
        0 => seed.between(4, 65535),
        1 => 65535,
        2 => 0,
        _ => 3,
    }
}

// One of the faults of a shared table and its party, in the order in which they are told: the length; a node that is its own parent, has
// a reserved tag, or a bad owner; and no party.
fn put_fault(seed: &mut Seed, shared: &mut Shared, fault: usize) -> Refusal {
    let x = seed.below(shared.size());
    let parent = x.wrapping_mul(3);
    match fault {
        0 => {
            shared.table.set_length(bad_length(seed, x));
            Refusal::TreeSize
        }
        1 => {
            shared.table.put(parent, x);
            Refusal::BadParent(narrow(x))
        }
        2 => {
            shared.table.put(parent.wrapping_add(1), reserved(seed, x));
            Refusal::ReservedTag(narrow(x))
        }
        3 => {
            shared.table.put(parent.wrapping_add(2), bad_owner(seed, x));
            Refusal::BadOwner(narrow(x))
        }
        _ => {
            shared.set_party(bad_party(seed));
            Refusal::UnknownParty
        }
    }
}

// Puts a fault into a shared table or its party, hidden or not, and mostly one besides that would be told later.
pub fn in_shared(seed: &mut Seed, shared: &mut Shared) -> Refusal {
    let fault = seed.below(5);
    let later = seed.between(fault, 4);
    if fault < later {
        put_fault(seed, shared, later);
    }
    put_fault(seed, shared, fault)
}

// Which number of an entry must be 0: of a step the third, and of every other kind the fourth; the third too where there is no right
// operand.
fn unnamed(seed: &mut Seed, kind: Kind) -> usize {
    let third = seed.one_in(2);
    if (kind == Kind::Step) | (third & right_of(kind).is_none()) {
        return 2;
    }
    3
}

// No kind: 15, or any number above.
fn bad_kind(seed: &mut Seed) -> usize {
    if seed.one_in(2) {
        return 15;
    }
    seed.between(15, 65535)
}

// A query ends within entry e, or a field of that entry, which is of a kind, is at fault: its kind, one that must be 0, or the left one,
// an operand or else an axis or a variable.
fn in_entry(seed: &mut Seed, query: &mut Query, e: usize, kind: Kind, fault: usize) -> Refusal {
    let at = e.wrapping_mul(4);
    let place = narrow(e);
    match fault {
        0 => {
            query.table.set_length(at.wrapping_add(3));
            Refusal::QueryLength
        }
        1 => {
            query.table.put(at, bad_kind(seed));
            Refusal::UnknownKind(place)
        }
        2 => {
            let field = unnamed(seed, kind);
            query.table.put(at.wrapping_add(field), 65534);
            Refusal::BadField(place)
        }
        _ => {
            query.table.put(at.wrapping_add(1), 64);
            if left_of(kind).is_none() {
                return Refusal::BadField(place);
            }
            Refusal::LateOperand(place)
        }
    }
}

// For each kind one that has operands where it has, but of another sort; none where it has no operands.
fn other(kind: Kind) -> Option<Kind> {
    match kind {
        Kind::Step | Kind::Variable | Kind::Is => None,
        Kind::Compose | Kind::Except => Some(Kind::And),
        Kind::Union => Some(Kind::Or),
        Kind::Intersect | Kind::Same => Some(Kind::Filter),
        Kind::Root | Kind::Exists | Kind::Star => Some(Kind::Not),
        Kind::Filter | Kind::And | Kind::Or => Some(Kind::Same),
        Kind::Not => Some(Kind::Star),
    }
}

// A query has one entry more: a step, so that the one before is never an operand; an expression; or a path negated.
fn at_end(query: &mut Query, fault: usize) -> Refusal {
    let last = query.last();
    let end = narrow(last.wrapping_add(1));
    match fault {
        4 => {
            query.push(Entry::step(Axis::Itself, STAR));
            Refusal::Misused(narrow(last))
        }
        5 => {
            query.wrap(Kind::Exists);
            Refusal::NoPath(end)
        }
        _ => {
            query.wrap(Kind::Not);
            Refusal::WrongSort(end)
        }
    }
}

// A query of fewer than 64 entries gets a fault of any number but 9. With another kind the operands of entry e are of the wrong sort, if
// it has any.
fn in_query(seed: &mut Seed, query: &mut Query) -> Refusal {
    let e = seed.between(0, query.last());
    let f = query.entry(e);
    let fault = seed.below(8);
    if fault < 4 {
        return in_entry(seed, query, e, f.kind, fault);
    }
    match (fault, other(f.kind)) {
        (7, Some(kind)) => {
            query.put(e, Entry { kind, ..f });
            Refusal::WrongSort(narrow(e))
        }
        _ => at_end(query, fault),
    }
}

// What a refused call is lent beside the tables, and the refusal that is due.
#[derive(Clone, Copy)]
pub struct Fault {
    pub columns: usize,
    pub room: usize,
    pub cursor: Cursor,
    pub refusal: Refusal,
}

// The first entry that names a variable at or above a number.
fn first_beyond(query: &Query, columns: usize) -> Option<usize> {
    (0..query.entries()).find(|e| {
        let f = query.entry(*e);
        f.is_variable() && (columns <= f.left)
    })
}

// Fewer variables than the query names, but not none; where that is no fault, none or more than three.
fn in_count(seed: &mut Seed, query: &Query, f: Fault) -> Fault {
    let fewer = seed.below(f.columns);
    match (fewer, first_beyond(query, fewer)) {
        (1.., Some(e)) => Fault {
            columns: fewer,
            refusal: Refusal::BadField(narrow(e)),
            ..f
        },
        _ => Fault {
            columns: seed.below(3).wrapping_mul(4),
            refusal: Refusal::VariableCount,
            ..f
        },
    }
}

// A cursor that holds anything, begun as any byte but 0 says.
pub fn any_cursor(seed: &mut Seed) -> Cursor {
    Cursor {
        begun: byte(seed.between(1, 255)),
        first: narrow(seed.below(65536)),
        second: narrow(seed.below(65536)),
        third: narrow(seed.below(65536)),
    }
}

// The cursor at any row, but with no node for one of the variables.
fn in_cursor(seed: &mut Seed, s: Space, f: Fault) -> Fault {
    let k = seed.below(s.columns);
    let any = any_cursor(seed);
    let cursor = s.cursor_at(any, seed.below(s.count));
    let none = narrow(seed.between(s.n, 65535));
    let bad = Cursor {
        begun: any.begun,
        first: choose(k == 0, none, cursor.first),
        second: choose(k == 1, none, cursor.second),
        third: choose(k == 2, none, cursor.third),
    };
    Fault {
        cursor: bad,
        refusal: Refusal::NoNode(narrow(k)),
        ..f
    }
}

// A fault in one of the tables.
pub fn in_table(seed: &mut Seed, shared: &mut Shared, query: &mut Query, which: usize) -> Refusal {
    if which == 0 {
        return in_shared(seed, shared);
    }
    in_query(seed, query)
}

// Puts any fault into what a page would be lent. But for the last the room is any, since an earlier fault is told first.
pub fn put(
    seed: &mut Seed,
    shared: &mut Shared,
    query: &mut Query,
    s: Space,
    cursor: Cursor,
) -> Fault {
    let which = seed.below(5);
    let f = Fault {
        columns: s.columns,
        room: seed.below(s.columns.wrapping_mul(3)),
        cursor,
        refusal: Refusal::Room,
    };
    match which {
        0 | 1 => Fault {
            refusal: in_table(seed, shared, query, which),
            ..f
        },
        2 => in_count(seed, query, f),
        3 => in_cursor(seed, s, f),
        _ => Fault {
            room: seed.below(s.columns),
            ..f
        },
    }
}

// Every other time the cursor is changed where a page does not read it, if it has begun: which byte says so, and the numbers
// beyond the variables.
pub fn scrambled(seed: &mut Seed, s: Space, cursor: Cursor) -> Cursor {
    let keeps = seed.one_in(2);
    if (cursor.begun == 0) | keeps {
        return cursor;
    }
    let any = any_cursor(seed);
    Cursor {
        begun: any.begun,
        first: cursor.first,
        second: choose(1 < s.columns, cursor.second, any.second),
        third: choose(2 < s.columns, cursor.third, any.third),
    }
}
