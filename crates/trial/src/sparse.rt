// Random queries that break the rule of quick pages and have few answers, so that a page can leave out blocks of rows. Each variable stands
// in a part of its own, which holds of one node, of all but one, or of what lies on a way: in a filter, under a `not`, in an intersect,
// right of an except, in a closure or in a `same`.
use harness::line::Line;
use harness::table::Cells;
use model::Kind;
use reference::evaluator::Pairs;
use reference::query::{Entry, Query};
use reference::random::{Seed, append_closure, append_path, go_on, step};
use reference::rule;
use reference::steer::{Listed, make_once};

// Appends an expression: the node is variable k, or a path leads to it where asked for.
fn append_test(seed: &mut Seed, query: &mut Query, k: usize, leads: bool) {
    if !leads {
        query.push(Entry::over(Kind::Is, k));
        return;
    }
    append_path(seed, query);
    let p = query.last();
    query.push(Entry::over(Kind::Variable, k));
    query.join(Kind::Same, p);
}

// The last path is filtered by such an expression, or by that it does not hold.
fn filter(seed: &mut Seed, query: &mut Query, k: usize, leads: bool, negative: bool) {
    let p = query.last();
    append_test(seed, query, k, leads);
    if negative {
        query.wrap(Kind::Not);
    }
    query.join(Kind::Filter, p);
}

// The path goes on round variable k: by the closure of a step that does not lead to it.
fn go_round(seed: &mut Seed, query: &mut Query, k: usize) {
    let p = query.last();
    query.push(step(seed));
    filter(seed, query, k, false, true);
    append_closure(seed, query, query.last());
    query.join(Kind::Compose, p);
}

// The query gets a part in which variable k stands: an intersect or an except with it, a way round it, or a filter.
fn add_part(seed: &mut Seed, query: &mut Query, k: usize) {
    let p = query.last();
    match seed.below(9) {
        0 => {
            query.push(Entry::over(Kind::Variable, k));
            query.join(Kind::Intersect, p);
        }
        1 => {
            query.push(Entry::over(Kind::Variable, k));
            query.join(Kind::Except, p);
        }
        2 => go_round(seed, query, k),
        form => filter(seed, query, k, form < 6, form % 3 == 0),
    }
}

// A part for each variable, in the order of their numbers or against it, each behind a path.
fn add_parts(seed: &mut Seed, query: &mut Query, columns: usize) {
    let in_order = seed.one_in(2);
    for i in 0..columns {
        go_on(seed, query);
        let k = if in_order { i } else { columns - 1 - i };
        add_part(seed, query, k);
    }
}

// A query breaks the rule, with an answer for one row of six at most, and for some row or, where asked for, for none.
fn is_wanted(listed: &Listed, none: bool) -> bool {
    let found = listed.answers.found;
    let few = found.wrapping_mul(6) <= listed.answers.space.count;
    few && (none == (found == 0)) && rule::lowest(&listed.query).is_some()
}

// Makes a shared table with a party, the tree that this sees, and such a query, as a line asks for, and marks the answers; up to twenty
// times, while it is another. One list of eight is to be of no row.
pub fn make(seed: &mut Seed, line: &Line, pairs: &mut Pairs, marks: &mut Cells) -> Listed {
    let none = seed.one_in(8);
    let finish = |seed: &mut Seed, query: &mut Query, columns: usize| {
        add_parts(seed, query, columns)
    };
    let mut listed = make_once(seed, line, pairs, marks, true, &finish);
    for _ in 1..20 {
        if is_wanted(&listed, none) {
            return listed;
        }
        listed = make_once(seed, line, pairs, marks, true, &finish);
    }
    listed
}
