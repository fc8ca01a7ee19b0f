// What makes a random query keep the rule of document 02, §7 and §9: its variables stand in expressions that each name one of them. And
// what makes such a query break the rule, at one entry of a kind.
use super::query::{Entry, Query};
use super::random::{Seed, append_path, step};
use model::Kind;

// Appends an expression: a path leads to variable k.
fn append_some(seed: &mut Seed, query: &mut Query, k: usize) {
    append_path(seed, query);
    let p = query.last();
    query.push(Entry::over(Kind::Is, k));
    query.join(Kind::Filter, p);
    query.wrap(Kind::Exists);
}

// Appends an expression: from variable k a path leads somewhere.
fn append_from(seed: &mut Seed, query: &mut Query, k: usize) {
    query.push(Entry::over(Kind::Variable, k));
    let p = query.last();
    append_path(seed, query);
    query.join(Kind::Compose, p);
    query.wrap(Kind::Exists);
}

// Appends an expression of no variable: a path leads somewhere or, every other time, two paths lead to one node.
fn append_somewhere(seed: &mut Seed, query: &mut Query) {
    append_path(seed, query);
    let p = query.last();
    if seed.one_in(2) {
        query.wrap(Kind::Exists);
        return;
    }
    append_path(seed, query);
    query.join(Kind::Same, p);
}

// Appends an entry over entry p and the last one, in either order.
fn join_either_way(seed: &mut Seed, query: &mut Query, kind: Kind, p: usize) {
    let f = seed.either_way(kind, p, query.last());
    query.push(f);
}

// Appends an expression in which variable k stands and no other: the node is variable k, or a path leads to it; it is, and an
// expression of no variable holds; it is; a path leads from it; or one leads to it. The operands of an `or` may share it.
pub fn append_test(seed: &mut Seed, query: &mut Query, k: usize) {
    let form = seed.below(8);
    match form {
        7 => append_some(seed, query, k),
        6 => append_from(seed, query, k),
        _ => {
            query.push(Entry::over(Kind::Is, k));
            let e = query.last();
            if form == 0 {
                append_some(seed, query, k);
                join_either_way(seed, query, Kind::Or, e);
            }
            if form == 1 {
                append_somewhere(seed, query);
                join_either_way(seed, query, Kind::And, e);
            }
        }
    }
}

// Appends an entry of this kind over the query and another path: by a compose variable k, by intersect, except and `same` a step.
fn join(seed: &mut Seed, query: &mut Query, kind: Kind, k: usize) {
    let p = query.last();
    let other = match kind {
        Kind::Compose => Entry::over(Kind::Variable, k),
        _ => step(seed),
    };
    query.push(other);
    join_either_way(seed, query, kind, p);
}

// Appends an expression over the query, at which that breaks the rule: `not`, `and` or `same`.
fn append_broken(seed: &mut Seed, query: &mut Query, kind: Kind, k: usize) {
    if kind == Kind::Same {
        join(seed, query, kind, k);
        return;
    }
    query.wrap(Kind::Exists);
    if kind == Kind::Not {
        query.wrap(Kind::Not);
        return;
    }
    let e = query.last();
    query.push(Entry::over(Kind::Is, k));
    join_either_way(seed, query, Kind::And, e);
}

// The query becomes an expression that breaks the rule, and a step is filtered by it.
fn break_in_filter(seed: &mut Seed, query: &mut Query, kind: Kind, k: usize) -> usize {
    append_broken(seed, query, kind, k);
    let place = query.last();
    query.push(step(seed));
    let p = query.last();
    query.push(Entry::joining(Kind::Filter, p, place));
    place
}

// The kinds that can break the rule.
pub const KINDS: [Kind; 8] = [
    Kind::Compose,
    Kind::Intersect,
    Kind::Except,
    Kind::Filter,
    Kind::Not,
    Kind::And,
    Kind::Star,
    Kind::Same,
];

// Appends entries of which one, of this kind, breaks the rule, and answers which. Variable k stands in the query, which has kept it or
// breaks it at a lower entry.
pub fn break_by(seed: &mut Seed, query: &mut Query, kind: Kind, k: usize) -> usize {
    let p = query.last();
    match kind {
        Kind::Not | Kind::And | Kind::Same => return break_in_filter(seed, query, kind, k),
        Kind::Filter => {
            query.push(Entry::over(Kind::Is, k));
            query.join(Kind::Filter, p);
        }
        Kind::Star => query.wrap(Kind::Star),
        _ => join(seed, query, kind, k),
    }
    query.last()
}
