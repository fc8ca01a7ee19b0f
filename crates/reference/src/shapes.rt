// Deep queries: up to 32 steps and variables, joined by compositions and set operations, in balance or one after the other, leftwards
// and rightwards, with closures and `same` between as far as there is room.
use super::closing;
use super::query::{Entry, Query};
use super::random::{Seed, step};
use model::Kind;

// How the leaves are joined: in balance two by two; else the join before with one more leaf, which comes behind it, before it, or
// either way.
#[derive(Clone, Copy)]
enum Form {
    Balanced,
    Behind,
    EitherWay,
    Before,
}

// A step, or now and then a variable.
fn leaf(seed: &mut Seed, columns: usize) -> Entry {
    let is_variable = seed.one_in(8);
    if (columns == 0) | !is_variable {
        return step(seed);
    }
    Entry::over(Kind::Variable, seed.below(columns))
}

// Join i of k leaves, which is entry k + i.
fn join(seed: &mut Seed, form: Form, k: usize, i: usize) -> Entry {
    let kind = match seed.between(1, 4) {
        1 => Kind::Compose,
        2 => Kind::Union,
        3 => Kind::Intersect,
        _ => Kind::Except,
    };
    if let Form::Balanced = form {
        let first = i.wrapping_mul(2);
        return Entry::joining(kind, first, first.wrapping_add(1));
    }
    let before = k.wrapping_add(i).wrapping_sub(1);
    let next = k.wrapping_sub(i.wrapping_add(2));
    let either = seed.one_in(2);
    let is_behind = match form {
        Form::Behind => true,
        Form::EitherWay => either,
        _ => false,
    };
    if is_behind {
        return Entry::joining(kind, before, next);
    }
    Entry::joining(kind, next, before)
}

// A query of k leaves, 1 to 32, over so many variables; one of three is in balance, and one of four goes from the root.
pub fn make(seed: &mut Seed, k: usize, columns: usize) -> Query {
    let mut plain = Query::new();
    for _ in 0..k {
        plain.push(leaf(seed, columns));
    }
    let form = match seed.below(6) % 4 {
        0 => Form::Balanced,
        1 => Form::Behind,
        2 => Form::EitherWay,
        _ => Form::Before,
    };
    for i in 0..k.saturating_sub(1) {
        plain.push(join(seed, form, k, i));
    }
    if seed.one_in(4) {
        plain.wrap(Kind::Root);
    }
    closing::copy(seed, &plain)
}
