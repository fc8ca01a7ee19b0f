// Damage to the index of a tree: wrong numbers, and wrong lengths.
use super::indexing::NONE;
use super::random::Seed;
use super::tagging::Aim;
use super::tree::Tree;
use harness::table::Table;

// Any node; mostly the first from it on, or from the start on, that has the tag, so that a search reads its number.
fn place(seed: &mut Seed, tree: &Tree, a: Aim) -> usize {
    let x = seed.below(tree.size());
    match seed.below(4) {
        0 => tree.first_from(a.tag, a.start.wrapping_add(1)).unwrap_or(x),
        1 => x,
        _ => tree.first_from(a.tag, x).unwrap_or(x),
    }
}

// Another number for node y: none, y itself, or one before it; one that is no node; any later node, mostly of another tag; or the number
// two further on, which is right in all but that it leaves out a node.
fn other(seed: &mut Seed, tree: &Tree, next: &Table, y: usize) -> usize {
    let n = tree.size();
    match seed.below(10) {
        0 => NONE,
        1 => y,
        2 => seed.below(y),
        3 => n,
        4 => 65534,
        5 => seed.between(n, 65534),
        6 | 7 => seed.between(y.wrapping_add(1), n),
        _ => match next.at(y) {
            NONE => NONE,
            number => next.at(number),
        },
    }
}

fn put_other(seed: &mut Seed, tree: &Tree, next: &mut Table, a: Aim) {
    let y = place(seed, tree, a);
    let number = other(seed, tree, next, y);
    next.put(y, number);
}

// Puts one or two other numbers into an index.
pub fn put_numbers(seed: &mut Seed, tree: &Tree, next: &mut Table, a: Aim) {
    put_other(seed, tree, next, a);
    if seed.one_in(3) {
        put_other(seed, tree, next, a);
    }
}

// Makes an index of n numbers one too short, one too long, empty, or of any length; numbers past the end are 0.
pub fn put_length(seed: &mut Seed, next: &mut Table, n: usize) {
    let length = match seed.below(4) {
        0 => n.wrapping_sub(1),
        1 => n.wrapping_add(1),
        2 => 0,
        _ => seed.below(1024),
    };
    next.set_length(length);
}
