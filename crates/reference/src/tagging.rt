// Trees by their tags: few of them, one, all different, or any; and a document node in some.
use super::random::{Seed, make_tree, maybe_document};
use super::tree::{DOCUMENT, Tree};
use harness::line::Line;

// The lowest tag, the highest, or any.
fn any_tag(seed: &mut Seed) -> usize {
    match seed.below(4) {
        0 => 0,
        1 => 65533,
        _ => seed.between(0, 65533),
    }
}

// One of n different tags, the first 0 and the last 65533.
fn spread(x: usize, n: usize) -> usize {
    if n < 2 {
        return 65533;
    }
    x.wrapping_mul(65533) / (n - 1)
}

// One tag for all nodes, or all different, or any.
fn retag(seed: &mut Seed, tree: &mut Tree, form: usize) {
    let n = tree.size();
    let one = any_tag(seed);
    for x in 0..n {
        let tag = match form {
            0 => one,
            1 => spread(x, n),
            _ => any_tag(seed),
        };
        tree.set_tag(x, tag);
    }
}

// The tags in any order.
fn shuffle(seed: &mut Seed, tree: &mut Tree) {
    for x in 0..tree.size() {
        let y = seed.between(0, x);
        let a = tree.tag(x);
        let b = tree.tag(y);
        tree.set_tag(x, b);
        tree.set_tag(y, a);
    }
}

// A tree that a line asks for, LEAST MOST. Every other one keeps its few tags, since its chains are long and other tags come
// between.
pub fn make(seed: &mut Seed, line: &Line) -> Tree {
    let n = seed.within(line, 1, 0);
    let mut tree = make_tree(seed, n);
    let form = seed.below(6);
    if form < 3 {
        retag(seed, &mut tree, form);
        shuffle(seed, &mut tree);
    }
    maybe_document(seed, &mut tree);
    tree
}

// What to look for: the node where a search starts, and the tag.
#[derive(Clone, Copy)]
pub struct Aim {
    pub start: usize,
    pub tag: usize,
}

// The tag of a node; now and then any, or one of the two that no descendant has: a document node's, and 65535.
fn wanted(seed: &mut Seed, tree: &Tree, x: usize) -> usize {
    match seed.below(12) {
        0 => seed.between(DOCUMENT, 65535),
        1 => any_tag(seed),
        _ => tree.tag(x),
    }
}

// Any node is looked for by its tag, from one of its ancestors or, rarely, from itself.
pub fn choose_aim(seed: &mut Seed, tree: &Tree) -> Aim {
    let x = seed.below(tree.size());
    let steps = seed.below(8);
    Aim {
        start: tree.climbed(x, steps),
        tag: wanted(seed, tree, x),
    }
}
