// The tree that a party sees of a shared table, straight from document 02, §8: of a node its owner is asked, and whether its parent is
// seen; its new number is how many of the nodes before it are seen.
use super::tree::Tree;
use harness::shared::Shared;
use harness::tally::{Sum, Tally};

// Parent, tag and owner of node x.
fn number_of(shared: &Shared, x: usize, k: usize) -> usize {
    shared.table.at(x.wrapping_mul(3).wrapping_add(k))
}

// Node x is common or the party's own.
fn is_open(shared: &Shared, x: usize) -> bool {
    let owner = number_of(shared, x, 2);
    (owner == 0) | (owner == usize::from(shared.party()))
}

// The party sees node x: that is open to it, and the parent, which node 0 alone lacks, is seen.
fn is_seen(shared: &Shared, x: usize) -> bool {
    if !is_open(shared, x) {
        return false;
    }
    if x == 0 {
        return true;
    }
    let parent = number_of(shared, x, 0);
    if parent < x {
        return is_seen(shared, parent);
    }
    false
}

// How many of the first nodes the party sees.
fn seen_before(shared: &Shared, x: usize) -> usize {
    (0..x).filter(|y| is_seen(shared, *y)).count()
}

// How many nodes the party sees.
pub fn size(shared: &Shared) -> usize {
    seen_before(shared, shared.size())
}

// The tree that the party sees.
pub fn make(shared: &Shared) -> Tree {
    let mut tree = Tree::new();
    for x in 0..shared.size() {
        if is_seen(shared, x) {
            let parent = if x == 0 {
                65535
            } else {
                seen_before(shared, number_of(shared, x, 0))
            };
            tree.push(parent, number_of(shared, x, 1));
        }
    }
    tree
}

// Some node is hidden from the party though its owner does not hide it.
fn hides_through(shared: &Shared) -> bool {
    (0..shared.size()).any(|x| is_open(shared, x) && !is_seen(shared, x))
}

// Counts a table for the party that asks, by what is hidden from it.
pub fn count(tally: &mut Tally, shared: &Shared) {
    tally.add(Sum::Shared, 1);
    tally.count(Sum::Hiding, size(shared) < shared.size());
    tally.count(Sum::Through, hides_through(shared));
}
