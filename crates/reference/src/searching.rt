// What a search for the descendants of a node that have a tag finds, straight from document 02, §4: by the tree alone, and by any
// index, right or wrong.
use super::evaluator::is_descendant;
use super::indexing::NONE;
use super::tree::Tree;
use harness::table::{Set, Table, copy, front, narrow, put};
use model::Refusal;

// Writes the descendants of a node that have the tag to the front of a buffer, as a set, and answers how many they are. An index
// plays no part in it.
pub fn put_descendants(tree: &Tree, start: usize, tag: usize, to: &mut Set) -> usize {
    let mut found: usize = 0;
    for y in 0..tree.size() {
        let below = is_descendant(tree, start, y) && (tree.tag(y) == tag);
        put(to, y, u8::from(below));
        found = found.wrapping_add(usize::from(below));
    }
    found
}

// A number of the index that is wrong at node y: not 65535, and not later, no node, or of another tag.
fn is_wrong(tree: &Tree, tag: usize, y: usize, number: usize) -> bool {
    (number != NONE) && ((number <= y) || (tree.size() <= number) || (tree.tag(number) != tag))
}

// Follows an index, right or wrong, and writes a 1 for each node met; answers how many nodes were met, or the node at which a number
// is wrong. A node is met only with a number at it that is not wrong. The chain stops at 65535, or at a node that is no descendant of
// start.
fn follow(
    tree: &Tree,
    next: &Table,
    start: usize,
    tag: usize,
    met: &mut Set,
) -> Result<usize, Refusal> {
    let n = tree.size();
    let mut y = tree.first_from(tag, start.wrapping_add(1)).unwrap_or(NONE);
    for count in 0..n {
        if (y == NONE) || !is_descendant(tree, start, y) {
            return Ok(count);
        }
        let number = next.at(y);
        if is_wrong(tree, tag, y, number) {
            return Err(Refusal::BadIndex(narrow(y)));
        }
        put(met, y, 1);
        y = number;
    }
    Ok(n)
}

// What is due over an accepted tree, an index and a buffer of so many bytes, and what the buffer then holds.
pub fn search(
    tree: &Tree,
    next: &Table,
    start: usize,
    tag: usize,
    room: usize,
    to: &mut Set,
) -> Result<usize, Refusal> {
    let n = tree.size();
    let mut met = [0u8; 512];
    if n <= start {
        return Err(Refusal::NoStart);
    }
    if next.length() != n {
        return Err(Refusal::BadIndex(0));
    }
    let count = follow(tree, next, start, tag, &mut met)?;
    if room < n {
        return Err(Refusal::Room);
    }
    copy(front(&met, n), to);
    Ok(count)
}
