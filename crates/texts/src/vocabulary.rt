// Vocabularies of a few names, some of them more than once, and the tags that are due.
use super::text::Text;
use harness::table;
use reference::random::Seed;

// How many names there are, and how many of them may be in a vocabulary; the two behind those are too long.
const COUNT: usize = 20;

pub const SHORT: usize = 18;

// Names that words of the grammar, or each other, begin with or spell.
const NAMES: [&[u8]; COUNT] = [
    b"a",
    b"ab",
    b"A",
    b"or",
    b"and",
    b"union",
    b"intersect",
    b"except",
    b"not",
    b"is",
    b"same",
    b"self",
    b"_-9Z",
    b"0",
    b"nod",
    b"node",
    b"nodes",
    b"abcdefghijklmnopqrstuvwxyz-_0123",
    b"abcdefghijklmnopqrstuvwxyz-_01234",
    b"ABCDEFGHIJKLMNOPQRSTUVWXYZ-_0123456789aA",
];

pub fn name(number: usize) -> &'static [u8] {
    match NAMES.get(number) {
        Some(name) => *name,
        None => b"",
    }
}

// The tag of each name, if it has one.
#[derive(Clone, Copy)]
pub struct Tags {
    tags: [Option<usize>; COUNT],
}

impl Tags {
    // No name has a tag.
    pub fn new() -> Tags {
        Tags {
            tags: [None; COUNT],
        }
    }

    // The tag of a name; a name from beyond the list has none.
    pub fn tag(&self, number: usize) -> Option<usize> {
        if number < COUNT {
            self.tags[number]
        } else {
            None
        }
    }

    // A name gets a tag, unless it has a lower one.
    fn meet(&mut self, number: usize, tag: usize) {
        if self.tag(number).is_none() {
            table::put(&mut self.tags, number, Some(tag));
        }
    }
}

// A name goes to the end of a vocabulary, behind a byte that tells how long it is to be.
fn append(to: &mut Text, told: usize, name: &[u8]) {
    to.push(table::byte(told));
    to.append(name);
}

// So many of the names that are not too long, from a tag on, go to the end of a vocabulary.
pub fn fill(seed: &mut Seed, to: &mut Text, tags: &mut Tags, first: usize, count: usize) {
    for i in 0..count {
        let number = seed.below(SHORT);
        append(to, name(number).len(), name(number));
        tags.meet(number, first.wrapping_add(i));
    }
}

// The vocabulary gets a last name that is empty, too long, or not all there.
pub fn spoil(seed: &mut Seed, to: &mut Text) {
    match seed.below(3) {
        0 => to.push(0),
        1 => append(to, 33, name(SHORT)),
        _ => append(to, 4, b"and"),
    }
}
