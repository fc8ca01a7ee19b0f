// Random shared tables with the indexes of what a party sees, and searches by these and by damaged ones: compared with the reference,
// whose index is made by looking at every node, and whose searches climb from every node.
use super::indexes::{NEXT_PATTERN, Rooms, TAGS_PATTERN};
use super::{call, indexes, lookups};
use harness::due;
use harness::line::Line;
use harness::shared::Shared;
use harness::table::Table;
use harness::tally::{Sum, Tally};
use model::Refusal;
use reference::random::Seed;
use reference::tagging::Aim;
use reference::tree::Tree;
use reference::{damage, index_damage, indexing, owning, searching, seeing, tagging};

// As much room as is needed, or a little more.
pub fn enough(seed: &mut Seed, needed: usize) -> usize {
    needed.wrapping_add(seed.below(4))
}

// Every other time too little room: none, any, or one less than is needed.
pub fn maybe_short(seed: &mut Seed, needed: usize) -> usize {
    match seed.below(6) {
        0 => 0,
        1 => seed.below(needed),
        2 => needed.wrapping_sub(1),
        _ => enough(seed, needed),
    }
}

// A shared table with the party that asks, the tree that this sees, and the index of that.
#[derive(Clone, Copy)]
struct Sought<'a> {
    shared: &'a Shared,
    tree: &'a Tree,
    next: &'a Table,
}

impl<'a> Sought<'a> {
    // The index and the list of the tags, in buffers with these rooms.
    fn compare_index(&self, tally: &mut Tally, rooms: Rooms) {
        let mut next = [NEXT_PATTERN; 1024];
        let mut tags = [TAGS_PATTERN; 1024];
        let made = indexing::make_due(self.tree, rooms.next, rooms.tags, &mut next, &mut tags);
        let due = indexes::reply(made);
        indexes::compare(tally, self.shared, rooms, &due, &next, &tags);
    }

    // A damaged table is refused whatever the rooms are, and nothing is written.
    fn refuse_index(&self, tally: &mut Tally, seed: &mut Seed, length: usize) {
        let mut other = *self.shared;
        let refusal = damage::in_shared(seed, &mut other);
        let rooms = Rooms {
            next: maybe_short(seed, self.tree.size()),
            tags: maybe_short(seed, length),
        };
        indexes::compare(
            tally,
            &other,
            rooms,
            &indexes::reply(Err(refusal)),
            &[NEXT_PATTERN; 1024],
            &[TAGS_PATTERN; 1024],
        );
    }

    // An index is made, and refused for its buffers and for its table.
    fn compare_indexes(&self, tally: &mut Tally, seed: &mut Seed) {
        let n = self.tree.size();
        let length = indexing::list_length(self.tree);
        let rooms = Rooms {
            next: enough(seed, n),
            tags: enough(seed, length),
        };
        self.compare_index(tally, rooms);
        let rooms_or_less = Rooms {
            next: maybe_short(seed, n),
            tags: maybe_short(seed, length),
        };
        self.compare_index(tally, rooms_or_less);
        self.refuse_index(tally, seed, length);
    }

    // A search by the tree's own index: every descendant that has the tag.
    fn search(&self, tally: &mut Tally, seed: &mut Seed) {
        let mut due = [call::PATTERN; 512];
        let a = tagging::choose_aim(seed, self.tree);
        let found = searching::put_descendants(self.tree, a.start, a.tag, &mut due);
        tally.add(Sum::Nodes, found as u64);
        let c = lookups::Call {
            start: a.start,
            tag: a.tag,
            room: enough(seed, self.tree.size()),
            due: call::counting(found),
        };
        lookups::compare(tally, self.shared, self.next, c, &due);
    }

    // A damaged index is counted: it is refused, or not, and then the answer may be another than that of the tree's own.
    fn count(&self, tally: &mut Tally, a: Aim, due: Result<usize, Refusal>) {
        match due {
            Ok(count) => {
                let mut all = [0u8; 512];
                tally.add(Sum::Unseen, 1);
                let found = searching::put_descendants(self.tree, a.start, a.tag, &mut all);
                tally.count(Sum::Changed, count != found);
            }
            Err(_) => tally.add(Sum::Broken, 1),
        }
    }

    // A search by a damaged index: what the chain meets, or the refusal where it breaks.
    fn search_damaged(&self, tally: &mut Tally, seed: &mut Seed) {
        let mut due = [call::PATTERN; 512];
        let mut other = *self.next;
        let a = tagging::choose_aim(seed, self.tree);
        index_damage::put_numbers(seed, self.tree, &mut other, a);
        let room = enough(seed, self.tree.size());
        let found = searching::search(self.tree, &other, a.start, a.tag, room, &mut due);
        self.count(tally, a, found);
        let c = lookups::Call {
            start: a.start,
            tag: a.tag,
            room,
            due: due::counted(found),
        };
        lookups::compare(tally, self.shared, &other, c, &due);
    }

    // The index as it is, with other numbers, or with another length.
    fn maybe_damaged(&self, seed: &mut Seed, a: Aim) -> Table {
        let mut other = *self.next;
        match seed.below(3) {
            1 => index_damage::put_numbers(seed, self.tree, &mut other, a),
            2 => index_damage::put_length(seed, &mut other, self.tree.size()),
            _ => (),
        }
        other
    }

    // A search with several faults, or none: the first of them in the order of the checks is told.
    fn search_faulty(&self, tally: &mut Tally, seed: &mut Seed) {
        let mut due = [call::PATTERN; 512];
        let n = self.tree.size();
        let a = tagging::choose_aim(seed, self.tree);
        let other = self.maybe_damaged(seed, a);
        let start = maybe_beyond(seed, a.start, n);
        let room = maybe_short(seed, n);
        let found = searching::search(self.tree, &other, start, a.tag, room, &mut due);
        let c = lookups::Call {
            start,
            tag: a.tag,
            room,
            due: due::counted(found),
        };
        lookups::compare(tally, self.shared, &other, c, &due);
    }

    // A search in a damaged table, with other faults: that of the table is told, and nothing is written.
    fn search_refused(&self, tally: &mut Tally, seed: &mut Seed) {
        let mut other = *self.shared;
        let n = self.tree.size();
        let a = tagging::choose_aim(seed, self.tree);
        let other_next = self.maybe_damaged(seed, a);
        let refused: Result<usize, Refusal> = Err(damage::in_shared(seed, &mut other));
        let c = lookups::Call {
            start: maybe_beyond(seed, a.start, n),
            tag: a.tag,
            room: maybe_short(seed, n),
            due: due::counted(refused),
        };
        lookups::compare(tally, &other, &other_next, c, &[call::PATTERN; 512]);
    }

    // The index of the tree, and searches by it of every sort, so many times.
    fn search_all(&self, tally: &mut Tally, seed: &mut Seed, times: usize) {
        self.compare_indexes(tally, seed);
        for _ in 0..times {
            self.search(tally, seed);
            self.search_damaged(tally, seed);
            self.search_damaged(tally, seed);
            self.search_faulty(tally, seed);
        }
        self.search_refused(tally, seed);
    }
}

// A start that is mostly the node; else the first number that is no node, or any such.
fn maybe_beyond(seed: &mut Seed, start: usize, n: usize) -> usize {
    match seed.below(6) {
        0 => n,
        1 => seed.between(n, 65535),
        _ => start,
    }
}

// All of these for a party; and the same calls with another table of which it sees the same tree.
fn run_for(tally: &mut Tally, seed: &mut Seed, shared: &Shared, times: usize) {
    let tree = seeing::make(shared);
    seeing::count(tally, shared);
    let twin = owning::make_twin(seed, &tree, shared);
    let next = indexing::make_index(&tree);
    let sought = Sought {
        shared,
        tree: &tree,
        next: &next,
    };
    let sought_twin = Sought {
        shared: &twin,
        ..sought
    };
    let mut again = *seed;
    sought.search_all(tally, seed, times);
    sought_twin.search_all(tally, &mut again, times);
}

// One table that a line asks for, and each party.
pub fn run(tally: &mut Tally, seed: &mut Seed, line: &Line) {
    let tree = tagging::make(seed, line);
    let shared = owning::lay(seed, &tree);
    for party in 1..3 {
        run_for(tally, seed, &shared.with_party(party), line.number(1, 2));
    }
}
