// Closures and `same` put into a deep query: that is written anew, entry by entry, with the closure behind some of its paths, and for some
// of its joins a step filtered by that both paths lead to one node.
use super::query::{ANY_NODE, Entry, Query, left_of, right_of};
use super::random::{Seed, append_closure, step};
use harness::table::Table;
use model::Kind;

// An entry with its operands by their new numbers.
fn renumber(f: Entry, renumbered: &Table) -> Entry {
    let mut g = f;
    if left_of(f.kind).is_some() {
        g.left = renumbered.at(f.left);
    }
    if right_of(f.kind).is_some() {
        g.right = renumbered.at(f.right);
    }
    g
}

// Appends a step, filtered by that the operands of a join lead to one node.
fn append_same(seed: &mut Seed, query: &mut Query, f: Entry) {
    query.push(step(seed));
    let p = query.last();
    query.push(Entry::joining(Kind::Same, f.left, f.right));
    query.join(Kind::Filter, p);
}

// The union of the last path and a step along child, parent, right or left.
fn widen(seed: &mut Seed, query: &mut Query) {
    let p = query.last();
    query.push(Entry::step(seed.near_axis(), ANY_NODE));
    query.join(Kind::Union, p);
}

fn is_join(kind: Kind) -> bool {
    matches!(
        kind,
        Kind::Compose | Kind::Union | Kind::Intersect | Kind::Except
    )
}

// Appends an entry or, where there is room for more, now and then something else: for a join a filter; the closure behind it; or that
// of a union, which can lead there and back.
fn append(seed: &mut Seed, query: &mut Query, f: Entry, room: usize) {
    let form = seed.below(8);
    if (form == 0) & is_join(f.kind) & (1 < room) {
        append_same(seed, query, f);
        return;
    }
    query.push(f);
    if (room < 3) | (2 < form) {
        return;
    }
    if form == 1 {
        widen(seed, query);
    }
    append_closure(seed, query, query.last());
}

// How many entries more than there were come within 64, where so many are written for the first e.
fn spare(entries: usize, e: usize, written: usize) -> usize {
    e.wrapping_add(64)
        .wrapping_sub(entries.wrapping_add(written))
}

// Writes the entries of a query anew, as far as 64 entries reach.
pub fn copy(seed: &mut Seed, from: &Query) -> Query {
    let mut query = Query::new();
    let mut renumbered = Table::with_length(64);
    let entries = from.entries();
    for e in 0..entries {
        let f = renumber(from.entry(e), &renumbered);
        let room = spare(entries, e, query.entries());
        append(seed, &mut query, f, room);
        renumbered.put(e, query.last());
    }
    query
}
