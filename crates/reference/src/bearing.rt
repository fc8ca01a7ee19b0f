// Whether a part of a query decides what it comes to: with something else in its place the query has another number of pairs.
use super::evaluator::{Asked, Pairs, fill, outcome};
use super::query::{ANY_NODE, Entry, Query, STAR};
use harness::tally::{Sum, Tally};
use model::Kind;

// The parts: the star, in whose place `node()` is put; a closure, which then takes its path once at most; and `same`, for which then
// stands that its left path leads somewhere.
#[derive(Clone, Copy)]
pub enum Part {
    Star,
    Closure,
    Same,
}

// What is put in the place of an entry that is such a part.
fn other(f: Entry, part: Part) -> Option<Entry> {
    match (part, f.kind) {
        (Part::Star, Kind::Step) => {
            if f.tag != STAR {
                return None;
            }
            Some(Entry { tag: ANY_NODE, ..f })
        }
        (Part::Closure, Kind::Star) => Some(Entry { right: 1, ..f }),
        (Part::Same, Kind::Same) => Some(Entry::over(Kind::Exists, f.left)),
        _ => None,
    }
}

// The query that has something else in place of each such part, if there is any.
fn replaced(query: &Query, part: Part) -> Option<Query> {
    let mut changed = Query::new();
    let mut any = false;
    for e in 0..query.entries() {
        let f = query.entry(e);
        match other(f, part) {
            Some(new) => {
                any = true;
                changed.push(new);
            }
            None => changed.push(f),
        }
    }
    if any { Some(changed) } else { None }
}

// The query has so many pairs, and another number with something else in place of each such part.
pub fn decides(pairs: &mut Pairs, asked: &Asked, found: usize, part: Part) -> bool {
    let mut cells = [0u8; 66560];
    let Some(changed) = replaced(asked.query, part) else {
        return false;
    };
    let asked_else = Asked {
        tree: asked.tree,
        query: &changed,
        nodes: asked.nodes,
    };
    fill(pairs, &asked_else);
    outcome(pairs, &asked_else, false).all_pairs(&mut cells) != found
}

// Counts what decides in a query, which has so many pairs: its closures, its `same`, and over a tree with a document node its star,
// which leaves that out.
pub fn count(tally: &mut Tally, pairs: &mut Pairs, asked: &Asked, found: usize) {
    tally.count(Sum::Closing, decides(pairs, asked, found, Part::Closure));
    tally.count(Sum::Meeting, decides(pairs, asked, found, Part::Same));
    if asked.tree.has_document() {
        tally.add(Sum::Documents, 1);
        tally.count(Sum::LeftOut, decides(pairs, asked, found, Part::Star));
    }
}
