// Queries that keep the rule of quick pages: their answers page by page, and each made to break the rule by every kind that can.
use super::pages::{self, Tables};
use super::paging::{Walk, fresh};
use harness::line::Line;
use harness::tally::Tally;
use model::{Kind, Refusal};
use reference::evaluator::Pairs;
use reference::random::Seed;
use reference::{damage, keeping, owning, rule, seeing, steer};

// Pages from the start, with room for up to any number of rows that there may be, or one more.
fn page_through_once(tally: &mut Tally, seed: &mut Seed, walk: &Walk) {
    let start = fresh(seed);
    let most = seed.between(1, walk.answers.found.wrapping_add(1));
    walk.page_through(tally, seed, most, start);
}

// The query breaks the rule at an entry of this kind and, every other time, at a later one too. A quick page is refused, whatever
// the cursor and the room.
fn refuse_broken(tally: &mut Tally, seed: &mut Seed, tables: Tables, columns: usize, kind: Kind) {
    let mut other = *tables.query;
    let k = seed.below(columns);
    let place = keeping::break_by(seed, &mut other, kind, k);
    if seed.one_in(2) {
        keeping::break_by(seed, &mut other, Kind::Filter, k);
    }
    tally.expect(rule::lowest(&other) == Some(place));
    let room = seed.below(columns.wrapping_mul(3));
    let cursor = damage::any_cursor(seed);
    let refusal = Refusal::SharedVariable(harness::table::narrow(place));
    let broken = Tables {
        query: &other,
        ..tables
    };
    pages::refuse_quick(tally, broken, columns, room, cursor, refusal);
}

// Pages over the answers of a query that keeps the rule, and refused ones over queries made of it by each kind that can break it.
fn page_all(tally: &mut Tally, seed: &mut Seed, walk: &Walk) {
    page_through_once(tally, seed, walk);
    walk.page_through_from_anywhere(tally, seed);
    walk.page_through_from_anywhere(tally, seed);
    for kind in keeping::KINDS {
        refuse_broken(tally, seed, walk.tables, walk.answers.space.columns, kind);
    }
}

// All of these; and the same calls with another table of which the party sees the same tree.
pub fn run(tally: &mut Tally, seed: &mut Seed, line: &Line, pairs: &mut Pairs) {
    let mut marks = [0u8; 66560];
    let listed = steer::make(seed, line, pairs, &mut marks, true);
    steer::count(tally, &listed.query, listed.answers);
    seeing::count(tally, &listed.shared);
    tally.expect(rule::lowest(&listed.query).is_none());
    let twin = owning::make_twin(seed, &listed.tree, &listed.shared);
    let mut again = *seed;
    page_all(tally, seed, &Walk::over(&listed, &listed.shared, &marks));
    page_all(tally, &mut again, &Walk::over(&listed, &twin, &marks));
}
