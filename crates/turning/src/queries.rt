// Random queries: each reversed, against the reference, and asked by a party over a random shared table.
use super::calls::{Call, compare_faults, compare_rooms, expect_accepted, reverse};
use super::counts::Counts;
use super::results::{Turned, compare_all};
use harness::line::Line;
use harness::tally::Tally;
use reference::evaluator::Pairs;
use reference::query::Query;
use reference::random::{Made, Seed, make_both, make_tree, maybe_document};
use reference::{owning, reversing, shapes};

// How the queries of a line grow.
#[derive(Clone, Copy)]
pub enum Growth {
    Free,
    Joined,
}

// The tree and the query that a line asks for, and how many variables the query may use.
fn make(seed: &mut Seed, line: &Line, growth: Growth) -> Made {
    match growth {
        Growth::Free => make_both(seed, line, false),
        Growth::Joined => {
            let n = seed.within(line, 1, 0);
            let leaves = seed.within(line, 2, 0);
            let columns = seed.below(4);
            let mut tree = make_tree(seed, n);
            maybe_document(seed, &mut tree);
            Made {
                tree,
                query: shapes::make(seed, leaves, columns),
                columns,
            }
        }
    }
}

// The calls for a query, and for one with a fault; answers how many entries its reversed query has.
fn compare_calls(tally: &mut Tally, seed: &mut Seed, query: &Query, columns: usize) -> usize {
    let due = reversing::make(query);
    let c = Call {
        query,
        columns,
        room: 0,
    };
    compare_rooms(tally, seed, c, due.query.numbers());
    if query.entries() < 64 {
        compare_faults(tally, seed, c, due.query.numbers());
    }
    due.entries
}

// One shared table with the party that asks, and one query; if that can be reversed, what is asked over the reversed query and, if it can
// be reversed again, over that one's.
pub fn run(
    tally: &mut Tally,
    counts: &mut Counts,
    seed: &mut Seed,
    line: &Line,
    growth: Growth,
    pairs: &mut Pairs,
) {
    let made = make(seed, line, growth);
    let columns = made.columns;
    let seen = owning::choose(seed, &made.tree);
    let entries = compare_calls(tally, seed, &made.query, columns);
    counts.count_query(&made.query, entries);
    if 64 < entries {
        return;
    }
    let reversed = reverse(&made.query, columns);
    expect_accepted(tally, &reversed, columns);
    let entries_twice = compare_calls(tally, seed, &reversed, columns);
    counts.count_twice(entries_twice < 65);
    let turned = Turned {
        query: made.query,
        reversed,
        twice: reverse(&reversed, columns),
    };
    compare_all(
        tally,
        counts,
        seed,
        &seen.shared,
        &seen.tree,
        &turned,
        columns,
        pairs,
    );
}
