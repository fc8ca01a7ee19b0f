// Random queries with gaps in their answers. Of those that grow freely most have no answer, or every row is one: few name a
// variable where it decides. So most queries here end in filters over their variables, and one whose answers have no gaps is
// made anew, a few times. Where asked for, each is made so that it keeps the rule of quick pages.
use super::evaluator::Pairs;
use super::listing::{self, Answers};
use super::query::{Entry, Query, kind_number};
use super::random::{Seed, go_on, make_both, step};
use super::tree::Tree;
use super::{keeping, owning, rule};
use harness::line::Line;
use harness::shared::Shared;
use harness::table::Cells;
use harness::tally::{Sum, Tally};
use model::Kind;

// Appends an expression over variable k: that a node is it, that it is not, or that joined with the same of any variable.
fn append_test(seed: &mut Seed, query: &mut Query, k: usize, columns: usize) {
    query.push(Entry::over(Kind::Is, k));
    let e = query.last();
    let kind = match seed.below(6) {
        0 => {
            query.wrap(Kind::Not);
            return;
        }
        1 => Kind::And,
        2 => Kind::Or,
        _ => return,
    };
    query.push(Entry::over(Kind::Is, seed.below(columns)));
    query.join(kind, e);
}

// The query is filtered by an expression over variable k, and over no other where it is to keep the rule of quick pages.
fn filter(seed: &mut Seed, query: &mut Query, k: usize, columns: usize, keeps: bool) {
    let p = query.last();
    if keeps {
        keeping::append_test(seed, query, k);
    } else {
        append_test(seed, query, k, columns);
    }
    query.join(Kind::Filter, p);
}

// The variable after so many others, counted round.
fn variable(k: usize, columns: usize) -> usize {
    if k < columns {
        k
    } else {
        k.wrapping_sub(columns)
    }
}

// The query is filtered for each variable, with a path between: as P[. is $1]/child::*[. is $0].
fn end_in_filters(seed: &mut Seed, query: &mut Query, columns: usize, keeps: bool) {
    let start = seed.below(columns);
    filter(seed, query, start, columns, keeps);
    for i in 1..columns {
        go_on(seed, query);
        let k = variable(start.wrapping_add(i), columns);
        filter(seed, query, k, columns, keeps);
    }
}

// A query of no variable gets filters for each, so that it keeps the rule. One in three that are short becomes an operand of a
// union, with the variables in the other one too, and one in four goes from the root.
fn keep(seed: &mut Seed, query: &mut Query, columns: usize) {
    end_in_filters(seed, query, columns, true);
    let p = query.last();
    let joins = seed.one_in(3);
    if (p < 20) & joins {
        query.push(step(seed));
        end_in_filters(seed, query, columns, true);
        query.join(Kind::Union, p);
    }
    if seed.one_in(4) {
        query.wrap(Kind::Root);
    }
}

// The query that grew, with one of these ends; one in four that need not keep the rule stays as it grew.
fn end(seed: &mut Seed, query: &mut Query, columns: usize, keeps: bool) {
    if keeps {
        keep(seed, query, columns);
        return;
    }
    if !seed.one_in(4) {
        end_in_filters(seed, query, columns, false);
    }
}

// A shared table with the party that asks, the tree that this sees, and a query with its answers.
#[derive(Clone, Copy)]
pub struct Listed {
    pub shared: Shared,
    pub tree: Tree,
    pub query: Query,
    pub answers: Answers,
}

// Makes these as a line asks for, and marks the answers; `finish` makes a query of the one that grew, over so many variables.
pub fn make_once<F: Fn(&mut Seed, &mut Query, usize)>(
    seed: &mut Seed,
    line: &Line,
    pairs: &mut Pairs,
    marks: &mut Cells,
    bare: bool,
    finish: &F,
) -> Listed
    requires { F.IsAlwaysCallable finish.now }
{
    let made = make_both(seed, line, bare);
    let mut query = made.query;
    let seen = owning::choose(seed, &made.tree);
    finish(seed, &mut query, made.columns);
    Listed {
        shared: seen.shared,
        tree: seen.tree,
        query,
        answers: listing::list(pairs, &seen.tree, &query, made.columns, marks),
    }
}

// The same, up to eight times, while the answers have no gaps. Where asked for, the query keeps the rule of quick pages.
pub fn make(
    seed: &mut Seed,
    line: &Line,
    pairs: &mut Pairs,
    marks: &mut Cells,
    keeps: bool,
) -> Listed {
    let finish = |seed: &mut Seed, query: &mut Query, columns: usize| {
        end(seed, query, columns, keeps)
    };
    let mut listed = make_once(seed, line, pairs, marks, keeps, &finish);
    for _ in 1..8 {
        if listed.answers.have_gaps() {
            return listed;
        }
        listed = make_once(seed, line, pairs, marks, keeps, &finish);
    }
    listed
}

// The kinds and the axes of a query are met.
fn meet_entries(tally: &mut Tally, query: &Query) {
    for e in 0..query.entries() {
        let f = query.entry(e);
        tally.meet(Sum::Kinds, kind_number(f.kind));
        if f.kind == Kind::Step {
            tally.meet(Sum::Axes, f.left);
        }
    }
}

// Where a list is counted.
fn sum_of(a: Answers) -> Sum {
    if a.found == 0 {
        return Sum::Empty;
    }
    if a.found == a.space.count {
        return Sum::Full;
    }
    Sum::Gaps
}

// Counts a query that keeps the rule of quick pages, and has two variables or more and answers with gaps; of one that breaks the
// rule the kind of the lowest entry that does is met.
fn count_rule(tally: &mut Tally, query: &Query, a: Answers) {
    match rule::lowest(query) {
        Some(place) => tally.meet(Sum::Breaking, kind_number(query.entry(place).kind)),
        None => tally.count(Sum::Kept, (1 < a.space.columns) & a.have_gaps()),
    }
}

// Counts a list by its sort, and by whether its query keeps the rule.
pub fn count(tally: &mut Tally, query: &Query, a: Answers) {
    tally.add(sum_of(a), 1);
    count_rule(tally, query, a);
    if a.have_gaps() {
        meet_entries(tally, query);
    }
}
