// The blocks of rows that a page can leave out: the rows that begin with the same nodes for the first variables, where none is an answer
// and all variables under a `not` or right of an except are among the first. Told from the query and the answers alone.
use harness::table::Cells;
use harness::tally::{Sum, Tally};
use model::Kind;
use reference::listing::{Answers, Space, is_marked};
use reference::query::{Entry, Query};

// Of the variables that stand in an entry: one more than the highest, 0 if there is none; and the same of those that stand under a `not`
// or right of an except.
#[derive(Clone, Copy)]
struct Reach {
    all: usize,
    bound: usize,
}

const NONE: Reach = Reach { all: 0, bound: 0 };

// What an operand has, if there is one.
fn of_operand(reaches: &[Reach; 64], operand: Option<usize>) -> Reach {
    match operand {
        Some(e) => { if e < 64 { reaches[e] } else { NONE } }
        None => NONE,
    }
}

fn of_entry(f: Entry, reaches: &[Reach; 64]) -> Reach {
    let left = of_operand(reaches, f.left_operand());
    let right = of_operand(reaches, f.right_operand());
    let bound = left.bound.max(right.bound);
    Reach {
        all: match f.kind {
            Kind::Variable | Kind::Is => f.left.wrapping_add(1),
            _ => left.all.max(right.all),
        },
        bound: match f.kind {
            Kind::Not => left.all,
            Kind::Except => bound.max(right.all),
            _ => bound,
        },
    }
}

// How many of the first variables must have a node, before a block can be left out.
fn bound(query: &Query) -> usize {
    let mut reaches = [NONE; 64];
    let mut last = NONE;
    for e in 0..query.entries() {
        last = of_entry(query.entry(e), &reaches);
        if e < 64 {
            reaches[e] = last;
        }
    }
    last.bound
}

// No row of a block is an answer: so many, from a row on.
fn is_empty(marks: &Cells, start: usize, size: usize) -> bool {
    !(0..size).any(|i| is_marked(marks, start.wrapping_add(i)))
}

// Block i of so many rows is empty, and the n blocks of which it is one are not. The block of all rows is one of no others.
fn is_left_out(marks: &Cells, s: Space, size: usize, i: usize) -> bool {
    let n = s.n;
    if !is_empty(marks, i.wrapping_mul(size), size) {
        return false;
    }
    if (n == 0) || (size == s.count) {
        return true;
    }
    let around = size.wrapping_mul(n);
    !is_empty(marks, (i / n).wrapping_mul(around), around)
}

// Some block of so many rows is left out.
fn is_some_left_out(marks: &Cells, s: Space, size: usize) -> bool {
    if size == 0 {
        return false;
    }
    (0..s.count / size).any(|i| is_left_out(marks, s, size, i))
}

// How many rows begin with the same nodes for so many variables.
fn rows_after(s: Space, variables: usize) -> usize {
    let n = s.n;
    if n == 0 {
        return 0;
    }
    let mut rows = s.count;
    for _ in 0..variables {
        rows /= n;
    }
    rows
}

// Counts a list of answers where a block is left out after so many variables: fewer than there are, and no fewer than must have a node.
pub fn count(tally: &mut Tally, query: &Query, marks: &Cells, a: Answers) {
    let s = a.space;
    let least = bound(query);
    for (variables, sum) in [Sum::Blocks, Sum::BlocksAfterOne, Sum::BlocksAfterTwo]
        .iter()
        .enumerate()
    {
        if (variables < s.columns) && (least <= variables) {
            tally.count(*sum, is_some_left_out(marks, s, rows_after(s, variables)));
        }
    }
}
