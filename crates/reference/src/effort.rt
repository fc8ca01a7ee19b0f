// How many evaluations a quick page makes, from the answers alone: document 02, §7, each counted as docs/REFERENCE.md tells it.
use super::listing::{Space, is_marked};
use harness::table::Cells;

// For variable i all numbers above node i of row a are tried: n - 1 - a[i]; none where there is no row.
fn above(s: Space, a: Option<usize>, i: usize) -> usize {
    match a {
        Some(row) => s.n.wrapping_sub(1).wrapping_sub(s.node(row, i)),
        None => 0,
    }
}

// For variable i all numbers from 0 to node i of row b are tried: b[i] + 1; none where there is no row.
fn up_to(s: Space, b: Option<usize>, i: usize) -> usize {
    match b {
        Some(row) => s.node(row, i).wrapping_add(1),
        None => 0,
    }
}

// Both for each variable from one on.
fn from_variable(s: Space, a: Option<usize>, b: Option<usize>, first: usize) -> usize {
    let mut evaluations: usize = 0;
    for i in first..s.columns {
        let here = above(s, a, i).wrapping_add(up_to(s, b, i));
        evaluations = evaluations.wrapping_add(here);
    }
    evaluations
}

// Row b is found after row a: b[j] - a[j] for the first variable j in which they differ, and both of the above behind it.
fn of_next(s: Space, a: usize, b: usize) -> usize {
    let j = (0..s.columns)
        .find(|j| s.node(a, *j) != s.node(b, *j))
        .unwrap_or(s.columns);
    let here = s.node(b, j).wrapping_sub(s.node(a, j));
    here.wrapping_add(from_variable(s, Some(a), Some(b), j.wrapping_add(1)))
}

// What comes after row a is found to be b; where a is no row, b is the first of all. Either may be no row.
fn of_search(s: Space, a: Option<usize>, b: Option<usize>) -> usize {
    match (a, b) {
        (Some(a), Some(b)) => of_next(s, a, b),
        (Some(_), None) => from_variable(s, a, None, 0),
        (None, _) => from_variable(s, None, b, 0).wrapping_add(1),
    }
}

// The first answer after row a, or of all.
fn answer_after(marks: &Cells, s: Space, a: Option<usize>) -> Option<usize> {
    let start = a.map_or(0, |row| row.wrapping_add(1));
    (start..s.count).find(|row| is_marked(marks, *row))
}

// A page of so many rows after row a, or from the first on: one search for each, and one more.
pub fn of_page(marks: &Cells, s: Space, a: Option<usize>, count: usize) -> usize {
    let mut before = a;
    let mut evaluations: usize = 0;
    for _ in 0..count.wrapping_add(1) {
        let b = answer_after(marks, s, before);
        evaluations = evaluations.wrapping_add(of_search(s, before, b));
        before = b;
    }
    evaluations
}
