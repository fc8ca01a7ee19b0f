// The answers of a query, row by row, and the pages of them that are due.
use super::evaluator::{Asked, Pairs, fill, outcome};
use super::query::Query;
use super::tree::Tree;
use harness::table;

// The rows of so many variables over n nodes; there are at most three variables, and no more rows for more. A row is a number below count: its nodes are the digits to the base n, the
// first weighing most, so that rows are in order as their numbers are.
#[derive(Clone, Copy)]
pub struct Space {
    pub n: usize,
    pub columns: usize,
    pub count: usize,
}

fn rows_over(n: usize, columns: usize) -> Space {
    let mut count = n;
    for _ in 1..columns.min(3) {
        count = count.wrapping_mul(n);
    }
    Space { n, columns, count }
}

impl Space {
    // Node j of a row.
    pub fn node(&self, row: usize, j: usize) -> usize {
        let n = self.n;
        if n == 0 {
            return 0;
        }
        let mut rest = row;
        for _ in j.wrapping_add(1)..self.columns {
            rest /= n;
        }
        rest % n
    }

    // How many rows there is room for.
    fn rows_in(&self, room: usize) -> usize {
        if self.columns == 0 {
            return 0;
        }
        room / self.columns
    }

    // Writes a row behind so many others.
    fn put_row(&self, row: usize, due: &mut table::Rows, behind: usize) {
        let start = behind.wrapping_mul(self.columns);
        for j in 0..self.columns {
            table::put(due, start.wrapping_add(j), table::narrow(self.node(row, j)));
        }
    }

    // The cursor at a row; numbers beyond the variables are kept.
    pub fn cursor_at(&self, cursor: model::Cursor, row: usize) -> model::Cursor {
        model::Cursor {
            begun: 1,
            first: table::narrow(self.node(row, 0)),
            second: choose(
                1 < self.columns,
                table::narrow(self.node(row, 1)),
                cursor.second,
            ),
            third: choose(
                2 < self.columns,
                table::narrow(self.node(row, 2)),
                cursor.third,
            ),
        }
    }

    // The cursor after a page.
    pub fn moved(&self, cursor: model::Cursor, p: Due) -> model::Cursor {
        if p.count == 0 {
            return cursor;
        }
        self.cursor_at(cursor, p.next.wrapping_sub(1))
    }
}

// The query has a pair under the row.
fn is_answer(pairs: &mut Pairs, tree: &Tree, query: &Query, s: Space, row: usize) -> bool {
    let mut nodes = table::Table::with_length(s.columns);
    for k in 0..3 {
        nodes.put(k, s.node(row, k));
    }
    let asked = Asked {
        tree,
        query,
        nodes: &nodes,
    };
    fill(pairs, &asked);
    outcome(pairs, &asked, false).has_pair()
}

// The answers of a query: the rows that they are among, and how many they are.
#[derive(Clone, Copy)]
pub struct Answers {
    pub space: Space,
    pub found: usize,
}

impl Answers {
    // There is an answer, and a row that is none.
    pub fn have_gaps(&self) -> bool {
        (0 < self.found) & (self.found < self.space.count)
    }
}

// Marks the rows that are answers.
pub fn list(
    pairs: &mut Pairs,
    tree: &Tree,
    query: &Query,
    columns: usize,
    marks: &mut table::Cells,
) -> Answers {
    let space = rows_over(tree.size(), columns);
    let mut found: usize = 0;
    for row in 0..space.count {
        let answer = is_answer(pairs, tree, query, space, row);
        table::put(marks, row, u8::from(answer));
        found = found.wrapping_add(usize::from(answer));
    }
    Answers { space, found }
}

pub fn is_marked(marks: &table::Cells, row: usize) -> bool {
    table::at(marks, row) == 1
}

// A page as it is due: how many rows it has, the row after its last, and whether a later one is an answer.
#[derive(Clone, Copy)]
pub struct Due {
    pub count: usize,
    pub next: usize,
    pub more: bool,
}

// The page from a row on, with room for so many numbers.
pub fn due_page(
    marks: &table::Cells,
    s: Space,
    start: usize,
    room: usize,
    due: &mut table::Rows,
) -> Due {
    let most = s.rows_in(room);
    let mut p = Due {
        count: 0,
        next: start,
        more: false,
    };
    for row in start..s.count {
        if is_marked(marks, row) {
            if p.count == most {
                p.more = true;
                return p;
            }
            s.put_row(row, due, p.count);
            p.count = p.count.wrapping_add(1);
            p.next = row + 1;
        }
    }
    p
}

// x where there is such a variable, else y.
pub fn choose(there: bool, x: u16, y: u16) -> u16 {
    if there { x } else { y }
}
