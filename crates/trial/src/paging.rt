// The answers of random queries, page by page, each page both ways. The room changes from call to call, refused calls come
// between, and the cursor is changed where a page does not read it.
use super::pages::{self, After, Call, PATTERN, Tables};
use super::{blocks, sparse};
use harness::line::Line;
use harness::shared::Shared;
use harness::table::Cells;
use harness::tally::{Sum, Tally};
use model::{Cursor, QuickReply};
use reference::evaluator::Pairs;
use reference::listing::{Answers, due_page};
use reference::random::Seed;
use reference::steer::{self, Listed};
use reference::{damage, effort, owning, seeing};

// Where paging stands: the cursor, the row from which it goes on, and whether there is more.
#[derive(Clone, Copy)]
pub struct Position {
    pub cursor: Cursor,
    pub next: usize,
    pub more: bool,
}

// The start, with a fresh cursor that holds anything.
pub fn fresh(seed: &mut Seed) -> Position {
    let any = damage::any_cursor(seed);
    Position {
        cursor: Cursor { begun: 0, ..any },
        next: 0,
        more: true,
    }
}

// What is paged through: the answers of a query for a party, as they are marked.
#[derive(Clone, Copy)]
pub struct Walk<'a> {
    pub tables: Tables<'a>,
    pub marks: &'a Cells,
    pub answers: Answers,
}

impl<'a> Walk<'a> {
    // The answers of a query over what a party sees of a shared table.
    pub fn over(listed: &'a Listed, shared: &'a Shared, marks: &'a Cells) -> Walk<'a> {
        Walk {
            tables: Tables {
                shared,
                query: &listed.query,
            },
            marks,
            answers: listed.answers,
        }
    }

    // A call that is refused; it leaves the cursor and the buffer as they were.
    fn refuse(&self, tally: &mut Tally, seed: &mut Seed, cursor: Cursor) {
        let s = self.answers.space;
        let mut shared = *self.tables.shared;
        let mut query = *self.tables.query;
        let f = damage::put(seed, &mut shared, &mut query, s, cursor);
        let other = Tables {
            shared: &shared,
            query: &query,
        };
        let c = Call {
            n: s.n,
            columns: f.columns,
            room: f.room,
            cursor: f.cursor,
            due: pages::refusal(f.refusal),
        };
        let after = After {
            rows: &[PATTERN; 1024],
            cursor: f.cursor,
        };
        tally.add(Sum::Refused, 1);
        pages::compare_ways(tally, other, c, after);
    }

    // One page, with room for so many numbers.
    fn turn(&self, tally: &mut Tally, room: usize, at: Position) -> Position {
        let mut due = [PATTERN; 1024];
        let s = self.answers.space;
        let p = due_page(self.marks, s, at.next, room, &mut due);
        tally.add(Sum::Pages, 1);
        tally.add(Sum::Rows, p.count as u64);
        let before = match at.cursor.begun {
            0 => None,
            _ => Some(at.next.wrapping_sub(1)),
        };
        let c = Call {
            n: s.n,
            columns: s.columns,
            room,
            cursor: at.cursor,
            due: QuickReply {
                number: 0,
                place: 0,
                count: p.count,
                more: p.more,
                evaluations: effort::of_page(self.marks, s, before, p.count),
            },
        };
        let after = After {
            rows: &due,
            cursor: s.moved(at.cursor, p),
        };
        Position {
            cursor: pages::compare_ways(tally, self.tables, c, after),
            next: p.next,
            more: p.more,
        }
    }

    // Room for one row, for two, for `most`, or for any number up to that; and for a part of one more.
    fn room_for(&self, seed: &mut Seed, most: usize) -> usize {
        let columns = self.answers.space.columns;
        let part = seed.below(columns);
        let rows = match seed.below(4) {
            0 => 1,
            1 => 2,
            2 => most,
            _ => seed.between(1, most),
        };
        rows.wrapping_mul(columns).wrapping_add(part)
    }

    // Two calls that are refused, and a page.
    fn step(&self, tally: &mut Tally, seed: &mut Seed, most: usize, at: Position) -> Position {
        self.refuse(tally, seed, at.cursor);
        self.refuse(tally, seed, at.cursor);
        let room = self.room_for(seed, most);
        let cursor = damage::scrambled(seed, self.answers.space, at.cursor);
        self.turn(tally, room, Position { cursor, ..at })
    }

    // Pages to the end, and one after it.
    pub fn page_through(&self, tally: &mut Tally, seed: &mut Seed, most: usize, start: Position) {
        let mut at = start;
        for _ in 0..self.answers.space.count {
            at = self.step(tally, seed, most, at);
            if !at.more {
                self.step(tally, seed, most, at);
                return;
            }
        }
    }

    // Pages from the start, with room for up to 1 row, 2 rows, .. and one more than there are answers.
    fn page_through_from_start(&self, tally: &mut Tally, seed: &mut Seed) {
        let start = fresh(seed);
        for most in 1..self.answers.found.wrapping_add(2) {
            self.page_through(tally, seed, most, start);
        }
    }

    // Pages from any row, an answer or none.
    pub fn page_through_from_anywhere(&self, tally: &mut Tally, seed: &mut Seed) {
        let s = self.answers.space;
        let row = seed.below(s.count);
        let start = Position {
            cursor: s.cursor_at(damage::any_cursor(seed), row),
            next: row.wrapping_add(1),
            more: true,
        };
        let most = seed.between(1, self.answers.found.wrapping_add(1));
        self.page_through(tally, seed, most, start);
    }

    // Pages from the start and from anywhere.
    fn page_all(&self, tally: &mut Tally, seed: &mut Seed) {
        self.page_through_from_start(tally, seed);
        for _ in 0..3 {
            self.page_through_from_anywhere(tally, seed);
        }
    }
}

// The shared table, the seen tree and the query that a line asks for, with the answers marked.
fn make(seed: &mut Seed, line: &Line, pairs: &mut Pairs, marks: &mut Cells) -> Listed {
    if line.number(3, 0) != 0 {
        return sparse::make(seed, line, pairs, marks);
    }
    steer::make(seed, line, pairs, marks, false)
}

// All pages over the answers of a query; and the same calls with another table of which the party sees the same tree.
pub fn run(tally: &mut Tally, seed: &mut Seed, line: &Line, pairs: &mut Pairs) {
    let mut marks = [0u8; 66560];
    let listed = make(seed, line, pairs, &mut marks);
    steer::count(tally, &listed.query, listed.answers);
    blocks::count(tally, &listed.query, &marks, listed.answers);
    seeing::count(tally, &listed.shared);
    let twin = owning::make_twin(seed, &listed.tree, &listed.shared);
    let mut again = *seed;
    Walk::over(&listed, &listed.shared, &marks).page_all(tally, seed);
    Walk::over(&listed, &twin, &marks).page_all(tally, &mut again);
}
