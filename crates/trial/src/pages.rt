// Pages: each call is compared with the reply, the rows and the cursor that are due, and the buffer beyond the rows with
// what it held; a quick page also with the evaluations that are due, and with the most that document 02 allows.
use harness::due;
use harness::line::Line;
use harness::shared::Shared;
use harness::table::Rows;
use harness::tally::{Sum, Tally};
use model::{Cursor, QuickPage, QuickReply, Refusal, Reply};
use reference::query::Query;
use reference::{rule, seeing};

// What fills a buffer before a call: no node's number, and no tag in the trees of which the seen part is asked for.
pub const PATTERN: u16 = 7777;

// The ways in which a page is asked for: row by row, and variable by variable.
#[derive(Clone, Copy, PartialEq, Eq)]
pub enum Way {
    Plain,
    Quick,
}

// What a page is asked of: a shared table with the party that asks, and a query.
#[derive(Clone, Copy)]
pub struct Tables<'a> {
    pub shared: &'a Shared,
    pub query: &'a Query,
}

// A call by a party that sees n nodes, and the reply that is due; only a quick page tells its evaluations.
#[derive(Clone, Copy)]
pub struct Call {
    pub n: usize,
    pub columns: usize,
    pub room: usize,
    pub cursor: Cursor,
    pub due: QuickReply,
}

// What is due after a call: the rows in the buffer, and the cursor.
#[derive(Clone, Copy)]
pub struct After<'a> {
    pub rows: &'a Rows,
    pub cursor: Cursor,
}

// A refusal as the reply that is due.
pub fn refusal(refusal: Refusal) -> QuickReply {
    let Reply { number, place } = due::reply(refusal);
    QuickReply {
        number,
        place,
        count: 0,
        more: false,
        evaluations: 0,
    }
}

// A page in one of the two ways; one row by row does not tell its evaluations.
fn serve(c: Call, way: Way, tables: Tables, rows: &mut [u16]) -> Result<QuickPage, Refusal> {
    let t = tables.shared.numbers();
    let party = tables.shared.party();
    let q = tables.query.numbers();
    match way {
        Way::Plain => {
            let page = parties::page_from(t, party, q, c.columns, c.cursor, rows)?;
            Ok(QuickPage {
                page,
                evaluations: 0,
            })
        }
        Way::Quick => parties::quick_page_from(t, party, q, c.columns, c.cursor, rows),
    }
}

// The cursor after a call, which a refusal leaves as it was.
fn cursor_after(c: Call, told: Result<QuickPage, Refusal>) -> Cursor {
    match told {
        Ok(quick) => quick.page.cursor,
        Err(_) => c.cursor,
    }
}

// The evaluations of a quick page: as many as are due, and at most 6 × n for each row written and as many for `more`.
fn expect_evaluations(tally: &mut Tally, c: Call, evaluations: usize) {
    let searches = c.due.count.wrapping_add(1);
    let most = c.n.wrapping_mul(6).wrapping_mul(searches);
    tally.expect(evaluations == c.due.evaluations);
    tally.expect(evaluations <= most);
    tally.add(Sum::Evaluations, evaluations as u64);
}

// Number and place.
fn reply_of(told: QuickReply) -> Reply {
    Reply {
        number: told.number,
        place: told.place,
    }
}

// One call; answers the cursor after it.
fn compare(tally: &mut Tally, way: Way, tables: Tables, c: Call, after: After) -> Cursor {
    let mut rows = [PATTERN; 1024];
    let end = c.room.min(1024);
    let told = serve(c, way, tables, &mut rows[..end]);
    let got = QuickReply::from(told);
    let cursor = cursor_after(c, told);
    tally.expect_reply(reply_of(got), reply_of(c.due));
    tally.expect((got.count == c.due.count) & (got.more == c.due.more));
    tally.expect_rows(&rows, after.rows);
    tally.expect_cursor(cursor, after.cursor);
    if way == Way::Quick {
        expect_evaluations(tally, c, got.evaluations);
    }
    cursor
}

// A quick page that is refused; it leaves the cursor and the buffer as they were.
pub fn refuse_quick(
    tally: &mut Tally,
    tables: Tables,
    columns: usize,
    room: usize,
    cursor: Cursor,
    due: Refusal,
) {
    let c = Call {
        n: 0,
        columns,
        room,
        cursor,
        due: refusal(due),
    };
    let after = After {
        rows: &[PATTERN; 1024],
        cursor,
    };
    compare(tally, Way::Quick, tables, c, after);
}

// The same page asked for in each way; a quick one is refused where the query breaks the rule. Answers the cursor after the plain
// page or, where the room is odd, after the quick one, so that they go on from each other.
pub fn compare_ways(tally: &mut Tally, tables: Tables, c: Call, after: After) -> Cursor {
    let plain = compare(tally, Way::Plain, tables, c, after);
    if let Some(refusal) = rule::refusal_for(tables.query, reply_of(c.due)) {
        refuse_quick(tally, tables, c.columns, c.room, c.cursor, refusal);
        return plain;
    }
    let quick = compare(tally, Way::Quick, tables, c, after);
    if c.room % 2 == 0 { plain } else { quick }
}

// A line of the input: NUMBER PLACE COUNT MORE EVALUATIONS | COLUMNS ROOM | CURSOR | ROWS | CURSOR AFTER, where a page that is not
// quick has no EVALUATIONS.
pub fn run(tally: &mut Tally, tables: Tables, line: &Line, way: Way) {
    let mut rows = [PATTERN; 1024];
    line.copy_numbers(3, &mut rows);
    let reply = line.reply(0);
    let c = Call {
        n: seeing::size(tables.shared),
        columns: line.number(1, 0),
        room: line.number(1, 1),
        cursor: line.cursor(2),
        due: QuickReply {
            number: reply.number,
            place: reply.place,
            count: line.number(0, 2),
            more: line.number(0, 3) != 0,
            evaluations: line.number(0, 4),
        },
    };
    let after = After {
        rows: &rows,
        cursor: line.cursor(4),
    };
    compare(tally, way, tables, c, after);
}
