// Calls of reverse, each with a buffer that is filled with a pattern: the reply with its count, and every number of the buffer, are
// compared with what is due.
use harness::due;
use harness::line::Line;
use harness::shared::Shared;
use harness::table::{copy, front};
use harness::tally::{ACCEPTED, Tally};
use model::{ImageReply, Refusal, Reply};
use reference::damage;
use reference::query::Query;
use reference::random::Seed;

// What fills a buffer before a call: no number that a table holds here.
const PATTERN: u16 = 7777;

// A call: a query, the number of variables, and how much of the buffer is lent.
#[derive(Clone, Copy)]
pub struct Call<'a> {
    pub query: &'a Query,
    pub columns: usize,
    pub room: usize,
}

// A call with the reply that is due, and the numbers that are due at the buffer's front; the rest of the buffer is due to be as it was.
// A room beyond the buffer fails.
fn compare(tally: &mut Tally, c: Call, due: ImageReply, numbers: &[u16]) {
    let mut to = [PATTERN; 1024];
    let mut rows = [PATTERN; 1024];
    copy(numbers, &mut rows);
    let Some(lent) = to.get_mut(..c.room) else {
        tally.expect(false);
        return;
    };
    let got = reversal::reverse(c.query.numbers(), c.columns, lent);
    tally.expect_counted(ImageReply::from(got), due);
    tally.expect_rows(&to, &rows);
}

// A call that is refused.
fn refuse(tally: &mut Tally, c: Call, refusal: Refusal) {
    compare(tally, c, due::counted(Err(refusal)), &[]);
}

// What is due to a query that is accepted, where its reversed query has the table that is due.
fn due_for(table: &[u16], room: usize) -> Result<usize, Refusal> {
    let count = table.len();
    if 256 < count {
        return Err(Refusal::TooManyEntries);
    }
    if room < count {
        return Err(Refusal::Room);
    }
    Ok(count)
}

// A call with a query that is accepted, and room for so many numbers, or for 1024 where that is less.
fn compare_room(tally: &mut Tally, call: Call, room: usize, table: &[u16]) {
    let c = Call {
        room: room.min(1024),
        ..call
    };
    let due = due_for(table, c.room);
    let written = if due.is_ok() { table } else { &[] };
    compare(tally, c, due::counted(due), written);
}

// Buffers that are exactly long enough, one number too short, too short by any number of them, and of any length.
pub fn compare_rooms(tally: &mut Tally, seed: &mut Seed, c: Call, table: &[u16]) {
    let count = table.len();
    compare_room(tally, c, count, table);
    compare_room(tally, c, count.wrapping_sub(1), table);
    compare_room(tally, c, seed.below(count), table);
    compare_room(tally, c, seed.between(0, 1024), table);
}

// A call that is due to be judged as the check of the query judges it, and refused if that does.
fn compare_check(tally: &mut Tally, c: Call, table: &[u16]) {
    match query::check_query(c.query.numbers(), c.columns) {
        Ok(()) => compare_room(tally, c, c.room, table),
        Err(refusal) => refuse(tally, c, refusal),
    }
}

// The query, of fewer than 64 entries, with a fault, of which the reply is known; and as it is with another number of variables, which
// may be too few or too many.
pub fn compare_faults(tally: &mut Tally, seed: &mut Seed, call: Call, table: &[u16]) {
    let mut shared = Shared::new();
    let mut other = *call.query;
    let refusal = damage::in_table(seed, &mut shared, &mut other, 1);
    let broken = Call {
        query: &other,
        columns: call.columns,
        room: seed.between(0, 1024),
    };
    refuse(tally, broken, refusal);
    let c = Call {
        room: seed.between(0, 1024),
        columns: seed.below(6),
        ..call
    };
    compare_check(tally, c, table);
}

// The reversed query is accepted for the same number of variables.
pub fn expect_accepted(tally: &mut Tally, reversed: &Query, columns: usize) {
    let got = query::check_query(reversed.numbers(), columns);
    tally.expect_reply(Reply::from(got), ACCEPTED);
}

// The reversed query; an empty one if it is refused.
pub fn reverse(query: &Query, columns: usize) -> Query {
    let mut to = [0u16; 1024];
    let count = reversal::reverse(query.numbers(), columns, &mut to).unwrap_or(0);
    let mut reversed = Query::new();
    for x in front(&to, count) {
        reversed.table.push(usize::from(*x));
    }
    reversed
}

// reverse NUMBER PLACE | COLUMNS ROOM | QUERY | TABLE, where a call that is refused has no use for TABLE
pub fn run(tally: &mut Tally, line: &Line) {
    let query = Query {
        table: line.table(2),
    };
    let c = Call {
        query: &query,
        columns: line.number(1, 0),
        room: line.number(1, 1),
    };
    let table = line.table(3);
    let Reply { number, place } = due::written(line, 0);
    let written = if number == 0 { table.numbers() } else { &[] };
    let due = ImageReply {
        number,
        place,
        count: written.len(),
    };
    compare(tally, c, due, written);
}
