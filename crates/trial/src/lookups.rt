// Searches by an index: each call is compared with the reply and the count that are due, and the buffer with the bytes that are
// due.
use super::call;
use harness::due;
use harness::line::Line;
use harness::shared::Shared;
use harness::table::{Set, Table, narrow};
use harness::tally::Tally;
use model::ImageReply;

// A call: where it starts, the tag, the bytes that there is room for, and the reply that is due.
#[derive(Clone, Copy)]
pub struct Call {
    pub start: usize,
    pub tag: usize,
    pub room: usize,
    pub due: ImageReply,
}

pub fn compare(tally: &mut Tally, shared: &Shared, next: &Table, c: Call, bytes: &Set) {
    let mut to = [call::PATTERN; 512];
    let t = shared.numbers();
    let party = shared.party();
    let start = narrow(c.start);
    let tag = narrow(c.tag);
    let got = match to.get_mut(..c.room) {
        Some(lent) => {
            ImageReply::from(parties::descendants(t, party, next.numbers(), start, tag, lent))
        }
        None => due::NO_REPLY,
    };
    tally.expect_counted(got, c.due);
    tally.expect_bytes(&to, bytes, c.room);
}

// descendants NUMBER PLACE COUNT | START TAG ROOM | NEXT | BYTES
pub fn run(tally: &mut Tally, shared: &Shared, line: &Line) {
    let next = line.table(2);
    let mut due = [call::PATTERN; 512];
    line.copy_bytes(3, &mut due);
    let c = Call {
        start: line.number(1, 0),
        tag: line.number(1, 1),
        room: line.number(1, 2),
        due: line.counted(0),
    };
    compare(tally, shared, &next, c, &due);
}
