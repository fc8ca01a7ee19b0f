// The making of an index: each call is compared with the reply that is due, and both buffers with the numbers that are due, those
// behind the result with what they held.
use harness::due;
use harness::line::Line;
use harness::shared::Shared;
use harness::table::Rows;
use harness::tally::Tally;
use index::IndexReply;
use model::{Refusal, Reply};
use reference::indexing::Made;

// What fills the buffers before a call: in that of the index a number that is no node and does not stand for none, in that of the
// tags one that is no tag, no node and no count.
pub const NEXT_PATTERN: u16 = 65534;

pub const TAGS_PATTERN: u16 = 65535;

// The room in both buffers.
#[derive(Clone, Copy)]
pub struct Rooms {
    pub next: usize,
    pub tags: usize,
}

// What stands for the reply where there is less room than would be lent: the service does not give it.
const NO_REPLY: IndexReply = IndexReply {
    number: 65535,
    place: 65535,
    next: 65535,
    tags: 65535,
};

// Number and place.
fn reply_of(told: &IndexReply) -> Reply {
    Reply {
        number: told.number,
        place: told.place,
    }
}

// The reply that is due to the making of an index.
pub fn reply(outcome: Result<Made, Refusal>) -> IndexReply {
    match outcome {
        Ok(Made { next, tags }) => IndexReply {
            number: 0,
            place: 0,
            next,
            tags,
        },
        Err(refusal) => {
            let Reply { number, place } = due::reply(refusal);
            IndexReply {
                number,
                place,
                next: 0,
                tags: 0,
            }
        }
    }
}

pub fn compare(
    tally: &mut Tally,
    shared: &Shared,
    rooms: Rooms,
    due: &IndexReply,
    due_next: &Rows,
    due_tags: &Rows,
) {
    let mut next = [NEXT_PATTERN; 1024];
    let mut tags = [TAGS_PATTERN; 1024];
    let t = shared.numbers();
    let party = shared.party();
    let got = match (next.get_mut(..rooms.next), tags.get_mut(..rooms.tags)) {
        (Some(next), Some(tags)) => IndexReply::from(parties::build_index(t, party, next, tags)),
        _ => NO_REPLY,
    };
    tally.expect_reply(reply_of(&got), reply_of(due));
    tally.expect((got.next == due.next) & (got.tags == due.tags));
    tally.expect_rows(&next, due_next);
    tally.expect_rows(&tags, due_tags);
}

// index NUMBER PLACE | ROOM ROOM | NEXT | TAGS
pub fn run(tally: &mut Tally, shared: &Shared, line: &Line) {
    let mut next = [NEXT_PATTERN; 1024];
    let mut tags = [TAGS_PATTERN; 1024];
    line.copy_numbers(2, &mut next);
    line.copy_numbers(3, &mut tags);
    let rooms = Rooms {
        next: line.number(1, 0),
        tags: line.number(1, 1),
    };
    let reply = due::written(line, 0);
    let due = IndexReply {
        number: reply.number,
        place: reply.place,
        next: line.length(2),
        tags: line.length(3),
    };
    compare(tally, shared, rooms, &due, &next, &tags);
}
