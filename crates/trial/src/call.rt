// Calls of an evaluation, each with a buffer that is filled with a pattern: the reply is compared with the one that is due, the
// count of an image too, and the buffer afterwards with the bytes that are due.
use super::bit_pairs;
use harness::due;
use harness::line::Line;
use harness::shared::Shared;
use harness::table::{Cells, Set, Table};
use harness::tally::{Tally, uncounted};
use model::{ImageReply, Refusal, Reply};
use reference::query::Query;

// The services; and all pairs by the engine over sets, which no service and no line asks for.
#[derive(Clone, Copy, PartialEq, Eq)]
pub enum Service {
    Forwards,
    Backwards,
    Pairs,
    PairsByRows,
}

// What fills a buffer before a call: no byte that a service writes.
pub const PATTERN: u8 = 7;

// What every evaluation is lent: a shared table with the party that asks, a query, and the node of each variable.
#[derive(Clone, Copy)]
pub struct Lent<'a> {
    pub shared: &'a Shared,
    pub query: &'a Query,
    pub nodes: &'a Table,
}

// A call: what is lent beside that (the number of variables, how much of the set and how much of the buffer), and the reply that is due;
// its count where the result is a set.
#[derive(Clone, Copy)]
pub struct Call {
    pub service: Service,
    pub columns: usize,
    pub set: usize,
    pub room: usize,
    pub due: ImageReply,
}

// The reply to an accepted call with a count.
pub fn counting(count: usize) -> ImageReply {
    ImageReply {
        number: 0,
        place: 0,
        count,
    }
}

// A reply without a count as one of none.
fn counted(told: Result<(), Refusal>) -> ImageReply {
    let outcome: Result<usize, Refusal> = match told {
        Ok(()) => Ok(0),
        Err(refusal) => Err(refusal),
    };
    ImageReply::from(outcome)
}

// All pairs by the engine over sets, on the tree that the party sees: so that the two engines are compared.
fn pairs_by_rows(
    tree: &[u16],
    party: u16,
    query: &[u16],
    columns: usize,
    nodes: &[u16],
    to: &mut [u8],
) -> Result<(), Refusal> {
    let mut table = [0u16; 512];
    let count = view::look(tree, party, &mut table)?;
    images::pairs_by_rows(&table[..count], query, columns, nodes, to)
}

// What the service tells of an image, or of the pairs.
fn serve(c: Call, lent: Lent, set: &[u8], to: &mut [u8]) -> ImageReply {
    let t = lent.shared.numbers();
    let party = lent.shared.party();
    let q = lent.query.numbers();
    let k = lent.nodes.numbers();
    match c.service {
        Service::Forwards => {
            ImageReply::from(parties::forwards(t, party, q, c.columns, k, set, to))
        }
        Service::Backwards => {
            ImageReply::from(parties::backwards(t, party, q, c.columns, k, set, to))
        }
        Service::Pairs => counted(parties::pairs(t, party, q, c.columns, k, to)),
        Service::PairsByRows => counted(pairs_by_rows(t, party, q, c.columns, k, to)),
    }
}

// A call with the fronts of a set and of a buffer, if they are so long.
fn compare(tally: &mut Tally, c: Call, lent: Lent, set: &[u8], to: &mut [u8], bytes: &[u8]) {
    let got = match (set.get(..c.set), to.get_mut(..c.room)) {
        (Some(set), Some(to)) => serve(c, lent, set, to),
        _ => due::NO_REPLY,
    };
    match c.service {
        Service::Forwards | Service::Backwards => tally.expect_counted(got, c.due),
        _ => tally.expect_reply(uncounted(got), uncounted(c.due)),
    }
    tally.expect_bytes(to, bytes, c.room);
}

// A call on a buffer for a set.
pub fn compare_set(tally: &mut Tally, c: Call, lent: Lent, set: &Set, due: &Set) {
    let mut to = [PATTERN; 512];
    compare(tally, c, lent, set, &mut to, due);
}

// The same call, by the engine over sets.
fn by_rows(c: Call) -> Call {
    Call {
        service: Service::PairsByRows,
        ..c
    }
}

// A call on a buffer for a table of pairs.
pub fn compare_pairs(tally: &mut Tally, c: Call, lent: Lent, due: &Cells) {
    let mut to = [PATTERN; 66560];
    compare(tally, c, lent, b"", &mut to, due);
}

// The same by both engines.
pub fn compare_engines(tally: &mut Tally, c: Call, lent: Lent, due: &Cells) {
    compare_pairs(tally, c, lent, due);
    compare_pairs(tally, by_rows(c), lent, due);
}

// A line of the input: SERVICE NUMBER PLACE COUNT | COLUMNS ROOM | NODES | SET | BYTES, where BYTES are due at the buffer's front;
// pairs has no COUNT, comes again by the engine over sets, and where it is accepted as bits too.
pub fn run(tally: &mut Tally, shared: &Shared, query: &Query, line: &Line, service: Service) {
    let nodes = line.table(2);
    let mut set = [0u8; 512];
    let mut bytes = [PATTERN; 512];
    line.copy_bytes(3, &mut set);
    line.copy_bytes(4, &mut bytes);
    let lent = Lent {
        shared,
        query,
        nodes: &nodes,
    };
    let Reply { number, place } = due::written(line, 0);
    let c = Call {
        service,
        columns: line.number(1, 0),
        set: line.length(3),
        room: line.number(1, 1),
        due: ImageReply {
            number,
            place,
            count: line.number(0, 2),
        },
    };
    compare_set(tally, c, lent, &set, &bytes);
    if service != Service::Pairs {
        return;
    }
    compare_set(tally, by_rows(c), lent, &set, &bytes);
    if c.due.number == 0 {
        bit_pairs::run(tally, lent, line);
    }
}
