// The tree that a party sees: each call is compared with the reply and the count that are due, and the buffer with the numbers that are
// due, those behind the tree with what they held.
use super::{call, pages, searches};
use harness::due;
use harness::line::Line;
use harness::shared::Shared;
use harness::table::{Table, copy};
use harness::tally::Tally;
use model::{ImageReply, Refusal, Reply};
use reference::damage;
use reference::random::Seed;
use reference::tree::Tree;

// A call with room for so many numbers: a reply is due, and numbers at the front of the buffer.
fn compare(tally: &mut Tally, shared: &Shared, room: usize, reply: ImageReply, numbers: &[u16]) {
    let mut to = [pages::PATTERN; 1024];
    let mut rows = [pages::PATTERN; 1024];
    copy(numbers, &mut rows);
    let got = match to.get_mut(..room) {
        Some(lent) => ImageReply::from(view::seen(shared.numbers(), shared.party(), lent)),
        None => due::NO_REPLY,
    };
    tally.expect_counted(got, reply);
    tally.expect_rows(&to, &rows);
}

// A call that is refused; the buffer is left as it was.
pub fn refuse(tally: &mut Tally, shared: &Shared, room: usize, reply: Reply) {
    let due = ImageReply {
        number: reply.number,
        place: reply.place,
        count: 0,
    };
    compare(tally, shared, room, due, &[]);
}

// A call that is accepted: the tree is due, at the front of so much room.
fn accept(tally: &mut Tally, shared: &Shared, room: usize, tree: &Table) {
    compare(
        tally,
        shared,
        room,
        call::counting(tree.length()),
        tree.numbers(),
    );
}

// Room for the tree and no more, for more, for one number less, and any room for a table with a fault.
pub fn compare_rooms(tally: &mut Tally, seed: &mut Seed, shared: &Shared, tree: &Tree) {
    let mut other = *shared;
    let needed = tree.table.length();
    let more = searches::enough(seed, needed).wrapping_add(1);
    accept(tally, shared, needed, &tree.table);
    accept(tally, shared, more, &tree.table);
    refuse(
        tally,
        shared,
        needed.wrapping_sub(1),
        due::reply(Refusal::Room),
    );
    let refusal = damage::in_shared(seed, &mut other);
    let room = searches::maybe_short(seed, needed);
    refuse(tally, &other, room, due::reply(refusal));
}

// yields NUMBER PLACE | ROOM | TABLE
pub fn run(tally: &mut Tally, shared: &Shared, line: &Line) {
    let room = line.number(1, 0);
    if line.number(0, 0) == 0 {
        accept(tally, shared, room, &line.table(2));
        return;
    }
    refuse(tally, shared, room, line.reply(0));
}
