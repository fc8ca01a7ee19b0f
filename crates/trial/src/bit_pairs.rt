// Pairs in bits: each call is compared with the reply that is due, and the buffer, which is filled with a pattern, with the words
// that are due.
use super::call::Lent;
use harness::due;
use harness::line::Line;
use harness::table::{Cells, Words};
use harness::tally::{Tally, uncounted};
use model::{Refusal, Reply};
use reference::random::Seed;
use reference::{bit_damage, bit_tables, seeing};

// What fills a buffer before a call: the bytes of the word are all 7.
pub const PATTERN: u64 = 506381209866536711;

// Compares what a service told with what is due; it told nothing where it would have been lent more than there is.
pub fn expect(tally: &mut Tally, got: Option<Result<(), Refusal>>, due: Result<(), Refusal>) {
    let reply = match got {
        Some(told) => Reply::from(told),
        None => uncounted(due::NO_REPLY),
    };
    tally.expect_reply(reply, due::told(due));
}

// A call with so many variables, and room for so many words.
fn compare(
    tally: &mut Tally,
    lent: Lent,
    columns: usize,
    room: usize,
    due: Result<(), Refusal>,
    words: &Words,
) {
    let mut to = [PATTERN; 1040];
    let t = lent.shared.numbers();
    let party = lent.shared.party();
    let q = lent.query.numbers();
    let k = lent.nodes.numbers();
    let got = match to.get_mut(..room) {
        Some(lent) => Some(parties::pairs_bits(t, party, q, columns, k, lent)),
        None => None,
    };
    expect(tally, got, due);
    tally.expect_words(&to, words);
}

// A call that is accepted, by a party that sees n nodes, with the pairs that are due as bytes, and room for as many words as are needed or
// a few more.
pub fn compare_table(tally: &mut Tally, seed: &mut Seed, lent: Lent, n: usize, cells: &Cells) {
    let mut due = [PATTERN; 1040];
    bit_tables::pack(cells, n, &mut due);
    let room = n.wrapping_mul(4).wrapping_add(seed.below(3));
    compare(tally, lent, lent.nodes.length(), room, Ok(()), &due);
}

// The pairs that a line of the input has due as bytes, in its last part.
pub fn run(tally: &mut Tally, lent: Lent, line: &Line) {
    let mut cells = [0u8; 66560];
    let mut seed = Seed::new(1);
    line.copy_bytes(4, &mut cells);
    compare_table(tally, &mut seed, lent, seeing::size(lent.shared), &cells);
}

// A call with a fault in what it is lent, by a party that sees n nodes; nothing is written. The query has fewer than 64 entries.
pub fn refuse(tally: &mut Tally, seed: &mut Seed, lent: Lent, n: usize) {
    let mut shared = *lent.shared;
    let mut query = *lent.query;
    let mut nodes = *lent.nodes;
    let f = bit_damage::put(seed, &mut shared, &mut query, &mut nodes, n);
    let other = Lent {
        shared: &shared,
        query: &query,
        nodes: &nodes,
    };
    compare(
        tally,
        other,
        f.columns,
        f.room,
        Err(f.refusal),
        &[PATTERN; 1040],
    );
}
