// Tables of bytes to tables of bits and back: each call is compared with the reply that is due, and the buffer, which is filled with a
// pattern, with the words or bytes that are due.
use super::{bit_pairs, call, searches};
use harness::line::Line;
use harness::table::{Cells, Words};
use harness::tally::Tally;
use reference::random::Seed;
use reference::{bit_damage, bit_tables};

// A call: the n that is told, and how much of the table and of the buffer is lent.
#[derive(Clone, Copy)]
struct Call {
    n: usize,
    length: usize,
    room: usize,
}

// So many bytes become bits, or are refused.
fn try_pack(tally: &mut Tally, c: Call, cells: &Cells) {
    let mut to = [bit_pairs::PATTERN; 1040];
    let mut words = [bit_pairs::PATTERN; 1040];
    let due = bit_tables::pack_due(c.n, cells, c.length, c.room);
    if due.is_ok() {
        bit_tables::pack(cells, c.n, &mut words);
    }
    let got = match (cells.get(..c.length), to.get_mut(..c.room)) {
        (Some(bytes), Some(lent)) => Some(packing::pack(c.n, bytes, lent)),
        _ => None,
    };
    bit_pairs::expect(tally, got, due);
    tally.expect_words(&to, &words);
}

// So many words become bytes, or are refused.
fn try_unpack(tally: &mut Tally, c: Call, words: &Words) {
    let mut to = [call::PATTERN; 66560];
    let mut cells = [call::PATTERN; 66560];
    let due = bit_tables::unpack_due(c.n, words, c.length, c.room);
    if due.is_ok() {
        bit_tables::unpack(words, c.n, &mut cells);
    }
    let got = match (words.get(..c.length), to.get_mut(..c.room)) {
        (Some(bits), Some(lent)) => Some(packing::unpack(c.n, bits, lent)),
        _ => None,
    };
    bit_pairs::expect(tally, got, due);
    tally.expect_bytes(&to, &cells, c.room);
}

// A table with several faults, or none: the first of them in the order of the checks is told.
fn try_faulty(tally: &mut Tally, seed: &mut Seed, n: usize, cells: &mut Cells, words: &mut Words) {
    let bytes = n.wrapping_mul(n);
    let four = n.wrapping_mul(4);
    bit_damage::maybe_high(seed, cells, bytes);
    bit_damage::maybe_high(seed, cells, bytes);
    let packed = Call {
        n: bit_damage::maybe_size(seed, n),
        length: bit_damage::maybe_length(seed, bytes, 66560),
        room: searches::maybe_short(seed, four),
    };
    try_pack(tally, packed, cells);
    bit_damage::maybe_stray(seed, words, n);
    bit_damage::maybe_stray(seed, words, n);
    let unpacked = Call {
        n: bit_damage::maybe_size(seed, n),
        length: bit_damage::maybe_length(seed, four, 1040),
        room: searches::maybe_short(seed, bytes),
    };
    try_unpack(tally, unpacked, words);
}

// One random table of LEAST to MOST nodes that a line asks for: there and back, and with faults.
pub fn run_random(tally: &mut Tally, seed: &mut Seed, line: &Line) {
    let mut cells = [0u8; 66560];
    let mut words = [0u64; 1040];
    let n = seed.within(line, 1, 0);
    let bytes = n.wrapping_mul(n);
    let four = n.wrapping_mul(4);
    bit_damage::make_cells(seed, &mut cells, bytes);
    bit_tables::pack(&cells, n, &mut words);
    let packed = Call {
        n,
        length: bytes,
        room: searches::enough(seed, four),
    };
    try_pack(tally, packed, &cells);
    let unpacked = Call {
        n,
        length: four,
        room: searches::enough(seed, bytes),
    };
    try_unpack(tally, unpacked, &words);
    try_faulty(tally, seed, n, &mut cells, &mut words);
}
