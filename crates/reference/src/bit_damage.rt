// Random tables of bytes, and faults in what the two conversions and the pairs in bits are lent.
use super::query::Query;
use super::random::Seed;
use super::{bit_tables, damage};
use harness::shared::Shared;
use harness::table::{Cells, Table, Words, byte, narrow, put as put_at};
use model::Refusal;

// So many bytes, each 0 or 1: few ones, half of them, or nothing but ones.
pub fn make_cells(seed: &mut Seed, cells: &mut Cells, count: usize) {
    let share = seed.between(1, 6);
    for i in 0..count {
        put_at(cells, i, u8::from(seed.one_in(share)));
    }
}

// Mostly n; else none, one too many, any number up to 65536, or one whose square has more than 64 bits.
pub fn maybe_size(seed: &mut Seed, n: usize) -> usize {
    match seed.below(12) {
        0 => 0,
        1 => 257,
        2 => seed.between(1, 65536),
        3 => seed.between(4294967296, 8589934592),
        _ => n,
    }
}

// Mostly as long as is needed; else one less or more, nothing, or any length up to the most.
pub fn maybe_length(seed: &mut Seed, length: usize, most: usize) -> usize {
    match seed.below(12) {
        0 => length.wrapping_sub(1),
        1 => length.wrapping_add(1),
        2 => 0,
        3 => seed.between(0, most),
        _ => length,
    }
}

// Every third time, one of so many bytes is above 1.
pub fn maybe_high(seed: &mut Seed, cells: &mut Cells, count: usize) {
    if seed.one_in(3) {
        let at = seed.below(count);
        put_at(cells, at, byte(seed.between(2, 255)));
    }
}

// Every third time, a bit of any of n rows at or beyond n is set: the first, the last, or any. Among 256 nodes there is none.
pub fn maybe_stray(seed: &mut Seed, words: &mut Words, n: usize) {
    let x = seed.below(n);
    let any = seed.between(n, 255);
    let form = seed.below(12);
    if n < 256 {
        match form {
            0 => bit_tables::set(words, x, n),
            1 => bit_tables::set(words, x, 255),
            2 | 3 => bit_tables::set(words, x, any),
            _ => (),
        }
    }
}

// What a refused call for pairs is lent beside the tables, and the refusal that is due.
#[derive(Clone, Copy)]
pub struct Fault {
    pub columns: usize,
    pub room: usize,
    pub refusal: Refusal,
}

// A fault in the assigned nodes: another number of them than of variables or, where there are variables, one that is no node.
fn in_nodes(seed: &mut Seed, nodes: &mut Table, n: usize) -> Refusal {
    let columns = nodes.length();
    let in_count = seed.one_in(2);
    if (columns == 0) | in_count {
        let more = seed.between(1, 3);
        nodes.set_length(columns.wrapping_add(more) % 4);
        return Refusal::NodeCount;
    }
    let k = seed.below(columns);
    nodes.put(k, seed.between(n, 65535));
    Refusal::NoNode(narrow(k))
}

// Puts any fault into what a call for pairs in bits would be lent, for a party that sees n nodes. There is never enough room, since any
// other fault is told first.
pub fn put(
    seed: &mut Seed,
    shared: &mut Shared,
    query: &mut Query,
    nodes: &mut Table,
    n: usize,
) -> Fault {
    let columns = nodes.length();
    let room = seed.below(n.wrapping_mul(4));
    let which = seed.below(5);
    if which == 4 {
        return Fault {
            columns: seed.between(4, 65536),
            room,
            refusal: Refusal::VariableCount,
        };
    }
    let refusal = match which {
        0 | 1 => damage::in_table(seed, shared, query, which),
        2 => in_nodes(seed, nodes, n),
        _ => Refusal::Room,
    };
    Fault {
        columns,
        room,
        refusal,
    }
}
