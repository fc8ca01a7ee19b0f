// Relations as tables of bits, straight from document 02, §6: four words a row, the lowest word and the lowest bit first, a bit for
// each pair. And the refusals that are due to a table of bytes that becomes one of bits, and the reverse.
use harness::sums::bit;
use harness::table::{Cells, Words, at, front, narrow, put};
use model::Refusal;

// The word that has the pair (x, y).
fn word_of(x: usize, y: usize) -> usize {
    x.wrapping_mul(4).wrapping_add(y / 64)
}

// The pair (x, y) is in a table.
fn is_set(words: &[u64], x: usize, y: usize) -> bool {
    at(words, word_of(x, y)) & bit(y % 64) != 0
}

// Puts the pair (x, y) into a table.
pub fn set(words: &mut [u64], x: usize, y: usize) {
    let place = word_of(x, y);
    let word = at(words, place) | bit(y % 64);
    put(words, place, word);
}

// Writes the bits of a table of bytes to the front of a buffer.
pub fn pack(cells: &Cells, n: usize, to: &mut Words) {
    for i in 0..n.wrapping_mul(4) {
        put(to, i, 0);
    }
    for x in 0..n {
        for y in 0..n {
            if at(cells, x.wrapping_mul(n).wrapping_add(y)) == 1 {
                set(to, x, y);
            }
        }
    }
}

// Writes the bytes of a table of bits to the front of a buffer.
pub fn unpack(words: &Words, n: usize, to: &mut Cells) {
    for x in 0..n {
        for y in 0..n {
            let pair = is_set(words, x, y);
            put(to, x.wrapping_mul(n).wrapping_add(y), u8::from(pair));
        }
    }
}

// A bit at or beyond n is set in row x.
fn is_stray(words: &[u64], n: usize, x: usize) -> bool {
    (n..256).any(|y| is_set(words, x, y))
}

// What is due to so many bytes that are to become bits, with room for so many words.
pub fn pack_due(n: usize, cells: &[u8], length: usize, room: usize) -> Result<(), Refusal> {
    if (n == 0) | (256 < n) {
        return Err(Refusal::TreeSize);
    }
    if length != n.wrapping_mul(n) {
        return Err(Refusal::SetLength);
    }
    if let Some(high) = front(cells, length).iter().position(|b| 1 < *b) {
        return Err(Refusal::BadByte(narrow(high)));
    }
    if room < n.wrapping_mul(4) {
        return Err(Refusal::Room);
    }
    Ok(())
}

// What is due to so many words that are to become bytes, with room for so many bytes.
pub fn unpack_due(n: usize, words: &[u64], length: usize, room: usize) -> Result<(), Refusal> {
    if (n == 0) | (256 < n) {
        return Err(Refusal::TreeSize);
    }
    if length != n.wrapping_mul(4) {
        return Err(Refusal::SetLength);
    }
    if let Some(stray) = (0..n).find(|x| is_stray(words, n, *x)) {
        return Err(Refusal::StrayBit(narrow(stray)));
    }
    if room < n.wrapping_mul(n) {
        return Err(Refusal::Room);
    }
    Ok(())
}
