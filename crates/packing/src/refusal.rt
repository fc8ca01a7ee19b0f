// What the two conversions check of all that they are lent.
ghost use Rattle.std.specs.Prelude.{◌≡◌, ◌+◌, ◌*◌, ◌≤◌, ◌<◌, length};
ghost use Rattle.model.specs.Sets.{any};
ghost use Rattle.model.specs.Refusals.{IsLowest, told, verdict};
ghost use Rattle.packing.specs.Services.{bad_size, stray_row, pack_checks, unpack_checks};
ghost use Rattle.packing.specs.Parts.{stray_bit};

use model::{Refusal, lowest};

// Refusal 5: n is not from 1 to 256.
fn is_bad_size(n: usize) -> bool
    ensures { result ≡ bad_size n }
{
    (n == 0) | (256 < n)
}

// Whether a word of a row has a bit set at or beyond n; its lowest bit is bit `first` of the row. One shift.
fn is_stray_word(w: u64, first: usize, n: usize) -> bool
    requires { first ≤ 192 }
    ensures { result ≡ any 64 (stray_bit n first w) }
{
    if first + 64 <= n {
        return false;
    }
    if n <= first {
        return w != 0;
    }
    w >> (n - first) != 0
}

// Refusal 28: whether row x has a bit set at or beyond n. One turn a word.
fn is_stray_row(n: usize, words: &[u64], x: usize) -> bool
    requires { (x < 256) × (4 * x + 4 ≤ length words.now) }
    ensures { result ≡ stray_row n words.now x }
{
    let mut found = false;
    for i in 0..4 {
        found = is_stray_word(words[4 * x + i], 64 * i, n) | found;
    }
    found
}

// The checks of pack, for a buffer of so many words.
pub fn check_pack(n: usize, bytes: &[u8], room: usize) -> Result<(), Refusal>
    ensures { told result ≡ verdict (pack_checks n bytes.now room) }
{
    if is_bad_size(n) {
        return Err(Refusal::TreeSize);
    }
    if bytes.len() != n * n {
        return Err(Refusal::SetLength);
    }
    if let Some(i) = checks::lowest_bad_byte(bytes) {
        return Err(Refusal::BadByte(i as u16));
    }
    checks::check_room(room, 4 * n)
}

// The lowest row with such a bit, if there is one.
fn lowest_stray_row(n: usize, words: &[u64]) -> Option<usize>
    requires { (n ≤ 256) × (length words.now ≡ 4 * n) }
    ensures { IsLowest n (stray_row n words.now) result }
{
    lowest(n, |x| is_stray_row(n, words, x))
}

// The checks of unpack, for a buffer of so many bytes.
pub fn check_unpack(n: usize, words: &[u64], room: usize) -> Result<(), Refusal>
    ensures { told result ≡ verdict (unpack_checks n words.now room) }
{
    if is_bad_size(n) {
        return Err(Refusal::TreeSize);
    }
    if words.len() != 4 * n {
        return Err(Refusal::SetLength);
    }
    if let Some(x) = lowest_stray_row(n, words) {
        return Err(Refusal::StrayBit(x as u16));
    }
    checks::check_room(room, n * n)
}
