// One row of a composition: the rows of a kept table that the row names, joined.
ghost use Rattle.std.specs.Prelude.{◌+◌, ◌*◌, ◌≤◌, ◌<◌, ◌≡◌, length};
ghost use Rattle.bits.specs.Words.{words, has_bit};
ghost use Rattle.bits.specs.BitTables.{bit_relation};
ghost use Rattle.bits.specs.Rows.{composed};
ghost use Rattle.tables.specs.Tables.{joined_word};

// A row joined with the rows that one word names: bit k is row base + k, and only rows below n count. A turn for each bit that is set:
// `rest & (rest - 1)` is the rest without its lowest bit, and does not wait for the number of that bit.
fn join_word(row: [u64; 4], w: u64, base: usize, kept: &[u64], n: usize) -> [u64; 4]
    requires { (row ≡ words 4 (has_bit row)) × ((base ≤ 192) × ((n ≤ 256) × (4 * n ≤ length kept.now))) }
    ensures { result ≡ words 4 (joined_word n (bit_relation kept.now) base w row) }
{
    let mut r = row;
    let mut rest = w;
    while rest != 0 {
        let z = base + crate::word::lowest(rest);
        if n <= z {
            return r;
        }
        let next = crate::row::join(r, kept, z);
        r = next;
        rest = rest & (rest - 1);
    }
    r
}

// Row x of the composition of two tables. Four words, and a turn for each of their bits that is set.
pub fn row_of(acc: &[u64], kept: &[u64], n: usize, x: usize) -> [u64; 4]
    requires { (n ≤ 256) × ((x < n) × ((4 * n ≤ length acc.now) × (4 * n ≤ length kept.now))) }
    ensures { result ≡ words 4 (composed n (bit_relation acc.now) (bit_relation kept.now) x) }
{
    let mut r = [0u64; 4];
    for j in 0..4 {
        let next = join_word(r, acc[4 * x + j], 64 * j, kept, n);
        r = next;
    }
    r
}
