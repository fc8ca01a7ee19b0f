// Rows of a table: four words in straight-line code.
ghost use Rattle.std.specs.Prelude.{◌+◌, ◌*◌, ◌≤◌, ◌≡◌, length};
ghost use Rattle.bits.specs.Words.{words, has_bit};
ghost use Rattle.bits.specs.BitTables.{bit_relation};
ghost use Rattle.bits.specs.Rows.{RowBecomes, kept_row, has_pair};
ghost use Rattle.tables.specs.Tables.{joined_row};

// Row x of a table.
pub fn get(w: &[u64], x: usize) -> [u64; 4]
    requires { 4 * x + 4 ≤ length w.now }
    ensures { result ≡ words 4 (bit_relation w.now x) }
{
    let at = 4 * x;
    [w[at], w[at + 1], w[at + 2], w[at + 3]]
}

// Four words become row x.
pub fn put(w: &mut [u64], x: usize, r: [u64; 4])
    requires { (4 * x + 4 ≤ length w.old) × (length r ≡ 4) }
    ensures { RowBecomes x (has_bit r) w.old w.new }
{
    w[4 * x..4 * x + 4].copy_from_slice(&r);
}

// Row x stays if b, else it is cleared.
pub fn keep_if(w: &mut [u64], x: usize, b: bool)
    requires { 4 * x + 4 ≤ length w.old }
    ensures { RowBecomes x (kept_row b (bit_relation w.old) x) w.old w.new }
{
    if b {
        return;
    }
    put(w, x, [0u64; 4]);
}

// Four words joined with row z.
pub fn join(r: [u64; 4], w: &[u64], z: usize) -> [u64; 4]
    requires { (length r ≡ 4) × (4 * z + 4 ≤ length w.now) }
    ensures { result ≡ words 4 (joined_row r w.now z) }
{
    let at = 4 * z;
    let a = crate::word::merge(sets::Operation::Union, r[0], w[at]);
    let b = crate::word::merge(sets::Operation::Union, r[1], w[at + 1]);
    let c = crate::word::merge(sets::Operation::Union, r[2], w[at + 2]);
    let d = crate::word::merge(sets::Operation::Union, r[3], w[at + 3]);
    [a, b, c, d]
}

// Row x has a bit set.
pub fn is_occupied(w: &[u64], x: usize) -> bool
    requires { 4 * x + 4 ≤ length w.now }
    ensures { result ≡ has_pair (bit_relation w.now) x }
{
    let at = 4 * x;
    (w[at] != 0) | (w[at + 1] != 0) | (w[at + 2] != 0) | (w[at + 3] != 0)
}
