// The image of a set, read from a table of bits. Forwards it is the rows of the set's nodes, joined; backwards the nodes whose row has a
// node of the set. Either way at most one pass over the table.
ghost use Rattle.std.specs.Prelude.{◌≡◌, ◌+◌, ◌*◌, ◌≤◌, length};
ghost use Rattle.model.specs.Sets.{tab, memb, upto, turn, image};
ghost use Rattle.bits.specs.Words.{words, has_bit};
ghost use Rattle.bits.specs.BitTables.{bit_relation};
ghost use Rattle.engines.specs.Reading.{joined_rows, meets};

// The rows of the set's nodes, joined. A test for each node, and four words for each that is in the set.
fn joined_rows(w: &[u64], n: usize, s: [u8; 256]) -> [u64; 4]
    requires { (n ≤ 256) × (4 * n ≤ length w.now) }
    ensures { result ≡ words 4 (joined_rows n (bit_relation w.now) s) }
{
    let mut r = [0u64; 4];
    for x in 0..n {
        if s[x] != 0 {
            let next = tables::row::join(r, w, x);
            r = next;
        }
    }
    r
}

// Row x has a node of the set.
fn meets(w: &[u64], x: usize, s: [u64; 4]) -> bool
    requires { (4 * x + 4 ≤ length w.now) × (length s ≡ 4) }
    ensures { result ≡ meets (bit_relation w.now) s x }
{
    let own = tables::row::get(w, x);
    let both = tables::set::merged(sets::Operation::Intersection, own, s);
    tables::row::is_occupied(&both, 0)
}

// The nodes whose row has a node of the set. One pass over the words.
fn meeting(w: &[u64], n: usize, s: [u64; 4]) -> [u8; 256]
    requires { (n ≤ 256) × ((4 * n ≤ length w.now) × (length s ≡ 4)) }
    ensures { result ≡ tab 256 (upto n (meets (bit_relation w.now) s)) }
{
    let mut r = [0u8; 256];
    for x in 0..n {
        r[x] = sets::byte(meets(w, x, s));
    }
    r
}

// The bits below n of four words, as a set of bytes.
pub fn bytes_of(s: [u64; 4], n: usize) -> [u8; 256]
    requires { (n ≤ 256) × (length s ≡ 4) }
    ensures { result ≡ tab 256 (upto n (has_bit s)) }
{
    let mut r = [0u8; 256];
    packing::convert::unpack_row(&s, 0, n, &mut r, 0);
    r
}

// What the set reaches by the table's pairs, or what reaches it where back is set.
pub fn image(w: &[u64], n: usize, back: bool, s: [u8; 256]) -> [u8; 256]
    requires { (n ≤ 256) × (4 * n ≤ length w.now) }
    ensures { result ≡ tab 256 (image n (turn back (bit_relation w.now)) (memb s)) }
{
    if back {
        let kept = tables::set::of_bytes(s, n);
        return meeting(w, n, kept);
    }
    let rows = joined_rows(w, n, s);
    bytes_of(rows, n)
}
