// Operations on whole tables of bits. A table of n rows, four words each, stands at the front of a slice of words; the result takes
// the place of the table at hand, and the words behind it stay.
#![tactic(auto)]

mod closure;
mod product;
pub mod row;
pub mod set;
mod word;

ghost use Rattle.std.specs.Prelude.{◌*◌, ◌≤◌, ◌<◌, ◌≡◌, length};
ghost use Rattle.model.specs.Sets.{upto, closed};
ghost use Rattle.sets.specs.NodeSets.{operation_number};
ghost use Rattle.bits.specs.Words.{words, has_bit};
ghost use Rattle.bits.specs.BitTables.{bit_relation};
ghost use Rattle.bits.specs.Rows.{Becomes, diagonal, composed, starting_in, ending_in, from_node, has_pair};
ghost use Rattle.tables.specs.Tables.{joined};

// A table becomes another one. One pass over the words.
pub fn copy(to: &mut [u64], from: &[u64], n: usize)
    requires { (n ≤ 256) × ((4 * n ≤ length to.old) × (4 * n ≤ length from.now)) }
    ensures { Becomes n (bit_relation from.now) to.old to.new }
{
    to[..4 * n].copy_from_slice(&from[..4 * n]);
}

// A kept table and the one at hand combined: the kept one is the first operand, or the second where the flag is set. One pass over
// the words.
pub fn combine(acc: &mut [u64], kept: &[u64], n: usize, op: sets::Operation, turned: bool)
    requires { (n ≤ 256) × ((4 * n ≤ length acc.old) × (4 * n ≤ length kept.now)) }
    ensures { Becomes n (joined (operation_number op) turned (bit_relation kept.now) (bit_relation acc.old)) acc.old acc.new }
{
    for i in 0..4 * n {
        let v = word::join(op, turned, kept[i], acc[i]);
        acc[i] = v;
    }
}

// The table at hand composed with a kept one. A row needs only itself and the kept table, so that each is replaced where it stands.
// A turn of four words for each pair of the table at hand; of empty words only the reading.
pub fn compose(acc: &mut [u64], kept: &[u64], n: usize)
    requires { (n ≤ 256) × ((4 * n ≤ length acc.old) × (4 * n ≤ length kept.now)) }
    ensures { Becomes n (composed n (bit_relation acc.old) (bit_relation kept.now)) acc.old acc.new }
{
    for x in 0..n {
        let r = product::row_of(acc, kept, n, x);
        row::put(acc, x, r);
    }
}

// The reflexive and transitive closure of the table at hand, where it stands (Warshall's algorithm): after z turns a row has what its
// node reaches with no node between but those below z. A test for each two nodes, n * n in all, and a turn of four words where it is
// met: at most 4 * n * n words, a 64th of n * n * n where n is 256.
pub fn close(acc: &mut [u64], n: usize)
    requires { (n ≤ 256) × (4 * n ≤ length acc.old) }
    ensures { Becomes n (closed n (bit_relation acc.old)) acc.old acc.new }
{
    closure::join_diagonal(acc, n);
    for z in 0..n {
        closure::join_through(acc, n, z);
    }
}

// The pairs that end in a set. One pass over the words.
pub fn filter(acc: &mut [u64], n: usize, s: [u64; 4])
    requires { (n ≤ 256) × ((4 * n ≤ length acc.old) × (length s ≡ 4)) }
    ensures { Becomes n (ending_in (has_bit s) (bit_relation acc.old)) acc.old acc.new }
{
    for i in 0..4 * n {
        let v = word::merge(sets::Operation::Intersection, acc[i], s[i % 4]);
        acc[i] = v;
    }
}

// The pairs that start in a set: the other rows are cleared. A test for each row.
pub fn keep(acc: &mut [u64], n: usize, s: [u64; 4])
    requires { (n ≤ 256) × ((4 * n ≤ length acc.old) × (length s ≡ 4)) }
    ensures { Becomes n (starting_in (has_bit s) (bit_relation acc.old)) acc.old acc.new }
{
    for x in 0..n {
        row::keep_if(acc, x, bits::test(s[x / 64], x % 64));
    }
}

// The row of z in place of every row. One pass over the words.
pub fn spread(acc: &mut [u64], n: usize, z: usize)
    requires { (n ≤ 256) × ((4 * n ≤ length acc.old) × (z < n)) }
    ensures { Becomes n (from_node z (bit_relation acc.old)) acc.old acc.new }
{
    let r = row::get(acc, z);
    for x in 0..n {
        row::put(acc, x, r);
    }
}

// Each node with itself. One pass over the words.
pub fn diagonal(acc: &mut [u64], n: usize)
    requires { (n ≤ 256) × (4 * n ≤ length acc.old) }
    ensures { Becomes n diagonal acc.old acc.new }
{
    for x in 0..n {
        let r = set::single(x);
        row::put(acc, x, r);
    }
}

// The nodes that have a pair. One pass over the words.
pub fn starts(acc: &[u64], n: usize) -> [u64; 4]
    requires { (n ≤ 256) × (4 * n ≤ length acc.now) }
    ensures { result ≡ words 4 (upto n (has_pair (bit_relation acc.now))) }
{
    let mut r = [0u64; 4];
    for x in 0..n {
        let found = row::is_occupied(acc, x);
        r[x / 64] = word::merge(
            sets::Operation::Union,
            r[x / 64],
            word::bit_if(found, x % 64),
        );
    }
    r
}
