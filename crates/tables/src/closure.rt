// The turns of a closure: what they add to the rows of a table, which is joined to them where they stand.
ghost use Rattle.std.specs.Prelude.{◌+◌, ◌*◌, ◌≤◌, ◌<◌, length};
ghost use Rattle.bits.specs.BitTables.{bit_relation};
ghost use Rattle.bits.specs.Rows.{Becomes, RowBecomes};
ghost use Rattle.tables.specs.Tables.{reflexive, through};

// Each node's pair with itself is added. One pass over the words.
pub fn join_diagonal(acc: &mut [u64], n: usize)
    requires { (n ≤ 256) × (4 * n ≤ length acc.old) }
    ensures { Becomes n (reflexive (bit_relation acc.old)) acc.old acc.new }
{
    for x in 0..n {
        let own = crate::set::single(x);
        let next = crate::row::join(own, acc, x);
        crate::row::put(acc, x, next);
    }
}

// Row x is joined with row z where x has the pair with z. A test, and four words where it is met.
fn join_row(acc: &mut [u64], x: usize, z: usize)
    requires { (z < 256) × ((4 * x + 4 ≤ length acc.old) × (4 * z + 4 ≤ length acc.old)) }
    ensures { RowBecomes x (through z (bit_relation acc.old) x) acc.old acc.new }
{
    let there = bits::test(acc[4 * x + z / 64], z % 64);
    if !there {
        return;
    }
    let own = crate::row::get(acc, x);
    let next = crate::row::join(own, acc, z);
    crate::row::put(acc, x, next);
}

// What is reached by way of z is added to every row. Row z itself stays, so that each row is joined with what stood in it before. A test
// for each row, and a turn of four words for each pair that ends in z.
pub fn join_through(acc: &mut [u64], n: usize, z: usize)
    requires { (n ≤ 256) × ((4 * n ≤ length acc.old) × (z < n)) }
    ensures { Becomes n (through z (bit_relation acc.old)) acc.old acc.new }
{
    for x in 0..n {
        join_row(acc, x, z);
    }
}
