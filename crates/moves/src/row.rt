// Rows of a table of bits, four words each, written in place; the other words stay. Straight-line code: all words are read before one is
// written, so that vector code takes the four at a time.
ghost use Rattle.std.specs.Prelude.{◌+◌, ◌*◌, ◌≤◌, false, length, ltb};
ghost use Rattle.sets.specs.NodeSets.{always};
ghost use Rattle.bits.specs.BitTables.{bit_relation};
ghost use Rattle.bits.specs.Rows.{RowBecomes, kept_row};
ghost use Rattle.moves.specs.Rows.{joined_rows};

// A row is joined with another, or with itself.
pub fn join(w: &mut [u64], to: usize, from: usize)
    requires { (4 * to + 4 ≤ length w.old) × (4 * from + 4 ≤ length w.old) }
    ensures { RowBecomes to (joined_rows (bit_relation w.old) to from) w.old w.new }
{
    let own = tables::row::get(w, to);
    let both = tables::row::join(own, w, from);
    tables::row::put(w, to, both);
}

// A row becomes another.
fn copy(w: &mut [u64], to: usize, from: usize)
    requires { (4 * to + 4 ≤ length w.old) × (4 * from + 4 ≤ length w.old) }
    ensures { RowBecomes to (bit_relation w.old from) w.old w.new }
{
    let other = tables::row::get(w, from);
    tables::row::put(w, to, other);
}

// A row becomes empty.
pub fn clear(w: &mut [u64], x: usize)
    requires { 4 * x + 4 ≤ length w.old }
    ensures { RowBecomes x (always false) w.old w.new }
{
    tables::row::put(w, x, [0u64; 4]);
}

// A row becomes a lower one, or empty where the other is not lower.
pub fn pull(w: &mut [u64], to: usize, from: usize)
    requires { 4 * to + 4 ≤ length w.old }
    ensures { RowBecomes to (kept_row (ltb from to) (bit_relation w.old) from) w.old w.new }
{
    let below = from < to;
    if below {
        copy(w, to, from);
        return;
    }
    clear(w, to);
}
