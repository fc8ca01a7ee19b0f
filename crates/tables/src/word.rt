// Single words as sets of 64 bits. Each function is a fixed number of operations on words.
ghost use Rattle.std.specs.Prelude.{◌<◌, ◌≡◌};
ghost use Rattle.std.specs.Int.Count.{count_trailing_zeros};
ghost use Rattle.sets.specs.NodeSets.{operation_number};
ghost use Rattle.bits.specs.Words.{word};
ghost use Rattle.tables.specs.Tables.{merged_bits, joined_bits, only_if, full_from};

// Two words combined.
pub fn merge(op: sets::Operation, a: u64, b: u64) -> u64
    ensures { result ≡ word 64 (merged_bits (operation_number op) a b) }
{
    match op {
        sets::Operation::Union => a | b,
        sets::Operation::Intersection => a & b,
        sets::Operation::Difference => a & !b,
    }
}

// A kept word and the one at hand combined.
pub fn join(op: sets::Operation, turned: bool, kept: u64, own: u64) -> u64
    ensures { result ≡ word 64 (joined_bits (operation_number op) turned kept own) }
{
    if turned {
        return merge(op, own, kept);
    }
    merge(op, kept, own)
}

// The bit k alone if b, else none.
pub fn bit_if(b: bool, k: usize) -> u64
    requires { k < 64 }
    ensures { result ≡ word 64 (only_if b k) }
{
    u64::from(b) << k
}

// The numbers from `base` on that are below n.
pub fn full_from(n: usize, base: usize) -> u64
    ensures { result ≡ word 64 (full_from n base) }
{
    let m = n.saturating_sub(base);
    if 64 <= m {
        return u64::MAX;
    }
    (1 << m) - 1
}

// The number of the lowest bit.
pub fn lowest(w: u64) -> usize
    ensures { result ≡ count_trailing_zeros 64 w }
{
    u64::trailing_zeros(w) as usize
}
