// Node sets as a row of four words. Each function but the last is a fixed number of operations on words.
ghost use Rattle.std.specs.Prelude.{◌≤◌, ◌<◌, ◌≡◌, true, length};
ghost use Rattle.model.specs.Sets.{memb, upto};
ghost use Rattle.sets.specs.NodeSets.{always, only, operation_number};
ghost use Rattle.bits.specs.Words.{words};
ghost use Rattle.tables.specs.Tables.{merged_sets};

// The nodes below n.
pub fn full(n: usize) -> [u64; 4]
    requires { n ≤ 256 }
    ensures { result ≡ words 4 (upto n (always true)) }
{
    let a = crate::word::full_from(n, 0);
    let b = crate::word::full_from(n, 64);
    let c = crate::word::full_from(n, 128);
    let d = crate::word::full_from(n, 192);
    [a, b, c, d]
}

// The node x alone.
pub fn single(x: usize) -> [u64; 4]
    requires { x < 256 }
    ensures { result ≡ words 4 (only x) }
{
    let mut r = [0u64; 4];
    r[x / 64] = crate::word::bit_if(true, x % 64);
    r
}

// Two sets combined, node by node.
pub fn merged(op: sets::Operation, a: [u64; 4], b: [u64; 4]) -> [u64; 4]
    requires { (length a ≡ 4) × (length b ≡ 4) }
    ensures { result ≡ words 4 (merged_sets (operation_number op) a b) }
{
    let p = crate::word::merge(op, a[0], b[0]);
    let q = crate::word::merge(op, a[1], b[1]);
    let s = crate::word::merge(op, a[2], b[2]);
    let t = crate::word::merge(op, a[3], b[3]);
    [p, q, s, t]
}

// The nodes below n of a set of bytes. One turn a node.
pub fn of_bytes(s: [u8; 256], n: usize) -> [u64; 4]
    requires { n ≤ 256 }
    ensures { result ≡ words 4 (upto n (memb s)) }
{
    let mut r = [0u64; 4];
    for x in 0..n {
        let found = s[x] != 0;
        r[x / 64] = crate::word::merge(
            sets::Operation::Union,
            r[x / 64],
            crate::word::bit_if(found, x % 64),
        );
    }
    r
}
