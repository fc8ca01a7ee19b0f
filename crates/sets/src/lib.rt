// Node sets by value: 256 bytes, each 0 or 1, and 0 for every number that is no node.
// Each function makes at most one pass over the bytes, O(n) or 256 steps, with no branch on a byte: the passes compile to
// vector code.
#![tactic(auto)]

ghost use Rattle.std.specs.Prelude.{◌≡◌, Bool, true, ◌++◌, ◌≤◌, ◌<◌, length, drop};
ghost use Rattle.model.specs.Sets.{any, bit, tab, ones, memb, upto};
ghost use Rattle.sets.specs.NodeSets.{always, only, operation_number, combine, combination, shifted};

// The ways to combine two sets.
#[derive(Clone, Copy, PartialEq)]
pub enum Operation {
    Union,
    Intersection,
    Difference,
}

// The operation of a number: 0 union, 1 intersection, and any other difference, as the definition `combine` has it of every number.
impl From<u8> for Operation {
    ghost from_gives = { λ number op. (x y : Bool) → combine (operation_number op) x y ≡ combine number x y };

    #[tactic(auto, using(crate::proofs::Images::combine_else), unfolding(crate::specs::NodeSets::combine))]
    fn from(number: u8) -> Operation {
        match number {
            0 => Operation::Union,
            1 => Operation::Intersection,
            _ => Operation::Difference,
        }
    }
}

// A test as a byte.
pub fn byte(b: bool) -> u8
    ensures { result ≡ bit b }
{
    u8::from(b)
}

// The nodes below n if b, else none.
pub fn full_if(b: bool, n: usize) -> [u8; 256]
    requires { n ≤ 256 }
    ensures { result ≡ tab 256 (upto n (always b)) }
{
    let mut r = [0u8; 256];
    r[..n].fill(byte(b));
    r
}

// The nodes below n.
pub fn full(n: usize) -> [u8; 256]
    requires { n ≤ 256 }
    ensures { result ≡ tab 256 (upto n (always true)) }
{
    full_if(true, n)
}

// The node x alone.
pub fn single(x: usize) -> [u8; 256]
    requires { x < 256 }
    ensures { result ≡ tab 256 (only x) }
{
    let mut r = [0u8; 256];
    r[x] = 1;
    r
}

// One node of a combination.
#[tactic(auto, unfolding(crate::specs::NodeSets::combine))]
fn merge(op: Operation, x: bool, y: bool) -> bool
    ensures { result ≡ combine (operation_number op) x y }
{
    match op {
        Operation::Union => x | y,
        Operation::Intersection => x & y,
        Operation::Difference => x & !y,
    }
}

// Two sets combined, node by node.
pub fn combined(op: Operation, a: [u8; 256], b: [u8; 256]) -> [u8; 256]
    ensures { result ≡ tab 256 (combination (operation_number op) a b) }
{
    let mut r = [0u8; 256];
    for i in 0..256 {
        r[i] = byte(merge(op, a[i] != 0, b[i] != 0));
    }
    r
}

// Some node below n is in the set.
pub fn occupied(n: usize, s: [u8; 256]) -> bool
    requires { n ≤ 256 }
    ensures { result ≡ any n (memb s) }
{
    let mut found = false;
    for b in &s[..n] {
        found = (*b != 0) | found;
    }
    found
}

// How many of the 128 nodes from `at` on are in the set. A byte holds the number, so that vector code counts sixteen nodes at
// a time.
fn count_half(s: [u8; 256], at: usize) -> u8
    requires { at ≤ 128 }
    ensures { result ≡ ones (tab 128 (shifted at s)) }
{
    let mut found = 0u8;
    for b in &s[at..at + 128] {
        found += byte(*b != 0);
    }
    found
}

// How many nodes a set has.
pub fn count_of(s: [u8; 256]) -> usize
    ensures { result ≡ ones (tab 256 (memb s)) }
{
    let low = count_half(s, 0);
    let high = count_half(s, 128);
    usize::from(low) + usize::from(high)
}

// Two sets combined, node by node, and how many nodes the result has.
pub fn combined_counted(op: Operation, a: [u8; 256], b: [u8; 256], count: &mut usize) -> [u8; 256]
    ensures { (result ≡ tab 256 (combination (operation_number op) a b)) × (count.new ≡ ones result) }
{
    let r = combined(op, a, b);
    *count = count_of(r);
    r
}

// The set that lent bytes hold.
pub fn load(set: &[u8]) -> [u8; 256]
    requires { length set.now ≤ 256 }
    ensures { result ≡ tab 256 (upto (length set.now) (memb set.now)) }
{
    let mut r = [0u8; 256];
    for (i, b) in set.iter().enumerate() {
        r[i] = byte(*b != 0);
    }
    r
}

// The first n bytes of a buffer become the set's; the others stay.
pub fn put(out: &mut [u8], r: [u8; 256], n: usize)
    requires { (n ≤ 256) × (n ≤ length out.old) }
    ensures { out.new ≡ tab n (memb r) ++ drop n out.old }
{
    for i in 0..n {
        let b = byte(r[i] != 0);
        out[i] = b;
    }
}
