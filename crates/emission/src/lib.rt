// What each turn of the reading writes. Words, gaps and focuses go by their numbers here as in `machine`, which says why.
#![tactic(auto)]

ghost use Rattle.std.specs.Prelude.{◌≡◌, [], ◌∷◌, ◌≤◌, ◌<◌, length, get_or};
ghost use Rattle.model.specs.Numbers.{kind_number};
ghost use Rattle.machine.specs.Machine.{pops, sort, stack_of};
ghost use Rattle.entries.specs.Postfix.{Wrote};
ghost use Rattle.entries.specs.Postfix.Item.{leaf};
ghost use Rattle.entries.specs.Builder.{made_of};
ghost use Rattle.emission.specs.Items.{as_test, joints, gap_items, close_items, pending, slash_items, want_items, wants_test, last_items, closing_items, have_items, unnamed_tag, word_items, end_items};

use entries::Builder;
use machine::Closing;
use model::Kind;

// The test that every node passes.
const NODE: u16 = 65534;

// The star.
const STAR: u16 = 65535;

// How tightly the words 25 to 33 bind to their left.
const LEVELS: [usize; 9] = [0, 0, 0, 1, 3, 3, 4, 4, 6];

// A path becomes a node expression.
#[tactic(auto, using(entries::proofs::Postfix::wrote_none))]
fn put_test(path: bool, b: &mut Builder)
    ensures { Wrote (as_test path) (made_of b.old) (made_of b.new) }
{
    if path {
        b.put_unary(Kind::Exists);
    }
}

// A step by its axis and tag.
fn put_step(axis: u16, tag: u16, b: &mut Builder)
    ensures { Wrote (leaf 0 axis tag ∷ []) (made_of b.old) (made_of b.new) }
{
    b.put_leaf(Kind::Step, axis, tag);
}

// What joins the two sides of a gap other than a leading slash.
fn joint(k: u8) -> Kind
    requires { k < 10 }
    ensures { kind_number result ≡ get_or joints k 0 }
{
    match k {
        0 => Kind::Or,
        1 => Kind::And,
        2 => Kind::Same,
        3 => Kind::Union,
        4 => Kind::Intersect,
        5 => Kind::Except,
        8 => Kind::Root,
        _ => Kind::Compose,
    }
}

// A gap that closes.
fn put_gap(k: u8, path: bool, b: &mut Builder)
    requires { k < 10 }
    ensures { Wrote (gap_items k path) (made_of b.old) (made_of b.new) }
{
    put_test((k < 2) & path, b);
    if k == 8 {
        b.put_unary(Kind::Root);
    } else {
        b.put_binary(joint(k));
    }
}

// Closes the gaps that bind at n or tighter. At most two looks a gap.
pub fn close_gaps(gaps: &[u8], n: usize, path: bool, b: &mut Builder) -> Closing
    ensures { (result.pops ≡ pops n (stack_of gaps.now (length gaps.now)))
        × (result.path ≡ sort n (stack_of gaps.now (length gaps.now)) path)
        × (result.pops ≤ length gaps.now)
        × Wrote (close_items n (stack_of gaps.now (length gaps.now)) path) (made_of b.old) (made_of b.new) }
{
    let c = machine::close(gaps, n, path);
    let mut path = path;
    for i in 0..c.pops {
        let k = gaps[gaps.len() - 1 - i];
        put_gap(k, path, b);
        path = !(k < 3);
    }
    c
}

// What has been read of a step, when it can't go on.
#[tactic(auto, using(entries::proofs::Postfix::wrote_none))]
fn put_pending(f: u8, axis: u16, tag: u16, b: &mut Builder)
    ensures { Wrote (pending f axis tag) (made_of b.old) (made_of b.new) }
{
    match f {
        0..=4 => {}
        5 => put_step(0, NODE, b),
        _ => put_step(axis, tag, b),
    }
}

// A second slash, t the innermost gap.
#[tactic(auto, using(entries::proofs::Postfix::wrote_none))]
fn put_slash(t: u8, b: &mut Builder)
    ensures { Wrote (slash_items t) (made_of b.old) (made_of b.new) }
{
    match t {
        6 => {
            put_step(11, NODE, b);
            b.put_binary(Kind::Compose);
        }
        8 => put_step(11, NODE, b),
        _ => {}
    }
}

// Word k where an expression is wanted, t the innermost gap.
#[tactic(auto, using(entries::proofs::Postfix::wrote_none))]
fn put_want(t: u8, k: usize, b: &mut Builder)
    ensures { Wrote (want_items t k) (made_of b.old) (made_of b.new) }
{
    match k {
        13..=15 => b.put_leaf(Kind::Variable, (k - 13) as u16, 0),
        19 => put_slash(t, b),
        _ => {}
    }
}

// Word k asks for a node expression; inner is the gap that is then innermost.
fn wants_test(k: usize, inner: u8) -> bool
    ensures { result ≡ wants_test k inner }
{
    (k == 25) | (((k == 26) & (inner == 12)) | ((k == 27) | (k == 28)))
}

// A filter, or 'not'.
#[tactic(auto, using(entries::proofs::Postfix::wrote_none))]
fn put_last(k: usize, inner: u8, b: &mut Builder)
    ensures { Wrote (last_items k inner) (made_of b.old) (made_of b.new) }
{
    match (k, inner) {
        (25, _) => b.put_binary(Kind::Filter),
        (26, 12) => b.put_unary(Kind::Not),
        _ => {}
    }
}

// The words 25 to 33.
fn put_closing(gaps: &[u8], f: u8, k: usize, b: &mut Builder)
    requires { (25 ≤ k) × (k < 34) }
    ensures { Wrote (closing_items f (stack_of gaps.now (length gaps.now)) k) (made_of b.old) (made_of b.new) }
{
    let level = LEVELS[k - 25];
    let c = close_gaps(gaps, level, 2 < f, b);
    let inner = machine::innermost(gaps, c.pops);
    put_test(wants_test(k, inner) & c.path, b);
    put_last(k, inner, b);
}

// Word k behind an expression, save '()' and '*'.
fn put_have(gaps: &[u8], f: u8, k: usize, axis: u16, tag: u16, b: &mut Builder)
    requires { (20 ≤ k) × (k < 34) }
    ensures { Wrote (have_items f (stack_of gaps.now (length gaps.now)) k axis tag) (made_of b.old) (made_of b.new) }
{
    match k {
        20..=22 => b.put_leaf(Kind::Is, (k - 20) as u16, 0),
        23 => put_step(2, NODE, b),
        24 => put_pending(f, axis, tag, b),
        _ => {
            put_pending(f, axis, tag, b);
            put_closing(gaps, f, k, b);
        }
    }
}

// The tag of a step without a name: node() ends with word 34, the star is 37.
fn unnamed_tag(k: usize) -> u16
    ensures { result ≡ unnamed_tag k }
{
    if k == 34 { NODE } else { STAR }
}

// What a turn writes: f is the focus and k the word; axis and tag are those of the name that has been read.
#[tactic(auto, using(entries::proofs::Postfix::wrote_none), unfolding(crate::specs::Items::word_items))]
pub fn write_word(gaps: &[u8], f: u8, k: usize, axis: u16, tag: u16, b: &mut Builder)
    requires { (k < 38) }
    ensures { Wrote (word_items f (stack_of gaps.now (length gaps.now)) k axis tag) (made_of b.old) (made_of b.new) }
{
    match k {
        0..=19 => put_want(machine::innermost(gaps, 0), k, b),
        20..=33 => put_have(gaps, f, k, axis, tag, b),
        35 => b.put_unary(Kind::Star),
        36 => {}
        _ => put_step(axis, unnamed_tag(k), b),
    }
}

// What the end of the text writes.
pub fn write_end(gaps: &[u8], f: u8, axis: u16, tag: u16, b: &mut Builder)
    ensures { Wrote (end_items f (stack_of gaps.now (length gaps.now)) axis tag) (made_of b.old) (made_of b.new) }
{
    put_pending(f, axis, tag, b);
    close_gaps(gaps, 0, 2 < f, b);
}
