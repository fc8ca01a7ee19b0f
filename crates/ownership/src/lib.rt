// The check of the tree table that two parties share (refusals 5 to 7 and 30), and of the party that asks (31). All of it takes time
// linear in the table's length.
#![tactic(auto)]

ghost use Rattle.std.specs.Prelude.{◌≡◌, false, [], ◌∷◌, ◌<◌, ◌≤◌, ◌/◌, length};
ghost use Rattle.model.specs.Sets.{any};
ghost use Rattle.model.specs.Axes.{descendant_or_self};
ghost use Rattle.model.specs.Refusals.{refuse_at, told, verdict};
ghost use Rattle.model.specs.Checks.{bad_tree_length, bad_parent, bad_tag};
ghost use Rattle.model.specs.Parties.{shared_tree, owner, bad_owner, shared_checks, party_checks, shared_verdict};
ghost use Rattle.model.specs.Accepted.{Falling};
ghost use Rattle.ownership.specs.Nodes.{node_fails, number_fails, number_checks};

use model::{Refusal, lowest};

// Refusal 5: whether a table of l numbers has a bad length.
fn is_bad_tree_length(l: usize) -> bool
    ensures { result ≡ bad_tree_length 3 l }
{
    (l == 0) | ((l % 3 != 0) | (768 < l))
}

// The numbers of a node. `tree` has twins of the first two at two numbers a node: over both strides they would be no plainer, with bounds
// that are products of two variables.

// The parent of node x.
pub fn parent(tree: &[u16], x: usize) -> usize
    requires { x < length tree.now / 3 }
    ensures { result ≡ (shared_tree tree.now).parent x }
{
    usize::from(tree[3 * x])
}

// The tag of node x.
pub fn tag(tree: &[u16], x: usize) -> u16
    requires { x < length tree.now / 3 }
    ensures { result ≡ (shared_tree tree.now).tag x }
{
    tree[3 * x + 1]
}

// The owner of node x.
pub fn owner(tree: &[u16], x: usize) -> u16
    requires { x < length tree.now / 3 }
    ensures { result ≡ owner tree.now x }
{
    tree[3 * x + 2]
}

// Whether y is x or a descendant of x. Up to y every parent comes before its node, so the climb from y stops at the first
// node whose number is not above x. It takes a turn for each node that it leaves behind.
fn is_descendant_or_self(tree: &[u16], x: usize, y: usize) -> bool
    requires { Falling (shared_tree tree.now) y × (y < length tree.now / 3) }
    ensures { result ≡ descendant_or_self (shared_tree tree.now) x y }
{
    let mut z = y;
    while x < z {
        z = parent(tree, z);
    }
    z == x
}

// Refusal 6: whether node x has a bad parent, where no node before it has.
fn is_bad_parent(tree: &[u16], x: usize) -> bool
    requires { (x < length tree.now / 3) × (any x (bad_parent (shared_tree tree.now)) ≡ false) }
    ensures { result ≡ bad_parent (shared_tree tree.now) x }
{
    let p = parent(tree, x);
    if x == 0 {
        return p != 65535;
    }
    !is_descendant_or_self(tree, p, x - 1)
}

// Refusal 7: whether node x has a reserved tag; node 0 may be a document node.
fn is_bad_tag(tree: &[u16], x: usize) -> bool
    requires { x < length tree.now / 3 }
    ensures { result ≡ bad_tag (shared_tree tree.now) x }
{
    let g = tag(tree, x);
    (65533 < g) & ((0 < x) | (g != 65534))
}

// Refusal 30: whether node x has an owner above 2, or is node 0 and not common.
fn is_bad_owner(tree: &[u16], x: usize) -> bool
    requires { x < length tree.now / 3 }
    ensures { result ≡ bad_owner tree.now x }
{
    let o = owner(tree, x);
    (2 < o) | ((x == 0) & (o != 0))
}

// 6. The time is linear: the climb from the node before x ends at x's parent, and what it leaves behind is no ancestor of x or of a
// later node, so each node is left behind once in all. A climb that misses x's parent is the last. It is no `model::lowest`, since the test
// may be made of x only where no node before x fails it.
fn check_parents(tree: &[u16]) -> Result<(), Refusal>
    requires { length tree.now / 3 ≤ 256 }
    ensures { told result ≡ verdict (refuse_at 6 (length tree.now / 3) (node_fails 6 tree.now) ∷ []) }
{
    for x in 0..tree.len() / 3 {
        let bad = is_bad_parent(tree, x);
        if bad {
            return Err(Refusal::BadParent(x as u16));
        }
    }
    Ok(())
}

// 7.
fn check_tags(tree: &[u16]) -> Result<(), Refusal>
    requires { length tree.now / 3 ≤ 256 }
    ensures { told result ≡ verdict (refuse_at 7 (length tree.now / 3) (node_fails 7 tree.now) ∷ []) }
{
    match lowest(tree.len() / 3, |x| is_bad_tag(tree, x)) {
        Some(x) => Err(Refusal::ReservedTag(x as u16)),
        None => Ok(()),
    }
}

// 30.
fn check_owners(tree: &[u16]) -> Result<(), Refusal>
    requires { length tree.now / 3 ≤ 256 }
    ensures { told result ≡ verdict (refuse_at 30 (length tree.now / 3) (node_fails 30 tree.now) ∷ []) }
{
    match lowest(tree.len() / 3, |x| is_bad_owner(tree, x)) {
        Some(x) => Err(Refusal::BadOwner(x as u16)),
        None => Ok(()),
    }
}

// Whether some node has a bad tag or a bad owner. Past node 0 it goes through all nodes without a branch and without a look at their
// numbers.
fn has_bad_number(tree: &[u16]) -> bool
    requires { 0 < length tree.now / 3 }
    ensures { result ≡ any (length tree.now / 3) (number_fails tree.now) }
{
    let n = tree.len() / 3;
    let mut found = is_bad_tag(tree, 0) | is_bad_owner(tree, 0);
    for x in 1..n {
        found |= (65533 < tag(tree, x)) | (2 < owner(tree, x));
    }
    found
}

// 7 and 30. The lowest bad node is searched for only where there is one.
fn check_numbers(tree: &[u16]) -> Result<(), Refusal>
    requires { (0 < length tree.now / 3) × (length tree.now / 3 ≤ 256) }
    ensures { told result ≡ verdict (number_checks tree.now) }
{
    if !has_bad_number(tree) {
        return Ok(());
    }
    check_tags(tree)?;
    check_owners(tree)
}

// The verdict on a shared table: 5, 6, 7 and 30. Where it is accepted, one pass over the parents and one over tags and owners.
pub fn check_table(tree: &[u16]) -> Result<(), Refusal>
    ensures { told result ≡ verdict (shared_checks tree.now) }
{
    if is_bad_tree_length(tree.len()) {
        return Err(Refusal::TreeSize);
    }
    check_parents(tree)?;
    check_numbers(tree)
}

// Refusal 31: the party is not 1 or 2.
fn check_party(party: u16) -> Result<(), Refusal>
    ensures { told result ≡ verdict (party_checks party) }
{
    let bad = (party == 0) | (2 < party);
    if bad {
        return Err(Refusal::UnknownParty);
    }
    Ok(())
}

// The verdict on a shared table and a party.
pub fn check(tree: &[u16], party: u16) -> Result<(), Refusal>
    ensures { told result ≡ shared_verdict tree.now party }
{
    check_table(tree)?;
    check_party(party)
}
