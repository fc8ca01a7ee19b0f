// What the services check of all that they are lent: refusals 8 to 20, in their order, over a tree that has passed 5 to 7. Each check is
// one pass, so that all of it is linear in what is lent.
#![tactic(auto)]

ghost use Rattle.std.specs.Prelude.{◌≡◌, cond, [], ◌∷◌, ◌++◌, ◌*◌, ◌≤◌, ◌<◌, length};
ghost use Rattle.model.specs.Sets.{any};
ghost use Rattle.model.specs.Tree.{size_of};
ghost use Rattle.model.specs.Refusals.{IsLowest, refuse_at, told, verdict};
ghost use Rattle.model.specs.Accepted.{AcceptedTree};
ghost use Rattle.model.specs.Checks.{bad_node, bad_byte, tree_checks, query_checks, node_checks, cursor_checks, set_checks, room_checks, table_checks, image_checks, pairs_checks, page_checks};

use model::{Cursor, Refusal, lowest};

// What is lent beside the tables.

// Refusal 17: whether number k of a list is no node.
fn is_bad_node(tree: &[u16], nodes: &[u16], k: usize) -> bool
    requires { k < length nodes.now }
    ensures { result ≡ bad_node tree.now nodes.now k }
{
    usize::from(nodes[k]) >= tree.len() / 2
}

// 17 for each number of a list: for an assignment, and for the row of a cursor. Places fit a reply where the list is short.
fn check_listed(tree: &[u16], nodes: &[u16]) -> Result<(), Refusal>
    requires { length nodes.now ≤ 256 }
    ensures { told result ≡ verdict (refuse_at 17 (length nodes.now) (bad_node tree.now nodes.now) ∷ []) }
{
    match lowest(nodes.len(), |k| is_bad_node(tree, nodes, k)) {
        Some(k) => Err(Refusal::NoNode(k as u16)),
        None => Ok(()),
    }
}

// The checks 16 and 17.
fn check_nodes(tree: &[u16], columns: usize, nodes: &[u16]) -> Result<(), Refusal>
    requires { columns ≤ 256 }
    ensures { told result ≡ verdict (node_checks tree.now columns nodes.now) }
{
    if nodes.len() != columns {
        return Err(Refusal::NodeCount);
    }
    check_listed(tree, nodes)
}

// How many of a cursor's numbers are used.
fn used_numbers(begun: bool, columns: usize) -> usize
    ensures { (result ≡ cond begun columns 0) × (result ≤ columns) }
{
    if begun { columns } else { 0 }
}

// Refusal 17: a used number of a begun cursor is no node.
fn check_cursor(tree: &[u16], columns: usize, cursor: Cursor) -> Result<(), Refusal>
    requires { columns ≤ 3 }
    ensures { told result ≡ verdict (cursor_checks tree.now columns cursor) }
{
    let used = used_numbers(cursor.begun != 0, columns);
    let row = [cursor.first, cursor.second, cursor.third];
    check_listed(tree, &row[..used])
}

// Refusal 19: whether a byte of a set is above 1.
fn is_bad_byte(from: &[u8], i: usize) -> bool
    requires { i < length from.now }
    ensures { result ≡ bad_byte from.now i }
{
    1 < from[i]
}

// Whether some byte is above 1. It goes through all bytes without a branch, so that vector code takes sixteen at a time.
fn has_bad_byte(from: &[u8]) -> bool
    ensures { result ≡ any (length from.now) (bad_byte from.now) }
{
    let mut found = false;
    for b in from {
        found |= 1 < *b;
    }
    found
}

// The lowest byte above 1, if there is one. It is searched for only then.
pub fn lowest_bad_byte(from: &[u8]) -> Option<usize>
    ensures { IsLowest (length from.now) (bad_byte from.now) result }
{
    if !has_bad_byte(from) {
        return None;
    }
    lowest(from.len(), |i| is_bad_byte(from, i))
}

// The checks 18 and 19. Places fit a reply where the tree is an accepted one.
fn check_set(tree: &[u16], from: &[u8]) -> Result<(), Refusal>
    requires { size_of tree.now ≤ 256 }
    ensures { told result ≡ verdict (set_checks tree.now from.now) }
{
    if from.len() != tree.len() / 2 {
        return Err(Refusal::SetLength);
    }
    match lowest_bad_byte(from) {
        Some(i) => Err(Refusal::BadByte(i as u16)),
        None => Ok(()),
    }
}

// Refusal 20: a buffer has room for less than is needed.
pub fn check_room(room: usize, needed: usize) -> Result<(), Refusal>
    ensures { told result ≡ verdict (room_checks room needed) }
{
    if room < needed {
        return Err(Refusal::Room);
    }
    Ok(())
}

// The checks of the services, each with what it is lent. The tree is an accepted one, and is not checked again.

// The checks 5 to 17.
pub fn check_tables(
    tree: &[u16],
    query: &[u16],
    columns: usize,
    nodes: &[u16],
) -> Result<(), Refusal>
    requires { AcceptedTree tree.now }
    ensures { told result ≡ verdict (table_checks tree.now query.now columns nodes.now) }
{
    query::check_query(query, columns)?;
    check_nodes(tree, columns, nodes)
}

// The checks 5 to 20 of forwards and backwards, for a buffer of so many bytes.
pub fn check_image(
    tree: &[u16],
    query: &[u16],
    columns: usize,
    nodes: &[u16],
    from: &[u8],
    room: usize,
) -> Result<(), Refusal>
    requires { AcceptedTree tree.now }
    ensures { told result
        ≡ verdict (image_checks tree.now query.now columns nodes.now from.now room) }
{
    check_tables(tree, query, columns, nodes)?;
    check_set(tree, from)?;
    check_room(room, tree.len() / 2)
}

// n × n, the bytes of a relation table.
fn square(n: usize) -> usize
    requires { n ≤ 256 }
    ensures { result ≡ n * n }
{
    n * n
}

// The checks 5 to 17 and 20 of pairs, for a buffer of so many bytes.
pub fn check_pairs(
    tree: &[u16],
    query: &[u16],
    columns: usize,
    nodes: &[u16],
    room: usize,
) -> Result<(), Refusal>
    requires { AcceptedTree tree.now }
    ensures { told result ≡ verdict (pairs_checks tree.now query.now columns nodes.now room) }
{
    check_tables(tree, query, columns, nodes)?;
    check_room(room, square(tree.len() / 2))
}

// The checks 5 to 15 of a page: the tree and the query.
pub fn check_listing(tree: &[u16], query: &[u16], columns: usize) -> Result<(), Refusal>
    requires { AcceptedTree tree.now }
    ensures { told result ≡ verdict (tree_checks tree.now ++ query_checks query.now 1 columns) }
{
    query::check_query_for(query, 1, columns)
}

// The checks 17 and 20 of a page, for a buffer of so many numbers.
pub fn check_paging(
    tree: &[u16],
    columns: usize,
    cursor: Cursor,
    room: usize,
) -> Result<(), Refusal>
    requires { columns ≤ 3 }
    ensures { told result ≡ verdict (cursor_checks tree.now columns cursor ++ room_checks room columns) }
{
    check_cursor(tree, columns, cursor)?;
    check_room(room, columns)
}

// The checks 5 to 15, 17 and 20 of a page, for a buffer of so many numbers.
pub fn check_page(
    tree: &[u16],
    query: &[u16],
    columns: usize,
    cursor: Cursor,
    room: usize,
) -> Result<(), Refusal>
    requires { AcceptedTree tree.now }
    ensures { told result ≡ verdict (page_checks tree.now query.now columns cursor room) }
{
    check_listing(tree, query, columns)?;
    check_paging(tree, columns, cursor, room)
}
