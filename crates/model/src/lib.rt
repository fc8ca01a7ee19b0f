// The types that every layer shares. What a reader must believe of the engine is in specs/.
#![tactic(auto)]

mod kind;
mod refusal;
mod search;

ghost use Rattle.std.specs.Prelude.{◌≡◌, ◌++◌, ◌≤◌, ◌<◌, length, take, drop};
ghost use Rattle.model.specs.Refusals.{reply};

pub use kind::{Axis, Kind, axis_of, kind_of};
pub use refusal::Refusal;
pub use search::lowest;

// The reply to a call: 0 and 0, or the number and the place of a refusal.
#[repr(C)]
#[derive(Clone, Copy, PartialEq, Eq)]
pub struct Reply {
    pub number: u16,
    pub place: u16,
}

// The reply to forwards, backwards and descendants: number and place, and how many nodes the result has (document 02: the count);
// 0 of a refused call.
#[repr(C)]
#[derive(Clone, Copy, PartialEq, Eq)]
pub struct ImageReply {
    pub number: u16,
    pub place: u16,
    pub count: usize,
}

// The reply to the making of a table: number and place, and how many numbers the table has; 0 of a refused call.
#[repr(C)]
#[derive(Clone, Copy, PartialEq, Eq)]
pub struct MadeReply {
    pub number: u16,
    pub place: u16,
    pub count: usize,
}

// The reply to a page call: number and place, how many rows it wrote, and whether a later row exists (document 01: count and
// flag).
#[repr(C)]
#[derive(Clone, Copy, PartialEq, Eq)]
pub struct PageReply {
    pub number: u16,
    pub place: u16,
    pub count: usize,
    pub more: bool,
}

// The reply to a quick page call: that of a page call, and how many evaluations of the query it took (document 02, §7); 0 of a
// refused call.
#[repr(C)]
#[derive(Clone, Copy, PartialEq, Eq)]
pub struct QuickReply {
    pub number: u16,
    pub place: u16,
    pub count: usize,
    pub more: bool,
    pub evaluations: usize,
}

// The reply to the reading of a typed query: number and place, how many numbers its table has, and how many variables
// (document 02: columns).
#[repr(C)]
#[derive(Clone, Copy, PartialEq, Eq)]
pub struct ReadReply {
    pub number: u16,
    pub place: u16,
    pub count: usize,
    pub columns: u16,
}

// A page of answers: how many rows it wrote, whether a later row exists, and the cursor after it.
#[derive(Clone, Copy, PartialEq, Eq)]
pub struct Page {
    pub count: usize,
    pub more: bool,
    pub cursor: Cursor,
}

// A quick page: the page, and how many evaluations of the query it took.
#[derive(Clone, Copy, PartialEq, Eq)]
pub struct QuickPage {
    pub page: Page,
    pub evaluations: usize,
}

// A query that was read: how many numbers its table has, and how many variables.
#[derive(Clone, Copy, PartialEq, Eq)]
pub struct Read {
    pub count: usize,
    pub columns: u16,
}

// Where a caller stands in the answers of a query (document 01: the walk): whether paging has begun, 0 if not and any other
// byte if so, and the last row given, as three node numbers. All zero is a fresh cursor.
#[repr(C)]
#[derive(Clone, Copy, PartialEq, Eq)]
pub struct Cursor {
    pub begun: u8,
    pub first: u16,
    pub second: u16,
    pub third: u16,
}

// The four numbers of an entry of a query table.
#[derive(Clone, Copy, PartialEq, Eq)]
pub struct Entry {
    pub kind: usize,
    pub left: usize,
    pub right: usize,
    pub tag: usize,
}

// What an evaluation is lent: the tree and each node's previous sibling, as tables of two numbers a node, the query, and the node of each
// variable.
#[derive(Clone, Copy)]
pub struct Call<'a> {
    pub tree: &'a [u16],
    pub prev: &'a [u16],
    pub query: &'a [u16],
    pub nodes: &'a [u16],
}

// A number of a table as an index.
pub fn wide(x: u16) -> usize
    ensures { (result ≡ x) × (result < 65536) }
{
    x as usize
}

// The reply with a number and a place.
pub fn reply_at(number: u16, place: usize) -> Reply
    requires { place < 65536 }
    ensures { result ≡ reply number place }
{
    Reply {
        number: number,
        place: place as u16,
    }
}

// The first numbers of a table over the front of a buffer.
pub fn copy(table: &[u16], count: usize, to: &mut [u16])
    requires { (count ≤ length table.now) × (count ≤ length to.old) }
    ensures { to.new ≡ take count table.now ++ drop count to.old }
{
    to[..count].copy_from_slice(&table[..count]);
}
