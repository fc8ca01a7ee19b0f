// A query table whose variables from one on stand for any node. The evaluator takes it as it takes any query.
#![tactic(auto)]

ghost use Rattle.std.specs.Prelude.{◌≡◌, ◌<◌, length};
ghost use Rattle.model.specs.Accepted.{Shaped};
ghost use Rattle.model.specs.Numbers.{axis_number, kind_number};
ghost use Rattle.opening.specs.Opening.{node_step, stand_in, moved, moved_entry, opened_entry, Narrow, Stored, Front, Opens};

use model::{Axis, Entry, Kind};

// What stands for an entry of a kind that names a variable not filled.
fn stand_in(kind: Kind) -> Entry
    ensures { result ≡ stand_in (kind_number kind) }
{
    match kind {
        Kind::Variable => Entry {
            kind: Kind::Root as usize,
            left: 1,
            right: 0,
            tag: 0,
        },
        _ => Entry {
            kind: Kind::Exists as usize,
            left: 0,
            right: 0,
            tag: 0,
        },
    }
}

// The number of an operand, moved by the two entries in front; a number that is no operand stays.
fn moved_number(operand: bool, x: usize) -> usize
    requires { x < 65536 }
    ensures { result ≡ moved operand x }
{
    if operand { 2 + x } else { x }
}

// An entry of the query, behind the two.
fn moved_entry(f: Entry) -> Entry
    requires { (f.left < 65536) × (f.right < 65536) }
    ensures { result ≡ moved_entry f }
{
    let on_left = query::has_left(f.kind);
    let on_right = query::has_right(f.kind);
    Entry {
        kind: f.kind,
        left: moved_number(on_left, f.left),
        right: moved_number(on_right, f.right),
        tag: f.tag,
    }
}

// The same where the variables below `filled` are filled.
fn opened_entry(f: Entry, filled: usize) -> Entry
    requires { (f.kind < 15) × ((f.left < 65536) × (f.right < 65536)) }
    ensures { result ≡ opened_entry filled f }
{
    let names = query::names_variable(f.kind);
    let free = names & !(f.left < filled);
    if free {
        return stand_in(model::kind_of(f.kind));
    }
    moved_entry(f)
}

// Makes entry n of the table f.
fn put(table: &mut [u16], n: usize, f: Entry)
    requires { (length table.old ≡ 264) × ((n < 66) × Narrow f) }
    ensures { Stored n f table.old table.new }
{
    let at = 4 * n;
    table[at] = f.kind as u16;
    table[at + 1] = f.left as u16;
    table[at + 2] = f.right as u16;
    table[at + 3] = f.tag as u16;
}

// The step on an axis to every node.
fn node_step(axis: Axis) -> Entry
    ensures { result ≡ node_step (axis_number axis) }
{
    Entry {
        kind: Kind::Step as usize,
        left: axis as usize,
        right: 0,
        tag: 65534,
    }
}

// A table with the two entries that reach every node, and room for 64 more.
fn front() -> [u16; 264]
    ensures { Front result }
{
    let mut table = [0u16; 264];
    put(&mut table, 0, node_step(Axis::Itself));
    put(&mut table, 1, node_step(Axis::DescendantOrSelf));
    table
}

// The query where the variables below `filled` are filled and the others stand for any node. One turn an entry.
pub fn open(query: &[u16], filled: usize) -> [u16; 264]
    requires { Shaped query.now }
    ensures { Opens query.now filled result }
{
    let mut table = front();
    for e in 0..query.len() / 4 {
        let f = query::entry_at(query, e);
        let g = opened_entry(f, filled);
        put(&mut table, 2 + e, g);
    }
    table
}
