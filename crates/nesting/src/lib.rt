// Which of the two engines evaluates a query, decided from the query alone: the one over whole tables of bits (relations) where an
// intersect, except or star stands inside an operand of another one, wherever in it, or where there is a `same`; else the one over sets
// (eval).
//
// Why: over sets, an intersect or except goes over its start nodes one by one, and a star takes up to n rounds, so that each that stands
// inside another multiplies the time by n; over tables every entry is made once, whatever it stands in. One that stands in no other is
// cheaper over sets where it starts from few nodes, as most do. A `same` goes over all start nodes whatever it is asked, so that tables
// are cheaper for it, ten times at 256 nodes: it counts for two.
//
// Cost: one pass, a few operations an entry.
#![tactic(auto)]

ghost use Rattle.std.specs.Prelude.{◌≡◌, ◌+◌, ◌≤◌, ◌<◌, min};
ghost use Rattle.model.specs.QueryTable.{entries_of};
ghost use Rattle.model.specs.Accepted.{Formed};
ghost use Rattle.model.specs.Numbers.{kind_number};
ghost use Rattle.aside.specs.Aside.{PassedTo};
ghost use Rattle.nesting.specs.Nesting.{weight, depth_at, deep, nested};

use aside::Operands;
use model::Kind;

// How much an entry of a kind adds to the depth.
fn weight_of(kind: Kind) -> u8
    ensures { result ≡ weight (kind_number kind) }
{
    match kind {
        Kind::Same => 2,
        Kind::Intersect | Kind::Except | Kind::Star => 1,
        _ => 0,
    }
}

// The depth of an entry of a kind over operands of which the deepest has depth d. Past two it does not count.
fn deeper(kind: Kind, d: u8) -> u8
    requires { d ≤ 2 }
    ensures { result ≡ min 2 (weight (kind_number kind) + d) }
{
    (weight_of(kind) + d).min(2)
}

// The depth of entry e, from those of the entries before it.
fn of_entry(query: &[u16], e: usize, depths: [u8; 66]) -> u8
    requires { PassedTo (depth_at query.now) query.now e depths }
    ensures { result ≡ depth_at query.now e }
{
    let kind = model::kind_of(query::entry_at(query, e).kind);
    match aside::operands_at(query, e) {
        Operands::None => 0,
        Operands::One(i) => deeper(kind, depths[i]),
        Operands::Two(i, j) => deeper(kind, depths[i].max(depths[j])),
    }
}

// Entry x is two deep or deeper.
pub fn nests_at(query: &[u16], x: usize) -> bool
    requires { Formed query.now × ((entries_of query.now ≤ 66) × (x < entries_of query.now)) }
    ensures { result ≡ deep query.now x }
{
    let depths = aside::number_entries(
        query,
        |e, kept|
            requires { PassedTo (depth_at query.now) query.now e kept }
            ensures { result ≡ depth_at query.entry.now e }
        { of_entry(query, e, kept) },
    );
    depths[x] == 2
}

// The query is two deep or deeper.
pub fn nests(query: &[u16]) -> bool
    requires { Formed query.now × ((entries_of query.now ≤ 66) × (0 < entries_of query.now)) }
    ensures { result ≡ nested query.now }
{
    nests_at(query, query.len() / 4 - 1)
}
