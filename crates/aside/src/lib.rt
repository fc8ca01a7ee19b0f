// How many tables the evaluation over bits keeps aside for each entry of a query: the operand that needs more is evaluated first, so
// that five are enough for 64 entries (proofs/Five.antt). It is worked out as any number for each entry is that follows from those of
// its operands: in one pass over the entries, since operands go before what they are operands of.
#![tactic(auto)]

ghost use Rattle.std.specs.Prelude.{◌≡◌, ℕ, ◌≤◌, ◌<◌, max};
ghost use Rattle.model.specs.QueryTable.{entries_of};
ghost use Rattle.model.specs.Accepted.{Formed};
ghost use Rattle.model.specs.Numbers.{kind_number};
ghost use Rattle.aside.specs.Aside.{in_turn, two_tables, aside_at, NumbersTo, Counts, PassedTo, Numbering, OperandsOf};

use model::Kind;

// The operands of an entry, by their numbers.
#[derive(Clone, Copy)]
pub enum Operands {
    None,
    One(usize),
    Two(usize, usize),
}

// The operands of entry e.
pub fn operands_at(query: &[u16], e: usize) -> Operands
    requires { Formed query.now × (e < entries_of query.now) }
    ensures { OperandsOf query.now e result }
{
    let f = query::entry_at(query, e);
    let some = query::has_left(f.kind);
    if !some {
        return Operands::None;
    }
    let two = query::has_right(f.kind);
    if !two {
        return Operands::One(f.left);
    }
    Operands::Two(f.left, f.right)
}

// A number for each entry, from those of the entries before it. One turn an entry, in the order of the table. There are 66, since a
// query of 64 entries has two more where it is opened.
pub fn number_entries<F: Fn(usize, [u8; 66]) -> u8>(query: &[u16], of: F) -> [u8; 66]
    ghost number: { ℕ → ℕ }
    requires table { Formed query.now × (entries_of query.now ≤ 66) }
    requires each { Numbering number query.now (F.pre of) (F.post of) }
    ensures { NumbersTo number (entries_of query.now) result }
{
    let mut kept = [0u8; 66];
    for e in 0..query.len() / 4 {
        let k = of(e, kept);
        kept[e] = k;
    }
    kept
}

// The tables aside for two operands that are evaluated in turn, both of them tables.
fn in_turn(a: u8, b: u8) -> u8
    requires { a < 66 }
    ensures { result ≡ in_turn a b }
{
    if a == b { a + 1 } else { a.max(b) }
}

// The operands of a kind are both tables.
fn two_tables(kind: Kind) -> bool
    ensures { result ≡ two_tables (kind_number kind) }
{
    matches!(
        kind,
        Kind::Compose | Kind::Union | Kind::Intersect | Kind::Except | Kind::Same
    )
}

// The tables aside for entry e, from those of the entries before it.
fn of_entry(query: &[u16], e: usize, kept: [u8; 66]) -> u8
    requires { PassedTo (aside_at query.now) query.now e kept }
    ensures { result ≡ aside_at query.now e }
{
    match operands_at(query, e) {
        Operands::None => 0,
        Operands::One(i) => kept[i],
        Operands::Two(i, j) => {
            let kind = model::kind_of(query::entry_at(query, e).kind);
            let tables = two_tables(kind);
            if tables {
                return in_turn(kept[i], kept[j]);
            }
            kept[i].max(kept[j])
        }
    }
}

// For each entry, how many tables are kept aside while it is evaluated.
pub fn counts(query: &[u16]) -> [u8; 66]
    requires { Formed query.now × (entries_of query.now ≤ 66) }
    ensures { Counts query.now result }
{
    number_entries(
        query,
        |e, kept|
            requires { PassedTo (aside_at query.now) query.now e kept }
            ensures { result ≡ aside_at query.entry.now e }
        { of_entry(query, e, kept) },
    )
}
