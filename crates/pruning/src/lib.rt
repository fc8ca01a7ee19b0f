// What a page need not try. A page lists the rows of nodes under which a query holds, and there are n to the power of the variables to
// choose from. `bound` is for leaving out whole blocks of them: where the query does not hold with the first variables bound and each of
// the others standing for any node, it holds under no row that begins so (proofs/Filled.antt: filled). That is so only if every variable
// at a negative place, under a `not` or right of an `except`, is bound: there, a variable that stands for any node makes the query hold
// less often, and not more. `bound` is the number of variables of the shortest prefix that binds all of those. `reaches` is for what no
// variable decides: it is the same for every row, so that a page evaluates it once (proofs/Fixed.antt: fixed_pairs, fixed_holds).
//
// What it costs: a few operations an entry, in one pass over the table or two, where an evaluation makes a set or a table for each entry.
#![tactic(auto)]

ghost use Rattle.std.specs.Prelude.{◌≡◌, cond, ◌+◌, ◌≤◌, ◌<◌, get_or};
ghost use Rattle.model.specs.QueryTable.{entries_of, last_of};
ghost use Rattle.model.specs.Accepted.{Formed};
ghost use Rattle.aside.specs.Aside.{NumbersTo, PassedTo};
ghost use Rattle.pruning.specs.Pruning.{reach_at, bound_at, Named};

use aside::Operands;
use model::Kind;

// The first variables, up to one of the three.
fn up_to(v: usize) -> u8
    requires { v < 3 }
    ensures { result ≡ v + 1 }
{
    (v + 1) as u8
}

// The variables of entry e, from those of the entries before it.
fn reach_of(query: &[u16], e: usize, kept: [u8; 66]) -> u8
    requires { Named query.now × PassedTo (reach_at query.now) query.now e kept }
    ensures { result ≡ reach_at query.now e }
{
    match aside::operands_at(query, e) {
        Operands::None => {
            let f = query::entry_at(query, e);
            let names = query::names_variable(f.kind);
            if names { up_to(f.left) } else { 0 }
        }
        Operands::One(i) => kept[i],
        Operands::Two(i, j) => kept[i].max(kept[j]),
    }
}

// For each entry, the variables that stand in it: one more than the highest of them, 0 if there is none.
pub fn reaches(query: &[u16]) -> [u8; 66]
    requires { Formed query.now × ((entries_of query.now ≤ 66) × Named query.now) }
    ensures { NumbersTo (reach_at query.now) (entries_of query.now) result }
{
    aside::number_entries(
        query,
        |e, kept|
            requires { Named query.now × PassedTo (reach_at query.now) query.now e kept }
            ensures { result ≡ reach_at query.entry.now e }
        { reach_of(query, e, kept) },
    )
}

// What operand i adds to the variables that must be bound: all of its own where it stands at a negative place.
fn operand(negative: bool, reach: [u8; 66], kept: [u8; 66], i: usize) -> u8
    requires { i < 66 }
    ensures { result ≡ cond negative (get_or reach i 0) (get_or kept i 0) }
{
    if negative { reach[i] } else { kept[i] }
}

// The variables at a negative place in entry e, from those of the entries before it and all variables of these.
fn bound_of(query: &[u16], reach: [u8; 66], e: usize, kept: [u8; 66]) -> u8
    requires { NumbersTo (reach_at query.now) (entries_of query.now) reach
        × PassedTo (bound_at query.now) query.now e kept }
    ensures { result ≡ bound_at query.now e }
{
    let kind = model::kind_of(query::entry_at(query, e).kind);
    match aside::operands_at(query, e) {
        Operands::None => 0,
        Operands::One(i) => operand(kind == Kind::Not, reach, kept, i),
        Operands::Two(i, j) => kept[i].max(operand(kind == Kind::Except, reach, kept, j)),
    }
}

// How many variables the shortest prefix has that binds every variable at a negative place: only behind such a prefix can a block of
// rows be left out.
pub fn bound(query: &[u16]) -> usize
    requires { Formed query.now × ((entries_of query.now ≤ 66) × (Named query.now × (0 < entries_of query.now))) }
    ensures { result ≡ bound_at query.now (last_of query.now) }
{
    let reach = reaches(query);
    let kept = aside::number_entries(
        query,
        |e, kept|
            requires { NumbersTo (reach_at query.now) (entries_of query.now) reach × PassedTo (bound_at query.now) query.now e kept }
            ensures { result ≡ bound_at query.entry.now e }
        { bound_of(query, reach, e, kept) },
    );
    usize::from(kept[query.len() / 4 - 1])
}
