// Refusal 29: the check of the rule of source document 004, that no variable is shared where it must not be. Three passes over the
// entries to find where each variable stands, and one more: linear in the table's length.
#![tactic(auto)]

ghost use Rattle.std.specs.Prelude.{◌≡◌, ◌<◌, ◌≤◌};
ghost use Rattle.model.specs.Sets.{memb};
ghost use Rattle.model.specs.QueryTable.{entries_of};
ghost use Rattle.model.specs.Numbers.{kind_number};
ghost use Rattle.model.specs.Refusals.{told, verdict};
ghost use Rattle.model.specs.Sharing.{breaks, sharing_checks};
ghost use Rattle.model.specs.Accepted.{Shaped};
ghost use Rattle.sharing.specs.Occurrences.{occurrences, all_occurrences, standing, breaking};

use model::{Entry, Kind, Refusal, kind_of, lowest};

// Entry i is in a set of entries; none past the 64th is.
fn has(entries: &[u8; 64], i: usize) -> bool
    ensures { result ≡ memb entries.now i }
{
    i < 64 && entries[i] != 0
}

// Variable v stands in an entry, from whether it stands in the left operand and in the right one.
fn stands(f: Entry, v: usize, left: bool, right: bool) -> bool
    ensures { result ≡ standing f v left right }
{
    let names = query::names_variable(f.kind);
    let on_left = query::has_left(f.kind);
    let on_right = query::has_right(f.kind);
    (names & (f.left == v)) | ((on_left & left) | (on_right & right))
}

// The entries in which variable v stands. One pass.
fn occurrences_of(query: &[u16], v: usize) -> [u8; 64]
    requires { Shaped query.now }
    ensures { result ≡ occurrences query.now v }
{
    let mut found = [0u8; 64];
    for e in 0..query.len() / 4 {
        let f = query::entry_at(query, e);
        let left = has(&found, f.left);
        let right = has(&found, f.right);
        found[e] = u8::from(stands(f, v, left, right));
    }
    found
}

// An entry breaks the rule by a variable, from whether that stands in the left operand, the right one, and the entry.
fn is_breaking(kind: Kind, left: bool, right: bool, here: bool) -> bool
    ensures { result ≡ breaking (kind_number kind) left right here }
{
    match kind {
        Kind::Compose | Kind::Filter | Kind::And => left & right,
        Kind::Intersect | Kind::Except | Kind::Not | Kind::Star | Kind::Same => here,
        _ => false,
    }
}

// Entry e breaks the rule by a variable that stands in these entries.
fn breaks_by(f: Entry, e: usize, entries: &[u8; 64]) -> bool
    requires { f.kind ≤ 14 }
    ensures { result
        ≡ breaking f.kind (memb entries.now f.left) (memb entries.now f.right) (memb entries.now e) }
{
    let left = has(entries, f.left);
    let right = has(entries, f.right);
    let here = has(entries, e);
    is_breaking(kind_of(f.kind), left, right, here)
}

// Entry e breaks the rule, by one of the three variables.
fn is_breaking_entry(query: &[u16], e: usize, by_variable: &[[u8; 64]; 3]) -> bool
    requires { Shaped query.now × ((e < entries_of query.now) × (by_variable.now ≡ all_occurrences query.now)) }
    ensures { result ≡ breaks query.now e }
{
    let f = query::entry_at(query, e);
    let a = breaks_by(f, e, &by_variable[0]);
    let b = breaks_by(f, e, &by_variable[1]);
    let c = breaks_by(f, e, &by_variable[2]);
    c | (b | a)
}

// Refusal 29, of a query table that passes the checks before it.
pub fn check_sharing(query: &[u16]) -> Result<(), Refusal>
    requires { Shaped query.now }
    ensures { told result ≡ verdict (sharing_checks query.now) }
{
    let by_variable = [
        occurrences_of(query, 0),
        occurrences_of(query, 1),
        occurrences_of(query, 2),
    ];
    match lowest(
        query.len() / 4,
        |e| is_breaking_entry(query, e, &by_variable),
    ) {
        Some(e) => Err(Refusal::SharedVariable(e as u16)),
        None => Ok(()),
    }
}
