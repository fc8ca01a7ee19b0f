// The check of a query table, refusals 8 to 15. Each check is one pass over the entries, so all of it is linear in the
// table's length.
#![tactic(auto)]

ghost use Rattle.std.specs.Prelude.{◌≡◌, ◌*◌, ◌≤◌, ◌<◌, [], ◌∷◌, get_or, eqb};
ghost use Rattle.model.specs.QueryTable.{entries_of, kind, entry, last_of};
ghost use Rattle.model.specs.Refusals.{refuse_at, refuse_here, told, verdict};
ghost use Rattle.model.specs.Kinds.{is_path, left_path, left_expr, right_path, right_expr, names_variable, has_left, has_right};
ghost use Rattle.model.specs.Checks.{bad_query_length, bad_variable_count, bad_kind, bad_field, bad_operand, bad_sort, bad_entry, misused, bad_last, use_checks, entry_checks, query_checks};
ghost use Rattle.query.specs.Uses.{one_more, with_use, Counted};

use model::{Entry, Kind, Refusal, lowest};

// Reading the table.

// The number at a place, or 0 past the end.
fn number_at(query: &[u16], at: usize) -> usize
    ensures { (result ≡ get_or query.now at 0) × (result < 65536) }
{
    query.get(at).map_or(0, |x| usize::from(*x))
}

// The kind of entry e, or 0 past the end.
fn kind_at(query: &[u16], e: usize) -> usize
    requires { 4 * e < 18446744073709551616 }
    ensures { result ≡ kind query.now e }
{
    number_at(query, 4 * e)
}

// The four numbers of entry e, which the table has.
pub fn entry_at(query: &[u16], e: usize) -> Entry
    requires { e < entries_of query.now }
    ensures { (result ≡ entry query.now e) × ((result.left < 65536) × (result.right < 65536)) }
{
    Entry {
        kind: number_at(query, 4 * e),
        left: number_at(query, 4 * e + 1),
        right: number_at(query, 4 * e + 2),
        tag: number_at(query, 4 * e + 3),
    }
}

// What the kind of a number is, and what its operands are, by the table of kinds in `model`; none where there is no such kind.

// Its entries are paths, else node expressions.
#[tactic(auto, unfolding(model::specs::Kinds::is_path))]
fn is_path(k: usize) -> bool
    ensures { result ≡ is_path k }
{
    matches!(
        Kind::from_number(k),
        Some(
            Kind::Step
                | Kind::Compose
                | Kind::Union
                | Kind::Intersect
                | Kind::Except
                | Kind::Filter
                | Kind::Variable
                | Kind::Root
                | Kind::Star
        )
    )
}

// The left operand is a path.
#[tactic(auto, unfolding(model::specs::Kinds::left_path))]
fn left_path(k: usize) -> bool
    ensures { result ≡ left_path k }
{
    matches!(
        Kind::from_number(k),
        Some(
            Kind::Compose
                | Kind::Union
                | Kind::Intersect
                | Kind::Except
                | Kind::Filter
                | Kind::Root
                | Kind::Exists
                | Kind::Star
                | Kind::Same
        )
    )
}

// The left operand is a node expression.
#[tactic(auto, unfolding(model::specs::Kinds::left_expr))]
fn left_expr(k: usize) -> bool
    ensures { result ≡ left_expr k }
{
    matches!(Kind::from_number(k), Some(Kind::Not | Kind::And | Kind::Or))
}

// The right operand is a path.
#[tactic(auto, unfolding(model::specs::Kinds::right_path))]
fn right_path(k: usize) -> bool
    ensures { result ≡ right_path k }
{
    matches!(
        Kind::from_number(k),
        Some(Kind::Compose | Kind::Union | Kind::Intersect | Kind::Except | Kind::Same)
    )
}

// The right operand is a node expression.
#[tactic(auto, unfolding(model::specs::Kinds::right_expr))]
fn right_expr(k: usize) -> bool
    ensures { result ≡ right_expr k }
{
    matches!(
        Kind::from_number(k),
        Some(Kind::Filter | Kind::And | Kind::Or)
    )
}

// It is a step.
fn is_step(k: usize) -> bool
    ensures { result ≡ eqb k 0 }
{
    matches!(Kind::from_number(k), Some(Kind::Step))
}

// The left field is the number of a variable.
#[tactic(auto, unfolding(model::specs::Kinds::names_variable))]
pub fn names_variable(k: usize) -> bool
    ensures { result ≡ names_variable k }
{
    matches!(Kind::from_number(k), Some(Kind::Variable | Kind::Is))
}

// The kind has a left operand.
pub fn has_left(k: usize) -> bool
    ensures { result ≡ has_left k }
{
    left_path(k) | left_expr(k)
}

// The kind has a right operand.
pub fn has_right(k: usize) -> bool
    ensures { result ≡ has_right k }
{
    right_path(k) | right_expr(k)
}

// The tests of the single checks, by the number of their refusal.

// 8: the table is empty, no multiple of four, or too long.
fn is_bad_query_length(l: usize) -> bool
    ensures { result ≡ bad_query_length l }
{
    (l == 0) | ((l % 4 != 0) | (256 < l))
}

// 9: there are too few variables for the service, or more than 3.
fn is_bad_variable_count(least: usize, columns: usize) -> bool
    ensures { result ≡ bad_variable_count least columns }
{
    (columns < least) | (3 < columns)
}

// 10: the kind is unknown.
fn is_bad_kind(f: Entry) -> bool
    ensures { result ≡ bad_kind f }
{
    Kind::from_number(f.kind).is_none()
}

// 11: an axis or a variable is out of range, or an unnamed field is not 0.
fn is_bad_field(columns: usize, f: Entry) -> bool
    ensures { result ≡ bad_field columns f }
{
    let k = f.kind;
    let step = is_step(k);
    (step & (12 < f.left))
        | ((names_variable(k) & !(f.left < columns))
            | ((!has_right(k) & (f.right != 0)) | (!step & (f.tag != 0))))
}

// 12: an operand of entry e does not come before it.
fn is_bad_operand(e: usize, f: Entry) -> bool
    ensures { result ≡ bad_operand e f }
{
    let k = f.kind;
    (has_left(k) & !(f.left < e)) | (has_right(k) & !(f.right < e))
}

// 13: an operand is of the wrong sort, with l and r the kinds of the operands.
fn is_bad_sort(k: usize, l: usize, r: usize) -> bool
    ensures { result ≡ bad_sort k l r }
{
    let a = is_path(l);
    let b = is_path(r);
    ((left_path(k) & !a) | (left_expr(k) & a)) | ((right_path(k) & !b) | (right_expr(k) & b))
}

// 15: the last entry is a node expression.
fn is_bad_last(query: &[u16], last: usize) -> bool
    requires { last ≡ last_of query.now }
    ensures { result ≡ bad_last query.now }
{
    !is_path(kind_at(query, last))
}

// Uses as operands, for 14. One pass counts those of all entries, where a search for each entry would be quadratic.

// A kept count with one use more.
fn one_more(kept: u8) -> u8
    ensures { result ≡ one_more kept }
{
    if kept == 0 { 1 } else { 2 }
}

// Counts one use more of entry i, where it is used.
#[tactic(auto, unfolding(crate::specs::Uses::with_use))]
fn count_use(counts: &mut [u8; 64], used: bool, i: usize)
    ensures { counts.new ≡ with_use counts.old used i }
{
    if used && i < 64 {
        counts[i] = one_more(counts[i]);
    }
}

// For each of the first 64 entries, how often it is an operand: 0 never, 1 once, 2 more often. Linear in the entries.
fn count_uses(query: &[u16]) -> [u8; 64]
    ensures { Counted query.now (entries_of query.now) result }
{
    let mut counts = [0u8; 64];
    for e in 0..query.len() / 4 {
        let f = entry_at(query, e);
        count_use(&mut counts, has_left(f.kind), f.left);
        count_use(&mut counts, has_right(f.kind), f.right);
    }
    counts
}

// Entry i is an operand never or more than once.
fn is_misused(query: &[u16], counts: &[u8; 64], i: usize) -> bool
    requires { Counted query.now (entries_of query.now) counts.now × (i < 64) }
    ensures { result ≡ misused query.now i }
{
    counts[i] != 1
}

// The checks 10 to 15, each over all entries. A place is the number of an entry, and check 8 lets at most 64 entries through, so that
// every place fits 16 bits.

// 10.
fn check_kinds(query: &[u16]) -> Result<(), Refusal>
    requires { entries_of query.now ≤ 64 }
    ensures { told result ≡ verdict (refuse_at 10 (entries_of query.now) (bad_entry query.now 0 10) ∷ []) }
{
    match lowest(query.len() / 4, |e| is_bad_kind(entry_at(query, e))) {
        Some(e) => Err(Refusal::UnknownKind(e as u16)),
        None => Ok(()),
    }
}

// 11.
fn check_fields(query: &[u16], columns: usize) -> Result<(), Refusal>
    requires { entries_of query.now ≤ 64 }
    ensures { told result ≡ verdict (refuse_at 11 (entries_of query.now) (bad_entry query.now columns 11) ∷ []) }
{
    match lowest(
        query.len() / 4,
        |e| is_bad_field(columns, entry_at(query, e)),
    ) {
        Some(e) => Err(Refusal::BadField(e as u16)),
        None => Ok(()),
    }
}

// 12.
fn check_operands(query: &[u16]) -> Result<(), Refusal>
    requires { entries_of query.now ≤ 64 }
    ensures { told result ≡ verdict (refuse_at 12 (entries_of query.now) (bad_entry query.now 0 12) ∷ []) }
{
    match lowest(query.len() / 4, |e| is_bad_operand(e, entry_at(query, e))) {
        Some(e) => Err(Refusal::LateOperand(e as u16)),
        None => Ok(()),
    }
}

// An operand of entry e is of the wrong sort.
fn has_bad_sort(query: &[u16], e: usize) -> bool
    requires { e < entries_of query.now }
    ensures { result ≡ bad_entry query.now 0 13 e }
{
    let f = entry_at(query, e);
    is_bad_sort(f.kind, kind_at(query, f.left), kind_at(query, f.right))
}

// 13.
fn check_sorts(query: &[u16]) -> Result<(), Refusal>
    requires { entries_of query.now ≤ 64 }
    ensures { told result ≡ verdict (refuse_at 13 (entries_of query.now) (bad_entry query.now 0 13) ∷ []) }
{
    match lowest(query.len() / 4, |e| has_bad_sort(query, e)) {
        Some(e) => Err(Refusal::WrongSort(e as u16)),
        None => Ok(()),
    }
}

// 14.
fn check_uses(query: &[u16]) -> Result<(), Refusal>
    requires { (1 ≤ entries_of query.now) × (entries_of query.now ≤ 64) }
    ensures { told result ≡ verdict (refuse_at 14 (last_of query.now) (misused query.now) ∷ []) }
{
    let counts = count_uses(query);
    match lowest(query.len() / 4 - 1, |e| is_misused(query, &counts, e)) {
        Some(e) => Err(Refusal::Misused(e as u16)),
        None => Ok(()),
    }
}

// 15.
fn check_last(query: &[u16]) -> Result<(), Refusal>
    requires { (1 ≤ entries_of query.now) × (entries_of query.now ≤ 64) }
    ensures { told result ≡ verdict (refuse_here 15 (last_of query.now) (bad_last query.now) ∷ []) }
{
    let last = query.len() / 4 - 1;
    if is_bad_last(query, last) {
        return Err(Refusal::NoPath(last as u16));
    }
    Ok(())
}

// The checks 10 to 15.
fn check_entries(query: &[u16], columns: usize) -> Result<(), Refusal>
    requires { (1 ≤ entries_of query.now) × (entries_of query.now ≤ 64) }
    ensures { told result ≡ verdict (entry_checks query.now columns) }
{
    check_kinds(query)?;
    check_fields(query, columns)?;
    check_operands(query)?;
    check_sorts(query)?;
    check_uses(query)?;
    check_last(query)
}

// The verdict on a query table with a number of variables, for a service that takes no fewer variables than least.
pub fn check_query_for(query: &[u16], least: usize, columns: usize) -> Result<(), Refusal>
    ensures { told result ≡ verdict (query_checks query.now least columns) }
{
    if is_bad_query_length(query.len()) {
        return Err(Refusal::QueryLength);
    }
    if is_bad_variable_count(least, columns) {
        return Err(Refusal::VariableCount);
    }
    check_entries(query, columns)
}

// The verdict on a query table with its number of variables, any up to 3.
pub fn check_query(query: &[u16], columns: usize) -> Result<(), Refusal>
    ensures { told result ≡ verdict (query_checks query.now 0 columns) }
{
    check_query_for(query, 0, columns)
}
