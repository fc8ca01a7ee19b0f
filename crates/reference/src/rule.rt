// The rule of document 02, §7 and §9, for quick pages: no variable stands in both operands of a compose, a filter or an `and`, and none
// stands under an intersect, an except, a `not`, a closure or a `same`. Straight from the document: whether a variable stands in an entry is asked of its
// operands, and of theirs.
use super::query::Query;
use model::{Kind, Refusal, Reply};

// Variable k stands in entry e: that names it, or it stands in an operand.
fn stands(query: &Query, e: usize, k: usize) -> bool {
    let f = query.entry(e);
    if f.is_variable() {
        return f.left == k;
    }
    if let Some(left) = f.left_operand() {
        if left < e {
            if stands(query, left, k) {
                return true;
            }
        }
    }
    if let Some(right) = f.right_operand() {
        if right < e {
            return stands(query, right, k);
        }
    }
    false
}

// Entry e breaks the rule by variable k.
fn breaks_by(query: &Query, e: usize, k: usize) -> bool {
    let f = query.entry(e);
    match f.kind {
        Kind::Compose | Kind::Filter | Kind::And => {
            stands(query, f.left, k) && stands(query, f.right, k)
        }
        Kind::Intersect | Kind::Except | Kind::Not | Kind::Star | Kind::Same => stands(query, e, k),
        _ => false,
    }
}

// The lowest entry that breaks the rule.
pub fn lowest(query: &Query) -> Option<usize> {
    (0..query.entries()).find(|e| (0..3).any(|k| breaks_by(query, *e, k)))
}

// A refusal that comes before 29: up to 15, and of owners and party.
fn comes_first(number: u16) -> bool {
    matches!(number, 1..=15 | 30 | 31)
}

// The refusal that is due to a quick page where a page would get another reply: 29 comes after 15 and before 17.
pub fn refusal_for(query: &Query, other: Reply) -> Option<Refusal> {
    if comes_first(other.number) {
        return None;
    }
    let place = lowest(query)?;
    Some(Refusal::SharedVariable(harness::table::narrow(place)))
}
