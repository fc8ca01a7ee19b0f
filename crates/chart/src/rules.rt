// The grammar as rules over its symbols.
use super::spans::{Chart, Spans, point};
use super::words::Symbol;

// Each rule: a symbol, and those of which a text of it is made, one behind the other. At one place, the first of these comes in the
// list before the rule, and each of the others starts later.
const RULES: [(Symbol, &[Symbol]); 54] = [
    (Symbol::Axis, &[Symbol::Itself]),
    (Symbol::Axis, &[Symbol::Child]),
    (Symbol::Axis, &[Symbol::Parent]),
    (Symbol::Axis, &[Symbol::Right]),
    (Symbol::Axis, &[Symbol::Left]),
    (Symbol::Axis, &[Symbol::Descendant]),
    (Symbol::Axis, &[Symbol::Ancestor]),
    (Symbol::Axis, &[Symbol::Following]),
    (Symbol::Axis, &[Symbol::Preceding]),
    (Symbol::Axis, &[Symbol::FollowingSibling]),
    (Symbol::Axis, &[Symbol::PrecedingSibling]),
    (Symbol::Axis, &[Symbol::DescendantOrSelf]),
    (Symbol::Axis, &[Symbol::AncestorOrSelf]),
    (Symbol::NameTest, &[Symbol::Star]),
    (Symbol::NameTest, &[Symbol::AnyNode]),
    (Symbol::NameTest, &[Symbol::Name]),
    (Symbol::Number, &[Symbol::Zero]),
    (Symbol::Number, &[Symbol::One]),
    (Symbol::Number, &[Symbol::Two]),
    (
        Symbol::Prim,
        &[Symbol::Axis, Symbol::DoubleColon, Symbol::NameTest],
    ),
    (Symbol::Prim, &[Symbol::Dot]),
    (Symbol::Prim, &[Symbol::Dots]),
    (Symbol::Prim, &[Symbol::Dollar, Symbol::Number]),
    (Symbol::Prim, &[Symbol::Open, Symbol::Path, Symbol::Close]),
    (
        Symbol::Prim,
        &[Symbol::Open, Symbol::Path, Symbol::CloseStar],
    ),
    (
        Symbol::Filter,
        &[Symbol::OpenFilter, Symbol::Test, Symbol::CloseFilter],
    ),
    (Symbol::Filters, &[]),
    (Symbol::Filters, &[Symbol::Filter, Symbol::Filters]),
    (Symbol::Step, &[Symbol::Prim, Symbol::Filters]),
    (Symbol::Slash, &[Symbol::SlashOne]),
    (Symbol::Slash, &[Symbol::SlashTwo]),
    (Symbol::Run, &[Symbol::Step, Symbol::MoreRun]),
    (Symbol::MoreRun, &[]),
    (Symbol::MoreRun, &[Symbol::Slash, Symbol::Run]),
    (Symbol::Rooted, &[Symbol::Run]),
    (Symbol::Rooted, &[Symbol::Slash, Symbol::Run]),
    (Symbol::Inter, &[Symbol::Rooted, Symbol::MoreInter]),
    (Symbol::MoreInter, &[]),
    (Symbol::MoreInter, &[Symbol::WordIntersect, Symbol::Inter]),
    (Symbol::MoreInter, &[Symbol::WordExcept, Symbol::Inter]),
    (Symbol::Path, &[Symbol::Inter, Symbol::MorePath]),
    (Symbol::MorePath, &[]),
    (Symbol::MorePath, &[Symbol::WordUnion, Symbol::Path]),
    (Symbol::Unit, &[Symbol::Path]),
    (
        Symbol::Unit,
        &[Symbol::Path, Symbol::WordSame, Symbol::Path],
    ),
    (
        Symbol::Unit,
        &[Symbol::OpenNot, Symbol::Test, Symbol::Close],
    ),
    (Symbol::Unit, &[Symbol::WordIs, Symbol::Number]),
    (Symbol::Unit, &[Symbol::Open, Symbol::Proper, Symbol::Close]),
    (Symbol::Conj, &[Symbol::Unit, Symbol::MoreConj]),
    (Symbol::MoreConj, &[]),
    (Symbol::MoreConj, &[Symbol::WordAnd, Symbol::Conj]),
    (Symbol::Test, &[Symbol::Conj, Symbol::MoreTest]),
    (Symbol::MoreTest, &[]),
    (Symbol::MoreTest, &[Symbol::WordOr, Symbol::Test]),
];

// Any test can go on as one that is no path, so that all its fronts count.
fn add_proper(chart: &mut Chart, place: usize) {
    let test = chart.at(Symbol::Test, place);
    let path = chart.at(Symbol::Path, place);
    let proper = Spans {
        ends: test.ends & !path.ends,
        fronts: test.fronts,
    };
    chart.add(Symbol::Proper, place, proper);
}

// A text of these symbols, one behind the other, from a place on.
fn sequence(chart: &Chart, place: usize, parts: &[Symbol]) -> Spans {
    let mut spans = point(place);
    for part in parts {
        spans = chart.then(place, spans, *part);
    }
    spans
}

// All symbols of the grammar's own at a place.
pub fn add_all(chart: &mut Chart, place: usize) {
    for (symbol, parts) in RULES {
        let spans = sequence(chart, place, parts);
        chart.add(symbol, place, spans);
    }
    add_proper(chart, place);
}
