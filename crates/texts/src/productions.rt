// The grammar as it is written out: what is to be done for each symbol, one after the other.
use Task::{AnyStep, Deep, Dot, Dots, Expand, Is, Join, Variable, Write};
use chart::words::Symbol;
use model::Kind;
use reference::random::Seed;

// The symbols of the grammar that are to be written out.
#[derive(Clone, Copy)]
pub enum Goal {
    Path,
    MorePath,
    Inter,
    MoreInter,
    Rooted,
    Run,
    MoreRun,
    Step,
    MoreStep,
    Prim,
    Test,
    MoreTest,
    Conj,
    MoreConj,
    Unit,
}

// What may be to do: to write a word; to write out a symbol; to append an entry of a kind over the operands that were made last; or to
// make an operand: descendant-or-self::node() with nothing written, any step, a variable, or `is`; the others are as written.
#[derive(Clone, Copy)]
pub enum Task {
    Write(Symbol),
    Expand(Goal),
    Join(Kind),
    Deep,
    AnyStep,
    Dot,
    Dots,
    Variable,
    Is,
}

// The productions of each symbol, the shortest first.
const PATH: &[&[Task]] = &[&[Expand(Goal::Inter), Expand(Goal::MorePath)]];

const MORE_PATH: &[&[Task]] = &[
    &[],
    &[
        Write(Symbol::WordUnion),
        Expand(Goal::Inter),
        Join(Kind::Union),
        Expand(Goal::MorePath),
    ],
];

const INTER: &[&[Task]] = &[&[Expand(Goal::Rooted), Expand(Goal::MoreInter)]];

const MORE_INTER: &[&[Task]] = &[
    &[],
    &[
        Write(Symbol::WordIntersect),
        Expand(Goal::Rooted),
        Join(Kind::Intersect),
        Expand(Goal::MoreInter),
    ],
    &[
        Write(Symbol::WordExcept),
        Expand(Goal::Rooted),
        Join(Kind::Except),
        Expand(Goal::MoreInter),
    ],
];

const ROOTED: &[&[Task]] = &[
    &[Expand(Goal::Run)],
    &[Write(Symbol::SlashOne), Expand(Goal::Run), Join(Kind::Root)],
    &[
        Write(Symbol::SlashTwo),
        Deep,
        Expand(Goal::Step),
        Join(Kind::Compose),
        Expand(Goal::MoreRun),
        Join(Kind::Root),
    ],
];

const RUN: &[&[Task]] = &[&[Expand(Goal::Step), Expand(Goal::MoreRun)]];

const MORE_RUN: &[&[Task]] = &[
    &[],
    &[
        Write(Symbol::SlashOne),
        Expand(Goal::Step),
        Join(Kind::Compose),
        Expand(Goal::MoreRun),
    ],
    &[
        Write(Symbol::SlashTwo),
        Deep,
        Join(Kind::Compose),
        Expand(Goal::Step),
        Join(Kind::Compose),
        Expand(Goal::MoreRun),
    ],
];

const STEP: &[&[Task]] = &[&[Expand(Goal::Prim), Expand(Goal::MoreStep)]];

const MORE_STEP: &[&[Task]] = &[
    &[],
    &[
        Write(Symbol::OpenFilter),
        Expand(Goal::Test),
        Write(Symbol::CloseFilter),
        Join(Kind::Filter),
        Expand(Goal::MoreStep),
    ],
];

const PRIM: &[&[Task]] = &[
    &[Dot],
    &[Dots],
    &[Variable],
    &[AnyStep],
    &[AnyStep],
    &[AnyStep],
    &[
        Write(Symbol::Open),
        Expand(Goal::Path),
        Write(Symbol::Close),
    ],
    &[
        Write(Symbol::Open),
        Expand(Goal::Path),
        Write(Symbol::CloseStar),
        Join(Kind::Star),
    ],
];

const TEST: &[&[Task]] = &[&[Expand(Goal::Conj), Expand(Goal::MoreTest)]];

const MORE_TEST: &[&[Task]] = &[
    &[],
    &[
        Write(Symbol::WordOr),
        Expand(Goal::Conj),
        Join(Kind::Or),
        Expand(Goal::MoreTest),
    ],
];

const CONJ: &[&[Task]] = &[&[Expand(Goal::Unit), Expand(Goal::MoreConj)]];

const MORE_CONJ: &[&[Task]] = &[
    &[],
    &[
        Write(Symbol::WordAnd),
        Expand(Goal::Unit),
        Join(Kind::And),
        Expand(Goal::MoreConj),
    ],
];

const UNIT: &[&[Task]] = &[
    &[Expand(Goal::Path), Join(Kind::Exists)],
    &[
        Expand(Goal::Path),
        Write(Symbol::WordSame),
        Expand(Goal::Path),
        Join(Kind::Same),
    ],
    &[
        Expand(Goal::Path),
        Write(Symbol::WordSame),
        Expand(Goal::Path),
        Join(Kind::Same),
    ],
    &[Is],
    &[
        Write(Symbol::OpenNot),
        Expand(Goal::Test),
        Write(Symbol::Close),
        Join(Kind::Not),
    ],
    &[
        Write(Symbol::Open),
        Expand(Goal::Test),
        Write(Symbol::Close),
    ],
    &[
        Write(Symbol::Open),
        Expand(Goal::Test),
        Write(Symbol::Close),
    ],
];

fn ways(goal: Goal) -> &'static [&'static [Task]] {
    match goal {
        Goal::Path => PATH,
        Goal::MorePath => MORE_PATH,
        Goal::Inter => INTER,
        Goal::MoreInter => MORE_INTER,
        Goal::Rooted => ROOTED,
        Goal::Run => RUN,
        Goal::MoreRun => MORE_RUN,
        Goal::Step => STEP,
        Goal::MoreStep => MORE_STEP,
        Goal::Prim => PRIM,
        Goal::Test => TEST,
        Goal::MoreTest => MORE_TEST,
        Goal::Conj => CONJ,
        Goal::MoreConj => MORE_CONJ,
        Goal::Unit => UNIT,
    }
}

// How often more than the others the first of them is taken.
fn often(goal: Goal) -> usize {
    match goal {
        Goal::MoreInter => 4,
        Goal::MorePath | Goal::Rooted | Goal::MoreTest | Goal::MoreConj => 3,
        Goal::MoreStep => 2,
        Goal::MoreRun => 1,
        _ => 0,
    }
}

// Whether there is more than one production of a symbol.
pub fn is_open(goal: Goal) -> bool {
    1 < ways(goal).len()
}

// A production of a symbol: the first, or where asked any.
pub fn choose(seed: &mut Seed, goal: Goal, any: bool) -> &'static [Task] {
    let ways = ways(goal);
    let often = often(goal);
    let k = if any {
        seed.below(ways.len().wrapping_add(often))
            .saturating_sub(often)
    } else {
        0
    };
    match ways.get(k) {
        Some(way) => *way,
        None => &[],
    }
}
