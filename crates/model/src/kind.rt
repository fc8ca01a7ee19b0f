// The kinds of the entries of a query table, and the axes of its steps: their numbers in a table (specs/Kinds.antt, specs/Axes.antt) as enums.
ghost use Rattle.std.specs.Prelude.{◌≡◌, ◌<◌, ◌≤◌, MatchOption};
ghost use Rattle.model.specs.Numbers.{axis_number, kind_number};

// What an entry is, in the order of the numbers 0 to 14: up to Root and Star a path, else a node expression.
#[derive(Clone, Copy, PartialEq, Eq)]
pub enum Kind {
    Step,
    Compose,
    Union,
    Intersect,
    Except,
    Filter,
    Variable,
    Root,
    Exists,
    Not,
    And,
    Or,
    Is,
    Star,
    Same,
}

impl Kind {
    // The kind of a number; none above 14.
    pub fn from_number(k: usize) -> Option<Kind>
        ensures { MatchOption result (15 ≤ k) (λ kind. kind_number kind ≡ k) }
    {
        match k {
            0 => Some(Kind::Step),
            1 => Some(Kind::Compose),
            2 => Some(Kind::Union),
            3 => Some(Kind::Intersect),
            4 => Some(Kind::Except),
            5 => Some(Kind::Filter),
            6 => Some(Kind::Variable),
            7 => Some(Kind::Root),
            8 => Some(Kind::Exists),
            9 => Some(Kind::Not),
            10 => Some(Kind::And),
            11 => Some(Kind::Or),
            12 => Some(Kind::Is),
            13 => Some(Kind::Star),
            14 => Some(Kind::Same),
            _ => None,
        }
    }
}

// The kind of an entry of an accepted table.
pub fn kind_of(k: usize) -> Kind
    requires { k < 15 }
    ensures { kind_number result ≡ k }
{
    Kind::from_number(k).unwrap()
}

// The axes, in the order of their numbers 0 to 12.
#[derive(Clone, Copy, PartialEq, Eq)]
pub enum Axis {
    Itself,
    Child,
    Parent,
    Right,
    Left,
    Descendant,
    Ancestor,
    Following,
    Preceding,
    FollowingSibling,
    PrecedingSibling,
    DescendantOrSelf,
    AncestorOrSelf,
}

impl Axis {
    // The axis of a number; none above 12.
    pub fn from_number(a: usize) -> Option<Axis>
        ensures { MatchOption result (13 ≤ a) (λ axis. axis_number axis ≡ a) }
    {
        match a {
            0 => Some(Axis::Itself),
            1 => Some(Axis::Child),
            2 => Some(Axis::Parent),
            3 => Some(Axis::Right),
            4 => Some(Axis::Left),
            5 => Some(Axis::Descendant),
            6 => Some(Axis::Ancestor),
            7 => Some(Axis::Following),
            8 => Some(Axis::Preceding),
            9 => Some(Axis::FollowingSibling),
            10 => Some(Axis::PrecedingSibling),
            11 => Some(Axis::DescendantOrSelf),
            12 => Some(Axis::AncestorOrSelf),
            _ => None,
        }
    }
}

// The axis of a step of an accepted table.
pub fn axis_of(a: usize) -> Axis
    requires { a ≤ 12 }
    ensures { axis_number result ≡ a }
{
    Axis::from_number(a).unwrap()
}
