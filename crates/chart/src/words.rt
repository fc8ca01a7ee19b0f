// The symbols of the grammar: words, with the axes by their codes first; any name; and the grammar's own.
use harness::table;

#[derive(Clone, Copy, PartialEq, Eq)]
pub enum Symbol {
    Itself,
    Child,
    Parent,
    Right,
    Left,
    Descendant,
    Ancestor,
    Following,
    Preceding,
    FollowingSibling,
    PrecedingSibling,
    DescendantOrSelf,
    AncestorOrSelf,
    DoubleColon,
    Star,
    Dot,
    Dots,
    Dollar,
    Zero,
    One,
    Two,
    Open,
    Close,
    OpenFilter,
    CloseFilter,
    SlashOne,
    SlashTwo,
    WordUnion,
    WordIntersect,
    WordExcept,
    WordOr,
    WordAnd,
    OpenNot,
    WordIs,
    AnyNode,
    WordSame,
    CloseStar,
    Name,
    Axis,
    NameTest,
    Number,
    Prim,
    Filter,
    Filters,
    Step,
    Slash,
    Run,
    MoreRun,
    Rooted,
    Inter,
    MoreInter,
    Path,
    MorePath,
    Unit,
    Conj,
    MoreConj,
    Test,
    MoreTest,
    // A test that is no whole path.
    Proper,
}

// How many words there are.
pub const COUNT: usize = 37;

// The words, by number.
pub const WORDS: [(Symbol, &[u8]); COUNT] = [
    (Symbol::Itself, b"self"),
    (Symbol::Child, b"child"),
    (Symbol::Parent, b"parent"),
    (Symbol::Right, b"right"),
    (Symbol::Left, b"left"),
    (Symbol::Descendant, b"descendant"),
    (Symbol::Ancestor, b"ancestor"),
    (Symbol::Following, b"following"),
    (Symbol::Preceding, b"preceding"),
    (Symbol::FollowingSibling, b"following-sibling"),
    (Symbol::PrecedingSibling, b"preceding-sibling"),
    (Symbol::DescendantOrSelf, b"descendant-or-self"),
    (Symbol::AncestorOrSelf, b"ancestor-or-self"),
    (Symbol::DoubleColon, b"::"),
    (Symbol::Star, b"*"),
    (Symbol::Dot, b"."),
    (Symbol::Dots, b".."),
    (Symbol::Dollar, b"$"),
    (Symbol::Zero, b"0"),
    (Symbol::One, b"1"),
    (Symbol::Two, b"2"),
    (Symbol::Open, b"("),
    (Symbol::Close, b")"),
    (Symbol::OpenFilter, b"["),
    (Symbol::CloseFilter, b"]"),
    (Symbol::SlashOne, b"/"),
    (Symbol::SlashTwo, b"//"),
    (Symbol::WordUnion, b" union "),
    (Symbol::WordIntersect, b" intersect "),
    (Symbol::WordExcept, b" except "),
    (Symbol::WordOr, b" or "),
    (Symbol::WordAnd, b" and "),
    (Symbol::OpenNot, b"not("),
    (Symbol::WordIs, b". is $"),
    (Symbol::AnyNode, b"node()"),
    (Symbol::WordSame, b" same "),
    (Symbol::CloseStar, b")*"),
];

// The word of a number; the last past the end.
pub fn word(number: usize) -> Symbol {
    match WORDS.get(number) {
        Some((word, _)) => *word,
        None => Symbol::CloseStar,
    }
}

// The bytes of a word; what is no word has none.
pub fn spelling(word: Symbol) -> &'static [u8] {
    match WORDS.get(word as usize) {
        Some((_, bytes)) => bytes,
        None => b"",
    }
}

// How many bytes of a word there are from a place of a text on.
pub fn common(text: &[u8], place: usize, word: &[u8]) -> usize {
    word.iter()
        .enumerate()
        .position(|(k, due)| table::at(text, place.wrapping_add(k)) != *due)
        .unwrap_or(word.len())
}

// A word stands at a place of a text.
pub fn stands(text: &[u8], place: usize, word: &[u8]) -> bool {
    common(text, place, word) == word.len()
}
