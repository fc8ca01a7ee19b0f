// Damage to a text: some of its bytes are replaced by others.
use super::text::Text;
use chart::words::{COUNT, Symbol, spelling, stands, word};
use harness::table;
use reference::random::Seed;

// What is taken out, from one place to another, and what comes instead.
#[derive(Clone, Copy)]
struct Cut {
    start: usize,
    end: usize,
    piece: Text,
}

// The bytes that are put in most often.
const BYTES: [u8; 25] = *b" /[]().$:*-_aornuismde012";

// The words that are damaged most often: the first three inside, and all but the first as a whole.
const FRAIL: [Symbol; 9] = [
    Symbol::AnyNode,
    Symbol::WordSame,
    Symbol::CloseStar,
    Symbol::Close,
    Symbol::WordUnion,
    Symbol::WordIntersect,
    Symbol::WordExcept,
    Symbol::WordOr,
    Symbol::WordAnd,
];

// One of these words, from one number up to another.
fn frail_word(seed: &mut Seed, first: usize, last: usize) -> &'static [u8] {
    let k = seed.between(first, last);
    if k < 9 { spelling(FRAIL[k]) } else { b" same " }
}

fn any_byte(seed: &mut Seed) -> u8 {
    let k = seed.below(25);
    if seed.one_in(8) {
        return table::byte(seed.below(256));
    }
    table::at(&BYTES, k)
}

// One byte is replaced, put in or taken out.
fn small(seed: &mut Seed, form: usize, start: usize) -> Cut {
    let next = start.wrapping_add(1);
    let byte = any_byte(seed);
    let mut piece = Text::new();
    let end = if form == 1 { start } else { next };
    if form < 2 {
        piece.push(byte);
    }
    Cut { start, end, piece }
}

// A word is put in, in the place of no bytes, of all that follow, or of some.
fn large(seed: &mut Seed, form: usize, start: usize, length: usize) -> Cut {
    let mut piece = Text::new();
    piece.append(spelling(word(seed.below(COUNT))));
    let end = match form {
        3 => start,
        4 => length,
        _ => seed.between(start, length),
    };
    Cut { start, end, piece }
}

// The first place from one on at which a word stands.
fn find(text: &[u8], start: usize, word: &[u8]) -> Option<usize> {
    (start..text.len()).find(|place| stands(text, *place, word))
}

// Where one byte is damaged: any place or, if one follows and every other time, within a `node()`, a ` same ` or a `)*`.
fn spot(seed: &mut Seed, text: &[u8]) -> usize {
    let any = seed.below(text.len());
    let word = frail_word(seed, 0, 2);
    let within = seed.below(word.len());
    let is_near = seed.one_in(2);
    match find(text, any, word) {
        Some(near) if is_near => near.wrapping_add(within),
        _ => any,
    }
}

// An operator or a closing bracket comes in the place of another or, where that does not follow, at the end.
fn exchange(seed: &mut Seed, text: &[u8]) -> Cut {
    let old = frail_word(seed, 1, 8);
    let new = frail_word(seed, 1, 8);
    let length = text.len();
    let mut piece = Text::new();
    piece.append(new);
    match find(text, seed.below(length), old) {
        Some(start) => Cut {
            start,
            end: start.wrapping_add(old.len()),
            piece,
        },
        None => Cut {
            start: length,
            end: length,
            piece,
        },
    }
}

// What is taken out of a text, with what comes instead: a byte or a word.
fn choose(seed: &mut Seed, text: &[u8]) -> Cut {
    let form = seed.below(7);
    let length = text.len();
    if form < 3 {
        let at = spot(seed, text);
        return small(seed, form, at);
    }
    if form == 6 {
        return exchange(seed, text);
    }
    let start = seed.between(0, length);
    large(seed, form, start, length)
}

// A text with some damage.
pub fn make(seed: &mut Seed, text: &[u8]) -> Text {
    let cut = choose(seed, text);
    let mut damaged = Text::new();
    damaged.append(table::front(text, cut.start));
    damaged.append(cut.piece.bytes());
    damaged.append(text.get(cut.end..).unwrap_or(b""));
    damaged
}
