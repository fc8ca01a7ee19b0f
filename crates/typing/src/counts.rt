// What was met.
use chart::spans::has;
use chart::words::Symbol;
use harness::sums::{Sums, bit};
use harness::tally::{Tally, show_number};
use model::Kind;
use reference::query::{kind_number, kind_of};

// What is summed up beside the replies.
#[derive(Clone, Copy)]
pub enum Sum {
    // The kinds and the axes in the tables of accepted texts, and the words and the names in these texts: bit k for number k.
    Kinds,
    Axes,
    Words,
    Names,
    // How many texts were random, and how many of these were accepted; behind each how many of them had a star of a path, and how
    // many had a `same`.
    Texts,
    TextsWithStar,
    TextsWithSame,
    Accepted,
    AcceptedWithStar,
    AcceptedWithSame,
    // How many texts were cut or damaged; and how many of these were refused inside, refused at their end, and grammatical.
    Damaged,
    Inside,
    AtEnd,
    Whole,
}

// The replies by their number, 0 to 26, the sums, and the kinds of the operands that are wanted below, two for each kind: bit k for
// kind k.
#[derive(Clone, Copy)]
pub struct Counts {
    replies: Sums<27>,
    sums: Sums<14>,
    operands: Sums<30>,
}

// A star of a path, a `same`, and every kind of path.
const STAR: u64 = 8192;

const SAME: u64 = 16384;

const PATHS: u64 = 8447;

// Which operand of an entry.
#[derive(Clone, Copy)]
pub enum Side {
    Left,
    Right,
}

// The kinds that are wanted as an operand of each kind: a star wherever a path can stand, a `same` wherever a node expression can, and
// under these two every path.
fn wanted(kind: Kind, side: Side) -> u64 {
    match (kind, side) {
        (Kind::Compose | Kind::Union | Kind::Intersect | Kind::Except, _) => STAR,
        (Kind::Filter | Kind::Root | Kind::Exists, Side::Left) => STAR,
        (Kind::Filter, Side::Right) => SAME,
        (Kind::Not, Side::Left) => SAME,
        (Kind::And | Kind::Or, _) => SAME,
        (Kind::Star, Side::Left) => PATHS,
        (Kind::Same, _) => PATHS,
        _ => 0,
    }
}

// The place of the sum of an operand.
fn place(kind: Kind, side: Side) -> usize {
    kind_number(kind)
        .wrapping_mul(2)
        .wrapping_add(side as usize)
}

impl Counts {
    pub fn new() -> Counts {
        Counts {
            replies: Sums::<27>::new(),
            sums: Sums::<14>::new(),
            operands: Sums::<30>::new(),
        }
    }

    pub fn add_reply(&mut self, number: u16) {
        self.replies.add(usize::from(number), 1);
    }

    pub fn add(&mut self, sum: Sum) {
        self.sums.add(sum as usize, 1);
    }

    // All bits of a number are met.
    pub fn meet(&mut self, sum: Sum, bits: u64) {
        self.sums.meet(sum as usize, bits);
    }

    fn at(&self, sum: Sum) -> u64 {
        self.sums.at(sum as usize)
    }

    // An operand of a kind is of another.
    pub fn meet_operand(&mut self, kind: Kind, side: Side, other: usize) {
        self.operands
            .meet(place(kind, side), bit(other) & wanted(kind, side));
    }

    // A random text with these words goes to the sums of texts.
    pub fn add_text(&mut self, words: u64) {
        self.add(Sum::Texts);
        if has(words, Symbol::CloseStar as usize) {
            self.add(Sum::TextsWithStar);
        }
        if has(words, Symbol::WordSame as usize) {
            self.add(Sum::TextsWithSame);
        }
    }

    // And an accepted one with these names, too, to those of accepted texts.
    pub fn add_accepted(&mut self, words: u64, names: u64) {
        self.add(Sum::Accepted);
        if has(words, Symbol::CloseStar as usize) {
            self.add(Sum::AcceptedWithStar);
        }
        if has(words, Symbol::WordSame as usize) {
            self.add(Sum::AcceptedWithSame);
        }
        self.meet(Sum::Words, words);
        self.meet(Sum::Names, names);
    }

    // No fewer than one of so many damaged texts are in a sum.
    fn expect_share(&self, tally: &mut Tally, part: Sum, of: usize) {
        let share = self.at(part).wrapping_mul(of as u64);
        tally.expect(self.at(Sum::Damaged) <= share);
    }

    fn expect_operand(&self, tally: &mut Tally, kind: Kind, side: Side) {
        tally.expect(self.operands.at(place(kind, side)) == wanted(kind, side));
    }

    // Every kind, every axis, every word, every name that can have a tag and every operand that is wanted was met; and of the damaged
    // texts no fewer than one of so many was refused inside, and one of so many at its end and not at all.
    pub fn expect_all(&self, tally: &mut Tally, inside: usize, others: usize) {
        for number in 0..15 {
            if let Some(kind) = kind_of(number) {
                self.expect_operand(tally, kind, Side::Left);
                self.expect_operand(tally, kind, Side::Right);
            }
        }
        tally.expect(self.at(Sum::Kinds) == 32767);
        tally.expect(self.at(Sum::Axes) == 8191);
        tally.expect(self.at(Sum::Words) == 137438953471);
        tally.expect(self.at(Sum::Names) == 262143);
        self.expect_share(tally, Sum::Inside, inside);
        self.expect_share(tally, Sum::AtEnd, others);
        self.expect_share(tally, Sum::Whole, others);
    }

    fn show(&self, sum: Sum, name: &[u8]) {
        io::write_all(1, name);
        show_number(self.at(sum), b"\n");
    }

    // A line for the replies with each number that there were.
    fn show_replies(&self) {
        for number in 0..27 {
            let count = self.replies.at(number);
            if count != 0 {
                io::write_all(1, b"replies ");
                show_number(number as u64, b": ");
                show_number(count, b"\n");
            }
        }
    }

    pub fn show_all(&self) {
        self.show_replies();
        self.show(Sum::Texts, b"random texts: ");
        self.show(Sum::TextsWithStar, b"of these with a star of a path: ");
        self.show(Sum::TextsWithSame, b"of these with same: ");
        self.show(Sum::Accepted, b"random texts accepted: ");
        self.show(Sum::AcceptedWithStar, b"of these with a star of a path: ");
        self.show(Sum::AcceptedWithSame, b"of these with same: ");
        self.show(Sum::Damaged, b"cut or damaged: ");
        self.show(Sum::Inside, b"refused inside: ");
        self.show(Sum::AtEnd, b"refused at the end: ");
        self.show(Sum::Whole, b"grammatical: ");
    }
}
