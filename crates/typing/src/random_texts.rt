// Random typed queries: each is read, then cut at every place, and then damaged. The chart tells what is due where the text is
// no longer the one that was made.
use super::call::{Lent, Record, accepted};
use super::counts::{Side, Sum};
use chart::Verdicts;
use harness::line::Line;
use harness::sums::bit;
use harness::table::{at, front, narrow};
use model::{Kind, Read, Refusal};
use reference::query::kind_of;
use reference::random::Seed;
use texts::grow::{self, Made, Numbers};
use texts::text::Text;
use texts::{damage, vocabulary};

// What is due for a text that was made, read with sound vocabularies and so much room.
fn due(m: &Made, room: usize) -> Result<Read, Refusal> {
    let count = m.entries.wrapping_mul(4);
    if 1024 < m.text.length() {
        return Err(Refusal::TextLength);
    }
    if let Some(place) = m.unknown {
        return Err(Refusal::UnknownName(narrow(place)));
    }
    if 64 < m.entries {
        return Err(Refusal::TooManyEntries);
    }
    if room < count {
        return Err(Refusal::Room);
    }
    Ok(Read {
        count,
        columns: narrow(m.columns),
    })
}

// Room for just the table, for a little or much more, or for less.
fn room_for(seed: &mut Seed, needed: usize) -> usize {
    let form = seed.below(4);
    if 256 < needed {
        return seed.below(320);
    }
    match form {
        0 => needed,
        1 => needed.wrapping_add(seed.below(5)),
        2 => 320,
        _ => seed.below(needed),
    }
}

// The kind of entry e, and its operands.
fn kind_at(numbers: &Numbers, e: usize) -> usize {
    usize::from(at(numbers, e.wrapping_mul(4)))
}

// Vocabularies, and what they say of names.
#[derive(Clone, Copy)]
struct Books {
    house: Text,
    site: Text,
    tags: vocabulary::Tags,
}

impl Books {
    // Of no names, few or many.
    fn make(seed: &mut Seed) -> Books {
        let mut books = Books {
            house: Text::new(),
            site: Text::new(),
            tags: vocabulary::Tags::new(),
        };
        let most = seed.below(5).wrapping_mul(15);
        let first = seed.between(0, most);
        let second = seed.between(0, most);
        vocabulary::fill(seed, &mut books.house, &mut books.tags, 0, first);
        vocabulary::fill(seed, &mut books.site, &mut books.tags, first, second);
        books
    }

    // A text with these vocabularies, and so much room.
    fn lend<'a>(&'a self, text: &'a [u8], room: usize) -> Lent<'a> {
        Lent {
            text,
            house: self.house.whole(),
            site: self.site.whole(),
            room,
        }
    }
}

impl Record {
    // A text of at most 63 bytes, of which nothing is known but what the chart tells of it.
    fn compare_any(&mut self, lent: Lent, v: Verdicts) {
        let length = lent.text.len();
        self.counts.add(Sum::Damaged);
        if length == 0 {
            self.compare_refused(lent, Refusal::TextLength);
            return;
        }
        if v.is_whole(length) {
            self.counts.add(Sum::Whole);
            self.compare_whole(lent);
            return;
        }
        let place = v.reach(length);
        self.counts.add(if place < length {
            Sum::Inside
        } else {
            Sum::AtEnd
        });
        self.compare_refused(lent, Refusal::Ungrammatical(narrow(place)));
    }

    // All fronts of a text but itself.
    fn cut(&mut self, lent: Lent, v: Verdicts) {
        for length in 0..lent.text.len() {
            let text = front(lent.text, length);
            self.compare_any(Lent { text, ..lent }, v);
        }
    }

    // The text with some damage, unless it is then longer than the chart takes.
    fn damage_once(&mut self, seed: &mut Seed, lent: Lent) {
        let damaged = damage::make(seed, lent.text);
        if damaged.length() <= chart::MOST {
            let text = damaged.bytes();
            self.compare_any(Lent { text, ..lent }, chart::judge(text));
        }
    }

    // The kind of an entry is met, and the axis of a step or the kinds of the operands.
    fn meet_entry(&mut self, numbers: &Numbers, e: usize) {
        let place = e.wrapping_mul(4);
        let number = kind_at(numbers, e);
        let left = usize::from(at(numbers, place.wrapping_add(1)));
        let right = usize::from(at(numbers, place.wrapping_add(2)));
        self.counts.meet(Sum::Kinds, bit(number));
        match kind_of(number) {
            Some(Kind::Step) => self.counts.meet(Sum::Axes, bit(left)),
            Some(kind) => {
                self.counts
                    .meet_operand(kind, Side::Left, kind_at(numbers, left));
                self.counts
                    .meet_operand(kind, Side::Right, kind_at(numbers, right));
            }
            None => (),
        }
    }

    // The text that was made, and its table.
    fn compare_made(&mut self, lent: Lent, m: &Made) {
        self.counts.add_text(m.words);
        match due(m, lent.room) {
            Ok(read) => {
                self.counts.add_accepted(m.words, m.names);
                for e in 0..m.entries {
                    self.meet_entry(&m.due, e);
                }
                self.compare(lent, accepted(read), &m.due);
            }
            Err(refusal) => self.compare_refused(lent, refusal),
        }
    }

    // Cuts and damage of a text that the chart can take; of a longer one only the cuts that it can.
    fn compare_others(&mut self, seed: &mut Seed, lent: Lent, times: usize) {
        let known = front(lent.text, chart::MOST);
        let v = chart::judge(known);
        self.tally.expect(v.reach(known.len()) == known.len());
        if lent.text.len() == known.len() {
            self.tally.expect(v.is_whole(known.len()));
            for _ in 0..times {
                self.damage_once(seed, lent);
            }
        }
        self.cut(
            Lent {
                text: known,
                ..lent
            },
            v,
        );
    }

    // A vocabulary, or both, may be malformed: that is told first, whatever the text.
    fn compare_spoilt(&mut self, seed: &mut Seed, text: &[u8], books: &Books) {
        let mut bad = *books;
        let which = seed.below(3);
        if which < 2 {
            vocabulary::spoil(seed, &mut bad.site);
        }
        if 0 < which {
            vocabulary::spoil(seed, &mut bad.house);
        }
        let place = u16::from(which == 0);
        self.compare_refused(bad.lend(text, 320), Refusal::NameTable(place));
    }

    // One random text with random vocabularies.
    fn run_one(&mut self, seed: &mut Seed, line: &Line) {
        let books = Books::make(seed);
        let choices = seed.within(line, 1, 0);
        let m = grow::make(seed, &books.tags, choices);
        let text = m.text.bytes();
        let room = room_for(seed, m.entries.wrapping_mul(4));
        self.compare_made(books.lend(text, room), &m);
        self.compare_others(seed, books.lend(text, 320), line.number(1, 2));
        self.compare_spoilt(seed, text, &books);
    }

    // texts SEED COUNT | LEAST MOST TIMES: so many texts of LEAST to MOST choices from a seed, each damaged so many times
    pub fn run_texts(&mut self, line: &Line) {
        let mut seed = Seed::new(line.number(0, 0));
        for _ in 0..line.number(0, 1) {
            self.run_one(&mut seed, line);
        }
    }
}
