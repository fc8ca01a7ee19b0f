// Texts that are written out in the input, with the reply and the table that are due.
use super::call::{Lent, NOTHING, Record};
use harness::line::Line;
use harness::table::{byte, front, narrow};
use model::{ReadReply, Refusal};
use texts::grow::Numbers;
use texts::text::Text;

// The present text and vocabularies.
#[derive(Clone, Copy)]
pub struct Present {
    pub text: Text,
    pub house: Text,
    pub site: Text,
}

// The text of the line `> TEXT` at the front of the input: two bytes on, up to a newline or a byte 0. So a line of one byte takes the
// next line.
pub fn text_of(input: &[u8]) -> Text {
    let mut text = Text::new();
    for byte in input.iter().skip(2) {
        if matches!(*byte, b'\n' | 0) {
            break;
        }
        text.push(*byte);
    }
    text
}

// The names of a line as a vocabulary, each behind its length.
pub fn vocabulary_of(line: &[u8]) -> Text {
    let mut vocabulary = Text::new();
    let names = line.strip_suffix(b"\n").unwrap_or(line);
    for name in names.split(|b| *b == b' ').skip(1) {
        vocabulary.push(byte(name.len()));
        vocabulary.append(name);
    }
    vocabulary
}

fn reply(line: &Line) -> ReadReply {
    ReadReply {
        number: narrow(line.number(0, 0)),
        place: narrow(line.number(0, 1)),
        count: line.number(0, 2),
        columns: narrow(line.number(0, 3)),
    }
}

impl Record {
    // The chart, too, is held against what is written.
    fn expect_chart(&mut self, text: &[u8], due: ReadReply) {
        let length = text.len();
        let number = due.number;
        if (chart::MOST < length) | (number == 21) | (number == 23) {
            return;
        }
        let v = chart::judge(text);
        self.tally.expect(v.is_whole(length) == (number != 24));
        if number == 24 {
            self.tally.expect(v.reach(length) == usize::from(due.place));
        }
    }

    // A text with the reply and the table that are due.
    fn expect(&mut self, lent: Lent, due: ReadReply, table: &Numbers) {
        self.expect_chart(lent.text, due);
        self.compare(lent, due, table);
    }

    // unfinished FIRST: each front of the text of FIRST bytes or more, but for all of it, is refused with 24 at its end
    pub fn run_unfinished(&mut self, line: &Line, p: &Present) {
        let text = p.text.bytes();
        for length in line.number(0, 0)..text.len() {
            let lent = Lent {
                text: front(text, length),
                house: p.house.whole(),
                site: p.site.whole(),
                room: 320,
            };
            let due = super::call::refused(Refusal::Ungrammatical(narrow(length)));
            self.expect(lent, due, &NOTHING);
        }
    }

    // The present text, with a house vocabulary.
    fn run_with(&mut self, line: &Line, p: &Present, house: Option<&[u8]>) {
        let mut due = NOTHING;
        line.copy_numbers(2, &mut due);
        let lent = Lent {
            text: p.text.bytes(),
            house,
            site: p.site.whole(),
            room: line.number(1, 0),
        };
        self.expect(lent, reply(line), &due);
    }

    // read NUMBER PLACE COUNT COLUMNS | ROOM | TABLE
    pub fn run_read(&mut self, line: &Line, p: &Present) {
        self.run_with(line, p, p.house.whole());
    }

    // many NUMBER PLACE COUNT COLUMNS | ROOM | TABLE | NAMES: as read, with a house vocabulary of so many names `x`
    pub fn run_many(&mut self, line: &Line, p: &Present) {
        // Room for 65536 names of one byte.
        let mut house = [0u8; 131072];
        let names = line.number(3, 0);
        for name in house.chunks_exact_mut(2).take(names) {
            name.copy_from_slice(b"\x01x");
        }
        self.run_with(line, p, house.get(..names.wrapping_mul(2)));
    }
}
