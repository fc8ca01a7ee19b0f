// The checks of the input, by the first letter of their line.
use super::call::Record;
use super::counts::Counts;
use super::fixed::{Present, text_of, vocabulary_of};
use harness::line::Line;
use harness::tally::Tally;
use texts::text::Text;

impl Record {
    // The lines that call the reader.
    fn run_check(&mut self, line: &Line, letter: u8, p: &Present) {
        match letter {
            b'r' => self.run_read(line, p),
            b'm' => self.run_many(line, p),
            b'u' => self.run_unfinished(line, p),
            b't' => self.run_texts(line),
            b'e' => {
                let counts = self.counts;
                counts.expect_all(&mut self.tally, line.number(0, 0), line.number(0, 1));
            }
            _ => (),
        }
    }

    // Runs the line at the front of the input; those that give a text or a vocabulary make it the present one.
    fn run_line(&mut self, bytes: &[u8], input: &[u8], p: &mut Present) {
        self.tally.next_line();
        let Some(letter) = bytes.first() else {
            return;
        };
        match *letter {
            b'=' => self.tally.end_part(bytes),
            b'>' => p.text = text_of(input),
            b'h' => p.house = vocabulary_of(bytes),
            b's' => p.site = vocabulary_of(bytes),
            other => self.run_check(&Line::read(bytes), other, p),
        }
    }
}

pub fn run_all(input: &[u8]) {
    let mut record = Record {
        tally: Tally::new(),
        counts: Counts::new(),
    };
    let mut present = Present {
        text: Text::new(),
        house: Text::new(),
        site: Text::new(),
    };
    let mut rest = input;
    for bytes in input.split_inclusive(|b| *b == b'\n') {
        record.run_line(bytes, rest, &mut present);
        rest = rest.get(bytes.len()..).unwrap_or(b"");
    }
    record.counts.show_all();
    record.tally.show_all();
}
