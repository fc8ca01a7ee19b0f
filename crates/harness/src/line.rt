// A line of the input: decimal numbers, parted by anything else, in parts that `|` ends; `#` starts a comment.
use super::table;
use model::{Cursor, ImageReply, Reply};

// How many parts, and how many numbers, a line may have.
const PARTS: usize = 8;

const NUMBERS: usize = 1024;

// A line as it is read: how many numbers there are up to the end of each part, and then the numbers.
#[derive(Clone, Copy)]
pub struct Line {
    ends: [usize; PARTS],
    numbers: [usize; NUMBERS],
}

// How much of a line has been read: how many numbers are whole, in which part they stand, and the number that is open.
#[derive(Clone, Copy)]
struct Reading {
    count: usize,
    part: usize,
    open: Option<usize>,
}

// No less than some of so many.
#[derive(Clone, Copy)]
pub struct Share {
    pub some: usize,
    pub of: usize,
}

// The number with one digit more; it stays as it is where it would have more than nine.
fn shifted(value: usize, digit: u8) -> usize {
    if 99999999 < value {
        return value;
    }
    value * 10 + usize::from(digit)
}

impl Line {
    // Reads a line up to the newline that ends it. A last line without one has not ended, and its last part has no number.
    pub fn read(text: &[u8]) -> Line {
        let mut line = Line {
            ends: [0; PARTS],
            numbers: [0; NUMBERS],
        };
        let mut reading = Reading {
            count: 0,
            part: 0,
            open: None,
        };
        for byte in text {
            match *byte {
                digit @ b'0'..=b'9' => {
                    let value = reading.open.unwrap_or(0);
                    reading.open = Some(shifted(value, digit - b'0'));
                }
                b'|' => line.part(&mut reading),
                b'#' | b'\n' => {
                    line.part(&mut reading);
                    break;
                }
                _ => line.close(&mut reading),
            }
        }
        line
    }

    // A byte that is no digit ends the open number.
    fn close(&mut self, reading: &mut Reading) {
        if let Some(value) = reading.open {
            table::put(&mut self.numbers, reading.count, value);
            reading.count = reading.count.wrapping_add(1);
            reading.open = None;
        }
    }

    // A part ends, and with it the open number.
    fn part(&mut self, reading: &mut Reading) {
        self.close(reading);
        table::put(&mut self.ends, reading.part, reading.count);
        reading.part = reading.part.wrapping_add(1);
    }

    // Where a part starts: behind the one before, or with the line where that is missing too.
    fn start(&self, part: usize) -> usize {
        if part == 0 {
            0
        } else {
            table::at(&self.ends, part - 1)
        }
    }

    // The numbers of a part, without those for which the line has no room.
    pub fn numbers(&self, part: usize) -> &[usize] {
        let end = table::at(&self.ends, part).min(NUMBERS);
        let start = self.start(part).min(end);
        &self.numbers[start..end]
    }

    // How many numbers a part has, with those for which the line has no room.
    pub fn length(&self, part: usize) -> usize {
        table::at(&self.ends, part).saturating_sub(self.start(part))
    }

    // Number k of a part. The numbers of a line go on from part to part: a part that is too short takes the next part's, and 0 behind
    // the last.
    pub fn number(&self, part: usize, k: usize) -> usize {
        table::at(&self.numbers, self.start(part).wrapping_add(k))
    }

    // A part as SOME OF.
    pub fn share(&self, part: usize) -> Share {
        Share {
            some: self.number(part, 0),
            of: self.number(part, 1),
        }
    }

    // A part as a table.
    pub fn table(&self, part: usize) -> table::Table {
        let mut table = table::Table::new();
        self.copy_table(part, &mut table);
        table
    }

    // Puts a part in place of the numbers of a table. What is no number of a table leaves there what the table held before.
    pub fn copy_table<const N: usize>(&self, part: usize, to: &mut table::Numbers<N>) {
        let length = self.length(part);
        to.set_length(length);
        for k in 0..length {
            to.put(k, self.number(part, k));
        }
    }

    // Writes a part to the front of a buffer, but for what is no byte.
    pub fn copy_bytes(&self, part: usize, to: &mut [u8]) {
        for (k, place) in to.iter_mut().enumerate().take(self.length(part)) {
            if let Ok(byte) = u8::try_from(self.number(part, k)) {
                *place = byte;
            }
        }
    }

    // Writes a part to the front of a buffer for numbers of tables.
    pub fn copy_numbers(&self, part: usize, to: &mut [u16]) {
        for (k, place) in to.iter_mut().enumerate().take(self.length(part)) {
            *place = table::narrow(self.number(part, k));
        }
    }

    // A part as a reply: NUMBER PLACE COUNT, or NUMBER PLACE.
    pub fn counted(&self, part: usize) -> ImageReply {
        ImageReply {
            number: table::narrow(self.number(part, 0)),
            place: table::narrow(self.number(part, 1)),
            count: self.number(part, 2),
        }
    }

    pub fn reply(&self, part: usize) -> Reply {
        Reply {
            number: table::narrow(self.number(part, 0)),
            place: table::narrow(self.number(part, 1)),
        }
    }

    // A part as a cursor: BEGUN FIRST SECOND THIRD.
    pub fn cursor(&self, part: usize) -> Cursor {
        Cursor {
            begun: table::byte(self.number(part, 0)),
            first: table::narrow(self.number(part, 1)),
            second: table::narrow(self.number(part, 2)),
            third: table::narrow(self.number(part, 3)),
        }
    }
}

#[cfg(test)]
mod tests {
    use super::*;

    #[test]
    fn numbers_of_parts(rt: HostRuntime) {
        let line = Line::read(b"1 2 | | 30 x 4 # 5\n");
        assert_eq!(rt; line.numbers(0), [1, 2].as_slice());
        assert_eq!(rt; line.numbers(2), [30, 4].as_slice());
        for part in [1, 3, 7, 8] {
            assert!(rt; line.numbers(part).is_empty(), "part {part}");
        }
    }

    // There is room for 1,024 numbers of the first part's 1,025, and for none of the second.
    #[test]
    fn numbers_of_a_full_line(rt: HostRuntime) {
        let mut text = [b' '; 2054];
        for k in 0..1025 {
            text[2 * k] = b'7';
        }
        text[2050] = b'|';
        text[2052] = b'8';
        text[2053] = b'\n';
        let line = Line::read(&text);
        assert_eq!(rt; line.numbers(0), [7; 1024].as_slice());
        assert!(rt; line.numbers(1).is_empty());
        assert_eq!(rt; line.length(0), 1025);
    }
}
