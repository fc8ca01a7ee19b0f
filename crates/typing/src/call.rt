// Calls of the reader, each with a buffer that is filled with a pattern: reply and buffer are compared with what is due.
use super::counts::Counts;
use harness::due;
use harness::tally::Tally;
use model::{Read, ReadReply, Refusal, Reply};
use texts::grow::{Numbers, PATTERN};

// What a call is lent: the text, both vocabularies, which are none where they are longer than their buffers, and how much of a buffer.
#[derive(Clone, Copy)]
pub struct Lent<'a> {
    pub text: &'a [u8],
    pub house: Option<&'a [u8]>,
    pub site: Option<&'a [u8]>,
    pub room: usize,
}

// What was compared, and what was met.
#[derive(Clone, Copy)]
pub struct Record {
    pub tally: Tally,
    pub counts: Counts,
}

// A buffer in which nothing is due to be written.
pub const NOTHING: Numbers = [PATTERN; 320];

// The reply to a text that is refused.
pub fn refused(refusal: Refusal) -> ReadReply {
    let Reply { number, place } = due::reply(refusal);
    ReadReply {
        number,
        place,
        count: 0,
        columns: 0,
    }
}

// And to one that is read.
pub fn accepted(read: Read) -> ReadReply {
    ReadReply {
        number: 0,
        place: 0,
        count: read.count,
        columns: read.columns,
    }
}

// What stands for the reply where more would be lent than there is: the reader never gives it.
const NO_REPLY: ReadReply = ReadReply {
    number: 65535,
    place: 65535,
    count: 0,
    columns: 0,
};

// Lends the vocabularies and the front of the buffer.
fn call(lent: Lent, query: &mut Numbers) -> ReadReply {
    match (lent.house, lent.site, query.get_mut(..lent.room)) {
        (Some(house), Some(site), Some(query)) => {
            ReadReply::from(reader::read(lent.text, house, site, query))
        }
        _ => NO_REPLY,
    }
}

impl Record {
    // A call with the reply and the buffer that are due.
    pub fn compare(&mut self, lent: Lent, due: ReadReply, table: &Numbers) {
        let mut query = NOTHING;
        let got = call(lent, &mut query);
        self.counts.add_reply(got.number);
        self.tally.expect(got == due);
        self.tally.expect(query == *table);
    }

    // A call with a text that is refused.
    pub fn compare_refused(&mut self, lent: Lent, refusal: Refusal) {
        self.compare(lent, refused(refusal), &NOTHING);
    }

    // A call with a text that is grammatical, and of whose table nothing is known.
    pub fn compare_whole(&mut self, lent: Lent) {
        let mut query = NOTHING;
        let got = call(lent, &mut query);
        self.counts.add_reply(got.number);
        let has_table = (0 < got.count) & (got.count <= lent.room);
        match got.number {
            0 => self
                .tally
                .expect((got.place == 0) & has_table & (got.columns < 4)),
            number => {
                self.tally.expect(matches!(number, 20 | 25 | 26));
                self.tally.expect((got.count == 0) & (got.columns == 0));
                self.tally.expect(query == NOTHING);
            }
        }
    }
}
