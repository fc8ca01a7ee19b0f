// What was compared.
use super::line::Share;
use super::{sums, table};
use model::{Cursor, ImageReply, Reply};

// What is summed up beside the replies.
#[derive(Clone, Copy)]
pub enum Sum {
    // The line of the input, and how many comparisons there were and failed, in all and in this part.
    Line,
    Compared,
    Failed,
    ComparedHere,
    FailedHere,
    // How many nodes, pairs and rows were in the results.
    Nodes,
    Pairs,
    Rows,
    // How many pages were accepted and refused.
    Pages,
    Refused,
    // How many lists of answers had gaps, no row, and every row.
    Gaps,
    Empty,
    Full,
    // How many lists of answers had a block that a page leaves out after no variable has a node, after one has and after two have.
    Blocks,
    BlocksAfterOne,
    BlocksAfterTwo,
    // How many lists with gaps were of two variables or more and of a query that keeps the rule of quick pages, and how many
    // evaluations quick pages made.
    Kept,
    Evaluations,
    // How many damaged indexes were refused and how many were not, and for how many of these the answer was another.
    Broken,
    Unseen,
    Changed,
    // How many random trees had a document node, and in how many of these a query's star left it out.
    Documents,
    LeftOut,
    // For how many parties that asked for a random shared table a closure of the query decided, and a `same`.
    Closing,
    Meeting,
    // How many deep queries there were, how many of these had some pairs and not all, and in how many a closure decided.
    Deep,
    Mixed,
    Deciding,
    // How many times a party asked for a random shared table, in how many of these a node was hidden from it, and in how many by an
    // ancestor alone.
    Shared,
    Hiding,
    Through,
    // The kinds and the axes in the queries of lists with gaps, and the kinds of the entries at which random queries break the rule of
    // quick pages: bit k for number k.
    Kinds,
    Axes,
    Breaking,
}

// The sums that are told where they are not 0, each with its name.
const TOLD: [(Sum, &[u8]); 26] = [
    (Sum::Nodes, b"nodes in results: "),
    (Sum::Pairs, b"pairs in tables: "),
    (Sum::Rows, b"rows in pages: "),
    (Sum::Pages, b"pages accepted: "),
    (Sum::Refused, b"pages refused between: "),
    (Sum::Gaps, b"lists with gaps: "),
    (Sum::Empty, b"lists of no row: "),
    (Sum::Full, b"lists of every row: "),
    (Sum::Blocks, b"lists with nothing to look for: "),
    (
        Sum::BlocksAfterOne,
        b"lists with a block to leave out after one variable: ",
    ),
    (
        Sum::BlocksAfterTwo,
        b"lists with a block to leave out after two: ",
    ),
    (
        Sum::Kept,
        b"lists with gaps, of two variables or more, within the rule: ",
    ),
    (Sum::Evaluations, b"evaluations of quick pages: "),
    (Sum::Broken, b"damaged indexes refused: "),
    (Sum::Unseen, b"damaged indexes not refused: "),
    (Sum::Changed, b"of these with another answer: "),
    (Sum::Documents, b"trees with a document node: "),
    (Sum::LeftOut, b"of these with a star that leaves it out: "),
    (
        Sum::Closing,
        b"random queries with a closure that decides: ",
    ),
    (Sum::Meeting, b"random queries with a same that decides: "),
    (Sum::Deep, b"deep queries: "),
    (Sum::Mixed, b"of these with some pairs and not all: "),
    (Sum::Deciding, b"of these with a closure that decides: "),
    (Sum::Shared, b"parties asking for a random table: "),
    (Sum::Hiding, b"of these with a node hidden: "),
    (
        Sum::Through,
        b"of these with a node hidden by an ancestor alone: ",
    ),
];

// The replies by their number, 0 to 36, and the sums.
#[derive(Clone, Copy)]
pub struct Tally {
    replies: sums::Sums<37>,
    sums: sums::Sums<34>,
}

// Writes a number and what follows it.
pub fn show_number(number: u64, then: &[u8]) {
    io::print_decimal(1, number);
    io::write_all(1, then);
}

// The reply to a call that is accepted.
pub const ACCEPTED: Reply = Reply {
    number: 0,
    place: 0,
};

// A reply without its count.
pub fn uncounted(reply: ImageReply) -> Reply {
    Reply {
        number: reply.number,
        place: reply.place,
    }
}

fn same_bytes(got: &[u8], due: &[u8], room: usize) -> bool {
    let end = room.wrapping_add(64);
    (end <= got.len()) && (end <= due.len()) && (got[..end] == due[..end])
}

impl Tally {
    pub fn new() -> Tally {
        Tally {
            replies: sums::Sums::<37>::new(),
            sums: sums::Sums::<34>::new(),
        }
    }

    pub fn add(&mut self, sum: Sum, more: u64) {
        self.sums.add(sum as usize, more);
    }

    // Counts a case, if it is one.
    pub fn count(&mut self, sum: Sum, is_case: bool) {
        self.add(sum, u64::from(is_case));
    }

    // Number k was met.
    pub fn meet(&mut self, sum: Sum, k: usize) {
        self.sums.meet(sum as usize, sums::bit(k));
    }

    fn at(&self, sum: Sum) -> u64 {
        self.sums.at(sum as usize)
    }

    pub fn next_line(&mut self) {
        self.add(Sum::Line, 1);
    }

    // One comparison, and whether it held.
    pub fn expect(&mut self, holds: bool) {
        self.add(Sum::Compared, 1);
        self.add(Sum::ComparedHere, 1);
        if holds {
            return;
        }
        self.add(Sum::Failed, 1);
        self.add(Sum::FailedHere, 1);
        io::write_all(1, b"line ");
        show_number(self.at(Sum::Line), b": comparison ");
        show_number(self.at(Sum::ComparedHere), b" of this part failed\n");
    }

    // A reply compared with the one that is due.
    pub fn expect_reply(&mut self, got: Reply, due: Reply) {
        self.replies.add(usize::from(got.number), 1);
        self.expect((got.number == due.number) & (got.place == due.place));
    }

    // A reply with a count compared with the one that is due.
    pub fn expect_counted(&mut self, got: ImageReply, due: ImageReply) {
        self.expect_reply(uncounted(got), uncounted(due));
        self.expect(got.count == due.count);
    }

    // A buffer compared with the bytes that are due, up to 64 bytes beyond the room that was lent.
    pub fn expect_bytes(&mut self, got: &[u8], due: &[u8], room: usize) {
        self.expect(same_bytes(got, due, room));
    }

    // A buffer for rows compared with the whole of what is due.
    pub fn expect_rows(&mut self, got: &table::Rows, due: &table::Rows) {
        self.expect(got == due);
    }

    // A buffer for words compared with the whole of what is due.
    pub fn expect_words(&mut self, got: &table::Words, due: &table::Words) {
        self.expect(got == due);
    }

    pub fn expect_cursor(&mut self, got: Cursor, due: Cursor) {
        let first_two = (got.begun == due.begun) & (got.first == due.first);
        self.expect(first_two & (got.second == due.second) & (got.third == due.third));
    }

    // How many lists were counted.
    fn lists(&self) -> u64 {
        let some = self.at(Sum::Empty).wrapping_add(self.at(Sum::Full));
        self.at(Sum::Gaps).wrapping_add(some)
    }

    // A part is no less than a share of a whole.
    fn is_share(&self, part: Sum, whole: u64, share: Share) -> bool {
        whole.wrapping_mul(share.some as u64) <= self.at(part).wrapping_mul(share.of as u64)
    }

    // The same, and the part is not 0.
    fn expect_some(&mut self, part: Sum, whole: u64, share: Share) {
        let holds = (0 < self.at(part)) & self.is_share(part, whole, share);
        self.expect(holds);
    }

    // One sum is not 0, and no less than a share of another.
    pub fn expect_share(&mut self, part: Sum, whole: Sum, share: Share) {
        self.expect_some(part, self.at(whole), share);
    }

    // No fewer than a share of the lists of answers had gaps, and their queries had every kind and every axis.
    pub fn expect_gaps(&mut self, share: Share) {
        let holds = self.is_share(Sum::Gaps, self.lists(), share);
        self.expect(holds);
        self.expect(self.at(Sum::Kinds) == 32767);
        self.expect(self.at(Sum::Axes) == 8191);
    }

    // No fewer than a share of the lists of answers had a block that is left out, after no variable, after one or after two.
    pub fn expect_blocks(&mut self, blocks: Sum, share: Share) {
        self.expect_some(blocks, self.lists(), share);
    }

    // Of the damaged indexes no fewer than a share were refused, and as many were not and gave another answer.
    pub fn expect_damage(&mut self, share: Share) {
        let whole = self.at(Sum::Broken).wrapping_add(self.at(Sum::Unseen));
        self.expect_some(Sum::Broken, whole, share);
        self.expect_some(Sum::Changed, whole, share);
    }

    // No fewer than a share of the lists had gaps, and were of two variables or more and of a query that keeps the rule of quick
    // pages; and others broke it by each kind that can: 1, 3, 4, 5, 9, 10, 13 and 14.
    pub fn expect_kept(&mut self, share: Share) {
        self.expect_some(Sum::Kept, self.lists(), share);
        self.expect(self.at(Sum::Breaking) == 26170);
    }

    // A part of the input ends, with a line `= NAME` and its newline; a last line without one loses a letter of the name.
    pub fn end_part(&mut self, text: &[u8]) {
        let Some(name) = text.get(2..text.len().saturating_sub(1)) else {
            return;
        };
        io::write_all(1, name);
        io::write_all(1, b": ");
        show_number(self.at(Sum::ComparedHere), b" compared, ");
        show_number(self.at(Sum::FailedHere), b" failed\n");
        self.sums.clear(Sum::ComparedHere as usize);
        self.sums.clear(Sum::FailedHere as usize);
    }

    // A line for the replies with each number that there were.
    fn show_replies(&self) {
        for number in 0..37 {
            let count = self.replies.at(number);
            if count != 0 {
                io::write_all(1, b"replies ");
                show_number(number as u64, b": ");
                show_number(count, b"\n");
            }
        }
    }

    pub fn show_all(&self) {
        self.show_replies();
        for (sum, name) in TOLD {
            let count = self.at(sum);
            if count != 0 {
                io::write_all(1, name);
                show_number(count, b"\n");
            }
        }
        io::write_all(1, b"in all: ");
        show_number(self.at(Sum::Compared), b" compared, ");
        show_number(self.at(Sum::Failed), b" failed\n");
    }
}
