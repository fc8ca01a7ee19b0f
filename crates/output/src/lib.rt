// What the program prints for a job file, piece by piece, as bytes in a buffer that the caller lends: refusals, rows and the line
// after them. A piece of rows is one page of answers, and each call opens and checks the file anew.
#![tactic(auto)]

ghost use Rattle.std.specs.Prelude.{◌≡◌, ◌≤◌, length, Ok};
ghost use Rattle.model.specs.Accepted.{AcceptedTree};
ghost use Rattle.job.specs.JobFile.{end_of, opened, Fronts};
ghost use Rattle.output.specs.Output.{shared_of};
ghost use Rattle.output.specs.Piece.{beginning, smallest, numbers_for, end_piece, refused_piece, after_page, tables_piece, shared_piece, job_piece, list_piece, piece_outcome, PieceLeaves};

use job::{Parts, Span};
use model::{Cursor, Page, Reply};

// Where the output of a file stands: after which row, how many rows are written, and whether these are all of them.
#[derive(Clone, Copy)]
pub struct Position {
    pub cursor: Cursor,
    pub total: usize,
    pub listed: bool,
}

// A piece: the verdict, how many bytes it has, whether it is the last, and where the output stands after it. The verdict is a reply and
// no Result, since the theorem `pieces_exist` is of whatever reply a piece may have.
#[derive(Clone, Copy)]
pub struct Piece {
    pub reply: Reply,
    pub count: usize,
    pub last: bool,
    pub next: Position,
}

// The line after the rows.
fn end_piece(at: Position, out: &mut [u8]) -> Piece
    requires { smallest ≤ length out.old }
    ensures { PieceLeaves (end_piece at) out.old result out.new }
{
    let n = lines::end_line(out, 0, at.total);
    Piece {
        reply: model::reply_at(0, 0),
        count: n,
        last: true,
        next: at,
    }
}

// The one line of a refusal.
fn refused_piece(reply: Reply, at: Position, out: &mut [u8]) -> Piece
    requires { smallest ≤ length out.old }
    ensures { PieceLeaves (refused_piece reply at) out.old result out.new }
{
    let n = lines::refused_line(out, 0, reply);
    Piece {
        reply,
        count: n,
        last: true,
        next: at,
    }
}

// How many numbers of rows a piece has in so many bytes.
fn numbers_for(room: usize) -> usize
    ensures { result ≡ numbers_for room }
{
    (room / 6).min(3072)
}

// Where the output stands after a page.
fn after_page(at: Position, page: Page) -> Position
    ensures { result ≡ after_page at page }
{
    let last = page.cursor;
    Position {
        cursor: last,
        total: std::num::wrapping_add_usize(at.total, page.count),
        listed: !page.more,
    }
}

// The rows of a page, by way of a buffer that has room for as many as their lines have. One page of answers, by the quick way where the
// query keeps its rule.
fn page_piece(
    tree: &[u16],
    query: &[u16],
    columns: usize,
    at: Position,
    rows: &mut [u16],
    out: &mut [u8],
) -> Piece
    requires { AcceptedTree tree.now
        × ((smallest ≤ length out.old) × (length rows.old ≡ numbers_for (length out.old))) }
    ensures { PieceLeaves (tables_piece tree.now query.now columns at (length out.old)) out.old
        result out.new }
{
    match quick::page_either(tree, query, columns, at.cursor, rows) {
        Ok(page) => {
            let n = lines::row_lines(out, 0, rows, columns, page.count);
            Piece {
                reply: model::reply_at(0, 0),
                count: n,
                last: false,
                next: after_page(at, page),
            }
        }
        Err(e) => refused_piece(Reply::from(e), at, out),
    }
}

// The same, with a buffer of its own for the rows.
fn rows_piece(tree: &[u16], query: &[u16], columns: usize, at: Position, out: &mut [u8]) -> Piece
    requires { AcceptedTree tree.now × (smallest ≤ length out.old) }
    ensures { PieceLeaves (tables_piece tree.now query.now columns at (length out.old)) out.old
        result out.new }
{
    let mut rows = [0; 3072];
    let room = numbers_for(out.len());
    page_piece(tree, query, columns, at, &mut rows[..room], out)
}

// The same over the tree that a party sees of a shared table, or the refusal of table or party.
fn shared_piece(
    tree: &[u16],
    party: u16,
    query: &[u16],
    columns: usize,
    at: Position,
    out: &mut [u8],
) -> Piece
    requires { smallest ≤ length out.old }
    ensures { PieceLeaves (shared_piece tree.now party query.now columns at (length out.old)) out.old
        result out.new }
{
    let mut table = [0u16; 512];
    match view::look(tree, party, &mut table) {
        Ok(count) => rows_piece(&table[..count], query, columns, at, out),
        Err(e) => refused_piece(Reply::from(e), at, out),
    }
}

// The shared table of a file's tree part, over the front of a buffer, and how many numbers it has.
fn shared_table(file: &[u8], tree: Span, owners: bool, out: &mut [u16]) -> usize
    requires { (end_of tree ≤ length file.now) × ((tree.count ≤ 2042) × (length out.old ≡ 3072)) }
    ensures { Fronts (shared_of file.now tree owners) result out.new }
{
    let count = tree.count;
    if owners {
        job::decode(file, tree.start, count, out);
        return count;
    }
    let mut pairs = [0; 2048];
    job::decode(file, tree.start, count, &mut pairs);
    job::widen(&pairs[..count], out)
}

// The parts of an accepted file, as numbers: it has at most 4,084 bytes before its trailer, which are 2,042 numbers, or 3,063 where nodes
// get an owner each.
fn parts_piece(file: &[u8], job: Parts, at: Position, out: &mut [u8]) -> Piece
    requires { ((end_of job.tree ≤ length file.now) × (job.tree.count ≤ 2042))
        × (((end_of job.query ≤ length file.now) × (job.query.count ≤ 2042)) × (smallest ≤ length out.old)) }
    ensures { PieceLeaves (job_piece file.now (opened (Ok job)) at (length out.old)) out.old result out.new }
{
    let mut shared = [0u16; 3072];
    let mut query_numbers = [0; 2048];
    let tree = job.tree;
    let query = job.query;
    let count = shared_table(file, tree, job.owners, &mut shared);
    job::decode(file, query.start, query.count, &mut query_numbers);
    shared_piece(
        &shared[..count],
        job.party,
        &query_numbers[..query.count],
        model::wide(job.columns),
        at,
        out,
    )
}

// A piece of rows of a file, or its refusal.
fn list_piece(file: &[u8], at: Position, out: &mut [u8]) -> Piece
    requires { smallest ≤ length out.old }
    ensures { PieceLeaves (list_piece file.now at (length out.old)) out.old
        result out.new }
{
    match job::open(file) {
        Ok(job) => parts_piece(file, job, at, out),
        Err(e) => refused_piece(Reply::from(e), at, out),
    }
}

// Where the output of every file begins.
pub fn start() -> Position
    ensures { result ≡ beginning }
{
    Position {
        cursor: Cursor {
            begun: 0,
            first: 0,
            second: 0,
            third: 0,
        },
        total: 0,
        listed: false,
    }
}

// The next piece of the output of a file, over the front of a buffer of 25 bytes or more; a shorter one is 20, and then nothing is
// written. The cost is that of one page of answers, and of reading the file.
pub fn next_piece(file: &[u8], at: Position, out: &mut [u8]) -> Piece
    ensures { PieceLeaves (piece_outcome file.now at (length out.old)) out.old
        result out.new }
{
    let short = out.len() < 25;
    if short {
        return Piece {
            reply: model::reply_at(20, 0),
            count: 0,
            last: false,
            next: at,
        };
    }
    if at.listed {
        return end_piece(at, out);
    }
    list_piece(file, at, out)
}
