// The job file: its trailer and its parts, refusals 1 to 4, and its numbers.
#![tactic(auto)]

ghost use Rattle.std.specs.Prelude.{◌≡◌, ◌++◌, ◌+◌, ◌*◌, ◌≤◌, ◌<◌, false, length, drop};
ghost use Rattle.model.specs.Refusals.{verdict, told};
ghost use Rattle.job.specs.JobFile.{number_at, numbers, pointer_at, magic_of, trailer_size, party_of, trailer_at, trailer_of, bad_length, span_of, end_of, outside, overlap, part_checks, file_checks, job_of, opened, widened, Fronts};

use model::Refusal;

// The marks of a file without owners, which is party 1's, and of one with owners and a party.
const PLAIN: u16 = 20564;

const OWNED: u16 = 20565;

// A part of the file: where its first byte stands, and how many numbers it holds.
#[derive(Clone, Copy)]
pub struct Span {
    pub start: usize,
    pub count: usize,
}

// What an accepted file gives: its parts, its number of variables, its party and whether its nodes have owners.
#[derive(Clone, Copy)]
pub struct Parts {
    pub tree: Span,
    pub query: Span,
    pub columns: u16,
    pub party: u16,
    pub owners: bool,
}

// A part as the trailer gives it: how far before the file's end it begins, and how many numbers it holds.
#[derive(Clone, Copy)]
struct Pointer {
    distance: u16,
    count: u16,
}

// The last 14 bytes of a file with owners, and the last 12 of one without, which is party 1's.
#[derive(Clone, Copy)]
struct Trailer {
    tree: Pointer,
    query: Pointer,
    columns: u16,
    party: u16,
    magic: u16,
}

// The number at a byte, low byte first.
#[tactic(auto, unfolding(crate::specs::JobFile::number_at))]
fn number_at(file: &[u8], at: usize) -> u16
    requires { at + 1 < length file.now }
    ensures { result ≡ number_at file.now at }
{
    u16::from_le_bytes([file[at], file[at + 1]])
}

// The distance and the count of a part, at a byte of the trailer.
fn pointer_at(file: &[u8], at: usize) -> Pointer
    requires { at + 3 < length file.now }
    ensures { result ≡ pointer_at file.now at }
{
    Pointer {
        distance: number_at(file, at),
        count: number_at(file, at + 2),
    }
}

// The last two bytes of a file.
fn magic_of(file: &[u8]) -> u16
    requires { 12 ≤ length file.now }
    ensures { result ≡ magic_of file.now }
{
    number_at(file, file.len() - 2)
}

// How many bytes the trailer has.
fn trailer_size(magic: u16) -> usize
    ensures { (result ≡ trailer_size magic) × ((12 ≤ result) × (result ≤ 14)) }
{
    if magic == OWNED { 14 } else { 12 }
}

// The party of a file whose trailer begins at a byte.
fn party_of(file: &[u8], start: usize, magic: u16) -> u16
    requires { start + trailer_size magic ≤ length file.now }
    ensures { result ≡ party_of file.now start magic }
{
    if magic == OWNED {
        number_at(file, start + 10)
    } else {
        1
    }
}

// The trailer of a file, which begins at a byte.
fn trailer_at(file: &[u8], start: usize, magic: u16) -> Trailer
    requires { start + trailer_size magic ≤ length file.now }
    ensures { result ≡ trailer_at file.now start magic }
{
    Trailer {
        tree: pointer_at(file, start),
        query: pointer_at(file, start + 4),
        columns: number_at(file, start + 8),
        party: party_of(file, start, magic),
        magic,
    }
}

// The part that a pointer gives in a file of n bytes.
fn span_of(n: usize, p: Pointer) -> Span
    requires { p.distance ≤ n }
    ensures { (result ≡ span_of n p) × (result.start ≤ n) × (result.count < 65536) }
{
    Span {
        start: n - model::wide(p.distance),
        count: model::wide(p.count),
    }
}

// Refusal 3 of one part, in a file of n bytes whose trailer begins at a byte.
fn is_outside(n: usize, start: usize, p: Pointer) -> bool
    requires { (start ≤ n) × (n ≤ 4096) }
    ensures { result ≡ outside n start p }
{
    if n < model::wide(p.distance) {
        return true;
    }
    let s = span_of(n, p);
    start < s.start + 2 * s.count
}

// Refusal 4: two parts of a file of n bytes share a byte exactly if each has one and begins before the other ends.
fn is_overlap(n: usize, a: Span, b: Span) -> bool
    requires { (end_of a ≤ n) × (end_of b ≤ n) × (n ≤ 4096) }
    ensures { result ≡ overlap n a b }
{
    let both = (a.count != 0) & (b.count != 0);
    both & ((a.start < b.start + 2 * b.count) & (b.start < a.start + 2 * a.count))
}

// Refusals 3 and 4.
fn check_parts(n: usize, start: usize, tree: Pointer, query: Pointer) -> Result<(), Refusal>
    requires { (start ≤ n) × (n ≤ 4096) }
    ensures { told result ≡ verdict (part_checks n start tree query) }
{
    if is_outside(n, start, tree) {
        return Err(Refusal::JobPart(0));
    }
    if is_outside(n, start, query) {
        return Err(Refusal::JobPart(1));
    }
    if is_overlap(n, span_of(n, tree), span_of(n, query)) {
        return Err(Refusal::JobOverlap);
    }
    Ok(())
}

// Refusal 1: the file is shorter than its trailer, or too long.
fn is_bad_length(file: &[u8]) -> bool
    ensures { result ≡ bad_length (magic_of file.now) (length file.now) }
{
    let n = file.len();
    if (n < 12) | (4096 < n) {
        return true;
    }
    n < trailer_size(magic_of(file))
}

// The trailer of a file that is long enough for it.
fn trailer_of(file: &[u8]) -> Trailer
    requires { bad_length (magic_of file.now) (length file.now) ≡ false }
    ensures { result ≡ trailer_of file.now }
{
    let magic = magic_of(file);
    trailer_at(file, file.len() - trailer_size(magic), magic)
}

// Refusals 1 to 4.
fn check(file: &[u8]) -> Result<(), Refusal>
    ensures { told result ≡ verdict (file_checks file.now) }
{
    if is_bad_length(file) {
        return Err(Refusal::JobLength);
    }
    let n = file.len();
    let t = trailer_of(file);
    let unknown = (t.magic != PLAIN) & (t.magic != OWNED);
    if unknown {
        return Err(Refusal::JobMark);
    }
    check_parts(n, n - trailer_size(t.magic), t.tree, t.query)
}

// What a file gives, or its refusal. Only its trailer is read.
pub fn open(file: &[u8]) -> Result<Parts, Refusal>
    ensures { opened result ≡ job_of file.now }
{
    check(file)?;
    let n = file.len();
    let t = trailer_of(file);
    Ok(Parts {
        tree: span_of(n, t.tree),
        query: span_of(n, t.query),
        columns: t.columns,
        party: t.party,
        owners: t.magic == OWNED,
    })
}

// The numbers of a part, over the front of a buffer. One turn a number.
pub fn decode(file: &[u8], start: usize, count: usize, out: &mut [u16])
    requires { (start + 2 * count ≤ length file.now) × (count ≤ length out.old) }
    ensures { out.new ≡ numbers file.now start count ++ drop count out.old }
{
    for i in 0..count {
        out[i] = number_at(file, start + 2 * i);
    }
}

// A tree table of two numbers a node as a shared table, over the front of a buffer, and how many numbers that has: every node is common. A
// number too many is kept, so that a bad length stays one. One turn a node.
pub fn widen(table: &[u16], out: &mut [u16]) -> usize
    requires { (length table.now ≤ 2042) × (length out.old ≡ 3072) }
    ensures { Fronts (widened table.now) result out.new }
{
    let n = table.len() / 2;
    for x in 0..n {
        out[3 * x] = table[2 * x];
        out[3 * x + 1] = table[2 * x + 1];
        out[3 * x + 2] = 0;
    }
    if table.len() % 2 == 0 {
        return 3 * n;
    }
    out[3 * n] = table[2 * n];
    3 * n + 1
}
