// The program's lines of output, written into a buffer from a place on. Each function gives the place after what it wrote.
#![tactic(auto)]

ghost use Rattle.std.specs.Prelude.{◌≡◌, cond, [], ◌∷◌, ◌+◌, ◌*◌, ◌≤◌, ◌<◌, length};
ghost use Rattle.lines.specs.Lines.{decimal, field, row_line, row_lines, end_line, refused_line, Wrote};

// One byte.
fn put_byte(out: &mut [u8], at: usize, byte: u8) -> usize
    requires { at < length out.old }
    ensures { Wrote (byte ∷ []) at out.old out.new result }
{
    out[at] = byte;
    at + 1
}

// A number in decimal, by recursion: one call a digit.
fn put_decimal(out: &mut [u8], at: usize, n: usize) -> usize
    requires { at + length (decimal n) ≤ length out.old }
    ensures { Wrote (decimal n) at out.old out.new result }
{
    if n < 10 {
        return put_byte(out, at, b'0' + n as u8);
    }
    let next = put_decimal(out, at, n / 10);
    put_byte(out, next, b'0' + (n % 10) as u8)
}

// A number, and the byte that follows it.
fn put_field(out: &mut [u8], at: usize, n: usize, byte: u8) -> usize
    requires { at + length (field n byte) ≤ length out.old }
    ensures { Wrote (field n byte) at out.old out.new result }
{
    let next = put_decimal(out, at, n);
    put_byte(out, next, byte)
}

// The bytes of a slice.
fn put_bytes(out: &mut [u8], at: usize, bytes: &[u8]) -> usize
    requires { at + length bytes.now ≤ length out.old }
    ensures { Wrote bytes.now at out.old out.new result }
{
    let end = at + bytes.len();
    out[at..end].copy_from_slice(bytes);
    end
}

// What follows a number of a row.
fn separator(more: bool) -> u8
    ensures { result ≡ cond more 32 10 }
{
    if more { b' ' } else { b'\n' }
}

// The line of a row. One turn a number.
fn row_line(out: &mut [u8], at: usize, row: &[u16]) -> usize
    requires { at + length (row_line row.now) ≤ length out.old }
    ensures { Wrote (row_line row.now) at out.old out.new result }
{
    let mut next = at;
    for (i, x) in row.iter().enumerate() {
        next = put_field(out, next, usize::from(*x), separator(i + 1 < row.len()));
    }
    next
}

// The lines of the first `count` rows of k numbers. A number takes at most six bytes with what follows it.
pub fn row_lines(out: &mut [u8], at: usize, rows: &[u16], k: usize, count: usize) -> usize
    requires { (count * k ≤ length rows.now) × (at + 6 * (count * k) ≤ length out.old) }
    ensures { Wrote (row_lines k count rows.now) at out.old out.new result }
{
    let mut next = at;
    let mut rest = rows;
    for _ in 0..count {
        let (row, after) = rest.split_at(k);
        next = row_line(out, next, row);
        rest = after;
    }
    next
}

// The line after the rows, with their number.
pub fn end_line(out: &mut [u8], at: usize, n: usize) -> usize
    requires { at + 25 ≤ length out.old }
    ensures { Wrote (end_line n) at out.old out.new result }
{
    let word = put_bytes(out, at, b"end ");
    put_field(out, word, n, b'\n')
}

// The one line of a refused job.
pub fn refused_line(out: &mut [u8], at: usize, reply: model::Reply) -> usize
    requires { at + 20 ≤ length out.old }
    ensures { Wrote (refused_line reply.number reply.place) at out.old out.new result }
{
    let number = model::wide(reply.number);
    let place = model::wide(reply.place);
    let word = put_bytes(out, at, b"refused ");
    let next = put_field(out, word, number, b' ');
    put_field(out, next, place, b'\n')
}
