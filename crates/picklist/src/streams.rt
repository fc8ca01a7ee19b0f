// Whole buffers from readers and to writers, whatever one call moves. After a call that moved a part, or that a signal ended
// before it moved a byte, comes the next; where a descriptor that does not wait has nothing or no room now, the program waits a
// little and tries again; any other failure ends it, so that nothing is written behind a gap.
ghost use Rattle.std.specs.Prelude.{MatchResult};
ghost use Rattle.io.specs.Counts.{IsPrefixLen};

use std::io;
use std::io::{Error, ErrorKind, Read, Write};
use std::time::{Clock, Duration};

// Lets a millisecond pass: there is no call that waits for a descriptor.
fn pause(clock: &impl Clock) {
    clock.sleep(Duration::from_millis(1));
}

// Whether the call that failed with this error is to be made again.
fn again(clock: &impl Clock, error: &Error) -> bool {
    let kind = error.kind();
    if kind == ErrorKind::Interrupted {
        return true;
    }
    if kind != ErrorKind::WouldBlock {
        return false;
    }
    pause(clock);
    true
}

// Whether to go on after what a read or a write has just answered.
fn goes_on(clock: &impl Clock, answer: &io::Result<usize>) -> bool {
    match answer {
        Ok(n) => *n > 0,
        Err(error) => again(clock, error),
    }
}

// How many bytes of the buffer that it was lent a read or a write has moved: none where it failed.
fn count(answer: &io::Result<usize>, buf: &[u8]) -> usize
    ensures { IsPrefixLen result buf.now }
{
    match answer {
        Ok(n) => (*n).min(buf.len()),
        Err(_) => 0,
    }
}

// Writes all of buf, or stops at the first write that fails or takes nothing, and tells which. A proved loop has to end, and
// nothing says that a descriptor ever has room. So the loops here have a number of turns that no run uses up.
pub fn write_whole<W: Write>(clock: &impl Clock, to: &mut W, buf: &[u8]) -> bool {
    let mut done = 0;
    for _ in 0..u64::MAX {
        let rest = &buf[done..];
        if rest.is_empty() {
            return true;
        }
        let put = to.write(rest);
        if !goes_on(clock, &put) {
            return false;
        }
        done += count(&put, rest);
    }
    false
}

// Reads until buf is full or the input ends, and tells how many bytes came; or how many came before a read failed.
pub fn read_whole<R: Read>(clock: &impl Clock, from: &mut R, buf: &mut [u8]) -> Result<usize, usize>
    ensures { MatchResult result (λ n. IsPrefixLen n buf.new) (λ n. IsPrefixLen n buf.new) }
{
    let mut done = 0;
    for _ in 0..u64::MAX {
        if done == buf.len() {
            return Ok(done);
        }
        let got = from.read(&mut buf[done..]);
        if !goes_on(clock, &got) {
            return if got.is_ok() { Ok(done) } else { Err(done) };
        }
        done += count(&got, &buf[done..]);
    }
    Err(done)
}
