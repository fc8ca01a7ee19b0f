// The program: the job file on standard input to its pick list on standard output (document 01: 'The job file'). What is
// printed is decided in `output`; this crate moves bytes. It stops at the first read or write that fails, and tells how it
// went as a status: 0 for a list, 1 for a refused job, 2 for a failed read or write.
#![tactic(auto)]

mod streams;

ghost use Rattle.output.specs.Output.{job_verdict};
ghost use Rattle.picklist.specs.Status.{status_of, Tells};
ghost use Rattle.std.specs.Prelude.{◌≡◌};

use std::env::{Env, FillError};
use std::fs::OpenOptions;
use std::io::Write;
use std::time::Clock;

// The status of a job whose output was written whole.
fn status(reply: model::Reply) -> u8
    ensures { result ≡ status_of reply }
{
    if reply.number == 0 { b'0' } else { b'1' }
}

// Writes the output of a file, piece by piece. It ends, since a piece that is not the last leaves fewer to come.
fn print<W: Write>(clock: &impl Clock, to: &mut W, file: &[u8]) -> u8
    ensures { Tells (job_verdict file.now) result }
{
    let mut out = [0; 18432];
    let mut at = output::start();
    loop {
        let piece = output::next_piece(file, at, &mut out);
        if !streams::write_whole(clock, to, &out[..piece.count]) {
            return b'2';
        }
        if piece.last {
            return status(piece.reply);
        }
        at = piece.next;
    }
}

// Reads one byte more than a job file may have, so that a file that is too long is seen to be. A read that fails is no job file.
fn run(rt: &HostRuntime) -> u8 {
    let mut file = [0; 4097];
    match streams::read_whole(rt, &mut rt.stdin(), &mut file) {
        Ok(n) => print(rt, &mut rt.stdout(), &file[..n]),
        Err(_) => b'2',
    }
}

// Whether the program has an argument.
fn has_argument(env: &impl Env) -> bool {
    let mut front = [0; 1];
    match env.arg(1, &mut front) {
        Err(FillError::NotPresent) => false,
        _ => true,
    }
}

// Writes the status as a line to descriptor 3, which std reaches by its name alone.
fn tell(rt: &HostRuntime, status: u8) {
    if let Ok(mut told) = OpenOptions::new().append(true).open(rt, "/dev/fd/3") {
        streams::write_whole(rt, &mut told, &[status, b'\n']);
    }
}

// The status goes as a line to descriptor 3, only where an argument says that somebody opened it.
fn main(rt: HostRuntime) {
    let status = run(&rt);
    if has_argument(&rt) {
        tell(&rt, status);
    }
}
