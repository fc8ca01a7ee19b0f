// The checks of the input, by the first letter of their line.
use super::counts::Counts;
use super::queries::Growth;
use super::{calls, queries, results};
use harness::line::Line;
use harness::tally::Tally;
use reference::random::Seed;

// queries SEED COUNT | LEAST MOST ENTRIES: so many shared tables, of LEAST to MOST nodes, and queries from a seed
// joined SEED COUNT | LEAST MOST | LEAST MOST: the same with deep queries of LEAST to MOST leaves
fn run_random(tally: &mut Tally, counts: &mut Counts, line: &Line, growth: Growth) {
    let mut pairs = [0u8; 4194304];
    let mut seed = Seed::new(line.number(0, 0));
    for _ in 0..line.number(0, 1) {
        queries::run(tally, counts, &mut seed, line, growth, &mut pairs);
    }
}

// Runs a line.
fn run_line(tally: &mut Tally, counts: &mut Counts, bytes: &[u8]) {
    tally.next_line();
    let line = Line::read(bytes);
    match bytes.first().copied() {
        Some(b'=') => tally.end_part(bytes),
        Some(b'r') => calls::run(tally, &line),
        Some(b'i') => results::run(tally, &line),
        Some(b'q') => run_random(tally, counts, &line, Growth::Free),
        Some(b'j') => run_random(tally, counts, &line, Growth::Joined),
        Some(b'e') => counts.expect_all(tally, line.number(0, 0), line.number(0, 1)),
        _ => (),
    }
}

pub fn run_all(text: &[u8]) {
    let mut tally = Tally::new();
    let mut counts = Counts::new();
    for bytes in text.split_inclusive(|b| *b == b'\n') {
        run_line(&mut tally, &mut counts, bytes);
    }
    counts.show_all();
    tally.show_all();
}
