// The test program of the reader of typed queries. It runs the checks that its standard input lists, one to a line, and writes
// how many comparisons each part made and how many of them failed. The input says what a line holds.
#![tactic(auto)]

mod call;
mod counts;
mod fixed;
mod random_texts;
mod run;

fn main() {
    let mut text = io::large_buffer();
    let length = io::read_full(0, &mut text);
    run::run_all(&text[..length]);
}
