// The test program of the reversed query. It runs the checks that its standard input lists, one to a line, and writes how many
// comparisons each part made and how many of them failed. The input says what a line holds.
#![tactic(auto)]

mod calls;
mod counts;
mod queries;
mod results;
mod run;

fn main() {
    let mut text = io::large_buffer();
    let length = io::read_full(0, &mut text);
    run::run_all(&text[..length]);
}
