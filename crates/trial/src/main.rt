// The test program. It runs the checks that its standard input lists, one to a line, and writes how many comparisons each
// part made and how many of them failed; a comparison that fails has a line of its own. The input says what a line holds.
#![tactic(auto)]

mod bit_pairs;
mod blocks;
mod call;
mod compare;
mod conversions;
mod deep;
mod indexes;
mod kept;
mod lookups;
mod pages;
mod paging;
mod run;
mod searches;
mod sparse;
mod views;

fn main() {
    let mut text = io::large_buffer();
    let length = io::read_full(0, &mut text);
    run::run_all(&text[..length]);
}
