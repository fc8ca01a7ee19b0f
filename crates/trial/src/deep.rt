// Deep queries: images and pairs, as bytes and as bits, compared with the reference evaluator. Their pairs are not asked of the engine over sets:
// each set operation, closure and `same` that stands in another takes it n times as long.
use super::bit_pairs;
use super::call::{self, PATTERN};
use super::compare::{accepted_pairs, compare_images, lent};
use harness::line::Line;
use harness::shared::Shared;
use harness::table::Cells;
use harness::tally::{Sum, Tally};
use reference::bearing::{Part, decides};
use reference::evaluator::{Asked, Pairs, fill, outcome};
use reference::random::{Seed, make_nodes, make_tree, maybe_document};
use reference::{owning, shapes};

// The image of a random set each way, and the pairs as bytes. The seed is a copy, so that the queries that come next do not depend on it.
fn compare_services(
    tally: &mut Tally,
    seed: Seed,
    shared: &Shared,
    asked: &Asked,
    pairs: &Pairs,
    cells: &Cells,
) {
    let mut own = seed;
    compare_images(tally, &mut own, shared, asked, pairs);
    let c = accepted_pairs(&mut own, asked);
    call::compare_pairs(tally, c, lent(shared, asked), cells);
}

// All results of a deep query over a tree that a party sees.
fn compare_all(
    tally: &mut Tally,
    seed: &mut Seed,
    shared: &Shared,
    asked: &Asked,
    pairs: &mut Pairs,
) {
    let mut cells = [PATTERN; 66560];
    let n = asked.tree.size();
    fill(pairs, asked);
    let found = outcome(pairs, asked, false).all_pairs(&mut cells);
    tally.add(Sum::Pairs, found as u64);
    tally.add(Sum::Deep, 1);
    tally.count(Sum::Mixed, (0 < found) & (found < n.wrapping_mul(n)));
    bit_pairs::compare_table(tally, seed, lent(shared, asked), n, &cells);
    compare_services(tally, *seed, shared, asked, pairs, &cells);
    tally.count(Sum::Deciding, decides(pairs, asked, found, Part::Closure));
}

// One deep query over one tree that a party sees, as a line asks for, LEAST MOST nodes | LEAST MOST leaves, under a random assignment.
pub fn run(tally: &mut Tally, seed: &mut Seed, line: &Line, pairs: &mut Pairs) {
    let n = seed.within(line, 1, 0);
    let leaves = seed.within(line, 2, 0);
    let columns = seed.below(4);
    let mut tree = make_tree(seed, n);
    maybe_document(seed, &mut tree);
    let party = seed.between(1, 2);
    let shared = owning::hide_around(seed, &tree, party);
    let query = shapes::make(seed, leaves, columns);
    let nodes = make_nodes(seed, columns, n);
    let asked = Asked {
        tree: &tree,
        query: &query,
        nodes: &nodes,
    };
    compare_all(tally, seed, &shared, &asked, pairs);
}
