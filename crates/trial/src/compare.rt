// Random shared tables, queries and sets: the services compared with the reference evaluator on the tree that a party sees.
use super::call::{self, Call, Lent, PATTERN, Service};
use super::{bit_pairs, views};
use harness::line::Line;
use harness::shared::Shared;
use harness::table::Cells;
use harness::tally::{Sum, Tally};
use reference::evaluator::{Asked, Pairs, fill, outcome};
use reference::query::Query;
use reference::random::{Seed, make_both, make_nodes, make_set};
use reference::{bearing, owning, seeing};

// A call that is accepted, with a set of so many bytes, and room for as many as are needed or a few more; so many nodes are
// due where the result is a set.
pub fn accepted(
    seed: &mut Seed,
    service: Service,
    columns: usize,
    set: usize,
    needed: usize,
    count: usize,
) -> Call {
    Call {
        service,
        columns,
        set,
        room: needed.wrapping_add(seed.below(3)),
        due: call::counting(count),
    }
}

// The image of a random set, forwards or backwards, and its count.
fn compare_image(
    tally: &mut Tally,
    seed: &mut Seed,
    shared: &Shared,
    asked: &Asked,
    pairs: &Pairs,
    service: Service,
) {
    let mut set = [0u8; 512];
    let mut due = [PATTERN; 512];
    let n = asked.tree.size();
    make_set(seed, &mut set, n);
    let back = service == Service::Backwards;
    let found = outcome(pairs, asked, back).image(&set, &mut due);
    tally.add(Sum::Nodes, found as u64);
    let c = accepted(seed, service, asked.nodes.length(), n, n, found);
    call::compare_set(tally, c, lent(shared, asked), &set, &due);
}

// The image of a random set each way.
pub fn compare_images(
    tally: &mut Tally,
    seed: &mut Seed,
    shared: &Shared,
    asked: &Asked,
    pairs: &Pairs,
) {
    compare_image(tally, seed, shared, asked, pairs, Service::Forwards);
    compare_image(tally, seed, shared, asked, pairs, Service::Backwards);
}

// What the services are lent.
pub fn lent<'a>(shared: &'a Shared, asked: &Asked<'a>) -> Lent<'a> {
    Lent {
        shared,
        query: asked.query,
        nodes: asked.nodes,
    }
}

// A call for the table of all pairs that is accepted.
pub fn accepted_pairs(seed: &mut Seed, asked: &Asked) -> Call {
    let n = asked.tree.size();
    let columns = asked.nodes.length();
    accepted(seed, Service::Pairs, columns, 0, n.wrapping_mul(n), 0)
}

// The same pairs in bits, and a call for them with a fault. The seed is a copy, so that the trees that come next do not depend on it.
fn compare_bits(tally: &mut Tally, seed: Seed, lent: Lent, n: usize, cells: &Cells) {
    let mut own = seed;
    bit_pairs::compare_table(tally, &mut own, lent, n, cells);
    bit_pairs::refuse(tally, &mut own, lent, n);
}

// The image of a random set each way, and the table of all pairs, as bytes by both engines, and as bits; answers how many pairs there
// are.
fn compare_all(
    tally: &mut Tally,
    seed: &mut Seed,
    shared: &Shared,
    asked: &Asked,
    pairs: &Pairs,
) -> usize {
    compare_images(tally, seed, shared, asked, pairs);
    let mut due = [PATTERN; 66560];
    let found = outcome(pairs, asked, false).all_pairs(&mut due);
    tally.add(Sum::Pairs, found as u64);
    let lent = lent(shared, asked);
    let c = accepted_pairs(seed, asked);
    call::compare_engines(tally, c, lent, &due);
    compare_bits(tally, *seed, lent, asked.tree.size(), &due);
    found
}

// What a party sees, and all results of a query over that, under a random assignment; and the same calls with another table of which it
// sees the same tree.
fn run_for(
    tally: &mut Tally,
    seed: &mut Seed,
    shared: &Shared,
    query: &Query,
    columns: usize,
    pairs: &mut Pairs,
) {
    let tree = seeing::make(shared);
    seeing::count(tally, shared);
    let twin = owning::make_twin(seed, &tree, shared);
    views::compare_rooms(tally, seed, shared, &tree);
    let nodes = make_nodes(seed, columns, tree.size());
    let asked = Asked {
        tree: &tree,
        query,
        nodes: &nodes,
    };
    fill(pairs, &asked);
    let mut again = *seed;
    compare_all(tally, seed, shared, &asked, pairs);
    let found = compare_all(tally, &mut again, &twin, &asked, pairs);
    bearing::count(tally, pairs, &asked, found);
}

// One table and one query that a line asks for, and each party.
pub fn run(tally: &mut Tally, seed: &mut Seed, line: &Line, pairs: &mut Pairs) {
    let made = make_both(seed, line, false);
    let shared = owning::lay(seed, &made.tree);
    for party in 1..3 {
        let own = shared.with_party(party);
        run_for(tally, seed, &own, &made.query, made.columns, pairs);
    }
}
