// Images and pairs over reversed queries: forwards over one is backwards over the other, and the pairs are swapped, by the engine and by
// the reference evaluator.
use super::calls;
use super::counts::Counts;
use harness::line::Line;
use harness::shared::Shared;
use harness::table::{Cells, Set, Table, at, front, put};
use harness::tally::{ACCEPTED, Sum, Tally};
use model::{ImageReply, Refusal, Reply};
use reference::evaluator::{Asked, Pairs, fill, outcome};
use reference::query::Query;
use reference::random::{Seed, make_nodes, make_set};
use reference::tree::Tree;

// What fills a buffer before a call: no byte that a service writes.
const PATTERN: u8 = 7;

// What is lent beside the query: a shared table with the party that asks, and the node of each variable.
#[derive(Clone, Copy)]
pub struct Lent<'a> {
    pub shared: &'a Shared,
    pub nodes: &'a Table,
}

// An image of a set, forwards or backwards, and how many nodes it has.
#[derive(Clone, Copy)]
struct Image {
    bytes: Set,
    count: usize,
}

// The image of a set.
fn serve(
    lent: Lent,
    query: &Query,
    back: bool,
    set: &[u8],
    to: &mut [u8],
) -> Result<usize, Refusal> {
    let t = lent.shared.numbers();
    let party = lent.shared.party();
    let q = query.numbers();
    let k = lent.nodes.numbers();
    if back {
        return parties::backwards(t, party, q, k.len(), k, set, to);
    }
    parties::forwards(t, party, q, k.len(), k, set, to)
}

// The image of a set by the engine, with the one that is due.
fn compare(tally: &mut Tally, lent: Lent, query: &Query, back: bool, set: &[u8], due: &Image) {
    let mut to = [PATTERN; 512];
    let got = serve(lent, query, back, set, &mut to);
    let reply = ImageReply {
        number: 0,
        place: 0,
        count: due.count,
    };
    tally.expect_counted(ImageReply::from(got), reply);
    tally.expect_bytes(&to, &due.bytes, 256);
}

// A set with both of its images over a query, by the reference evaluator.
#[derive(Drop)]
struct Images {
    n: usize,
    set: Set,
    ahead: Image,
    back: Image,
}

impl Images {
    fn make(seed: &mut Seed, pairs: &Pairs, asked: &Asked) -> Images {
        let mut images = Images {
            n: asked.tree.size(),
            set: [0; 512],
            ahead: Image {
                bytes: [PATTERN; 512],
                count: 0,
            },
            back: Image {
                bytes: [PATTERN; 512],
                count: 0,
            },
        };
        make_set(seed, &mut images.set, images.n);
        let relation = outcome(pairs, asked, false);
        let turned = outcome(pairs, asked, true);
        images.ahead.count = relation.image(&images.set, &mut images.ahead.bytes);
        images.back.count = turned.image(&images.set, &mut images.back.bytes);
        images
    }

    // Both by the engine over a query, where one is due as the other if the query is reversed.
    fn compare(&self, tally: &mut Tally, lent: Lent, query: &Query, turned: bool) {
        let set = front(&self.set, self.n);
        compare(tally, lent, query, turned, set, &self.ahead);
        compare(tally, lent, query, !turned, set, &self.back);
    }
}

// A query, its reversed query and, if there is one, that one's.
#[derive(Drop)]
pub struct Turned {
    pub query: Query,
    pub reversed: Query,
    pub twice: Query,
}

// The pairs of n nodes, swapped: (x, y) becomes (y, x).
fn swap_pairs(cells: &Cells, n: usize, to: &mut Cells) {
    for x in 0..n {
        for y in 0..n {
            let pair = at(cells, x.wrapping_mul(n).wrapping_add(y));
            put(to, y.wrapping_mul(n).wrapping_add(x), pair);
        }
    }
}

// The pairs over a query, by the engine.
fn compare_served(tally: &mut Tally, lent: Lent, query: &Query, due: &Cells, count: usize) {
    let mut got = [PATTERN; 66560];
    let t = lent.shared.numbers();
    let k = lent.nodes.numbers();
    let told = parties::pairs(
        t,
        lent.shared.party(),
        query.numbers(),
        k.len(),
        k,
        &mut got,
    );
    tally.expect_reply(Reply::from(told), ACCEPTED);
    tally.expect_bytes(&got, due, count);
}

// The pairs over the reversed query, by the engine and by the reference evaluator, with those over the query, swapped.
fn compare_pairs(
    tally: &mut Tally,
    lent: Lent,
    asked: &Asked,
    reversed: &Query,
    pairs: &mut Pairs,
) {
    let mut cells = [PATTERN; 66560];
    let mut due = [PATTERN; 66560];
    let mut own = [PATTERN; 66560];
    let n = asked.tree.size();
    let count = n.wrapping_mul(n);
    let found = outcome(pairs, asked, false).all_pairs(&mut cells);
    tally.add(Sum::Pairs, found as u64);
    swap_pairs(&cells, n, &mut due);
    compare_served(tally, lent, reversed, &due, count);
    let asked_back = Asked {
        query: reversed,
        ..*asked
    };
    fill(pairs, &asked_back);
    outcome(pairs, &asked_back, false).all_pairs(&mut own);
    tally.expect_bytes(&own, &due, count);
}

// All of these for a party that sees a tree of a shared table, under a random assignment: the images of a random set each way, by the
// reference evaluator over the query, and by the engine over the query, over its reversed query and, if there is one, over that one's.
pub fn compare_all(
    tally: &mut Tally,
    counts: &mut Counts,
    seed: &mut Seed,
    shared: &Shared,
    tree: &Tree,
    turned: &Turned,
    columns: usize,
    pairs: &mut Pairs,
) {
    let nodes = make_nodes(seed, columns, tree.size());
    let asked = Asked {
        tree,
        query: &turned.query,
        nodes: &nodes,
    };
    let lent = Lent {
        shared,
        nodes: &nodes,
    };
    fill(pairs, &asked);
    let images = Images::make(seed, pairs, &asked);
    counts.count_image(images.ahead.count, images.n);
    counts.count_image(images.back.count, images.n);
    images.compare(tally, lent, &turned.query, false);
    images.compare(tally, lent, &turned.reversed, true);
    if 0 < turned.twice.entries() {
        images.compare(tally, lent, &turned.twice, false);
    }
    compare_pairs(tally, lent, &asked, &turned.reversed, pairs);
}

// image COUNT | TREE | QUERY | NODES | SET | BYTES
pub fn run(tally: &mut Tally, line: &Line) {
    let tree = line.table(1);
    let query = Query {
        table: line.table(2),
    };
    let nodes = line.table(3);
    let shared = Shared::common(&tree).with_party(1);
    let reversed = calls::reverse(&query, nodes.length());
    let mut set = [0u8; 512];
    let mut due = Image {
        bytes: [PATTERN; 512],
        count: line.number(0, 0),
    };
    line.copy_bytes(4, &mut set);
    line.copy_bytes(5, &mut due.bytes);
    let lent = Lent {
        shared: &shared,
        nodes: &nodes,
    };
    let lent_set = front(&set, tree.length() / 2);
    compare(tally, lent, &query, true, lent_set, &due);
    compare(tally, lent, &reversed, false, lent_set, &due);
}
