// All pairs by the engine over sets: one evaluation for each start node, a row of bytes each. No service goes this way; it is kept so that
// the two engines can be compared.
ghost use Rattle.std.specs.Prelude.{◌≡◌, false, ◌++◌, ◌+◌, ◌*◌, ◌≤◌, ◌<◌, length, take, drop};
ghost use Rattle.model.specs.Sets.{tab, memb, upto};
ghost use Rattle.model.specs.Tree.{size_of};
ghost use Rattle.model.specs.QueryTable.{last_of};
ghost use Rattle.model.specs.Results.{related, pairs_bytes};
ghost use Rattle.steps.specs.Moves.{Linked};
ghost use Rattle.checks.specs.Tables.{Tables};

use model::Call;

// The first n bytes from a place on become the set's; the others stay.
fn put_row(table: &mut [u8], r: [u8; 256], at: usize, n: usize)
    requires { (n ≤ 256) × (at + n ≤ length table.old) }
    ensures { table.new
        ≡ take at table.old ++ (tab n (memb r) ++ drop n (drop at table.old)) }
{
    sets::put(&mut table[at..], r, n);
}

// The nodes that x alone reaches by the query.
fn row(call: &Call, x: usize) -> [u8; 256]
    requires { Tables call.now.tree.now call.now.query.now call.now.nodes.now
        × (Linked call.now.tree.now call.now.prev.now × (x < size_of call.now.tree.now)) }
    ensures { result
        ≡ tab 256 (upto (size_of call.now.tree.now)
        (related call.now.tree.now call.now.query.now call.now.nodes.now (last_of call.now.query.now) false x)) }
{
    let s = sets::single(x);
    let last = call.query.len() / 4 - 1;
    let mut count = 0;
    eval::path(call, last, false, s, &mut count)
}

// All pairs of the query, row after row. A row's start is carried along by adding n, so that no product finds a place: there are
// terminals that multiply slowly. One evaluation for each node.
pub fn pairs_into(tree: &[u16], query: &[u16], nodes: &[u16], table: &mut [u8])
    requires { Tables tree.now query.now nodes.now × (size_of tree.now * size_of tree.now ≤ length table.old) }
    ensures { table.new
        ≡ pairs_bytes tree.now query.now nodes.now
        ++ drop (size_of tree.now * size_of tree.now) table.old }
{
    let n = tree.len() / 2;
    let prev = tree::previous_siblings(tree);
    let call = Call {
        tree,
        prev: &prev,
        query,
        nodes,
    };
    let mut at = 0;
    for x in 0..n {
        let r = row(&call, x);
        put_row(table, r, at, n);
        at += n;
    }
}
