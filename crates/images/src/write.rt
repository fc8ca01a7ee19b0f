// What an accepted evaluation writes over the front of a buffer: an image by the engine that the query's nesting asks for, all pairs by the
// one over bits.
ghost use Rattle.std.specs.Prelude.{◌≡◌, ◌++◌, ◌*◌, ◌≤◌, length, drop};
ghost use Rattle.model.specs.Sets.{ones};
ghost use Rattle.model.specs.Tree.{size_of};
ghost use Rattle.model.specs.Results.{image_bytes, pairs_bytes};
ghost use Rattle.checks.specs.Tables.{Tables};

use model::Call;

// The image of a node set under the query, or under its converse where back is set, and how many nodes it has.
pub fn image_into(
    tree: &[u16],
    query: &[u16],
    nodes: &[u16],
    back: bool,
    from: &[u8],
    to: &mut [u8],
) -> usize
    requires { Tables tree.now query.now nodes.now
        × ((length from.now ≡ size_of tree.now) × (size_of tree.now ≤ length to.old)) }
    ensures { (result ≡ ones (image_bytes tree.now query.now nodes.now back from.now))
        × (to.new
        ≡ image_bytes tree.now query.now nodes.now back from.now
        ++ drop (size_of tree.now) to.old) }
{
    let s = sets::load(from);
    let whole = nesting::nests(query);
    let prev = tree::previous_siblings(tree);
    let call = Call {
        tree,
        prev: &prev,
        query,
        nodes,
    };
    let last = query.len() / 4 - 1;
    let mut count = 0;
    let r = engines::image(&call, whole, last, back, s, &mut count);
    sets::put(to, r, tree.len() / 2);
    count
}

// All pairs of the query: the table of bits, made in an array of this function, and unpacked row after row.
pub fn pairs_into(tree: &[u16], query: &[u16], nodes: &[u16], table: &mut [u8])
    requires { Tables tree.now query.now nodes.now × (size_of tree.now * size_of tree.now ≤ length table.old) }
    ensures { table.new
        ≡ pairs_bytes tree.now query.now nodes.now
        ++ drop (size_of tree.now * size_of tree.now) table.old }
{
    let n = tree.len() / 2;
    let mut words = [0u64; 1024];
    relations::write::pairs_into(tree, query, nodes, &mut words);
    packing::convert::unpack_into(n, &words, table);
}
