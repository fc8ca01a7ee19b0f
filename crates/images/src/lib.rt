// Evaluation over an accepted tree: the nodes that a set reaches by a query or that reach it, and the relation table of all pairs. All else
// that is malformed is refused, and then the buffer is left as it was.
#![tactic(auto)]

mod rows;
mod write;

ghost use Rattle.model.specs.Accepted.{AcceptedTree};
ghost use Rattle.model.specs.Refusals.{told, told_counting};
ghost use Rattle.model.specs.Services.{ImageLeaves, PairsLeave};

use model::Refusal;

// The image of a node set under the query, or under its converse where back is set, and how many nodes it has. One evaluation: O(entries
// × n) for a query without intersect, except, star and `same`, up to n times that where it has some that do not nest (crate nesting), and
// else what pairs in bits cost (relations::pairs).
pub fn image(
    tree: &[u16],
    query: &[u16],
    columns: usize,
    nodes: &[u16],
    back: bool,
    from: &[u8],
    to: &mut [u8],
) -> Result<usize, Refusal>
    requires { AcceptedTree tree.now }
    ensures { ImageLeaves tree.now query.now
        columns nodes.now back from.now to.old
        (told_counting result) to.new }
{
    match checks::check_image(tree, query, columns, nodes, from, to.len()) {
        Ok(()) => {
            let count = write::image_into(tree, query, nodes, back, from, to);
            Ok(count)
        }
        Err(e) => Err(e),
    }
}

// All pairs of the query: (x, y) stands at x × n + y. As pairs in bits (relations::pairs), and one pass over the n × n bytes.
#[tactic(auto, using(crate::proofs::Tables::pairs_refused))]
pub fn pairs(
    tree: &[u16],
    query: &[u16],
    columns: usize,
    nodes: &[u16],
    table: &mut [u8],
) -> Result<(), Refusal>
    requires { AcceptedTree tree.now }
    ensures { PairsLeave tree.now query.now
        columns nodes.now table.old
        (told result) table.new }
{
    checks::check_pairs(tree, query, columns, nodes, table.len())?;
    write::pairs_into(tree, query, nodes, table);
    Ok(())
}

// The same by the engine over sets, one evaluation for each of the n start nodes: kept so that the two engines can be compared. A function
// that both share would take the writer, and be no shorter than the two calls here.
#[tactic(auto, using(crate::proofs::Tables::pairs_refused))]
pub fn pairs_by_rows(
    tree: &[u16],
    query: &[u16],
    columns: usize,
    nodes: &[u16],
    table: &mut [u8],
) -> Result<(), Refusal>
    requires { AcceptedTree tree.now }
    ensures { PairsLeave tree.now query.now
        columns nodes.now table.old
        (told result) table.new }
{
    checks::check_pairs(tree, query, columns, nodes, table.len())?;
    rows::pairs_into(tree, query, nodes, table);
    Ok(())
}
