// The second engine: a query's pairs as a table of bits, made by operations on whole tables. The tree is an accepted one;
// all else that is malformed is refused, and then the buffer is left as it was.
#![tactic(auto)]

pub mod table;
pub mod write;

ghost use Rattle.std.specs.Prelude.{◌≡◌};
ghost use Rattle.model.specs.Refusals.{told, verdict};
ghost use Rattle.model.specs.Accepted.{AcceptedTree};
ghost use Rattle.relations.specs.Services.{bit_pairs_checks, BitPairsLeave};

use model::Refusal;

// The checks 5 to 17 and 20, for a buffer of so many words.
fn check_pairs(
    tree: &[u16],
    query: &[u16],
    columns: usize,
    nodes: &[u16],
    room: usize,
) -> Result<(), Refusal>
    requires { AcceptedTree tree.now }
    ensures { told result ≡ verdict (bit_pairs_checks tree.now query.now columns nodes.now room) }
{
    checks::check_tables(tree, query, columns, nodes)?;
    checks::check_room(room, 4 * (tree.len() / 2))
}

// All pairs of the query, a bit a pair: four words a row, the lowest word and bit first, bits at and beyond n 0. A step costs a few
// passes over the n rows, and so does a filter; a set operation and a `same` one pass over the words; a star at most n passes over them;
// two tables are composed only where a set operation or a star stands left in a composition, or where there is no room to apply the left
// operand, in four words for each pair of the left one.
pub fn pairs(
    tree: &[u16],
    query: &[u16],
    columns: usize,
    nodes: &[u16],
    words: &mut [u64],
) -> Result<(), Refusal>
    requires { AcceptedTree tree.now }
    ensures { BitPairsLeave tree.now query.now
        columns nodes.now words.old
        (told result) words.new }
{
    check_pairs(tree, query, columns, nodes, words.len())?;
    write::pairs_into(tree, query, nodes, words);
    Ok(())
}
