// What an accepted call writes over the front of a buffer.
ghost use Rattle.std.specs.Prelude.{◌≡◌, ◌++◌, ◌*◌, ◌≤◌, length, drop};
ghost use Rattle.model.specs.Tree.{size_of};
ghost use Rattle.checks.specs.Tables.{Tables};
ghost use Rattle.relations.specs.Services.{pairs_words};

use crate::table::Evaluation;
use model::Call;

// All pairs of the query, made in the buffer itself. No accepted query needs more than five tables aside.
pub fn pairs_into(tree: &[u16], query: &[u16], nodes: &[u16], to: &mut [u64])
    requires { Tables tree.now query.now nodes.now
        × (4 * size_of tree.now ≤ length to.old) }
    ensures { to.new
        ≡ pairs_words tree.now query.now nodes.now
        ++ drop (4 * size_of tree.now) to.old }
{
    let prev = tree::previous_siblings(tree);
    let call = Call {
        tree,
        prev: &prev,
        query,
        nodes,
    };
    let evaluation = Evaluation {
        call: &call,
        counts: aside::counts(query),
    };
    let last = query.len() / 4 - 1;
    evaluation.table(evaluation.room(last), last, to);
}
