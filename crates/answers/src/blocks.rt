// Blocks of rows in which the query cannot hold. A block is the rows that begin with the same i numbers. Where every variable at a
// negative place is among the first i, an answer of the block satisfies the query as well with the others standing for any node (crate
// `pruning`: filled); so one evaluation of the query opened so tells that a block is empty.
ghost use Rattle.std.specs.Prelude.{◌≡◌, false, ◌≤◌, take};
ghost use Rattle.model.specs.Tree.{size_of};
ghost use Rattle.model.specs.Answers.{satisfied};
ghost use Rattle.model.specs.Accepted.{Below};
ghost use Rattle.answers.specs.Search.{Lists, Prepared, satisfied_open, ZerosFrom, EmptyBlock};

use super::Plan;
use narrowing::Search;

// The lowest i from `low` on such that the row's numbers from i on, of k, are 0; k where none is. At most k turns.
fn zeros_from(k: usize, low: usize, row: [u16; 3]) -> usize
    requires { k ≤ 3 }
    ensures { ZerosFrom k low row result }
{
    for i in (low..k).rev() {
        if row[i] != 0 {
            return i + 1;
        }
    }
    low.min(k)
}

// The query has a pair where its variables below i have the row's numbers and the others stand for any node. One evaluation.
pub fn goes_on(search: &Search, i: usize, row: [u16; 3]) -> bool
    requires { Lists search.now × Below (size_of search.now.tree.now) (take search.now.k row) }
    ensures { result ≡ satisfied_open search.now.tree.now search.now.query.now search.now.k row i }
{
    let table = opening::open(search.query, i);
    let end = 4 * (search.query.len() / 4 + 2);
    let opened = Search {
        query: &table[..end],
        ..*search
    };
    super::satisfies(&opened, row)
}

impl<'a> Plan<'a> {
    // Behind a row that is no answer: the lowest i, from the bound on, such that the row is the first of the block of those that begin with
    // its first i numbers, and one evaluation shows that block empty; with k the block is the row itself. One evaluation for each block
    // that begins with the row, up to that one: at most k.
    pub fn empty_block(&self, row: [u16; 3]) -> usize
        requires { Prepared self.now
            × (Below (size_of self.now.search.tree.now) (take self.now.search.k row)
            × (satisfied self.now.search.tree.now self.now.search.query.now (take self.now.search.k row) ≡ false)) }
        ensures { EmptyBlock self.now.search.tree.now self.now.search.query.now self.now.search.k result row }
    {
        let first = zeros_from(self.search.k, self.bound, row);
        for i in first..self.search.k {
            if !goes_on(&self.search, i, row) {
                return i;
            }
        }
        self.search.k
    }
}
