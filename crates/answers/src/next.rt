// The next answer among all rows.
ghost use Rattle.std.specs.Prelude.{◌≡◌, true, take};
ghost use Rattle.model.specs.Tree.{size_of};
ghost use Rattle.model.specs.Answers.{less, keep, all_rows, satisfied};
ghost use Rattle.model.specs.Pages.{row_of, has_begun, after};
ghost use Rattle.model.specs.Accepted.{Below};
ghost use Rattle.answers.specs.Search.{ahead, answers_by, Stands, Prepared};

use super::{Plan, rows};

impl<'a> Plan<'a> {
    // The first answer at or after a spot. A row is tried before the blocks that begin with it, so that a list in which every row is an
    // answer pays nothing for blocks. One evaluation for each row that is tried, and where it is no answer one for each block that begins
    // with it, up to one that is left out. So a query that holds nowhere is told after its first row and one evaluation more, where no
    // variable stands at a negative place.
    fn seek(&self, spot: Option<[u16; 3]>) -> Option<[u16; 3]>
        requires { Prepared self.now × Stands (size_of self.now.search.tree.now) self.now.search.k spot }
        ensures { ahead self.now.search.k (answers_by self.now.search) result
            ≡ keep (satisfied self.now.search.tree.now self.now.search.query.now)
            (ahead self.now.search.k (all_rows (size_of self.now.search.tree.now) self.now.search.k) spot) }
    {
        let n = self.search.tree.len() / 2;
        let k = self.search.k;
        let mut at = spot;
        while let Some(row) = at {
            if self.search.holds(self.within, &self.left, row) {
                return at;
            }
            let i = self.empty_block(row);
            at = rows::beyond(n, k, i, row);
        }
        None
    }

    // The first answer after a row.
    pub fn answer_after(&self, row: [u16; 3]) -> Option<[u16; 3]>
        requires { Prepared self.now
            × Below (size_of self.now.search.tree.now) (take self.now.search.k row) }
        ensures { ahead self.now.search.k (answers_by self.now.search) result
            ≡ keep (less (take self.now.search.k row)) (answers_by self.now.search) }
    {
        let k = self.search.k;
        self.seek(rows::beyond(self.search.tree.len() / 2, k, k, row))
    }

    // The first answer after a cursor's row, or the first of all.
    pub fn first_answer(&self, cursor: model::Cursor) -> Option<[u16; 3]>
        requires { Prepared self.now
            × (has_begun cursor ≡ true
            → Below (size_of self.now.search.tree.now) (row_of self.now.search.k cursor)) }
        ensures { ahead self.now.search.k (answers_by self.now.search) result
            ≡ after self.now.search.k (answers_by self.now.search) cursor }
    {
        self.seek(rows::start(self.search.tree.len() / 2, self.search.k, cursor))
    }
}
