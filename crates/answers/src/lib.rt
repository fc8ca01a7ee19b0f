// The answers of a query, page by page (document 01: the pages of a pick list). A call checks all that it is lent, and then
// looks at the rows after the cursor's, in their order, until it has found one answer more than there is room for. A row is tried by one
// evaluation of what the variables decide of the query; what stands before and behind that is evaluated once a call for all rows (crate
// `narrowing`). Behind a row that is no answer, whole blocks of rows are left out in which the query cannot hold (module `blocks`). At
// worst, where no block is left out, n to the power of the number of variables rows are tried.
#![tactic(auto)]

mod blocks;
mod next;
mod rows;

ghost use Rattle.std.specs.Prelude.{◌≡◌, true, ◌&&◌, ◌+◌, ◌≤◌, length, take, ltb, Option};
ghost use Rattle.std.proofs.Math.Seq.{paste};
ghost use Rattle.model.specs.Tree.{size_of};
ghost use Rattle.model.specs.Answers.{satisfied};
ghost use Rattle.model.specs.Pages.{row_of, has_begun, at_row, paged};
ghost use Rattle.model.specs.QueryTable.{entries_of};
ghost use Rattle.model.specs.Refusals.{told_page, cursor_after};
ghost use Rattle.model.specs.Accepted.{AcceptedTree, Below, Formed};
ghost use Rattle.nesting.specs.Nesting.{deep};
ghost use Rattle.model.specs.Services.{page_outcome, PageLeaves};
ghost use Rattle.narrowing.specs.Narrowing.{Searches, entry_of, Within};
ghost use Rattle.answers.specs.Search.{Lists, Prepared, answers_by, page_of};

pub use blocks::goes_on;
use narrowing::{Narrowed, Search};

// How the rows of a page are tried: by what search, of how many variables; what of the query the variables decide (crate `narrowing`), and
// whether that is evaluated by whole tables; and how many variables must be bound before rows can be left out (crate `pruning`).
#[derive(Drop)]
struct Plan<'a> {
    search: Search<'a>,
    left: Narrowed,
    within: bool,
    bound: usize,
}

// The query has a pair under the row, from any start: the forward image of all nodes is not empty. One evaluation.
pub fn satisfies(search: &Search, row: [u16; 3]) -> bool
    requires { Searches search.now × Below (size_of search.now.tree.now) (take search.now.k row) }
    ensures { result ≡ satisfied search.now.tree.now search.now.query.now (take search.now.k row) }
{
    let n = search.tree.len() / 2;
    let last = search.query.len() / 4 - 1;
    let call = model::Call {
        tree: search.tree,
        prev: search.prev,
        query: search.query,
        nodes: &row[..search.k],
    };
    let mut found = 0;
    engines::image(&call, search.whole, last, false, sets::full(n), &mut found);
    found != 0
}

// A page of them.

// A row is written to a buffer, from a place on.
pub fn write_row(k: usize, row: [u16; 3], rows: &mut [u16], at: usize)
    requires { (k ≤ 3) × (at + k ≤ length rows.old) }
    ensures { rows.new ≡ paste rows.old at row k }
{
    rows[at..at + k].copy_from_slice(&row[..k]);
}

// The cursor at a row of k numbers; its other numbers are kept.
pub fn cursor_at(k: usize, cursor: model::Cursor, row: [u16; 3]) -> model::Cursor
    requires { (1 ≤ k) × (k ≤ 3) }
    ensures { result ≡ at_row cursor (take k row) }
{
    let second = if 1 < k { row[1] } else { cursor.second };
    let third = if 2 < k { row[2] } else { cursor.third };
    model::Cursor {
        begun: 1,
        first: row[0],
        second,
        third,
    }
}

impl<'a> Plan<'a> {
    // The answers after a cursor are written to a buffer, as many as it has whole room for, and one more is looked for, to tell
    // whether there is one.
    fn write_page(&self, cursor: model::Cursor, rows: &mut [u16]) -> model::Page
        requires { Prepared self.now
            × (has_begun cursor ≡ true
            → Below (size_of self.now.search.tree.now) (row_of self.now.search.k cursor)) }
        ensures { PageLeaves (paged self.now.search.k (answers_by self.now.search) cursor rows.old)
            (page_of result.count result.more result.cursor).reply result.cursor rows.new }
    {
        let k = self.search.k;
        let room = rows.len() / k;
        let mut at = self.first_answer(cursor);
        let mut last = cursor;
        let mut count = 0;
        while let Some(row) = at {
            if count == room {
                return model::Page {
                    count: room,
                    more: true,
                    cursor: last,
                };
            }
            write_row(k, row, rows, count * k);
            last = cursor_at(k, last, row);
            count += 1;
            at = self.answer_after(row);
        }
        model::Page {
            count,
            more: false,
            cursor: last,
        }
    }
}

// Whether what is left of a query still nests: where the nest was evaluated once for all rows, a row goes over sets.
fn still_nests(query: &[u16], whole: bool, entry: Option<usize>) -> bool
    requires { Formed query.now × ((entries_of query.now ≤ 66) × Within query.now entry) }
    ensures { result ≡ whole && (ltb (entry_of query.now entry) (entries_of query.now)
        && deep query.now (entry_of query.now entry)) }
{
    let Some(e) = entry else {
        return false;
    };
    if !whole {
        return false;
    }
    nesting::nests_at(query, e)
}

// The page, of a query that is first looked at once for all rows: what of it no variable decides, and from which variable on blocks can be
// left out.
fn prepare_page(search: &Search, cursor: model::Cursor, rows: &mut [u16]) -> model::Page
    requires { Lists search.now
        × (has_begun cursor ≡ true → Below (size_of search.now.tree.now) (row_of search.now.k cursor)) }
    ensures { PageLeaves (paged search.now.k (answers_by search.now) cursor rows.old)
        (page_of result.count result.more result.cursor).reply result.cursor rows.new }
{
    let bound = pruning::bound(search.query);
    let left = search.narrow();
    let within = still_nests(search.query, search.whole, left.entry);
    let plan = Plan {
        search: *search,
        left,
        within,
        bound,
    };
    plan.write_page(cursor, rows)
}

// The page after a cursor over an accepted tree, by value: how many rows, whether there are more, and the cursor after them. The query is
// checked, its engine chosen, and the previous siblings found, once a call.
pub fn page_from(
    tree: &[u16],
    query: &[u16],
    columns: usize,
    cursor: model::Cursor,
    rows: &mut [u16],
) -> Result<model::Page, model::Refusal>
    requires { AcceptedTree tree.now }
    ensures { PageLeaves (page_outcome tree.now query.now columns cursor rows.old)
        (told_page result) (cursor_after cursor result) rows.new }
{
    checks::check_page(tree, query, columns, cursor, rows.len())?;
    let prev = tree::previous_siblings(tree);
    let search = Search {
        tree,
        prev: &prev,
        query,
        whole: nesting::nests(query),
        k: columns,
    };
    Ok(prepare_page(&search, cursor, rows))
}
