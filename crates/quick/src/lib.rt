// The answers of a query that keeps the rule of source document 004, page by page (document 02, §7). An answer is found variable by
// variable: with the later variables standing for any node, one evaluation tells whether some answer begins so. At most 6 × n
// evaluations for each row written, and as many to tell whether there is one more. By which engine is decided once a call, since an
// opened query nests as the query does.
#![tactic(auto)]

ghost use Rattle.std.specs.Prelude.{◌≡◌, true, ◌≤◌, ◌<◌, take, eqb};
ghost use Rattle.model.specs.Tree.{size_of};
ghost use Rattle.model.specs.Pages.{row_of, has_begun};
ghost use Rattle.model.specs.Refusals.{refused, told, told_page, told_quick, cursor_after, cursor_after_quick, verdict};
ghost use Rattle.model.specs.Checks.{quick_checks};
ghost use Rattle.model.specs.Accepted.{AcceptedTree, Below};
ghost use Rattle.model.specs.Services.{page_outcome, PageLeaves};
ghost use Rattle.narrowing.specs.Narrowing.{Searches};
ghost use Rattle.quick.specs.Search.{ReadyFor, Nodes, passes, goes_on, some_answer, Seeks, Begins, FirstFrom, Sought, SoughtAfter, no_answer};
ghost use Rattle.quick.specs.Service.{PageWritten, QuickLeaves};

use model::Refusal;
use narrowing::Search;

// The number that was found for a variable, if there is one, and the evaluations made so far.
#[derive(Drop)]
struct Tried {
    number: Option<usize>,
    evaluations: usize,
}

// The answer that was found, if there is one, and the evaluations made so far.
#[derive(Drop)]
struct Found {
    spot: Option<[u16; 3]>,
    evaluations: usize,
}

// Evaluations of the query with variables that stand for any node.

// A query has a pair under the row with v in place of its number i. One evaluation.
fn passes_with(search: &Search, row: [u16; 3], i: usize, v: usize) -> bool
    requires { Searches search.now
        × (Nodes (size_of search.now.tree.now) search.now.k row
        × ((i < search.now.k) × (v < size_of search.now.tree.now))) }
    ensures { result ≡ passes search.now.tree.now search.now.query.now search.now.k row i v }
{
    let mut at = row;
    at[i] = v as u16;
    answers::satisfies(search, at)
}

// The lowest number v, of those from a given one on, with which a query has a pair under the row. At most n evaluations.
fn lowest_passing(search: &Search, row: [u16; 3], i: usize, from: usize, spent: usize) -> Tried
    requires { Searches search.now
        × (Nodes (size_of search.now.tree.now) search.now.k row
        × ((i < search.now.k) × ((from ≤ size_of search.now.tree.now) × (spent ≤ 65536)))) }
    ensures { Seeks (passes search.now.tree.now search.now.query.now search.now.k row i) from
        (size_of search.now.tree.now) spent result }
{
    let mut evaluations = spent;
    for v in from..search.tree.len() / 2 {
        evaluations += 1;
        if passes_with(search, row, i, v) {
            return Tried {
                number: Some(v),
                evaluations,
            };
        }
    }
    Tried {
        number: None,
        evaluations,
    }
}

// The lowest number, of those from a given one on, with which some answer goes on after the first i numbers of the row. The variables
// behind it stand for any node; behind the last there is none, and the query serves as it is. At most n evaluations.
fn lowest_from(search: &Search, row: [u16; 3], i: usize, from: usize, spent: usize) -> Tried
    requires { ReadyFor search.now
        × (Nodes (size_of search.now.tree.now) search.now.k row
        × ((i < search.now.k) × ((from ≤ size_of search.now.tree.now) × (spent ≤ 65536)))) }
    ensures { Seeks (goes_on search.now.tree.now search.now.query.now search.now.k row i) from
        (size_of search.now.tree.now) spent result }
{
    let filled = i + 1;
    let last = filled == search.k;
    if last {
        return lowest_passing(search, row, i, from, spent);
    }
    let table = opening::open(search.query, filled);
    let end = 4 * (search.query.len() / 4 + 2);
    let opened = Search {
        query: &table[..end],
        ..*search
    };
    lowest_passing(&opened, row, i, from, spent)
}

// There is an answer. All variables stand for any node. One evaluation.
fn has_answer(search: &Search) -> bool
    requires { ReadyFor search.now }
    ensures { result ≡ some_answer search.now.tree.now search.now.query.now search.now.k }
{
    answers::goes_on(search, 0, [0, 0, 0])
}

// The next answer.

// The first answer that begins as the first i numbers of the row, of which there is one. At most 3 × n evaluations.
fn fill(search: &Search, row: [u16; 3], i: usize, spent: usize) -> Found
    requires { ReadyFor search.now
        × (Nodes (size_of search.now.tree.now) search.now.k row
        × ((i ≤ search.now.k)
        × (Begins search.now.tree.now search.now.query.now search.now.k i row × (spent ≤ 4096)))) }
    ensures { FirstFrom search.now.tree.now search.now.query.now search.now.k i row spent result }
{
    let mut at = row;
    let mut evaluations = spent;
    for j in i..search.k {
        let t = lowest_from(search, at, j, 0, evaluations);
        at[j] = t.number.unwrap() as u16;
        evaluations = t.evaluations;
    }
    Found {
        spot: Some(at),
        evaluations,
    }
}

// There is no answer left.
fn no_answer(evaluations: usize) -> Found
    ensures { result ≡ no_answer evaluations }
{
    Found {
        spot: None,
        evaluations,
    }
}

// The first answer after a row. From the last variable to the first, a higher number is sought with which some answer goes on; the
// later variables are then filled. At most 6 × n evaluations.
fn answer_after(search: &Search, row: [u16; 3]) -> Found
    requires { ReadyFor search.now × Below (size_of search.now.tree.now) (take search.now.k row) }
    ensures { Sought search.now.tree.now search.now.query.now search.now.k row result }
{
    let mut evaluations = 0;
    for i in (0..search.k).rev() {
        let from = model::wide(row[i]) + 1;
        let t = lowest_from(search, row, i, from, evaluations);
        evaluations = t.evaluations;
        if let Some(v) = t.number {
            let mut at = row;
            at[i] = v as u16;
            return fill(search, at, i + 1, evaluations);
        }
    }
    no_answer(evaluations)
}

// The first answer after a cursor's row, or the first of all. At most 6 × n evaluations.
fn first_answer(search: &Search, cursor: model::Cursor) -> Found
    requires { ReadyFor search.now
        × (has_begun cursor ≡ true → Below (size_of search.now.tree.now) (row_of search.now.k cursor)) }
    ensures { SoughtAfter search.now.tree.now search.now.query.now search.now.k cursor result }
{
    let begun = cursor.begun != 0;
    if begun {
        return answer_after(search, [cursor.first, cursor.second, cursor.third]);
    }
    if has_answer(search) {
        return fill(search, [0, 0, 0], 0, 1);
    }
    no_answer(1)
}

// A page of them.

// The answers after a cursor are written to a buffer, as many as it has whole room for, and one more is looked for, to tell
// whether there is one. At most 6 × n evaluations for each row written, and as many for that one. The loop of crate `answers` beside a count
// of evaluations: shared, each would have to promise what the other does of that count.
fn write_page(search: &Search, cursor: model::Cursor, rows: &mut [u16]) -> model::QuickPage
    requires { ReadyFor search.now
        × (has_begun cursor ≡ true → Below (size_of search.now.tree.now) (row_of search.now.k cursor)) }
    ensures { PageWritten search.now.tree.now search.now.query.now search.now.k cursor rows.old result rows.new }
{
    let k = search.k;
    let room = rows.len() / k;
    let first = first_answer(search, cursor);
    let mut at = first.spot;
    let mut evaluations = first.evaluations;
    let mut last = cursor;
    let mut count = 0;
    while let Some(row) = at {
        if count == room {
            let page = model::Page {
                count: room,
                more: true,
                cursor: last,
            };
            return model::QuickPage { page, evaluations };
        }
        answers::write_row(k, row, rows, count * k);
        last = answers::cursor_at(k, last, row);
        count += 1;
        let following = answer_after(search, row);
        evaluations += following.evaluations;
        at = following.spot;
    }
    let page = model::Page {
        count,
        more: false,
        cursor: last,
    };
    model::QuickPage { page, evaluations }
}

// The checks of a quick page: those of a page, with 29 between 15 and 17.
fn check_quick(
    tree: &[u16],
    query: &[u16],
    columns: usize,
    cursor: model::Cursor,
    room: usize,
) -> Result<(), Refusal>
    requires { AcceptedTree tree.now }
    ensures { told result ≡ verdict (quick_checks tree.now query.now columns cursor room) }
{
    checks::check_listing(tree, query, columns)?;
    sharing::check_sharing(query)?;
    checks::check_paging(tree, columns, cursor, room)
}

// The page after a cursor over an accepted tree, by value: how many rows, whether there are more, and the cursor after them, with the
// evaluations that were made. The query is checked, its engine chosen, and the previous siblings found, once a call.
pub fn page_from(
    tree: &[u16],
    query: &[u16],
    columns: usize,
    cursor: model::Cursor,
    rows: &mut [u16],
) -> Result<model::QuickPage, Refusal>
    requires { AcceptedTree tree.now }
    ensures { QuickLeaves tree.now query.now columns cursor rows.old
        (told_quick result) (cursor_after_quick cursor result) rows.new }
{
    check_quick(tree, query, columns, cursor, rows.len())?;
    let prev = tree::previous_siblings(tree);
    let search = Search {
        tree,
        prev: &prev,
        query,
        whole: nesting::nests(query),
        k: columns,
    };
    Ok(write_page(&search, cursor, rows))
}

// The query does not keep the rule, so that there is no quick page.
fn breaks_rule(refusal: Refusal) -> bool
    ensures { result ≡ eqb (refused refusal).number 29 }
{
    matches!(refusal, Refusal::SharedVariable(_))
}

// The page after a cursor, of any query: the quick one where the query keeps the rule, and else the plain one.
pub fn page_either(
    tree: &[u16],
    query: &[u16],
    columns: usize,
    cursor: model::Cursor,
    rows: &mut [u16],
) -> Result<model::Page, Refusal>
    requires { AcceptedTree tree.now }
    ensures { PageLeaves (page_outcome tree.now query.now columns cursor rows.old)
        (told_page result) (cursor_after cursor result) rows.new }
{
    match page_from(tree, query, columns, cursor, rows) {
        Ok(quick) => Ok(quick.page),
        Err(refusal) => {
            if breaks_rule(refusal) {
                return answers::page_from(tree, query, columns, cursor, rows);
            }
            Err(refusal)
        }
    }
}
