// All rows of k numbers, in their order, and blocks of them: the rows that begin with the same numbers.
ghost use Rattle.std.specs.Prelude.{◌≡◌, true, ◌≤◌, take};
ghost use Rattle.model.specs.Answers.{less, keep, all_rows};
ghost use Rattle.model.specs.Pages.{row_of, has_begun, after};
ghost use Rattle.model.specs.Accepted.{Below};
ghost use Rattle.answers.specs.Search.{ahead, Heads};

// The first row behind those that begin with the first i numbers of a row, which is the first of them, in a tree of n nodes; with i = k
// the row after it. The last of the i numbers that can be counted up is, and those behind it start anew. At most i turns.
pub fn beyond(n: usize, k: usize, i: usize, row: [u16; 3]) -> Option<[u16; 3]>
    requires { (n ≤ 256) × Heads n k i row }
    ensures { ahead k (all_rows n k) result ≡ keep (less (take i row)) (all_rows n k) }
{
    let mut next = row;
    for j in (0..i).rev() {
        if model::wide(next[j]) + 1 < n {
            next[j] += 1;
            return Some(next);
        }
        next[j] = 0;
    }
    None
}

// Where a cursor goes on: at the row after its own, or at the first of all.
pub fn start(n: usize, k: usize, cursor: model::Cursor) -> Option<[u16; 3]>
    requires { (1 ≤ n) × ((n ≤ 256) × ((k ≤ 3) × (has_begun cursor ≡ true → Below n (row_of k cursor)))) }
    ensures { ahead k (all_rows n k) result ≡ after k (all_rows n k) cursor }
{
    let begun = cursor.begun != 0;
    if begun {
        return beyond(n, k, k, [cursor.first, cursor.second, cursor.third]);
    }
    Some([0, 0, 0])
}
