// The services that are lent a shared table and a party: each looks at the table for the party, and runs on the tree that the party sees.
// None has a precondition: what is malformed is refused, and then nothing that was lent is altered. The look costs one pass over the
// parents, one over tags and owners and one that writes the tree, whatever the service; all else is the service's own cost. The two lines of
// a look stand in each of them: a function that ran a closure on the tree would learn nothing of the buffers that the closure writes. The
// parameters are those of the C functions, one by one: a struct of them would be made there only to be taken apart here.
#![tactic(auto)]

ghost use Rattle.std.specs.Prelude.{true, false};
ghost use Rattle.model.specs.Services.{Leaves, seen_image, seen_pairs, seen_page, PageLeaves};
ghost use Rattle.model.specs.Refusals.{told, told_counting, told_page, told_quick, cursor_after, cursor_after_quick};
ghost use Rattle.index.specs.Index.{told_index};
ghost use Rattle.parties.specs.Services.{seen_bits, seen_index, seen_lookup, SeenQuickLeaves, BothLeave};

use index::Indexed;
use model::{Cursor, Page, QuickPage, Refusal};

// The image of a node set under the query, or under its converse where back is set, and how many nodes it has.
fn image(
    tree: &[u16],
    party: u16,
    query: &[u16],
    columns: usize,
    nodes: &[u16],
    back: bool,
    from: &[u8],
    to: &mut [u8],
) -> Result<usize, Refusal>
    ensures { Leaves
        (seen_image tree.now party query.now columns nodes.now back from.now to.old)
        (told_counting result) to.new }
{
    let mut table = [0u16; 512];
    let count = view::look(tree, party, &mut table)?;
    images::image(&table[..count], query, columns, nodes, back, from, to)
}

// The nodes that a set reaches by the query, and how many they are. One evaluation: O(entries × n) for a query without intersect, except,
// star and `same`, up to n times that where it has some that do not nest, and else what pairs in bits cost.
pub fn forwards(
    tree: &[u16],
    party: u16,
    query: &[u16],
    columns: usize,
    nodes: &[u16],
    from: &[u8],
    to: &mut [u8],
) -> Result<usize, Refusal>
    ensures { Leaves
        (seen_image tree.now party query.now columns nodes.now false from.now to.old)
        (told_counting result) to.new }
{
    image(tree, party, query, columns, nodes, false, from, to)
}

// The nodes that reach a set by the query, and how many they are, at the same cost.
pub fn backwards(
    tree: &[u16],
    party: u16,
    query: &[u16],
    columns: usize,
    nodes: &[u16],
    from: &[u8],
    to: &mut [u8],
) -> Result<usize, Refusal>
    ensures { Leaves
        (seen_image tree.now party query.now columns nodes.now true from.now to.old)
        (told_counting result) to.new }
{
    image(tree, party, query, columns, nodes, true, from, to)
}

// All pairs of the query: (x, y) stands at x × n + y. As pairs in bits, and one pass over the n × n bytes.
pub fn pairs(
    tree: &[u16],
    party: u16,
    query: &[u16],
    columns: usize,
    nodes: &[u16],
    to: &mut [u8],
) -> Result<(), Refusal>
    ensures { Leaves
        (seen_pairs tree.now party query.now columns nodes.now to.old)
        (told result) to.new }
{
    let mut table = [0u16; 512];
    let count = view::look(tree, party, &mut table)?;
    images::pairs(&table[..count], query, columns, nodes, to)
}

// All pairs of the query, a bit a pair, by the engine over whole tables: at most about one composition of two tables an entry
// (relations::pairs).
pub fn pairs_bits(
    tree: &[u16],
    party: u16,
    query: &[u16],
    columns: usize,
    nodes: &[u16],
    words: &mut [u64],
) -> Result<(), Refusal>
    ensures { Leaves
        (seen_bits tree.now party query.now columns nodes.now words.old)
        (told result) words.new }
{
    let mut table = [0u16; 512];
    let count = view::look(tree, party, &mut table)?;
    relations::pairs(&table[..count], query, columns, nodes, words)
}

// The page after a cursor, and the cursor after it.
pub fn page_from(
    tree: &[u16],
    party: u16,
    query: &[u16],
    columns: usize,
    cursor: Cursor,
    rows: &mut [u16],
) -> Result<Page, Refusal>
    ensures { PageLeaves (seen_page tree.now party query.now columns cursor rows.old)
        (told_page result) (cursor_after cursor result) rows.new }
{
    let mut table = [0u16; 512];
    let count = view::look(tree, party, &mut table)?;
    answers::page_from(&table[..count], query, columns, cursor, rows)
}

// The same page, found variable by variable, with the evaluations that were made.
pub fn quick_page_from(
    tree: &[u16],
    party: u16,
    query: &[u16],
    columns: usize,
    cursor: Cursor,
    rows: &mut [u16],
) -> Result<QuickPage, Refusal>
    ensures { SeenQuickLeaves tree.now party query.now columns cursor rows.old
        (told_quick result) (cursor_after_quick cursor result) rows.new }
{
    let mut table = [0u16; 512];
    let count = view::look(tree, party, &mut table)?;
    quick::page_from(&table[..count], query, columns, cursor, rows)
}

// The index of the tree that the party sees, and the list of its tags.
pub fn build_index(
    tree: &[u16],
    party: u16,
    next: &mut [u16],
    tags: &mut [u16],
) -> Result<Indexed, Refusal>
    ensures { BothLeave (seen_index tree.now party next.old tags.old)
        (told_index result) next.new tags.new }
{
    let mut table = [0u16; 512];
    match view::look(tree, party, &mut table) {
        Ok(count) => index::build(&table[..count], next, tags),
        Err(e) => Err(e),
    }
}

// The descendants of a node that have a tag, by the index that is lent, and how many they are.
pub fn descendants(
    tree: &[u16],
    party: u16,
    next: &[u16],
    start: u16,
    tag: u16,
    to: &mut [u8],
) -> Result<usize, Refusal>
    ensures { Leaves (seen_lookup tree.now party next.now start tag to.old)
        (told_counting result) to.new }
{
    let mut table = [0u16; 512];
    let count = view::look(tree, party, &mut table)?;
    lookup::descendants(&table[..count], next, start, tag, to)
}
