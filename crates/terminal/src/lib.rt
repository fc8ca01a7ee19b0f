// Everything that a terminal calls, under C names: include/geznauri.h describes it. Each function is a thin form of one
// service, and its contract is that service's; gz_name is the name and the reply of one request in one. What a service comes to is made
// the reply that C is told here, and nowhere below.
#![tactic(auto)]

ghost use Rattle.std.specs.Prelude.{◌≡◌, true, false};
ghost use Rattle.model.specs.Refusals.{verdict};
ghost use Rattle.model.specs.Checks.{query_checks};
ghost use Rattle.model.specs.Parties.{shared_checks};
ghost use Rattle.model.specs.Services.{Leaves, seen_image, seen_pairs, seen_page, PageLeaves};
ghost use Rattle.view.specs.View.{seen_tree};
ghost use Rattle.parties.specs.Services.{seen_bits, SeenQuickLeaves, seen_index, BothLeave, seen_lookup};
ghost use Rattle.packing.specs.Services.{PackLeaves, UnpackLeaves};
ghost use Rattle.names.specs.Names.{name_checks, part_for, IsPart};
ghost use Rattle.reader.specs.Read.{ReadLeaves};
ghost use Rattle.reversal.specs.Service.{reversal};

use index::IndexReply;
use model::{Cursor, ImageReply, MadeReply, PageReply, QuickReply, ReadReply, Reply};

// The check of a shared tree table.
#[unsafe(no_mangle)]
pub extern "C" fn gz_check_tree(tree: &[u16]) -> Reply
    ensures { result ≡ verdict (shared_checks tree.now) }
{
    let outcome = ownership::check_table(tree);
    Reply::from(outcome)
}

// The tree that a party sees of a shared table, at the front of the buffer.
#[unsafe(no_mangle)]
pub extern "C" fn gz_seen(tree: &[u16], party: u16, table: &mut [u16]) -> MadeReply
    ensures { Leaves (seen_tree tree.now party table.old) result table.new }
{
    let outcome = view::seen(tree, party, table);
    MadeReply::from(outcome)
}

// The check of a query table with its number of variables.
#[unsafe(no_mangle)]
pub extern "C" fn gz_check_query(query: &[u16], columns: u16) -> Reply
    ensures { result ≡ verdict (query_checks query.now 0 columns) }
{
    let outcome = query::check_query(query, usize::from(columns));
    Reply::from(outcome)
}

// The nodes that a set reaches by a query, and how many they are.
#[unsafe(no_mangle)]
pub extern "C" fn gz_forwards(
    tree: &[u16],
    party: u16,
    query: &[u16],
    columns: u16,
    nodes: &[u16],
    from: &[u8],
    to: &mut [u8],
) -> ImageReply
    ensures { Leaves
        (seen_image tree.now party query.now columns nodes.now false from.now to.old)
        result to.new }
{
    let outcome = parties::forwards(tree, party, query, usize::from(columns), nodes, from, to);
    ImageReply::from(outcome)
}

// The nodes that reach a set by a query, and how many they are.
#[unsafe(no_mangle)]
pub extern "C" fn gz_backwards(
    tree: &[u16],
    party: u16,
    query: &[u16],
    columns: u16,
    nodes: &[u16],
    from: &[u8],
    to: &mut [u8],
) -> ImageReply
    ensures { Leaves
        (seen_image tree.now party query.now columns nodes.now true from.now to.old)
        result to.new }
{
    let outcome = parties::backwards(tree, party, query, usize::from(columns), nodes, from, to);
    ImageReply::from(outcome)
}

// All pairs of a query.
#[unsafe(no_mangle)]
pub extern "C" fn gz_pairs(
    tree: &[u16],
    party: u16,
    query: &[u16],
    columns: u16,
    nodes: &[u16],
    table: &mut [u8],
) -> Reply
    ensures { Leaves
        (seen_pairs tree.now party query.now columns nodes.now table.old)
        result table.new }
{
    let outcome = parties::pairs(tree, party, query, usize::from(columns), nodes, table);
    Reply::from(outcome)
}

// All pairs of a query, a bit a pair.
#[unsafe(no_mangle)]
pub extern "C" fn gz_pairs_bits(
    tree: &[u16],
    party: u16,
    query: &[u16],
    columns: u16,
    nodes: &[u16],
    words: &mut [u64],
) -> Reply
    ensures { Leaves
        (seen_bits tree.now party query.now columns nodes.now words.old)
        result words.new }
{
    let outcome = parties::pairs_bits(tree, party, query, usize::from(columns), nodes, words);
    Reply::from(outcome)
}

// A relation among n nodes, from bytes to bits.
#[unsafe(no_mangle)]
pub extern "C" fn gz_pack(n: u16, table: &[u8], words: &mut [u64]) -> Reply
    ensures { PackLeaves n table.now words.old result words.new }
{
    let outcome = packing::pack(usize::from(n), table, words);
    Reply::from(outcome)
}

// A relation among n nodes, from bits to bytes.
#[unsafe(no_mangle)]
pub extern "C" fn gz_unpack(n: u16, words: &[u64], table: &mut [u8]) -> Reply
    ensures { UnpackLeaves n words.now table.old result table.new }
{
    let outcome = packing::unpack(usize::from(n), words, table);
    Reply::from(outcome)
}

// The page of answers after the cursor that is lent, which moves on to the last row written; a refused call leaves it. The page is found by
// value.
#[unsafe(no_mangle)]
pub extern "C" fn gz_page(
    tree: &[u16],
    party: u16,
    query: &[u16],
    columns: u16,
    cursor: &mut Cursor,
    rows: &mut [u16],
) -> PageReply
    ensures { PageLeaves (seen_page tree.now party query.now columns cursor.old rows.old)
        result cursor.new rows.new }
{
    let outcome = parties::page_from(tree, party, query, usize::from(columns), *cursor, rows);
    match outcome {
        Ok(page) => {
            *cursor = page.cursor;
            PageReply::from(outcome)
        }
        Err(_) => PageReply::from(outcome),
    }
}

// The same page, found variable by variable; 29 where the query breaks the rule that this takes.
#[unsafe(no_mangle)]
pub extern "C" fn gz_quick_page(
    tree: &[u16],
    party: u16,
    query: &[u16],
    columns: u16,
    cursor: &mut Cursor,
    rows: &mut [u16],
) -> QuickReply
    ensures { SeenQuickLeaves tree.now party query.now columns cursor.old rows.old
        result cursor.new rows.new }
{
    let outcome = parties::quick_page_from(tree, party, query, usize::from(columns), *cursor, rows);
    match outcome {
        Ok(quick) => {
            *cursor = quick.page.cursor;
            QuickReply::from(outcome)
        }
        Err(_) => QuickReply::from(outcome),
    }
}

// The index of the tree that a party sees, and the list of its tags.
#[unsafe(no_mangle)]
pub extern "C" fn gz_index(
    tree: &[u16],
    party: u16,
    next: &mut [u16],
    tags: &mut [u16],
) -> IndexReply
    ensures { BothLeave (seen_index tree.now party next.old tags.old)
        result next.new tags.new }
{
    let outcome = parties::build_index(tree, party, next, tags);
    IndexReply::from(outcome)
}

// The descendants of a node that have a tag, by an index that is lent, and how many they are.
#[unsafe(no_mangle)]
pub extern "C" fn gz_descendants(
    tree: &[u16],
    party: u16,
    next: &[u16],
    start: u16,
    tag: u16,
    to: &mut [u8],
) -> ImageReply
    ensures { Leaves (seen_lookup tree.now party next.now start tag to.old)
        result to.new }
{
    let outcome = parties::descendants(tree, party, next, start, tag, to);
    ImageReply::from(outcome)
}

// The name of a tag, as a part of the table that holds it.
#[unsafe(no_mangle)]
pub extern "C" fn gz_name<'a>(
    house: &'a [u8],
    site: &'a [u8],
    tag: u16,
    name: &mut &'a [u8],
) -> Reply
    ensures { (result ≡ verdict (name_checks house.now site.now tag))
        × IsPart house.entry site.entry name.new (part_for house.now site.now tag) }
{
    *name = names::name(house, site, tag);
    let outcome = names::check_name(house, site, tag);
    Reply::from(outcome)
}

// A typed query, read into a query table at the front of the buffer.
#[unsafe(no_mangle)]
pub extern "C" fn gz_read(text: &[u8], house: &[u8], site: &[u8], query: &mut [u16]) -> ReadReply
    ensures { ReadLeaves text.now house.now site.now query.old
        result query.new }
{
    let outcome = reader::read(text, house, site, query);
    ReadReply::from(outcome)
}

// The query turned round, as a query table at the front of the buffer.
#[unsafe(no_mangle)]
pub extern "C" fn gz_reverse(query: &[u16], columns: u16, out: &mut [u16]) -> MadeReply
    ensures { Leaves (reversal query.now columns out.old) result out.new }
{
    let outcome = reversal::reverse(query, usize::from(columns), out);
    MadeReply::from(outcome)
}
