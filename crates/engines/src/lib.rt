// What a path reaches, and where a node expression holds, by either of two engines: over sets (crate `eval`), or over whole tables of bits
// (crate `relations`). Both come to the same, so that the choice, which the caller makes from the query, decides no result.
//
// Over sets an intersect, except, star or `same` evaluates its operands up to n times, and where they nest the factors multiply. Over
// tables every entry is evaluated once, as the whole relation that it stands for or as the set of nodes where it holds, and costs at most
// about one composition of two tables, 4 * n * n words; the image is then read from the last table in one pass. So a query of 64 entries
// costs at most about 64 compositions, however they nest.
//
// The choice is a Boolean, `whole`, and no closure or type of its own: it is what `nesting` tells of the query, and every arm that looks at
// it has one contract.
#![tactic(auto)]

mod reading;

ghost use Rattle.std.specs.Prelude.{◌≡◌, true, false, ◌*◌, ◌≤◌, length};
ghost use Rattle.model.specs.Sets.{ones};
ghost use Rattle.model.specs.Tree.{size_of};
ghost use Rattle.eval.specs.Evaluation.{passed_for, reached_for};
ghost use Rattle.engines.specs.Engines.{SuitsFor, asks_image, answered};

use model::Call;
use relations::table::Evaluation;

// The image by the table of the path at entry e, which is made in the words.
fn path_in(
    call: &Call,
    e: usize,
    back: bool,
    from: [u8; 256],
    words: &mut [u64],
    count: &mut usize,
) -> [u8; 256]
    requires { SuitsFor call.now e true × (4 * size_of call.now.tree.now ≤ length words.old) }
    ensures { (result ≡ reached_for call.now e back from) × (count.new ≡ ones result) }
{
    let evaluation = Evaluation {
        call,
        counts: aside::counts(call.query),
    };
    evaluation.table(evaluation.room(e), e, words);
    let r = reading::image(words, call.tree.len() / 2, back, from);
    *count = sets::count_of(r);
    r
}

// The nodes where the node expression at entry e holds, by the tables of its paths, which are made in the words.
fn node_in(call: &Call, e: usize, words: &mut [u64], count: &mut usize) -> [u8; 256]
    requires { SuitsFor call.now e false × (4 * size_of call.now.tree.now ≤ length words.old) }
    ensures { (result ≡ passed_for call.now e) × (count.new ≡ ones result) }
{
    let evaluation = Evaluation {
        call,
        counts: aside::counts(call.query),
    };
    let s = evaluation.node(evaluation.room(e), e, words);
    let r = reading::bytes_of(s, call.tree.len() / 2);
    *count = sets::count_of(r);
    r
}

// One of the two: the image where a set is given, with its direction, else the nodes of a node expression. The words, 8 KiB, stand in the
// frame of this function alone. Both functions below call it, so that it is compiled as a function of its own and not as a part of an only
// caller: a call that goes over sets takes no room for a table on its stack.
fn by_tables(
    call: &Call,
    e: usize,
    image: Option<(bool, &[u8; 256])>,
    count: &mut usize,
) -> [u8; 256]
    requires { SuitsFor call.now e (asks_image image) }
    ensures { (result ≡ answered call.now e image.entry) × (count.new ≡ ones result) }
{
    let mut words = [0u64; 1024];
    match image {
        Some((back, from)) => path_in(call, e, back, *from, &mut words, count),
        None => node_in(call, e, &mut words, count),
    }
}

// What a set reaches by the path at entry e, or what reaches the set where back is set, and how many nodes that is: by whole tables where
// the flag is set, else over sets.
pub fn image(
    call: &Call,
    whole: bool,
    e: usize,
    back: bool,
    from: [u8; 256],
    count: &mut usize,
) -> [u8; 256]
    requires { SuitsFor call.now e true }
    ensures { (result ≡ reached_for call.now e back from) × (count.new ≡ ones result) }
{
    if whole {
        return by_tables(call, e, Some((back, &from)), count);
    }
    eval::path(call, e, back, from, count)
}

// The nodes where the node expression at entry e holds, and how many they are: by whole tables where the flag is set, else over sets.
pub fn node(call: &Call, whole: bool, e: usize, count: &mut usize) -> [u8; 256]
    requires { SuitsFor call.now e false }
    ensures { (result ≡ passed_for call.now e) × (count.new ≡ ones result) }
{
    if whole {
        return by_tables(call, e, None, count);
    }
    eval::node(call, e, count)
}
