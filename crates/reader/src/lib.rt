// Typed queries read into query tables. The text is read word by word; each word moves a focus and a stack of gaps that are still
// open (machine), and writes the entries that it completes (emission). Time in proportion to the text, and one look through the
// name tables for each name; the gaps stand in an array, so that the stack has the same size whatever the nesting. Words and focuses go by
// their numbers here as in `machine`, which says why.
#![tactic(auto)]

ghost use Rattle.std.specs.Prelude.{◌≡◌, cond, ◌+◌, ◌-◌, ◌≤◌, ◌<◌, length, ltb, eqb};
ghost use Rattle.model.specs.Refusals.{told, told_read, verdict};
ghost use Rattle.entries.specs.Builder.{made_of};
ghost use Rattle.entries.specs.Postfix.{blank};
ghost use Rattle.reader.specs.Read.{bad_length, TableLeaves, ReadLeaves};
ghost use Rattle.reader.specs.Turns.{beginning, sought_at, opens, kept, moved, turn_at, Within, Took, Advanced, place_checks, any_in, place_in, Finished, ReadsTo};

use entries::Builder;
use machine::Word;
use model::{Read, Refusal};

// What a text is read by: its bytes, and the two name tables.
#[derive(Clone, Copy)]
pub struct Source<'a> {
    pub text: &'a [u8],
    pub house: &'a [u8],
    pub site: &'a [u8],
}

// How far the reading has come: the place in the text; the gaps that are open, and the focus; the axis that was read last, and
// the place where the last name begins; and the place of the first name that had no tag, if one had none.
#[derive(Clone, Copy)]
pub struct Progress {
    pub at: usize,
    pub depth: usize,
    pub focus: u8,
    pub axis: u16,
    pub start: usize,
    pub unknown: Option<usize>,
}

// What a name comes to: its tag, and the place of the first so far that has none.
#[derive(Clone, Copy)]
pub struct Sought {
    pub tag: u16,
    pub unknown: Option<usize>,
}

// Before the first byte.
fn first_place() -> Progress
    ensures { result ≡ beginning }
{
    Progress {
        at: 0,
        depth: 0,
        focus: 0,
        axis: 0,
        start: 0,
        unknown: None,
    }
}

// The name that ends at the place, if one does.
#[tactic(auto, unfolding(crate::specs::Turns::sought_at))]
fn name_before(from: &Source, p: Progress, ended: bool) -> Sought
    requires { (p.start ≤ p.at) × (p.at ≤ length from.now.text.now) }
    ensures { result ≡ sought_at from.now.text.now from.now.house.now from.now.site.now p ended }
{
    let named = (5 < p.focus) & ended;
    if !named {
        return Sought {
            tag: 0,
            unknown: p.unknown,
        };
    }
    match names::tag_of(from.house, from.site, &from.text[p.start..p.at]) {
        Some(tag) => Sought {
            tag: tag,
            unknown: p.unknown,
        },
        None => Sought {
            tag: 0,
            unknown: Some(p.unknown.unwrap_or(p.start)),
        },
    }
}

// The axis that was read last.
fn axis_after(k: usize, axis: u16) -> u16
    ensures { result ≡ cond (ltb k 13) k axis }
{
    if k < 13 { k as u16 } else { axis }
}

// The place where the last name begins.
fn start_after(focus: u8, at: usize, start: usize) -> usize
    ensures { result ≡ cond (eqb focus 1) at start }
{
    if focus == 1 { at } else { start }
}

// The place after a word, which leaves so many gaps open.
#[tactic(auto, unfolding(crate::specs::Turns::moved))]
fn place_after(p: Progress, w: Word, depth: usize, s: Sought) -> Progress
    requires { (p.at + w.len ≤ 1024) × (depth ≡ kept p w.step + opens w.step) }
    ensures { result ≡ moved p w.number w.step w.len s }
{
    Progress {
        at: p.at + w.len,
        depth: depth,
        focus: w.step.focus,
        axis: axis_after(w.number, p.axis),
        start: start_after(p.focus, p.at, p.start),
        unknown: s.unknown,
    }
}

// Reads a word: the name before it is looked up, the entries that it completes are written, gaps close, and one may open.
fn take_word(from: &Source, stack: &mut [u8], b: &mut Builder, p: Progress, w: Word) -> Progress
    requires { (p.start ≤ p.at) × (p.at + w.len ≤ length from.now.text.now) × (length from.now.text.now ≤ 1024) × (p.depth ≤ p.at) × (p.at < 1024) × (w.number < 38) × (length stack.old ≡ 1024) }
    ensures { Took from.now.text.now from.now.house.now from.now.site.now p stack.old (made_of b.old)
        w.number w.step w.len result stack.new (made_of b.new) }
{
    let k = w.number;
    let s = name_before(from, p, k < 34);
    emission::write_word(&stack[..p.depth], p.focus, k, p.axis, s.tag, b);
    let depth = machine::make(w.step, stack, p.depth);
    place_after(p, w, depth, s)
}

// One turn: the reading goes on, or no grammatical text goes on from a place.
fn advance(
    from: &Source,
    stack: &mut [u8],
    b: &mut Builder,
    p: Progress,
) -> Result<Progress, Refusal>
    requires { Within p.at (length from.now.text.now) (turn_at from.now.text.now p stack.old) × (p.at < length from.now.text.now) × (length from.now.text.now ≤ 1024) × (p.start ≤ p.at) × (p.depth ≤ p.at) × (length stack.old ≡ 1024) }
    ensures { Advanced from.now.text.now from.now.house.now from.now.site.now p stack.old (made_of b.old)
        (turn_at from.now.text.now p stack.old)
        result stack.new (made_of b.new) }
{
    let at = p.at;
    match machine::step(p.focus, &stack[..p.depth], from.text, at) {
        Ok(w) => Ok(take_word(from, stack, b, p, w)),
        Err(n) => Err(Refusal::Ungrammatical((at + n) as u16)),
    }
}

// The verdict where the text ends: 24 unless it is grammatical, and 25 if a name has no tag.
#[tactic(auto, unfolding(model::specs::Refusals::verdict))]
fn judge(at: usize, grammatical: bool, unknown: Option<usize>) -> Result<(), Refusal>
    requires { (at ≤ 1024) × (place_in unknown ≤ 1024) }
    ensures { told result ≡ verdict (place_checks at grammatical (place_in unknown) (any_in unknown)) }
{
    if !grammatical {
        return Err(Refusal::Ungrammatical(at as u16));
    }
    match unknown {
        Some(place) => Err(Refusal::UnknownName(place as u16)),
        None => Ok(()),
    }
}

// The end of the text: a last name is looked up, and all gaps close.
fn finish(from: &Source, stack: &[u8], b: &mut Builder, p: Progress) -> Result<(), Refusal>
    requires { (p.start ≤ p.at) × (p.at ≤ length from.now.text.now) × (length from.now.text.now ≤ 1024) × (p.depth ≤ length stack.now) × (place_in p.unknown ≤ p.at) }
    ensures { Finished from.now.text.now from.now.house.now from.now.site.now p stack.now (made_of b.old)
        result (made_of b.new) }
{
    let gaps = &stack[..p.depth];
    let s = name_before(from, p, true);
    emission::write_end(gaps, p.focus, p.axis, s.tag, b);
    judge(p.at, machine::may_end(p.focus, gaps), s.unknown)
}

// Reads a text of at most 1,024 bytes into a table of 64 entries: 24 and 25. One turn a word, and one a byte of a name.
fn read_text(from: &Source, b: &mut Builder) -> Result<(), Refusal>
    requires { (length from.now.text.now ≤ 1024) × ((made_of b.old).draft ≡ blank) }
    ensures { ReadsTo from.now.text.now from.now.house.now from.now.site.now result (made_of b.new) }
{
    let mut stack = [0u8; 1024];
    let mut p = first_place();
    while p.at < from.text.len() {
        p = advance(from, &mut stack, b, p)?;
    }
    finish(from, &stack, b, p)
}

// The text is not 1 to 1,024 bytes long.
fn is_bad_length(n: usize) -> bool
    ensures { result ≡ bad_length n }
{
    (n == 0) | (1024 < n)
}

// The reading of a text of at most 1,024 bytes: 24, 25, 26, 20, or its table.
fn read_table(text: &[u8], house: &[u8], site: &[u8], query: &mut [u16]) -> Result<Read, Refusal>
    requires { length text.now ≤ 1024 }
    ensures { TableLeaves text.now house.now site.now query.old (told_read result) query.new }
{
    let mut b = Builder::new();
    read_text(&Source { text, house, site }, &mut b)?;
    let d = b.draft();
    entries::check_size(d.entries, query.len())?;
    let count = 4 * d.entries;
    model::copy(b.table(), count, query);
    Ok(Read {
        count: count,
        columns: d.columns as u16,
    })
}

// The service: a typed query, read into a query table at the front of the buffer.
pub fn read(text: &[u8], house: &[u8], site: &[u8], query: &mut [u16]) -> Result<Read, Refusal>
    ensures { ReadLeaves text.now house.now site.now query.old (told_read result) query.new }
{
    names::check_tables(house, site)?;
    if is_bad_length(text.len()) {
        return Err(Refusal::TextLength);
    }
    read_table(text, house, site, query)
}
