// Random typed queries, written from left to right by a stack of what is still to be done, and the table that is due, whose
// operands are on a second stack.
use super::productions::{Goal, Task, choose, is_open};
use super::text::Text;
use super::vocabulary::{SHORT, Tags, name};
use chart::words::{Symbol, spelling, word};
use harness::sums::bit;
use harness::table;
use model::{Axis, Kind};
use reference::query::{ANY_NODE, Entry, STAR, axis_number, kind_number, right_of};
use reference::random::Seed;

// Room for a query table, and more.
pub type Numbers = [u16; 320];

// What fills a buffer for one: no number that a table holds.
pub const PATTERN: u16 = 7777;

// How much either stack holds.
const DEPTH: usize = 1024;

// A text as far as it is made: its bytes; the table that is due, how many entries that has and how many variables; where the first
// unknown name starts; the words and the names that it holds, bit k for number k; the two stacks with their heights; and how many
// choices are left until all is made as short as can be.
#[derive(Clone, Copy)]
pub struct Made<'a> {
    pub text: Text,
    pub due: Numbers,
    pub entries: usize,
    pub columns: usize,
    pub unknown: Option<usize>,
    pub words: u64,
    pub names: u64,
    tags: &'a Tags,
    tasks: [Task; DEPTH],
    tasks_left: usize,
    operands: [usize; DEPTH],
    operands_left: usize,
    choices: usize,
}

// One of the names; one that is too long is rare.
fn any_name(seed: &mut Seed) -> usize {
    let number = seed.below(SHORT);
    if seed.one_in(40) {
        return seed.below(2).wrapping_add(SHORT);
    }
    number
}

impl<'a> Made<'a> {
    fn write(&mut self, word: Symbol) {
        self.text.append(spelling(word));
        self.words |= bit(word as usize);
    }

    // The operand so far below the top, from 1 on.
    fn operand(&self, below: usize) -> usize {
        table::at(&self.operands, self.operands_left.wrapping_sub(below))
    }

    // An entry over so many of the last operands, which it replaces; written if it is one of the 64 that a table may have.
    fn append(&mut self, taken: usize, f: Entry) {
        let e = self.entries;
        if e < 64 {
            self.due[4 * e] = table::narrow(kind_number(f.kind));
            self.due[4 * e + 1] = table::narrow(f.left);
            self.due[4 * e + 2] = table::narrow(f.right);
            self.due[4 * e + 3] = table::narrow(f.tag);
        }
        let height = self.operands_left.wrapping_sub(taken);
        table::put(&mut self.operands, height, e);
        self.operands_left = height.wrapping_add(1);
        self.entries = e.wrapping_add(1);
    }

    // The entry of a kind over the last operand or the last two.
    fn join(&mut self, kind: Kind) {
        let last = self.operand(1);
        if right_of(kind).is_none() {
            self.append(1, Entry::over(kind, last));
            return;
        }
        let before = self.operand(2);
        self.append(2, Entry::joining(kind, before, last));
    }

    // `k` for any variable k behind what is written, and an entry of a kind over it.
    fn number(&mut self, seed: &mut Seed, kind: Kind) {
        let k = seed.below(3);
        self.write(match k {
            0 => Symbol::Zero,
            1 => Symbol::One,
            _ => Symbol::Two,
        });
        self.append(0, Entry::over(kind, k));
        self.columns = self.columns.max(k.wrapping_add(1));
    }

    // A step with a name, behind `axis::`.
    fn named(&mut self, seed: &mut Seed, axis: Axis) {
        let number = any_name(seed);
        let tag = self.tags.tag(number);
        if tag.is_none() & self.unknown.is_none() {
            self.unknown = Some(self.text.length());
        }
        self.text.append(name(number));
        self.names |= bit(number);
        self.append(0, Entry::step(axis, tag.unwrap_or(65535)));
    }

    // A step of which a word is written: its name test behind `axis::`, or all of it.
    fn tested(&mut self, axis: Axis, word: Symbol, test: usize) {
        self.write(word);
        self.append(0, Entry::step(axis, test));
    }

    // A step along any axis: with a name, half as often with the star, and as often with `node()`.
    fn any_step(&mut self, seed: &mut Seed) {
        let axis = seed.axis();
        self.write(word(axis_number(axis)));
        self.write(Symbol::DoubleColon);
        match seed.below(4) {
            0 => self.tested(axis, Symbol::Star, STAR),
            1 => self.tested(axis, Symbol::AnyNode, ANY_NODE),
            _ => self.named(seed, axis),
        }
    }

    fn push(&mut self, task: Task) {
        table::put(&mut self.tasks, self.tasks_left, task);
        self.tasks_left = self.tasks_left.wrapping_add(1);
    }

    // What is on top of the stack, if anything is to be done; a word where the stack did not hold it.
    fn pop(&mut self) -> Option<Task> {
        if self.tasks_left == 0 {
            return None;
        }
        self.tasks_left -= 1;
        let top = self.tasks.get(self.tasks_left).copied();
        Some(top.unwrap_or(Task::Write(word(0))))
    }

    // A symbol is replaced by one of its productions, the first of it on top.
    fn expand(&mut self, seed: &mut Seed, goal: Goal) {
        let any = 0 < self.choices;
        for task in choose(seed, goal, any).iter().rev() {
            self.push(*task);
        }
        if any & is_open(goal) {
            self.choices = self.choices.wrapping_sub(1);
        }
    }

    fn act(&mut self, seed: &mut Seed, task: Task) {
        match task {
            Task::Write(word) => self.write(word),
            Task::Expand(goal) => self.expand(seed, goal),
            Task::Join(kind) => self.join(kind),
            Task::Deep => self.append(0, Entry::step(Axis::DescendantOrSelf, ANY_NODE)),
            Task::AnyStep => self.any_step(seed),
            Task::Dot => self.tested(Axis::Itself, Symbol::Dot, ANY_NODE),
            Task::Dots => self.tested(Axis::Parent, Symbol::Dots, ANY_NODE),
            Task::Variable => {
                self.write(Symbol::Dollar);
                self.number(seed, Kind::Variable);
            }
            Task::Is => {
                self.write(Symbol::WordIs);
                self.number(seed, Kind::Is);
            }
        }
    }
}

// A path with so many choices, and the table that is due.
pub fn make<'a>(seed: &mut Seed, tags: &'a Tags, choices: usize) -> Made<'a> {
    let mut made = Made {
        text: Text::new(),
        due: [PATTERN; 320],
        entries: 0,
        columns: 0,
        unknown: None,
        words: 0,
        names: 0,
        tags,
        tasks: [Task::Expand(Goal::Path); DEPTH],
        tasks_left: 1,
        operands: [0; DEPTH],
        operands_left: 0,
        choices,
    };
    for _ in 0..8192 {
        let Some(task) = made.pop() else {
            return made;
        };
        made.act(seed, task);
    }
    made
}
