// Query tables made entry by entry, in postfix order.
#![tactic(auto)]

ghost use Rattle.std.specs.Prelude.{◌≡◌, cond, [], ◌∷◌, ◌+◌, ◌-◌, ◌*◌, ◌≤◌, ◌<◌, suc, max, length};
ghost use Rattle.model.specs.Kinds.{names_variable};
ghost use Rattle.model.specs.Numbers.{kind_number};
ghost use Rattle.model.specs.Refusals.{told, verdict};
ghost use Rattle.entries.specs.Postfix.Item.{leaf, unary, binary};
ghost use Rattle.entries.specs.Postfix.{entered, made, blank, Sound, Wrote};
ghost use Rattle.entries.specs.Size.{size_checks};

use model::{Kind, Refusal};

// How far a table in the making has come: its entries, more than 64 counted as 65; the numbers on its stack, each of an entry that
// no entry names yet; and how many variables it needs.
#[derive(Clone, Copy)]
pub struct Draft {
    pub entries: usize,
    pub depth: usize,
    pub columns: usize,
}

// The number of a kind in a table.
fn number_of(kind: Kind) -> u16
    ensures { result ≡ kind_number kind }
{
    kind as u16
}

// How many variables are needed with a leaf more.
#[tactic(auto, unfolding(model::specs::Kinds::names_variable))]
fn needed(columns: usize, kind: Kind, left: u16) -> usize
    ensures { result ≡ max columns (cond (names_variable (kind_number kind)) (suc left) 0) }
{
    match kind {
        Kind::Variable | Kind::Is => columns.max(model::wide(left) + 1),
        _ => columns,
    }
}

// A query table in the making, beside the stack: the numbers of the entries that no entry names yet.
#[derive(Drop)]
pub struct Builder {
    draft: Draft,
    table: [u16; 256],
    operands: [u16; 64],
    pub ghost sound: { Sound (made draft table operands) },
}

impl Builder {
    ghost use Rattle.entries.specs.Builder.{made_of};

    // No entries yet.
    pub fn new() -> Builder
        ensures { (made_of result).draft ≡ blank }
    {
        Builder {
            draft: Draft {
                entries: 0,
                depth: 0,
                columns: 0,
            },
            table: [0; 256],
            operands: [0; 64],
        }
    }

    // How far the table has come.
    pub fn draft(&self) -> Draft
        ensures { result ≡ (made_of self.now).draft }
    {
        self.draft
    }

    // Its numbers: those of its entries, and then numbers of no account.
    pub fn table(&self) -> &[u16]
        ensures { result.now ≡ (made_of self.now).table }
    {
        &self.table
    }

    // The next entry is written, and its number at place `at` of the stack.
    fn enter(&mut self, at: usize, kind: Kind, l: u16, r: u16, g: u16)
        requires { (self.old.draft.entries < 64) × (at ≤ self.old.draft.entries) }
        ensures { made_of self.new ≡ entered (kind_number kind) l r g at (made_of self.old) }
    {
        let n = self.draft.entries;
        let i = 4 * n;
        self.table[i] = number_of(kind);
        self.table[i + 1] = l;
        self.table[i + 2] = r;
        self.table[i + 3] = g;
        self.operands[at] = n as u16;
        self.draft.entries = n + 1;
        self.draft.depth = at + 1;
    }

    // An entry without operands.
    pub fn put_leaf(&mut self, kind: Kind, left: u16, tag: u16)
        ensures { Wrote (leaf (kind_number kind) left tag ∷ []) (made_of self.old) (made_of self.new) }
    {
        self.draft.columns = needed(self.draft.columns, kind, left);
        if 64 <= self.draft.entries {
            self.draft.entries = 65;
            return;
        }
        let at = self.draft.depth;
        self.enter(at, kind, left, 0, tag);
    }

    // An entry with one operand: the last on the stack.
    pub fn put_unary(&mut self, kind: Kind)
        ensures { Wrote (unary (kind_number kind) ∷ []) (made_of self.old) (made_of self.new) }
    {
        if 64 <= self.draft.entries {
            self.draft.entries = 65;
            return;
        }
        let at = self.draft.depth.saturating_sub(1);
        let l = self.operands[at];
        self.enter(at, kind, l, 0, 0);
    }

    // An entry with two operands: the last two on the stack.
    pub fn put_binary(&mut self, kind: Kind)
        ensures { Wrote (binary (kind_number kind) ∷ []) (made_of self.old) (made_of self.new) }
    {
        if 64 <= self.draft.entries {
            self.draft.entries = 65;
            return;
        }
        let at = self.draft.depth.saturating_sub(2);
        let top = self.draft.depth.saturating_sub(1);
        let l = self.operands[at];
        let r = self.operands[top];
        self.enter(at, kind, l, r, 0);
    }
}

// The verdict on a query that is made: 26, 20.
#[tactic(auto, unfolding(model::specs::Refusals::verdict))]
pub fn check_size(entries: usize, room: usize) -> Result<(), Refusal>
    requires { entries ≤ 65 }
    ensures { told result ≡ verdict (size_checks entries room) }
{
    if 64 < entries {
        return Err(Refusal::TooManyEntries);
    }
    if room < 4 * entries {
        return Err(Refusal::Room);
    }
    Ok(())
}
