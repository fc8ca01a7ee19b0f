// The part of a query that its variables decide. A query is satisfied under a row exactly if some pair of its core, a path within it,
// leads from one set of nodes to another: the sets are made once for all rows, and for a row there is the core alone to evaluate.
//
// What it costs: `narrow` asks for no entry more than once, which comes to about one evaluation of the query at most. A row is then one
// evaluation of the core; where no variable stands in the query, there is no core, and the two sets are compared. `whole`, which
// the caller decides, says which engine evaluates.
#![tactic(auto)]

ghost use Rattle.std.specs.Prelude.{◌≡◌, true, false, ◌<◌, ◌≤◌, eqb, take};
ghost use Rattle.model.specs.Tree.{size_of};
ghost use Rattle.model.specs.QueryTable.{entries_of, kind};
ghost use Rattle.model.specs.Answers.{satisfied};
ghost use Rattle.model.specs.Accepted.{Below};
ghost use Rattle.aside.specs.Aside.{NumbersTo};
ghost use Rattle.pruning.specs.Pruning.{Named, reach_at};
ghost use Rattle.engines.specs.Engines.{Searchable};
ghost use Rattle.narrowing.specs.Narrowing.{Searches, CoreOf, Left, Going, Inward, Decided, AlwaysReached, AlwaysPassed, common};

use model::{Call, Kind};

// What is searched for rows: a query of k variables over a tree with its links, by whole tables or over sets (crate `engines`).
#[derive(Clone, Copy)]
pub struct Search<'a> {
    pub tree: &'a [u16],
    pub prev: &'a [u16],
    pub query: &'a [u16],
    pub whole: bool,
    pub k: usize,
}

// What is left of a query: the path at an entry, or nothing; the nodes that it starts from, and those that it may end at. `cut` says
// whether the latter may be other than all nodes: they are read in either case, but uncut, how many nodes are reached tells as well.
#[derive(Clone, Copy)]
pub struct Narrowed {
    pub entry: Option<usize>,
    pub cut: bool,
    pub from: [u8; 256],
    pub to: [u8; 256],
}

// A search on its way inwards, with how many variables stand in each entry (crate `pruning`).
#[derive(Drop)]
struct Descent<'a> {
    search: Search<'a>,
    reaches: [u8; 66],
}

impl<'a> Search<'a> {
    // What no variable decides, evaluated with node 0 for each of them.

    // What a set reaches by a path, or what reaches the set where back is set. One evaluation.
    fn image(&self, e: usize, back: bool, from: [u8; 256]) -> [u8; 256]
        requires { Decided self.now.tree.now self.now.prev.now self.now.query.now self.now.k e true }
        ensures { AlwaysReached self.now.tree.now self.now.query.now e back from result }
    {
        let zeros = [0u16; 3];
        let call = Call {
            tree: self.tree,
            prev: self.prev,
            query: self.query,
            nodes: &zeros[..self.k],
        };
        let mut found = 0;
        engines::image(&call, self.whole, e, back, from, &mut found)
    }

    // The nodes where a node expression holds. One evaluation.
    fn node(&self, e: usize) -> [u8; 256]
        requires { Decided self.now.tree.now self.now.prev.now self.now.query.now self.now.k e false }
        ensures { AlwaysPassed self.now.tree.now self.now.query.now e result }
    {
        let zeros = [0u16; 3];
        let call = Call {
            tree: self.tree,
            prev: self.prev,
            query: self.query,
            nodes: &zeros[..self.k],
        };
        let mut found = 0;
        engines::node(&call, self.whole, e, &mut found)
    }

    // An entry that no variable decides: where it leads is known, and nothing is left.
    fn nothing_left(&self, e: usize, at: &Narrowed) -> Narrowed
        requires { Left self.now.tree.now self.now.prev.now self.now.query.now self.now.k e at.now
            × (reach_at self.now.query.now e ≡ 0) }
        ensures { CoreOf self.now.tree.now self.now.query.now self.now.k result }
    {
        let start = self.image(e, false, at.from);
        Narrowed {
            entry: None,
            cut: at.cut,
            from: start,
            to: at.to,
        }
    }

    // What the variables decide of the query. At most one evaluation of each entry. Out of line, so that its sets stand on no caller's frame.
    #[inline(never)]
    pub fn narrow(&self) -> Narrowed
        requires { Searches self.now × Named self.now.query.now }
        ensures { CoreOf self.now.tree.now self.now.query.now self.now.k result }
    {
        let last = self.query.len() / 4 - 1;
        let all = sets::full(self.tree.len() / 2);
        let start = Narrowed {
            entry: Some(last),
            cut: false,
            from: all,
            to: all,
        };
        let descent = Descent {
            search: *self,
            reaches: pruning::reaches(self.query),
        };
        let decided = descent.is_fixed(last);
        if decided {
            return self.nothing_left(last, &start);
        }
        descent.innermost(start)
    }

    // The query is satisfied under a row. One evaluation of what is left of it, by whole tables where the flag is set; where the end is not
    // cut, the number of nodes that it reaches tells.
    pub fn holds(&self, whole: bool, left: &Narrowed, row: [u16; 3]) -> bool
        requires { Searches self.now
            × (CoreOf self.now.tree.now self.now.query.now self.now.k left.now
            × Below (size_of self.now.tree.now) (take self.now.k row)) }
        ensures { result ≡ satisfied self.now.tree.now self.now.query.now (take self.now.k row) }
    {
        let n = self.tree.len() / 2;
        let Some(e) = left.entry else {
            return meet(n, left.from, left.to);
        };
        let call = Call {
            tree: self.tree,
            prev: self.prev,
            query: self.query,
            nodes: &row[..self.k],
        };
        let mut found = 0;
        let ends = engines::image(&call, whole, e, false, left.from, &mut found);
        if !left.cut {
            return found != 0;
        }
        meet(n, ends, left.to)
    }
}

// One entry inwards, or `None` where it cannot be narrowed.
impl<'a> Descent<'a> {
    // No variable decides an entry.
    fn is_fixed(&self, e: usize) -> bool
        requires { NumbersTo (reach_at self.now.search.query.now) (entries_of self.now.search.query.now) self.now.reaches
            × ((e < entries_of self.now.search.query.now) × (entries_of self.now.search.query.now ≤ 66)) }
        ensures { result ≡ eqb (reach_at self.now.search.query.now e) 0 }
    {
        self.reaches[e] == 0
    }

    // A composition: an operand that no variable decides is evaluated from the set at its side, and the other operand is left.
    fn composition(&self, e: usize, at: &Narrowed) -> Option<Narrowed>
        requires { Going self.now.search.tree.now self.now.search.prev.now self.now.search.query.now self.now.search.k self.now.reaches e at.now
            × (kind self.now.search.query.now e ≡ 1) }
        ensures { Inward self.now.search.tree.now self.now.search.query.now self.now.search.k e result }
    {
        let f = query::entry_at(self.search.query, e);
        if self.is_fixed(f.left) {
            let start = self.search.image(f.left, false, at.from);
            return Some(Narrowed {
                entry: Some(f.right),
                cut: at.cut,
                from: start,
                to: at.to,
            });
        }
        if self.is_fixed(f.right) {
            let end = self.search.image(f.right, true, at.to);
            return Some(Narrowed {
                entry: Some(f.left),
                cut: true,
                from: at.from,
                to: end,
            });
        }
        None
    }

    // A filter whose node expression no variable decides: its path is left, and may end only where that holds.
    fn filter(&self, e: usize, at: &Narrowed) -> Option<Narrowed>
        requires { Going self.now.search.tree.now self.now.search.prev.now self.now.search.query.now self.now.search.k self.now.reaches e at.now
            × (kind self.now.search.query.now e ≡ 5) }
        ensures { Inward self.now.search.tree.now self.now.search.query.now self.now.search.k e result }
    {
        let f = query::entry_at(self.search.query, e);
        if self.is_fixed(f.right) {
            let s = self.search.node(f.right);
            let end = sets::combined(sets::Operation::Intersection, at.to, s);
            return Some(Narrowed {
                entry: Some(f.left),
                cut: true,
                from: at.from,
                to: end,
            });
        }
        None
    }

    // A path from the root: its operand is left, from node 0, if there is a node to start from.
    fn root(&self, e: usize, at: &Narrowed) -> Option<Narrowed>
        requires { Going self.now.search.tree.now self.now.search.prev.now self.now.search.query.now self.now.search.k self.now.reaches e at.now
            × (kind self.now.search.query.now e ≡ 7) }
        ensures { Inward self.now.search.tree.now self.now.search.query.now self.now.search.k e result }
    {
        let f = query::entry_at(self.search.query, e);
        let some = sets::occupied(self.search.tree.len() / 2, at.from);
        let start = sets::full_if(some, 1);
        Some(Narrowed {
            entry: Some(f.left),
            cut: at.cut,
            from: start,
            to: at.to,
        })
    }

    // By the kind of the entry.
    fn inwards(&self, e: usize, at: &Narrowed) -> Option<Narrowed>
        requires { Going self.now.search.tree.now self.now.search.prev.now self.now.search.query.now self.now.search.k self.now.reaches e at.now }
        ensures { Inward self.now.search.tree.now self.now.search.query.now self.now.search.k e result }
    {
        let f = query::entry_at(self.search.query, e);
        match model::kind_of(f.kind) {
            Kind::Compose => self.composition(e, at),
            Kind::Filter => self.filter(e, at),
            Kind::Root => self.root(e, at),
            _ => None,
        }
    }

    // As far inwards as it goes. Each turn but the last leaves an operand, which is a lower entry.
    fn innermost(&self, start: Narrowed) -> Narrowed
        requires { Searches self.now.search
            × (NumbersTo (reach_at self.now.search.query.now) (entries_of self.now.search.query.now) self.now.reaches
            × CoreOf self.now.search.tree.now self.now.search.query.now self.now.search.k start) }
        ensures { CoreOf self.now.search.tree.now self.now.search.query.now self.now.search.k result }
    {
        let mut at = start;
        while let Some(e) = at.entry {
            let Some(next) = self.inwards(e, &at) else {
                return at;
            };
            at = next;
        }
        at
    }
}

// A node below n is in both sets.
fn meet(n: usize, a: [u8; 256], b: [u8; 256]) -> bool
    requires { n ≤ 256 }
    ensures { result ≡ common n a b }
{
    let both = sets::combined(sets::Operation::Intersection, a, b);
    sets::occupied(n, both)
}
