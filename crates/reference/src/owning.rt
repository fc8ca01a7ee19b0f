// Random owners: laid over a tree, of which each party then sees a part, and nodes put around a tree, so that a party sees that and no
// more.
use super::random::{Seed, tag};
use super::seeing;
use super::tree::Tree;
use harness::shared::Shared;
use harness::table::Table;

// One node of so many has an owner: none in form 0, party 1 alone in form 1 and party 2 alone in form 2, else either. Node 0 is common.
fn owner(seed: &mut Seed, form: usize, of: usize, x: usize) -> usize {
    let owned = seed.one_in(of);
    if (x == 0) | !owned {
        return 0;
    }
    if form < 3 {
        return form;
    }
    seed.between(1, 2)
}

// Lays owners over a tree. In two tables of six one party alone owns nodes, so that it sees all, and in one no party does.
pub fn lay(seed: &mut Seed, tree: &Tree) -> Shared {
    let mut shared = Shared::new();
    let n = tree.size();
    let form = seed.below(6);
    let of = seed.between(2, (n / 4).wrapping_add(4));
    for x in 0..n {
        let party = owner(seed, form, of, x);
        shared.append(tree.parent(x), tree.tag(x), party);
    }
    shared
}

// A shared table with the party that asks, and the tree that this sees.
#[derive(Clone, Copy)]
pub struct Seen {
    pub shared: Shared,
    pub tree: Tree,
}

// Lays owners over a tree, and chooses the party that asks.
pub fn choose(seed: &mut Seed, tree: &Tree) -> Seen {
    let mut shared = lay(seed, tree);
    shared.set_party(seed.between(1, 2));
    Seen {
        shared,
        tree: seeing::make(&shared),
    }
}

// A shared table that grows round a tree for a party, and the new numbers of the tree's nodes.
#[derive(Drop)]
struct Around<'a> {
    tree: &'a Tree,
    party: usize,
    renumbered: Table,
    shared: Shared,
}

impl<'a> Around<'a> {
    // Writes node x of the tree, common or the party's own, behind the others.
    fn put_node(&mut self, seed: &mut Seed, x: usize) {
        let own = self.party.wrapping_mul(seed.below(2));
        let mut parent = 65535;
        let mut owner = 0;
        if 0 < x {
            parent = self.renumbered.at(self.tree.parent(x));
            owner = own;
        }
        let y = self.shared.append(parent, self.tree.tag(x), owner);
        self.renumbered.put(x, y);
    }

    // The node from which a hidden one may hang behind node x: x itself or the parent of the node after it; behind the last node any
    // ancestor.
    fn host(&self, seed: &mut Seed, x: usize) -> usize {
        let next = x.wrapping_add(1);
        if seed.one_in(2) {
            return x;
        }
        if next < self.tree.size() {
            return self.tree.parent(next);
        }
        self.tree.climbed(x, seed.below(8))
    }

    // Hides a node of the other party below node y, and every other time one of any owner below that.
    fn hide_below(&mut self, seed: &mut Seed, y: usize) {
        let other = 3usize.wrapping_sub(self.party);
        let top = self.shared.append(y, tag(seed), other);
        if seed.one_in(2) {
            let any = seed.below(3);
            self.shared.append(top, tag(seed), any);
        }
    }

    // Of so many times once, and where 256 nodes are not too few, something is hidden behind node x.
    fn maybe_hide(&mut self, seed: &mut Seed, x: usize, of: usize) {
        let left = self.tree.size().wrapping_sub(x);
        let most = self.shared.size().wrapping_add(left);
        let y = self.renumbered.at(self.host(seed, x));
        let hides = seed.one_in(of);
        if (most < 256) & hides {
            self.hide_below(seed, y);
        }
    }
}

// A shared table of which the party sees the tree and no more: its nodes are common or the party's own, and between them come
// nodes that are hidden.
pub fn hide_around(seed: &mut Seed, tree: &Tree, party: usize) -> Shared {
    let n = tree.size();
    let mut around = Around {
        tree,
        party,
        renumbered: Table::with_length(n),
        shared: Shared::new(),
    };
    let of = seed.between(1, 4);
    for x in 0..n {
        around.put_node(seed, x);
        around.maybe_hide(seed, x, of);
    }
    around.shared.with_party(party)
}

// Another table for the party that asks for a shared one, of which it sees the same tree.
pub fn make_twin(seed: &mut Seed, tree: &Tree, shared: &Shared) -> Shared {
    hide_around(seed, tree, usize::from(shared.party()))
}
