// Trees, as tables of two numbers a node, parent and tag.
use harness::table::Table;

// The tag of a document node, which only node 0 may have.
pub const DOCUMENT: usize = 65534;

#[derive(Clone, Copy)]
pub struct Tree {
    pub table: Table,
}

impl Tree {
    // No node yet.
    pub fn new() -> Tree {
        Tree {
            table: Table::new(),
        }
    }

    // How many nodes there are.
    pub fn size(&self) -> usize {
        self.table.length() / 2
    }

    pub fn parent(&self, x: usize) -> usize {
        self.table.at(x.wrapping_mul(2))
    }

    pub fn tag(&self, x: usize) -> usize {
        self.table.at(x.wrapping_mul(2).wrapping_add(1))
    }

    pub fn set_tag(&mut self, x: usize, tag: usize) {
        self.table.put(x.wrapping_mul(2).wrapping_add(1), tag);
    }

    // Writes a node behind the others.
    pub fn push(&mut self, parent: usize, tag: usize) {
        self.table.push(parent);
        self.table.push(tag);
    }

    // Node 0 is a document node.
    pub fn has_document(&self) -> bool {
        self.tag(0) == DOCUMENT
    }

    // The node that so many steps up from x lead to, or the root.
    pub fn climbed(&self, x: usize, steps: usize) -> usize {
        let mut z = x;
        for _ in 0..steps {
            if z == 0 {
                return 0;
            }
            z = self.parent(z);
        }
        z
    }

    // The first node from x on that has the tag.
    pub fn first_from(&self, tag: usize, x: usize) -> Option<usize> {
        (x..self.size()).find(|y| self.tag(*y) == tag)
    }
}
