// Tree tables as they are lent: three numbers a node, and the party that asks.
use super::table;

// What stands for the party where each of the two is to ask in turn.
pub const EACH: u16 = 9;

// The numbers, and the party; none where each of the two is to ask in turn.
#[derive(Clone, Copy)]
pub struct Shared {
    pub table: table::Numbers<1536>,
    pub party: Option<u16>,
}

impl Shared {
    // No node, and 0 for the party, which is none of the two.
    pub fn new() -> Shared {
        Shared {
            table: table::Numbers::<1536>::new(),
            party: Some(0),
        }
    }

    // A table of two numbers a node as a shared one, in which every node is common and each party asks.
    pub fn common(tree: &table::Table) -> Shared {
        let mut shared = Shared::new();
        shared.party = None;
        for node in tree.numbers().chunks(2) {
            for x in node {
                shared.table.push(usize::from(*x));
            }
            if node.len() == 2 {
                shared.table.push(0);
            }
        }
        shared
    }

    // The party that asks, as a call is given it; EACH, which is no party, where each is to.
    pub fn party(&self) -> u16 {
        self.party.unwrap_or(EACH)
    }

    // A number of more than 16 bits leaves the party as it was.
    pub fn set_party(&mut self, party: usize) {
        if let Ok(number) = u16::try_from(party) {
            self.party = if number == EACH { None } else { Some(number) };
        }
    }

    // The numbers of the table.
    pub fn numbers(&self) -> &[u16] {
        self.table.numbers()
    }

    // The number of nodes, seen or not.
    pub fn size(&self) -> usize {
        self.table.length() / 3
    }

    // The same table for a party.
    pub fn with_party(&self, party: usize) -> Shared {
        let mut other = *self;
        other.set_party(party);
        other
    }

    // Writes a node behind the others, and answers its number.
    pub fn append(&mut self, parent: usize, tag: usize, owner: usize) -> usize {
        let x = self.size();
        self.table.push(parent);
        self.table.push(tag);
        self.table.push(owner);
        x
    }
}
