// Tables that are too long to be written in a line: chains of nodes and of entries.
use super::{line, table};

// COUNT AT VALUE: only the first numbers of a table, none where COUNT has more than 16 bits, and one of them another.
fn damage(line: &line::Line, numbers: &mut table::Table) {
    numbers.set_length(usize::from(table::narrow(line.number(1, 0))));
    numbers.put(line.number(1, 1), line.number(1, 2));
}

// The chain of nodes with tag 1 that a line asks for.
pub fn make_chain(line: &line::Line) -> table::Table {
    let mut tree = table::Table::new();
    tree.push(65535);
    tree.push(1);
    for x in 1..512 {
        tree.push(x - 1);
        tree.push(1);
    }
    damage(line, &mut tree);
    tree
}

// The nested entries that a line asks for: a step below entries 'from the root', each over the one before.
pub fn make_nested(line: &line::Line) -> table::Table {
    let mut query = table::Table::new();
    query.put(3, 1);
    for e in 1..256 {
        query.put(4 * e, 7);
        query.put(4 * e + 1, e - 1);
    }
    damage(line, &mut query);
    query
}
