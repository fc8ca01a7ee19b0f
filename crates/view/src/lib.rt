// The tree that a party sees of a shared table, as a table of two numbers a node: what every service runs on that is lent a shared table
// and a party. The check and the making of it take time linear in the table's length.
#![tactic(auto)]

ghost use Rattle.std.specs.Prelude.{◌≡◌, ◌||◌, ◌≤◌, length, eqb};
ghost use Rattle.model.specs.Refusals.{told_making};
ghost use Rattle.model.specs.Services.{Leaves};
ghost use Rattle.view.specs.View.{AcceptedTable, Filled, Looked, seen_tree};

use model::Refusal;

// Whether an owner lets the party see.
fn is_open(owner: u16, party: u16) -> bool
    ensures { result ≡ (eqb owner 0 || eqb owner party) }
{
    (owner == 0) | (owner == party)
}

// The seen nodes, over the front of a table of 512 numbers, and how many they are. One turn a node, without a branch: each node is
// written where the next seen one stands, and stays if it is seen itself. Its new number is kept for its children, or 65535 where it is
// not seen. Out of line, so that the numbers stand on no caller's frame.
#[inline(never)]
fn fill(tree: &[u16], party: u16, table: &mut [u16]) -> usize
    requires { AcceptedTable tree.now × (length table.old ≡ 512) }
    ensures { Filled tree.now party result table.new }
{
    let n = tree.len() / 3;
    let mut numbers = [0u16; 256];
    table[0] = 65535;
    table[1] = ownership::tag(tree, 0);
    let mut nodes = 1;
    for x in 1..n {
        let p = ownership::parent(tree, x);
        let up = numbers[p];
        let seen = is_open(ownership::owner(tree, x), party) & (up != 65535);
        table[2 * nodes] = up;
        table[2 * nodes + 1] = ownership::tag(tree, x);
        numbers[x] = if seen { nodes as u16 } else { 65535 };
        nodes += usize::from(seen);
    }
    nodes
}

// A look at a shared table, as a party: where table and party are accepted, the tree that the party sees stands at the front of a table of
// 512 numbers, and is so many numbers long.
pub fn look(tree: &[u16], party: u16, table: &mut [u16]) -> Result<usize, Refusal>
    requires { length table.old ≡ 512 }
    ensures { Looked tree.now party result table.new }
{
    ownership::check(tree, party)?;
    let nodes = fill(tree, party, table);
    Ok(2 * nodes)
}

// The service: the tree that a party sees, at the front of the buffer, and how many numbers it has.
pub fn seen(tree: &[u16], party: u16, table: &mut [u16]) -> Result<usize, Refusal>
    ensures { Leaves (seen_tree tree.now party table.old) (told_making result) table.new }
{
    let mut own = [0u16; 512];
    let count = look(tree, party, &mut own)?;
    checks::check_room(table.len(), count)?;
    model::copy(&own, count, table);
    Ok(count)
}
