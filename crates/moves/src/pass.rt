// Passes over the rows of a table along a link, one turn a row. A link is a lower number than its node's: in the order that each pass takes,
// a row is read before it is written where one hop is meant, and is final before it is read where any number is.
ghost use Rattle.std.specs.Prelude.{◌≡◌, true, ◌*◌, ◌≤◌, ◌<◌, length};
ghost use Rattle.model.specs.Sets.{turn};
ghost use Rattle.tree.specs.Links.{links};
ghost use Rattle.steps.specs.Moves.{hop, star};
ghost use Rattle.moves.specs.Columns.{Moved};
ghost use Rattle.moves.specs.Rows.{lower};

// A node's link, or the node where it has none: its row is then joined with itself, which needs no branch.
fn link_of(link: &[u16], y: usize) -> usize
    requires { 2 * y < length link.now }
    ensures { result ≡ lower (links link.now) y }
{
    usize::from(link[2 * y]).min(y)
}

// One hop away from node 0: from the last row down, each becomes its link's.
pub fn hop_away(link: &[u16], n: usize, acc: &mut [u64])
    requires { (n ≤ 256) × ((2 * n ≤ length link.now) × (4 * n ≤ length acc.old)) }
    ensures { Moved n (hop (links link.now)) acc.old acc.new }
{
    for y in (0..n).rev() {
        let p = link_of(link, y);
        crate::row::pull(acc, y, p);
    }
}

// No hop away from node 0, one or more: from the first row up, each takes in its link's.
pub fn star_away(link: &[u16], n: usize, acc: &mut [u64])
    requires { (n ≤ 256) × ((2 * n ≤ length link.now) × (4 * n ≤ length acc.old)) }
    ensures { Moved n (star (links link.now)) acc.old acc.new }
{
    for y in 0..n {
        let p = link_of(link, y);
        crate::row::join(acc, y, p);
    }
}

// One hop back: from the first row up, each is handed to its link's and cleared.
pub fn hop_back(link: &[u16], n: usize, acc: &mut [u64])
    requires { (n ≤ 256) × ((2 * n ≤ length link.now) × (4 * n ≤ length acc.old)) }
    ensures { Moved n (turn true (hop (links link.now))) acc.old acc.new }
{
    for y in 0..n {
        let p = link_of(link, y);
        crate::row::join(acc, p, y);
        crate::row::clear(acc, y);
    }
}

// No hop back, one or more: from the last row down, each is handed to its link's.
pub fn star_back(link: &[u16], n: usize, acc: &mut [u64])
    requires { (n ≤ 256) × ((2 * n ≤ length link.now) × (4 * n ≤ length acc.old)) }
    ensures { Moved n (turn true (star (links link.now))) acc.old acc.new }
{
    for y in (0..n).rev() {
        let p = link_of(link, y);
        crate::row::join(acc, p, y);
    }
}
