// The links of a tree's index, and what the list of its tags holds.
ghost use Rattle.std.specs.Prelude.{◌≡◌, cond, ◌++◌, ◌*◌, ◌≤◌, ◌<◌, length, drop, get_or};
ghost use Rattle.model.specs.Tree.{tree_of, size_of};
ghost use Rattle.index.specs.Index.{first_from, index_of, present};
ghost use Rattle.index.specs.Parts.{Tagged, Rising, Holds, count_from, Each, triples};

// One of two numbers.
fn pick(b: bool, x: usize, y: usize) -> usize
    ensures { result ≡ cond b x y }
{
    if b { x } else { y }
}

// The place of a tag in a rising list that has it. A search by halves: it is among those from low on that are below high. By hand: with
// `binary_search` an index took up to twice the time (docs/LOOK-BACK.md).
fn place_of(list: &[u16], g: u16) -> usize
    requires { Rising list.now × Holds list.now g }
    ensures { (result < length list.now) × (get_or list.now result 0 ≡ g) }
{
    let mut low = 0;
    let mut high = list.len();
    while 1 < high - low {
        let middle = low + (high - low) / 2;
        let above = g < list[middle];
        low = pick(above, low, middle);
        high = pick(above, middle, high);
    }
    low
}

// Each node's next node of its tag, over the front of a buffer; and for each tag of the list the first node that has it, and how many
// have it. One turn a node, from the last to the first: its next is the first of its tag so far.
pub fn link(tree: &[u16], list: &[u16], next: &mut [u16], first: &mut [u16], counts: &mut [u16])
    requires { Tagged (tree_of tree.now) × ((list.now ≡ present (tree_of tree.now)) × ((size_of tree.now ≤ length next.old)
        × (Each (first_from (tree_of tree.now)) list.now (size_of tree.now) first.old
        × Each (count_from (tree_of tree.now)) list.now (size_of tree.now) counts.old))) }
    ensures { (next.new ≡ index_of (tree_of tree.now) ++ drop (size_of tree.now) next.old)
        × (Each (first_from (tree_of tree.now)) list.now 0 first.new
        × Each (count_from (tree_of tree.now)) list.now 0 counts.new) }
{
    for x in (0..tree.len() / 2).rev() {
        let k = place_of(list, tree::tag(tree, x));
        next[x] = first[k];
        first[k] = x as u16;
        counts[k] += 1;
    }
}

// The list of the tags, over the front of a buffer: tag, first node and count of each.
pub fn put_tags(list: &[u16], first: &[u16], counts: &[u16], tags: &mut [u16])
    requires { ((length list.now ≤ 256) × (3 * length list.now ≤ length tags.old))
        × ((length list.now ≤ length first.now) × (length list.now ≤ length counts.now)) }
    ensures { tags.new
        ≡ triples list.now first.now counts.now (length list.now)
        ++ drop (3 * length list.now) tags.old }
{
    for (k, g) in list.iter().enumerate() {
        let at = 3 * k;
        tags[at] = *g;
        tags[at + 1] = first[k];
        tags[at + 2] = counts[k];
    }
}
