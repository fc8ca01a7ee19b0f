// The index of an accepted tree: for each node the next later node of its tag, and the list of the tags present. Where a buffer has too
// little room both are left as they were.
#![tactic(auto)]

mod links;
mod order;

ghost use Rattle.std.specs.Prelude.{◌≡◌, ◌++◌, ◌*◌, ◌≤◌, length, drop};
ghost use Rattle.model.specs.Tree.{tree_of, size_of};
ghost use Rattle.model.specs.Refusals.{verdict, told};
ghost use Rattle.model.specs.Checks.{room_checks};
ghost use Rattle.model.specs.Accepted.{AcceptedTree};
ghost use Rattle.index.specs.Index.{index_of, present, tag_list, told_index, IndexLeaves};
ghost use Rattle.index.specs.Parts.{Tagged, BuffersLeave};

use model::{Refusal, Reply};

// The reply to the making of an index: number and place, and how many numbers were written to each buffer; 0 of a refused call.
#[repr(C)]
#[derive(Drop)]
pub struct IndexReply {
    pub number: u16,
    pub place: u16,
    pub next: usize,
    pub tags: usize,
}

// An index that was made: how many numbers were written to each buffer.
#[derive(Clone, Copy)]
pub struct Indexed {
    pub next: usize,
    pub tags: usize,
}

impl From<Result<Indexed, Refusal>> for IndexReply {
    ghost from_gives = { λ outcome r. r ≡ told_index outcome };

    fn from(outcome: Result<Indexed, Refusal>) -> IndexReply {
        match outcome {
            Ok(Indexed { next, tags }) => IndexReply {
                number: 0,
                place: 0,
                next,
                tags,
            },
            Err(e) => {
                let Reply { number, place } = Reply::from(e);
                IndexReply {
                    number,
                    place,
                    next: 0,
                    tags: 0,
                }
            }
        }
    }
}

// Refusal 20: one of two buffers has room for less than is needed.
#[tactic(auto, using(model::proofs::Refusals::stop_err))]
fn check_buffers(next: usize, n: usize, tags: usize, needed: usize) -> Result<(), Refusal>
    ensures { told result ≡ verdict (room_checks next n ++ room_checks tags needed) }
{
    checks::check_room(next, n)?;
    checks::check_room(tags, needed)
}

// The index and the list of the tags, over the fronts of their buffers.
fn write(tree: &[u16], list: &[u16], next: &mut [u16], tags: &mut [u16])
    requires { Tagged (tree_of tree.now) × ((list.now ≡ present (tree_of tree.now))
        × ((size_of tree.now ≤ length next.old) × (3 * length list.now ≤ length tags.old))) }
    ensures { (next.new ≡ index_of (tree_of tree.now) ++ drop (size_of tree.now) next.old)
        × (tags.new
        ≡ tag_list (tree_of tree.now) ++ drop (3 * length list.now) tags.old) }
{
    let mut first = [65535u16; 256];
    let mut counts = [0u16; 256];
    links::link(tree, list, next, &mut first, &mut counts);
    links::put_tags(list, &first, &counts, tags);
}

// Refusal 20, or the index and the list of the tags.
fn fill(tree: &[u16], list: &[u16], next: &mut [u16], tags: &mut [u16]) -> Result<Indexed, Refusal>
    requires { Tagged (tree_of tree.now) × (list.now ≡ present (tree_of tree.now)) }
    ensures { BuffersLeave (tree_of tree.now) next.old tags.old
        (told_index result) next.new tags.new }
{
    let n = tree.len() / 2;
    let needed = 3 * list.len();
    check_buffers(next.len(), n, tags.len(), needed)?;
    write(tree, list, next, tags);
    Ok(Indexed {
        next: n,
        tags: needed,
    })
}

// The index of a tree, and the list of its tags. The order of the tags takes a pass over the nodes for each tag present, in vector
// code, and the links a search by halves in that order for each node; all else is linear in n.
pub fn build(tree: &[u16], next: &mut [u16], tags: &mut [u16]) -> Result<Indexed, Refusal>
    requires { AcceptedTree tree.now }
    ensures { IndexLeaves tree.now next.old tags.old
        (told_index result) next.new tags.new }
{
    let mut list = [0u16; 256];
    let count = order::list_tags(tree, &mut list);
    fill(tree, &list[..count], next, tags)
}
