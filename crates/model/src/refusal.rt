// The refusals of the documents (docs/REFERENCE.md, "Refusals"), each with its number and the place that it tells, as an error.
ghost use Rattle.std.specs.Prelude.{◌≡◌};
ghost use Rattle.model.specs.Refusals.{refused, told, told_making, told_counting, told_page, told_quick, told_read};

use super::{
    ImageReply, MadeReply, Page, PageReply, QuickPage, QuickReply, Read, ReadReply, Reply,
};

// Why a call is refused. What it is lent is told by its number: a node, an entry, a byte, a part; where there is none, the place is 0.
#[derive(Clone, Copy, PartialEq, Eq)]
pub enum Refusal {
    // 1: the job file has a bad length.
    JobLength,
    // 2: its last two bytes are no mark.
    JobMark,
    // 3: its tree (0) or its query (1) is not within it.
    JobPart(u16),
    // 4: the two share a byte.
    JobOverlap,
    // 5: a tree table has a bad length, or a relation a bad number of nodes.
    TreeSize,
    // 6: a node has a bad parent.
    BadParent(u16),
    // 7: a node has a reserved tag.
    ReservedTag(u16),
    // 8: a query table has a bad length.
    QueryLength,
    // 9: there are too few variables, or too many.
    VariableCount,
    // 10: an entry is of no known kind.
    UnknownKind(u16),
    // 11: an entry has an axis or a variable out of range, or an unnamed field that is not 0.
    BadField(u16),
    // 12: an operand does not come before its entry.
    LateOperand(u16),
    // 13: an operand is of the wrong sort.
    WrongSort(u16),
    // 14: an entry is an operand never or more than once.
    Misused(u16),
    // 15: the last entry is a node expression.
    NoPath(u16),
    // 16: there are not as many nodes as variables.
    NodeCount,
    // 17: a number is no node.
    NoNode(u16),
    // 18: a set or a relation has a bad length.
    SetLength,
    // 19: a byte is above 1.
    BadByte(u16),
    // 20: a buffer has too little room.
    Room,
    // 21: a table of names is malformed, the house's (0) or the site's (1).
    NameTable(u16),
    // 22: a tag has no name.
    NoName,
    // 23: a typed query has a bad length.
    TextLength,
    // 24: it is no query, as is seen at a byte.
    Ungrammatical(u16),
    // 25: it has a name that no tag has.
    UnknownName(u16),
    // 26: a query would have more than 64 entries.
    TooManyEntries,
    // 27: an index is none of the tree's, as is seen at a node.
    BadIndex(u16),
    // 28: a row of bits has one at or beyond n.
    StrayBit(u16),
    // 29: a variable is shared where it must not be.
    SharedVariable(u16),
    // 30: a node has a bad owner.
    BadOwner(u16),
    // 31: there is no such party.
    UnknownParty,
    // 36: there is no such node to start from.
    NoStart,
}

impl From<Refusal> for Reply {
    ghost from_gives = { λ e r. r ≡ refused e };

    fn from(e: Refusal) -> Reply {
        let (number, place) = match e {
            Refusal::JobLength => (1, 0),
            Refusal::JobMark => (2, 0),
            Refusal::JobPart(part) => (3, part),
            Refusal::JobOverlap => (4, 0),
            Refusal::TreeSize => (5, 0),
            Refusal::BadParent(x) => (6, x),
            Refusal::ReservedTag(x) => (7, x),
            Refusal::QueryLength => (8, 0),
            Refusal::VariableCount => (9, 0),
            Refusal::UnknownKind(e) => (10, e),
            Refusal::BadField(e) => (11, e),
            Refusal::LateOperand(e) => (12, e),
            Refusal::WrongSort(e) => (13, e),
            Refusal::Misused(e) => (14, e),
            Refusal::NoPath(e) => (15, e),
            Refusal::NodeCount => (16, 0),
            Refusal::NoNode(k) => (17, k),
            Refusal::SetLength => (18, 0),
            Refusal::BadByte(i) => (19, i),
            Refusal::Room => (20, 0),
            Refusal::NameTable(which) => (21, which),
            Refusal::NoName => (22, 0),
            Refusal::TextLength => (23, 0),
            Refusal::Ungrammatical(at) => (24, at),
            Refusal::UnknownName(at) => (25, at),
            Refusal::TooManyEntries => (26, 0),
            Refusal::BadIndex(y) => (27, y),
            Refusal::StrayBit(x) => (28, x),
            Refusal::SharedVariable(e) => (29, e),
            Refusal::BadOwner(x) => (30, x),
            Refusal::UnknownParty => (31, 0),
            Refusal::NoStart => (36, 0),
        };
        Reply { number, place }
    }
}

// A check as its reply: 0 and 0 where it lets through.
impl From<Result<(), Refusal>> for Reply {
    ghost from_gives = { λ outcome r. r ≡ told outcome };

    fn from(outcome: Result<(), Refusal>) -> Reply {
        match outcome {
            Ok(()) => Reply {
                number: 0,
                place: 0,
            },
            Err(e) => Reply::from(e),
        }
    }
}

// How many numbers a table has that was made.
impl From<Result<usize, Refusal>> for MadeReply {
    ghost from_gives = { λ outcome r. r ≡ told_making outcome };

    fn from(outcome: Result<usize, Refusal>) -> MadeReply {
        match outcome {
            Ok(count) => MadeReply {
                number: 0,
                place: 0,
                count,
            },
            Err(e) => {
                let Reply { number, place } = Reply::from(e);
                MadeReply {
                    number,
                    place,
                    count: 0,
                }
            }
        }
    }
}

// How many nodes an image has.
impl From<Result<usize, Refusal>> for ImageReply {
    ghost from_gives = { λ outcome r. r ≡ told_counting outcome };

    fn from(outcome: Result<usize, Refusal>) -> ImageReply {
        match outcome {
            Ok(count) => ImageReply {
                number: 0,
                place: 0,
                count,
            },
            Err(e) => {
                let Reply { number, place } = Reply::from(e);
                ImageReply {
                    number,
                    place,
                    count: 0,
                }
            }
        }
    }
}

// A page as its reply; the cursor goes its own way.
impl From<Result<Page, Refusal>> for PageReply {
    ghost from_gives = { λ outcome r. r ≡ told_page outcome };

    fn from(outcome: Result<Page, Refusal>) -> PageReply {
        match outcome {
            Ok(Page { count, more, .. }) => PageReply {
                number: 0,
                place: 0,
                count,
                more,
            },
            Err(e) => {
                let Reply { number, place } = Reply::from(e);
                PageReply {
                    number,
                    place,
                    count: 0,
                    more: false,
                }
            }
        }
    }
}

// A quick page as its reply.
impl From<Result<QuickPage, Refusal>> for QuickReply {
    ghost from_gives = { λ outcome r. r ≡ told_quick outcome };

    fn from(outcome: Result<QuickPage, Refusal>) -> QuickReply {
        match outcome {
            Ok(
                QuickPage {
                    page: Page { count, more, .. },
                    evaluations,
                },
            ) => {
                QuickReply {
                    number: 0,
                    place: 0,
                    count,
                    more,
                    evaluations,
                }
            }
            Err(e) => {
                let Reply { number, place } = Reply::from(e);
                QuickReply {
                    number,
                    place,
                    count: 0,
                    more: false,
                    evaluations: 0,
                }
            }
        }
    }
}

// A query that was read, as its reply.
impl From<Result<Read, Refusal>> for ReadReply {
    ghost from_gives = { λ outcome r. r ≡ told_read outcome };

    fn from(outcome: Result<Read, Refusal>) -> ReadReply {
        match outcome {
            Ok(Read { count, columns }) => ReadReply {
                number: 0,
                place: 0,
                count,
                columns,
            },
            Err(e) => {
                let Reply { number, place } = Reply::from(e);
                ReadReply {
                    number,
                    place,
                    count: 0,
                    columns: 0,
                }
            }
        }
    }
}
