// What is due as a reply. The numbers are written out from the document (docs/REFERENCE.md, "Refusals"), and go by no conversion of
// `model`: what a service told goes by those, so that a wrong number in one of them shows.
use super::line::Line;
use model::{ImageReply, Refusal, Reply};

// What stands for the reply where more would be lent than there is: no service gives it.
pub const NO_REPLY: ImageReply = ImageReply {
    number: 65535,
    place: 65535,
    count: 65535,
};

// A number of a line as one of a reply. A larger one, too, is one that no service gives, and none that NO_REPLY has.
fn narrow(x: usize) -> u16 {
    u16::try_from(x).unwrap_or(65534)
}

// A part of a line, NUMBER PLACE, as the reply that is due.
pub fn written(line: &Line, part: usize) -> Reply {
    Reply {
        number: narrow(line.number(part, 0)),
        place: narrow(line.number(part, 1)),
    }
}

// The number and the place of a refusal.
pub fn reply(refusal: Refusal) -> Reply {
    let (number, place) = match refusal {
        Refusal::JobLength => (1, 0),
        Refusal::JobMark => (2, 0),
        Refusal::JobPart(part) => (3, part),
        Refusal::JobOverlap => (4, 0),
        Refusal::TreeSize => (5, 0),
        Refusal::BadParent(node) => (6, node),
        Refusal::ReservedTag(node) => (7, node),
        Refusal::QueryLength => (8, 0),
        Refusal::VariableCount => (9, 0),
        Refusal::UnknownKind(entry) => (10, entry),
        Refusal::BadField(entry) => (11, entry),
        Refusal::LateOperand(entry) => (12, entry),
        Refusal::WrongSort(entry) => (13, entry),
        Refusal::Misused(entry) => (14, entry),
        Refusal::NoPath(entry) => (15, entry),
        Refusal::NodeCount => (16, 0),
        Refusal::NoNode(variable) => (17, variable),
        Refusal::SetLength => (18, 0),
        Refusal::BadByte(byte) => (19, byte),
        Refusal::Room => (20, 0),
        Refusal::NameTable(part) => (21, part),
        Refusal::NoName => (22, 0),
        Refusal::TextLength => (23, 0),
        Refusal::Ungrammatical(byte) => (24, byte),
        Refusal::UnknownName(byte) => (25, byte),
        Refusal::TooManyEntries => (26, 0),
        Refusal::BadIndex(node) => (27, node),
        Refusal::StrayBit(row) => (28, row),
        Refusal::SharedVariable(entry) => (29, entry),
        Refusal::BadOwner(node) => (30, node),
        Refusal::UnknownParty => (31, 0),
        Refusal::NoStart => (36, 0),
    };
    Reply { number, place }
}

// The reply to a call without a count: 0 and 0 where it is accepted.
pub fn told(outcome: Result<(), Refusal>) -> Reply {
    match outcome {
        Ok(()) => Reply {
            number: 0,
            place: 0,
        },
        Err(refusal) => reply(refusal),
    }
}

// The reply to a call with a count, which is 0 where it is refused.
pub fn counted(outcome: Result<usize, Refusal>) -> ImageReply {
    match outcome {
        Ok(count) => ImageReply {
            number: 0,
            place: 0,
            count,
        },
        Err(refusal) => {
            let Reply { number, place } = reply(refusal);
            ImageReply {
                number,
                place,
                count: 0,
            }
        }
    }
}
