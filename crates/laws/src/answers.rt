// The answers of all functions, by name: docs/RULES.md says when each is given. An exit status from 1 to 13 is one of them
// too; 14 and 15 are given to hosts alone. Between functions a refusal is a `Refusal`; the numbers are for C, for a line and for an
// exit status.
ghost use Rattle.std.specs.Prelude.{◌≡◌};
ghost use Rattle.laws.specs.Answers.{answer_of};

// Of every function: what was asked for is not refused. Of a run: all its steps are made, or its cycles spent, and its program
// still runs. Of a run to an address: the counter is at it.
pub const NOT_REFUSED: u8 = 0;

// Of whatever takes a memory or an image: it is not 65,536 bytes long.
pub const MEMORY_NOT_FULL: u8 = 1;

// Of a step: the cycle count leaves no room for it; the byte at the counter is no documented opcode.
pub const NO_CYCLE_ROOM: u8 = 2;

pub const NOT_AN_OPCODE: u8 = 3;

// Of a run: its bound is above 1,000,000.
pub const BOUND_TOO_HIGH: u8 = 4;

// Of a text of records, at the first bad one: it is malformed, or something else stands there; its sum is wrong; it goes past
// FFFF; there is no end record, or it has a wrong number, or there are too many records for one.
pub const MALFORMED_RECORD: u8 = 5;

pub const WRONG_SUM: u8 = 6;

pub const PAST_THE_END: u8 = 7;

pub const NO_END: u8 = 8;

// Of a text that is written: the first address is above the last; it does not fit into the buffer.
pub const FIRST_ABOVE_LAST: u8 = 9;

pub const NO_ROOM: u8 = 10;

// Of a recorded trace, at the first bad entry: it is malformed, or there is none; it does not follow from the entry before.
pub const MALFORMED_ENTRY: u8 = 11;

pub const STRAY_ENTRY: u8 = 12;

// Of a guarded run: the next step would read a byte that is guarded against reads; it would store to one that is guarded against
// stores.
pub const WOULD_READ: u8 = 13;

pub const WOULD_STORE: u8 = 14;

// Of a run to an address: all its steps are made, and the counter is not at it.
pub const NOT_THERE: u8 = 15;

// Why something is refused: an answer that is not 0.
#[derive(Clone, Copy, PartialEq, Eq)]
pub enum Refusal {
    MemoryNotFull,
    NoCycleRoom,
    NotAnOpcode,
    BoundTooHigh,
    MalformedRecord,
    WrongSum,
    PastTheEnd,
    NoEnd,
    FirstAboveLast,
    NoRoom,
    MalformedEntry,
    StrayEntry,
    WouldRead,
    WouldStore,
    NotThere,
}

impl From<Refusal> for u8 {
    ghost from_gives = { λ refusal number. number ≡ answer_of refusal };

    // Its number.
    fn from(refusal: Refusal) -> u8 {
        match refusal {
            Refusal::MemoryNotFull => MEMORY_NOT_FULL,
            Refusal::NoCycleRoom => NO_CYCLE_ROOM,
            Refusal::NotAnOpcode => NOT_AN_OPCODE,
            Refusal::BoundTooHigh => BOUND_TOO_HIGH,
            Refusal::MalformedRecord => MALFORMED_RECORD,
            Refusal::WrongSum => WRONG_SUM,
            Refusal::PastTheEnd => PAST_THE_END,
            Refusal::NoEnd => NO_END,
            Refusal::FirstAboveLast => FIRST_ABOVE_LAST,
            Refusal::NoRoom => NO_ROOM,
            Refusal::MalformedEntry => MALFORMED_ENTRY,
            Refusal::StrayEntry => STRAY_ENTRY,
            Refusal::WouldRead => WOULD_READ,
            Refusal::WouldStore => WOULD_STORE,
            Refusal::NotThere => NOT_THERE,
        }
    }
}
