// Why a call was refused. Every call asks its questions in a fixed order; the first that is answered no is the refusal,
// and the question's number is all that comes back.
#![tactic(auto)]

ghost use Rattle.std.specs.Prelude.{◌≡◌, Some, decimal};
ghost use Rattle.refusals.specs.Numbers.{number};

use std::fmt;

#[derive(Clone, Copy, PartialEq, Eq, Debug)]
pub enum Refusal {
    Unknown = 1,
    NoAddedWords = 2,
    KeyLength = 3,
    TagLength = 4,
    MessageLength = 5,
    Room = 6,
    NoSlot = 7,
    SlotEmpty = 8,
    NoLane = 9,
    LaneBusy = 10,
    NotBegun = 11,
    TagSize = 12,
    Kind = 13,
    Body = 14,
    NumbersSpent = 15,
    FrameLength = 16,
    Version = 17,
    Address = 18,
    OldNumber = 19,
    WrongTag = 20,
    OrderInHand = 21,
    NotInHand = 22,
    OwnAddress = 23,
}

// The number of the question that was answered no.
impl From<Refusal> for u8 {
    ghost from_gives = { λ refusal n. n ≡ number refusal };

    fn from(refusal: Refusal) -> u8 {
        refusal as u8
    }
}

impl fmt::Display for Refusal {
    ghost output = { λ refusal. Some (decimal (number refusal)) };

    fn fmt<W: fmt::Write>(&self, f: &mut fmt::Formatter<W>) -> fmt::Result {
        write!(f, "{}", u8::from(*self))
    }
}
