// The refusals, in the refusal table's order of numbers. 16, a log that is too long, is the judge's
// alone.
ghost use Rattle.std.specs.Prelude.{◌≡◌};
ghost use Rattle.protocol.specs.Refusal.{number_of_refusal};
ghost use Rattle.protocol.specs.declared.Answer.TheVariants.{Refused};

use crate::Answer;

#[derive(Clone, Copy, PartialEq, Eq)]
pub enum Refusal {
    InvalidBlock,
    BadSizes,
    NoSuchClient,
    ClientBusy,
    BadSet,
    BadValues,
    NumbersSpent,
    MessagesFull,
    VersionsFull,
    NoSuchPlace,
    Unexpected,
    Missing,
    NothingEnded,
    OutputShort,
    Malformed,
    TooManyItems,
    GiverIsReceiver,
    NotSound,
}

impl Refusal {
    // Its number in the refusal table.
    pub fn number(self) -> u64
        ensures { result ≡ number_of_refusal self }
    {
        match self {
            Refusal::InvalidBlock => 1,
            Refusal::BadSizes => 2,
            Refusal::NoSuchClient => 3,
            Refusal::ClientBusy => 4,
            Refusal::BadSet => 5,
            Refusal::BadValues => 6,
            Refusal::NumbersSpent => 7,
            Refusal::MessagesFull => 8,
            Refusal::VersionsFull => 9,
            Refusal::NoSuchPlace => 10,
            Refusal::Unexpected => 11,
            Refusal::Missing => 12,
            Refusal::NothingEnded => 13,
            Refusal::OutputShort => 14,
            Refusal::Malformed => 15,
            Refusal::TooManyItems => 17,
            Refusal::GiverIsReceiver => 18,
            Refusal::NotSound => 19,
        }
    }
}

impl From<Refusal> for Answer {
    ghost from_gives = { λ r answer. answer ≡ Refused (number_of_refusal r) };

    fn from(r: Refusal) -> Answer {
        Answer::Refused(r.number())
    }
}
