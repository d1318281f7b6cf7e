// Refusals: the numbers under which document 01 lists why a call is refused.
#![tactic(auto)]

ghost use Rattle.std.specs.Prelude.{◌≡◌, Some};
ghost use Rattle.std.specs.Fmt.{decimal};
ghost use Rattle.refusals.specs.Refusals.{number};

use std::error::Error;
use std::fmt;

// Each row of the table but 0, which is done.
#[derive(Clone, Copy, Debug, PartialEq, Eq)]
pub enum Refusal {
    NotSound = 1,
    MemoryNotM = 2,
    ReplyTooShort = 3,
    NoSuchRecord = 4,
    RecordInUse = 5,
    OutOfRange = 6,
    ServedElsewhere = 7,
    RecordOff = 8,
    NoSuchBuffer = 9,
    NotUsedYet = 10,
    NothingArmed = 11,
    Misplaced = 12,
    SharesByte = 13,
    NoSuchAddress = 14,
    MemoryTooLarge = 15,
    NoSuchFrame = 16,
}

impl From<Refusal> for u8 {
    ghost from_gives = { λ refusal n. n ≡ number refusal };

    fn from(refusal: Refusal) -> u8 {
        refusal as u8
    }
}

impl From<Refusal> for u32 {
    ghost from_gives = { λ refusal n. n ≡ number refusal };

    fn from(refusal: Refusal) -> u32 {
        refusal as u32
    }
}

impl fmt::Display for Refusal {
    ghost output = { λ refusal. Some (decimal (number refusal)) };

    fn fmt<W: fmt::Write>(&self, f: &mut fmt::Formatter<W>) -> fmt::Result {
        let number = u8::from(*self);
        write!(f, "{number}")
    }
}

impl Error for Refusal {}
