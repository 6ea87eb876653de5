// What a call refuses: which rule is broken, by name, and where (SCOPE.md, "Refusals").
#![tactic(auto)]

ghost use Rattle.std.specs.Prelude.{◌≡◌};
ghost use Rattle.refusals.specs.Answers.{number_of};

use std::fmt;

// The refusals by their numbers.
#[derive(Clone, Copy, Debug, PartialEq, Eq)]
pub enum Reason {
    NoWords = 1,
    TooManyWords = 2,
    WordAfterEnd = 3,
    UnknownKind = 4,
    OutOfOrder = 5,
    FieldNotAllowed = 6,
    TooMany = 7,
    ClaimOfHeld = 8,
    ReleaseOfNotHeld = 9,
    StillHeld = 10,
    NoEnd = 11,
    GridTooLarge = 12,
    MapTooShort = 13,
    PlanTooShort = 14,
    BytesNotWords = 15,
    BadRecord = 16,
    NoSuchTask = 17,
    BadMapByte = 18,
    NotAtEnd = 19,
    NoRoute = 20,
    RouteTooShort = 21,
    BadTaskCount = 22,
    OutsideLayout = 23,
    UnclaimedDevice = 24,
    CleanTooShort = 25,
    BadSetting = 26,
    BadOrder = 27,
    TooManyUnits = 28,
    TooManyShared = 29,
    UnequalCapacities = 30,
    MergeTooShort = 31,
}

impl Reason {
    // The number that SCOPE.md gives it.
    pub fn number(self) -> u8
        ensures { result ≡ number_of self }
    {
        self as u8
    }

    // The refusal for this reason at a place.
    pub fn at(self, place: usize) -> Refusal
        ensures { result ≡ record { reason = self; place = place } }
    {
        Refusal {
            reason: self,
            place,
        }
    }
}

// A refusal: its reason, and the word, device, task or length that it names.
#[derive(Clone, Copy, Debug, PartialEq, Eq)]
pub struct Refusal {
    pub reason: Reason,
    pub place: usize,
}

impl fmt::Display for Refusal {
    fn fmt<W: fmt::Write>(&self, f: &mut fmt::Formatter<W>) -> fmt::Result {
        write!(f, "refused {} at {}", self.reason.number(), self.place)
    }
}
