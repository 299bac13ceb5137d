// How a call answers: accepted, or refused for one of the documents' reasons at a place. One answer serves the reader, the checks
// and the calls. specs/Checked.antt says what an ordered chain of checks comes to. Rests on `lists`.

#![tactic(auto)]

mod found;

ghost use Rattle.std.specs.Prelude.{◌≡◌};
ghost use Rattle.checks.specs.Answer.{NumberOf};

pub use found::named;

// Why a call refuses. `number_of` gives the documents' number of each.
#[derive(Clone, Copy, Debug, PartialEq, Eq)]
pub enum Refusal {
    NoHead,
    UnknownWord,
    NotDue,
    NotPrime,
    NotMade,
    ModuliDiffer,
    OutOfRange,
    TooMany,
    NoOutput,
    WrongEnd,
    SessionRange,
    NoSuchParty,
    OwnerAbsent,
    WrongLength,
    ValueTooLarge,
    ContributionTooLarge,
    ZeroOffset,
    KeyOrRowTooLarge,
    WrongInputKey,
    NoMultiplier,
    MeterFull,
    TooShort,
    BundleRange,
    IntegerTooLarge,
    NoSuchAccount,
    SelectPresent,
    OffsetNotOne,
    NamedAbsent,
}

// A refusal: why, and at which place of what was lent.
#[derive(Clone, Copy, Debug, PartialEq, Eq)]
pub struct Refused {
    pub reason: Refusal,
    pub place: usize,
}

// What checks come to. A check that stands behind another is made where that one accepts, so a chain of them is a chain of `?`.
pub type Answer = Result<(), Refused>;

impl Refusal {
    // This refusal at a place.
    pub fn at(self, place: usize) -> Refused
        ensures { result ≡ record { reason = self; place = place } }
    {
        Refused {
            reason: self,
            place,
        }
    }
}

// The documents' number of a reason.
impl From<Refusal> for u32 {
    ghost from_gives = { NumberOf };

    fn from(reason: Refusal) -> u32 {
        match reason {
            Refusal::NoHead => 1,
            Refusal::UnknownWord => 2,
            Refusal::NotDue => 3,
            Refusal::NotPrime => 4,
            Refusal::NotMade => 5,
            Refusal::ModuliDiffer => 6,
            Refusal::OutOfRange => 7,
            Refusal::TooMany => 8,
            Refusal::NoOutput => 9,
            Refusal::WrongEnd => 10,
            Refusal::SessionRange => 11,
            Refusal::NoSuchParty => 12,
            Refusal::OwnerAbsent => 13,
            Refusal::WrongLength => 14,
            Refusal::ValueTooLarge => 15,
            Refusal::ContributionTooLarge => 16,
            Refusal::ZeroOffset => 17,
            Refusal::KeyOrRowTooLarge => 18,
            Refusal::WrongInputKey => 19,
            Refusal::NoMultiplier => 20,
            Refusal::MeterFull => 21,
            Refusal::TooShort => 22,
            Refusal::BundleRange => 23,
            Refusal::IntegerTooLarge => 24,
            Refusal::NoSuchAccount => 25,
            Refusal::SelectPresent => 26,
            Refusal::OffsetNotOne => 27,
            Refusal::NamedAbsent => 28,
        }
    }
}
