// Why a call is declined, and the number by which the requirements, Rust and C have each cause.
#![tactic(auto)]

ghost use Rattle.std.specs.Prelude.{◌≡◌};
ghost use Rattle.causes.specs.Numbers.{number_of};

// The causes, as docs/REQUIREMENTS.md, 13, tables them.
#[derive(Clone, Copy, Debug, PartialEq, Eq)]
pub enum Declined {
    // open: the capacity is not in 1 to 4,096.
    Capacity,
    // open: fewer words than the book takes.
    NoRoom,
    NoBook,
    // The number of an offer is out of its range, or a price.
    OutOfRange,
    RateOutOfRange,
    BaseOutOfRange,
    LoadOutOfRange,
    NumberLive,
    Full,
    NotLive,
    NothingToTakeBack,
    Empty,
    OutputTooShort,
    RatesNotApart,
    NoSuchMark,
    // Any other number: no call gives it. What tells a refusal to Rust and C takes every number.
    Other(i64),
}

impl Declined {
    pub fn number(self) -> i64
        ensures { result ≡ number_of self }
    {
        match self {
            Declined::Capacity => 1,
            Declined::NoRoom => 2,
            Declined::NoBook => 3,
            Declined::OutOfRange => 4,
            Declined::RateOutOfRange => 14,
            Declined::BaseOutOfRange => 15,
            Declined::LoadOutOfRange => 16,
            Declined::NumberLive => 5,
            Declined::Full => 7,
            Declined::NotLive => 8,
            Declined::NothingToTakeBack => 17,
            Declined::Empty => 9,
            Declined::OutputTooShort => 10,
            Declined::RatesNotApart => 12,
            Declined::NoSuchMark => 13,
            // a number of those above is none of its own, so that each tells its cause
            Declined::Other(1..=5 | 7..=10 | 12..=17) => 0,
            Declined::Other(number) => number,
        }
    }
}
