// The units of document 01, "Units": each quantity is a type of its own, and a product is made only here.
#![tactic(auto)]

ghost use Rattle.std.specs.Prelude.{◌≡◌, ℕ, ◌+◌, ◌-◌, ◌*◌, ◌<◌, ◌^◌};
ghost use Rattle.units.specs.Units.{ticks};

use std::ops::{Add, AddAssign};

// Whole kWh: a number of the year sheet, or a sum of such numbers over at most twelve months.
#[derive(Clone, Copy, Debug, PartialEq, Eq, PartialOrd, Ord)]
pub struct Kwh(pub u32);

// Whole kWh of any size that a caller brings: an estimate, a half as the amount of an advance takes it, and a reading as it is raised
// for losses.
#[derive(Clone, Copy, Debug, PartialEq, Eq, PartialOrd, Ord)]
pub struct WideKwh(pub u64);

// A price or a rate, in hundred-thousandths of a euro per kWh.
#[derive(Clone, Copy, Debug, PartialEq, Eq, PartialOrd, Ord)]
pub struct Rate(pub u64);

// Hundred-thousandths of a euro (document 01's tick).
#[derive(Clone, Copy, Debug, PartialEq, Eq, PartialOrd, Ord)]
pub struct Ticks(pub u64);

// The number by which callers name a user.
#[derive(Clone, Copy, Debug, PartialEq, Eq, PartialOrd, Ord)]
pub struct UserNumber(pub u32);

// The place of a record in the book.
#[derive(Clone, Copy, Debug, PartialEq, Eq, PartialOrd, Ord)]
pub struct RecordIndex(pub u32);

// THE LIMITS, in the order of specs/Limits.antt, which quotes their sentences. Those that follow from others are worked from them.

// Of a year sheet's numbers.
pub const MAX_KWH: u32 = 20_000_000;

pub const MAX_PRICE: u64 = 500_000;

const MAX_TIER_RATE: u64 = 2 * MAX_PRICE;

// Of kWh: of a half year, and of a year.
pub const MAX_HALF_KWH: u32 = 18 * MAX_KWH;

// By `as`: a call has no place in a constant.
const MAX_YEAR_KWH: u64 = 36 * (MAX_KWH as u64);

// In ticks: C, O, a liquidation, an advance; F; a contribution; the advances of a half; a year's charge.
pub const MAX_YEAR: u64 = MAX_YEAR_KWH * MAX_PRICE;

pub const MAX_FLAT_RATE: u64 = MAX_YEAR_KWH * MAX_TIER_RATE;

pub const MAX_CONTRIBUTION: u64 = MAX_YEAR + MAX_FLAT_RATE;

pub const MAX_HALF: u64 = MAX_YEAR / 2;

pub const MAX_CHARGE: u64 = 4_500_000;

// Of a user's details, and of its open year.
pub const MAX_POWER: u32 = 200_000;

pub const FIRST_ACTIVATION: u16 = 2013;

pub const LAST_ACTIVATION: u16 = 2099;

pub const LAST_OPEN_YEAR: u16 = LAST_ACTIVATION + 1;

// Of a book: the bytes of a record, and its records.
pub const RECORD_LENGTH: usize = 80;

pub const LEAST_RECORDS: usize = 2;

pub const MOST_RECORDS: usize = 800;

impl Add for Ticks {
    type Output = Ticks;

    ghost can_add = { λ a b. a.0 + b.0 < 2 ^ 64 };

    ghost add_gives = { λ a b r. r ≡ ticks (a.0 + b.0) };

    fn add(self, other: Ticks) -> Ticks {
        Ticks(self.0 + other.0)
    }
}

impl AddAssign for Ticks {
    ghost can_add_assign = { λ a b. a.0 + b.0 < 2 ^ 64 };

    ghost add_assign_gives = { λ a b r. r ≡ ticks (a.0 + b.0) };

    fn add_assign(&mut self, other: Ticks) {
        *self = *self + other;
    }
}

impl Ticks {
    // What an amount is above another, nothing where it is not.
    pub fn saturating_sub(self, other: Ticks) -> Ticks
        ensures { result ≡ ticks (self.0 - other.0) }
    {
        Ticks(self.0.saturating_sub(other.0))
    }
}

// An amount of energy, whatever its width.
pub trait Energy: Copy {
    ghost kwh: { Self → ℕ };

    fn kwh(self) -> u64
        ensures { result ≡ kwh self };
}

impl Energy for Kwh {
    ghost kwh = { λ energy. energy.0 };

    fn kwh(self) -> u64 {
        u64::from(self.0)
    }
}

impl Energy for WideKwh {
    ghost kwh = { λ energy. energy.0 };

    fn kwh(self) -> u64 {
        self.0
    }
}

// What energy is worth at a price, a tier rate or the rate of an advance.
pub fn priced<E: Energy>(energy: E, price: Rate) -> Ticks
    requires { E.kwh energy * price.0 < 2 ^ 64 }
    ensures { result ≡ ticks (E.kwh energy * price.0) }
{
    Ticks(energy.kwh() * price.0)
}
