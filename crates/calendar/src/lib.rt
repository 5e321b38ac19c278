// "Election and advances" of document 01: the day of an election, the runs due in a year, the amount of a run.
#![tactic(auto)]

ghost use Rattle.std.specs.Prelude.{◌≡◌, ◌*◌, ◌≤◌};
ghost use Rattle.units.specs.Units.{ticks};
ghost use Rattle.units.specs.Limits.{max_price, max_half_kwh, max_half_ticks};
ghost use Rattle.units.specs.InnerWithin.{TicksWithin};
ghost use Rattle.calendar.specs.ElectionAndAdvances.{leap, days_in, is_day, in_window};
ghost use Rattle.calendar.specs.ElectionAndAdvances.{halves_paid, due, halves_count, paid_of, amount_of};
ghost use Rattle.calendar.specs.InnerShares.{ShareOf};

use units::{Rate, Ticks, WideKwh};

// The leap rule, "for every year number".
#[tactic(auto, unfolding(crate::specs::ElectionAndAdvances::leap))]
fn leap(year: u32) -> bool
    ensures { result ≡ leap year }
{
    year % 4 == 0 && year % 100 != 0 || year % 400 == 0
}

// The days of a month; a number that names no month counts 31.
#[tactic(auto, unfolding(crate::specs::ElectionAndAdvances::days_in))]
fn days_in(year: u32, month: u32) -> u32
    ensures { result ≡ days_in year month }
{
    match month {
        2 => if leap(year) { 29 } else { 28 },
        4 | 6 | 9 | 11 => 30,
        _ => 31,
    }
}

/// A day by its three numbers, whether or not there is such a day; earlier days are less.
#[derive(Clone, Copy, Debug, PartialEq, Eq, PartialOrd, Ord)]
pub struct Day {
    pub year: u32,
    pub month: u32,
    pub day: u32,
}

impl Day {
    /// "a Gregorian day"
    #[tactic(auto, unfolding(crate::specs::ElectionAndAdvances::is_day))]
    pub fn is_gregorian(self) -> bool
        ensures { result ≡ is_day self.year self.month self.day }
    {
        (1..=12).contains(&self.month)
            && 1 <= self.day
            && self.day <= days_in(self.year, self.month)
    }

    /// "from 1 January a to 31 January a + 1", where a is the open year.
    #[tactic(auto, unfolding(crate::specs::ElectionAndAdvances::in_window, crate::specs::ElectionAndAdvances::not_after))]
    pub fn is_in_window(self, open_year: u16) -> bool
        ensures { result ≡ in_window open_year self.year self.month self.day }
    {
        let year = u32::from(open_year);
        let first = Day {
            year,
            month: 1,
            day: 1,
        };
        let last = Day {
            year: year + 1,
            month: 1,
            day: 31,
        };
        first <= self && self <= last
    }
}

// Run bits: "1 June, 2 October, 4 January". Numbers and no enum: a record's byte brings any of them, and holds several at once.
pub const JUNE: u8 = 1;

pub const OCTOBER: u8 = 2;

pub const JANUARY: u8 = 4;

/// The halves of a year that a run pays: two flags, since a run pays either half, both or none.
#[derive(Clone, Copy, Debug, PartialEq, Eq)]
pub struct Halves {
    pub first: bool,
    pub second: bool,
}

/// "First half (months 1–6) in June, second in October. In the activation year: months 3–8, both in October; 9–11, both in
/// January; 12, none."
#[tactic(auto, unfolding(crate::specs::ElectionAndAdvances::halves_paid))]
pub fn halves_paid(activation_year: u16, activation_month: u8, year: u16, run: u8) -> Halves
    ensures { result ≡ halves_paid activation_year activation_month year run }
{
    let usual = Halves {
        first: run == JUNE,
        second: run == OCTOBER,
    };
    if year != activation_year {
        return usual;
    }
    match activation_month {
        3..=8 => Halves {
            first: run == OCTOBER,
            second: run == OCTOBER,
        },
        9..=11 => Halves {
            first: run == JANUARY,
            second: run == JANUARY,
        },
        12 => Halves {
            first: false,
            second: false,
        },
        _ => usual,
    }
}

// "A run of 1,500,000 ticks or less pays 0".
const THRESHOLD: Ticks = Ticks(1_500_000);

/// What a run of that amount pays.
#[tactic(auto, unfolding(crate::specs::ElectionAndAdvances::paid_of))]
pub fn paid_of(amount: Ticks) -> Ticks
    ensures { result ≡ ticks (paid_of amount.0) }
{
    if amount <= THRESHOLD {
        Ticks(0)
    } else {
        amount
    }
}

// A half's share of a run.
fn share(paid: bool, energy: WideKwh, price: Rate) -> Ticks
    requires { (energy.0 ≤ max_half_kwh) × (price.0 ≤ max_price) }
    ensures { ShareOf paid energy.0 price.0 result.0 }
{
    if paid {
        units::priced(energy, price)
    } else {
        Ticks(0)
    }
}

impl Halves {
    /// A run is due where it pays a half.
    #[tactic(auto, unfolding(crate::specs::ElectionAndAdvances::due))]
    pub fn is_due(self) -> bool
        ensures { result ≡ due self }
    {
        self.first || self.second
    }

    /// How many halves a run pays.
    #[tactic(auto, unfolding(crate::specs::ElectionAndAdvances::halves_count))]
    pub fn count(self) -> u64
        ensures { result ≡ halves_count self }
    {
        u64::from(self.first) + u64::from(self.second)
    }

    /// "The amount is the rate times the last closed year's half, or times that half's estimate if no year is closed; a run due
    /// for both halves pays their sum."
    pub fn amount(self, price: Rate, first: WideKwh, second: WideKwh) -> Ticks
        requires price_bound { price.0 ≤ max_price }
        requires halves_bound { (first.0 ≤ max_half_kwh) × (second.0 ≤ max_half_kwh) }
        ensures { TicksWithin (amount_of self price.0 first.0 second.0) (max_half_ticks * halves_count self) result }
    {
        let first = share(self.first, first, price);
        let second = share(self.second, second, price);
        paid_of(first + second)
    }
}
