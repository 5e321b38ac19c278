// The year's values of document 01, "Year's values": C, O, F and the halves of a sheet that has passed 11, 13 and 14.
#![tactic(auto)]

ghost use Rattle.std.specs.Prelude.{◌≡◌, [], ℕ, ◌+◌, ◌*◌, ◌≤◌, ◌<◌, min, ltb, get_or, take, drop, length};
ghost use Rattle.units.specs.Units.{kwh};
ghost use Rattle.units.specs.Limits.{max_kwh, max_price, max_tier_rate, max_flat_rate};
ghost use Rattle.units.specs.Folds.{sum_below, any_below};
ghost use Rattle.tariff.specs.Tariff.{monthly_threshold, mean_rate};
ghost use Rattle.sheet.specs.YearSheet.{month_withdrawn, word};
ghost use Rattle.sheet_prices.specs.InnerArrays.{energy_at, row_total};
ghost use Rattle.units.specs.InnerWithin.{NumberWithin, KwhWithin, RateWithin, TicksWithin};
ghost use Rattle.sheet_values.specs.YearsValues.{month_injected, month_exchanged, month_rate, annual_rate, month_flat_rate};
ghost use Rattle.sheet_values.specs.YearsValues.{annual_flat_rate, flat_rate_over};
ghost use Rattle.sheet_values.specs.InnerArrays.{Months, MonthsFit, Rates, ValuesWorked, month_energy};

use sheet::PassedSheet;
use sheet_prices::{Energies, Reading};
use tariff::{MONTHLY_THRESHOLD, Plant};
use units::{Kwh, Rate, Ticks};

// What enrolment notes of a user: class and plant by document 01's numbers, power in watts, year and month of
// activation, island 1 where the network is not interconnected, else 0.
#[derive(Clone, Copy, Debug, PartialEq, Eq)]
pub struct Details {
    pub class: u8,
    pub plant: u8,
    pub power: u32,
    pub year: u16,
    pub month: u8,
    pub island: u8,
}

// What a closing takes from a sheet: document 01's C, O and F, and the exchanged energy of the two halves.
#[derive(Clone, Copy, Debug, PartialEq, Eq)]
pub struct YearValues {
    pub value: Ticks,
    pub cost: Ticks,
    pub flat_rate: Ticks,
    pub half1: Kwh,
    pub half2: Kwh,
}

// A month of the year, counted from 0.
#[derive(Clone, Copy, Debug, PartialEq, Eq)]
struct Month {
    index: u8,
    ghost of_year: { index < 12 },
}

// Months of the year, one after another.
#[derive(Clone, Copy, Debug, PartialEq, Eq)]
struct Stretch {
    from: u8,
    count: u8,
    ghost some: { 0 < count },
    ghost of_year: { from + count ≤ 12 },
}

const YEAR: Stretch = Stretch { from: 0, count: 12 };

const FIRST_HALF: Stretch = Stretch { from: 0, count: 6 };

const SECOND_HALF: Stretch = Stretch { from: 6, count: 6 };

// A place of a month at which a rate stands.
#[derive(Clone, Copy, Debug, PartialEq, Eq)]
struct Column {
    place: u8,
    ghost of_rates: { (6 ≤ place) × (place < 23) },
}

// An energy for each month of the year, none above what three bands hold.
#[derive(Clone, Copy, Debug, PartialEq, Eq)]
struct MonthlyKwh {
    months: [Kwh; 12],
    ghost within: { MonthsFit months },
}

// A sheet with its months' energies: withdrawn, injected, and the smaller of the two.
#[derive(Clone, Copy)]
struct YearEnergies<'a> {
    sheet: PassedSheet<'a>,
    withdrawn: MonthlyKwh,
    injected: MonthlyKwh,
    exchanged: MonthlyKwh,
    ghost withdrawn_are: { Months (month_withdrawn sheet.bytes.now) withdrawn.months },
    ghost injected_are: { Months (month_injected sheet.bytes.now) injected.months },
    ghost exchanged_are: { Months (month_exchanged sheet.bytes.now) exchanged.months },
}

#[tactic(auto, unfolding(sheet_prices::specs::InnerArrays::row_total))]
fn row_total(energy: [Kwh; 3]) -> Kwh
    requires { (energy_at 0 energy ≤ max_kwh) × ((energy_at 1 energy ≤ max_kwh) × (energy_at 2 energy ≤ max_kwh)) }
    ensures { result ≡ kwh (row_total energy) }
{
    Kwh(energy[0].0 + energy[1].0 + energy[2].0)
}

// The energy of each month: by number, since the closures of `array::from_fn` and `map` would need a clause here and below.
fn totals_of(energies: Energies) -> [Kwh; 12]
    ensures { (m : ℕ) → m < 12 → get_or result m (kwh 0) ≡ kwh (row_total (get_or energies.months m [])) }
{
    let mut totals = [Kwh(0); 12];
    for month in 0..12 {
        totals[month] = row_total(energies.months[month]);
    }
    totals
}

fn smaller_of(withdrawn: [Kwh; 12], injected: [Kwh; 12]) -> [Kwh; 12]
    ensures { (m : ℕ) → m < 12 → get_or result m (kwh 0) ≡ kwh (min (energy_at m withdrawn) (energy_at m injected)) }
{
    let mut months = [Kwh(0); 12];
    for month in 0..12 {
        months[month] = withdrawn[month].min(injected[month]);
    }
    months
}

impl MonthlyKwh {
    // The energy of each month.
    fn of(sheet: PassedSheet<'_>, reading: Reading) -> MonthlyKwh
        ensures { Months (month_energy reading sheet.entry.bytes.now) result.months }
    {
        let months = totals_of(Energies::of(sheet, reading));
        MonthlyKwh { months }
    }

    fn at(self, month: Month) -> Kwh
        ensures is { result ≡ get_or self.months month.index (kwh 0) }
        ensures most { result.0 ≤ 3 * max_kwh }
    {
        self.months[usize::from(month.index)]
    }

    // The energy of a stretch of months.
    fn over(self, stretch: Stretch) -> Kwh
        ensures { KwhWithin (sum_below stretch.count (λ i. energy_at (stretch.from + i) self.months)) (3 * max_kwh * stretch.count) result }
    {
        let mut sum = 0;
        for kwh in stretch.of(&self.months) {
            sum += kwh.0;
        }
        Kwh(sum)
    }

    // "some month's withdrawal is above 4,000,000", in a stretch of months.
    fn some_above(self, stretch: Stretch) -> bool
        ensures { result ≡ any_below stretch.count (λ i. ltb monthly_threshold (energy_at (stretch.from + i) self.months)) }
    {
        let mut above = false;
        for kwh in stretch.of(&self.months) {
            above = above | (MONTHLY_THRESHOLD < kwh.0);
        }
        above
    }
}

impl Stretch {
    // Its part of the months of the year.
    fn of<'a>(self, months: &'a [Kwh; 12]) -> &'a [Kwh]
        ensures part { result.now ≡ take self.count (drop self.from months.now) }
        ensures long { length result.now ≡ self.count }
    {
        let from = usize::from(self.from);
        &months[from..from + usize::from(self.count)]
    }

    fn month(self, i: u8) -> Month
        requires { i < self.count }
        ensures { result.index ≡ self.from + i }
    {
        Month {
            index: self.from + i,
        }
    }
}

impl Column {
    // Of a tier, counted from 0.
    fn net(tier: u8) -> Column
        requires { tier < 4 }
        ensures { result.place ≡ 15 + tier }
    {
        Column { place: 15 + tier }
    }

    fn system(tier: u8) -> Column
        requires { tier < 4 }
        ensures { result.place ≡ 19 + tier }
    {
        Column { place: 19 + tier }
    }
}

// A rate of the sheet.
fn rate_at(sheet: PassedSheet<'_>, month: Month, column: Column) -> Rate
    ensures { RateWithin (word sheet.entry.bytes.now month.index column.place) max_price result }
{
    let bytes = sheet.bytes;
    Rate(u64::from(sheet::number(bytes, month.index, column.place)))
}

// The tier rates of a month: tier by tier, whose number is the place of its rates.
#[tactic(auto, unfolding(crate::specs::YearsValues::month_rate))]
fn month_rates(sheet: PassedSheet<'_>, month: Month, plant: Plant) -> [Rate; 4]
    ensures { Rates (month_rate sheet.entry.bytes.now plant.kind plant.power month.index) result }
{
    let mut rates = [Rate(0); 4];
    for tier in 0..4 {
        let net = rate_at(sheet, month, Column::net(tier));
        let system = rate_at(sheet, month, Column::system(tier));
        rates[usize::from(tier)] = plant.tier_rate(net, system);
    }
    rates
}

// A rate of the sheet, summed over a stretch of months: by number, since a rate is read at its month; so too the months' parts below.
fn rate_over(sheet: PassedSheet<'_>, column: Column, stretch: Stretch) -> Rate
    ensures { RateWithin (sum_below stretch.count (λ i. word sheet.entry.bytes.now (stretch.from + i) column.place))
        (max_price * stretch.count) result }
{
    let mut sum = 0;
    for i in 0..stretch.count {
        sum += rate_at(sheet, stretch.month(i), column).0;
    }
    Rate(sum)
}

// "each annual rate .. is the sum of twelve divided by 12, halves up".
fn mean_over(sheet: PassedSheet<'_>, column: Column, stretch: Stretch) -> Rate
    ensures { RateWithin (mean_rate stretch.count
        (sum_below stretch.count (λ i. word sheet.entry.bytes.now (stretch.from + i) column.place))) max_price result }
{
    tariff::mean_rate(rate_over(sheet, column, stretch), u64::from(stretch.count))
}

// The tier rates of the annual method, "net and system apart". Not one function with `month_rates`: a closure that reads a rate would need
// clauses that it may be called, and of what it gives.
#[tactic(auto, unfolding(crate::specs::YearsValues::annual_rate))]
fn annual_rates(sheet: PassedSheet<'_>, stretch: Stretch, plant: Plant) -> [Rate; 4]
    ensures { Rates (annual_rate sheet.entry.bytes.now plant.kind plant.power stretch.from stretch.count) result }
{
    let mut rates = [Rate(0); 4];
    for tier in 0..4 {
        let net = mean_over(sheet, Column::net(tier), stretch);
        let system = mean_over(sheet, Column::system(tier), stretch);
        rates[usize::from(tier)] = plant.tier_rate(net, system);
    }
    rates
}

impl<'a> YearEnergies<'a> {
    fn of(sheet: PassedSheet<'a>) -> YearEnergies<'a>
        ensures { result.sheet.bytes.now ≡ sheet.entry.bytes.now }
    {
        let withdrawn = MonthlyKwh::of(sheet, Reading::Withdrawn);
        let injected = MonthlyKwh::of(sheet, Reading::Injected);
        let months = smaller_of(withdrawn.months, injected.months);
        let exchanged = MonthlyKwh { months };
        YearEnergies {
            sheet,
            withdrawn,
            injected,
            exchanged,
        }
    }

    // "It uses each month's rates": the flat-rate part of a month in the monthly method.
    fn month_flat_rate(self, month: Month, plant: Plant) -> Ticks
        ensures { NumberWithin (month_flat_rate self.entry.sheet.bytes.now plant.kind plant.power month.index)
            (max_tier_rate * (3 * max_kwh)) result.0 }
    {
        let withdrawn = self.withdrawn.at(month);
        let exchanged = self.exchanged.at(month);
        let energies = tariff::monthly_tiers(withdrawn, exchanged);
        tariff::flat_rate_of(energies, month_rates(self.sheet, month, plant))
    }

    // The flat-rate part of a stretch of months in the monthly method.
    fn monthly_flat_rate(self, stretch: Stretch, plant: Plant) -> Ticks
        ensures { NumberWithin
            (sum_below stretch.count
            (λ i. month_flat_rate self.entry.sheet.bytes.now plant.kind plant.power (stretch.from + i)))
            (max_tier_rate * (3 * max_kwh) * stretch.count) result.0 }
    {
        let mut sum = Ticks(0);
        for i in 0..stretch.count {
            sum += self.month_flat_rate(stretch.month(i), plant);
        }
        sum
    }

    // The flat-rate part of a stretch of months in the annual method.
    fn annual_flat_rate(self, stretch: Stretch, class: u8, plant: Plant) -> Ticks
        ensures { NumberWithin
            (annual_flat_rate self.entry.sheet.bytes.now stretch.from stretch.count class plant.kind plant.power)
            max_flat_rate result.0 }
    {
        let withdrawn = self.withdrawn.over(stretch);
        let exchanged = withdrawn.min(self.injected.over(stretch));
        let energies = tariff::annual_tiers(class, withdrawn, exchanged);
        tariff::flat_rate_of(energies, annual_rates(self.sheet, stretch, plant))
    }

    // F, the flat-rate part, of a stretch of months for a class and a plant.
    fn flat_rate(self, stretch: Stretch, class: u8, plant: Plant) -> Ticks
        ensures { TicksWithin
            (flat_rate_over self.entry.sheet.bytes.now stretch.from stretch.count class plant.kind plant.power)
            max_flat_rate result }
    {
        if tariff::monthly_method(class, self.withdrawn.some_above(stretch)) {
            self.monthly_flat_rate(stretch, plant)
        } else {
            self.annual_flat_rate(stretch, class, plant)
        }
    }
}

impl YearValues {
    // All values of a sheet that has passed 11, 13 and 14, for a user with these details.
    pub fn of(sheet: PassedSheet<'_>, details: Details) -> YearValues
        ensures { ValuesWorked sheet.entry.bytes.now details result }
    {
        let year = YearEnergies::of(sheet);
        let plant = Plant::new(details.plant, details.power);
        YearValues {
            value: sheet_prices::value(sheet, details.island == 1, details.plant == 1),
            cost: sheet_prices::cost(sheet),
            flat_rate: year.flat_rate(YEAR, details.class, plant),
            half1: year.exchanged.over(FIRST_HALF),
            half2: year.exchanged.over(SECOND_HALF),
        }
    }
}
