// What energy is worth: O, the purchase cost of the energy withdrawn, and C, the value of the energy injected (document
// 01, "Year's values").
#![tactic(auto)]

ghost use Rattle.std.specs.Prelude.{◌≡◌, [], ◌*◌, ◌≤◌, ◌<◌, get_or};
ghost use Rattle.units.specs.Units.{rate};
ghost use Rattle.units.specs.Limits.{max_kwh, max_price, max_year_ticks};
ghost use Rattle.units.specs.Folds.{sum_below};
ghost use Rattle.codec.specs.Bytes.{number};
ghost use Rattle.units.specs.InnerWithin.{TicksWithin};
ghost use Rattle.sheet_prices.specs.ValueAndCost.{cost_of, value_of};
ghost use Rattle.sheet_prices.specs.InnerArrays.{first_place, energy_row, EnergyRows, EnergiesFit, row_value, RowFits};
ghost use Rattle.sheet_prices.specs.InnerArrays.{series_of, series_part, prices_in, PriceRows, PricesFit};

use sheet::{PassedSheet, Sheet};
use units::{Kwh, Rate, Ticks};

// Energy withdrawn from the grid, or injected into it.
#[derive(Clone, Copy, Debug, PartialEq, Eq)]
pub enum Reading {
    Withdrawn,
    Injected,
}

// The series whose prices apply to a month's energy: of the whole grid (PUN) or of its zone, by band or as a mean, for a single reading.
#[derive(Clone, Copy, Debug, PartialEq, Eq)]
pub enum Series {
    PunBands,
    PunMean,
    ZoneBands,
    ZoneMean,
    ZoneDayMean,
}

// The energies of a year, by month and band, each within its limit.
#[derive(Clone, Copy, Debug, PartialEq, Eq)]
pub struct Energies {
    pub months: [[Kwh; 3]; 12],
    ghost within: { EnergiesFit months },
}

// The prices of a year, by month and band, each within its limit.
#[derive(Clone, Copy, Debug, PartialEq, Eq)]
struct Prices {
    months: [[Rate; 3]; 12],
    ghost within: { PricesFit months },
}

impl Reading {
    // The place of its F1 in a month.
    fn first_place(self) -> u8
        ensures is { result ≡ first_place self }
        ensures most { result ≤ 3 }
    {
        match self {
            Reading::Withdrawn => 0,
            Reading::Injected => 3,
        }
    }
}

fn energy_row(s: &[u8], place: u8, month: u8) -> [Kwh; 3]
    requires { place < 22 }
    ensures { result ≡ energy_row s.now place month }
{
    [
        Kwh(sheet::number(s, month, place)),
        Kwh(sheet::number(s, month, place + 1)),
        Kwh(sheet::number(s, month, place + 2)),
    ]
}

// The energies of the year, by month and band, from a place of the month on: month by month, since the closure of `array::from_fn` would
// need a clause of its own; so too the prices below.
pub fn energy_rows(s: &[u8], place: u8) -> [[Kwh; 3]; 12]
    requires { place < 22 }
    ensures { EnergyRows (energy_row s.now place) result }
{
    let mut rows = [[Kwh(0); 3]; 12];
    for month in 0..12 {
        rows[usize::from(month)] = energy_row(s, place, month);
    }
    rows
}

impl Energies {
    // The energies of a reading.
    pub fn of(sheet: PassedSheet<'_>, reading: Reading) -> Energies
        ensures { EnergyRows (energy_row sheet.entry.bytes.now (first_place reading)) result.months }
    {
        let bytes = sheet.bytes;
        let months = energy_rows(bytes, reading.first_place());
        Energies { months }
    }
}

impl Series {
    // The series for a reading by bands or a single one, on an island, whose energy is priced by its PUN, or off it; the zone's mean of
    // hours 8–20 is the price of a single photovoltaic plant.
    pub fn of(bands: bool, island: bool, photovoltaic: bool) -> Series
        ensures { result ≡ series_of bands island photovoltaic }
    {
        match (bands, island, photovoltaic) {
            (true, true, _) => Series::PunBands,
            (true, false, _) => Series::ZoneBands,
            (false, true, _) => Series::PunMean,
            (false, false, true) => Series::ZoneDayMean,
            (false, false, false) => Series::ZoneMean,
        }
    }
}

// The part of a month's zone series (bands, mean, mean of hours 8–20) or PUN series (bands, mean) that applies.
#[tactic(auto, unfolding(codec::specs::Bytes::part))]
fn series_part<'a>(zone: &'a [u8; 20], pun: &'a [u8; 16], series: Series) -> &'a [u8]
    ensures { result.now ≡ series_part series zone.now pun.now }
{
    match series {
        Series::PunBands => &pun[..12],
        Series::PunMean => &pun[12..],
        Series::ZoneBands => &zone[..12],
        Series::ZoneMean => &zone[12..16],
        Series::ZoneDayMean => &zone[16..],
    }
}

fn rate_at(prices: &[u8], band: u8) -> Rate
    ensures { result ≡ rate (number 4 (4 * band) prices.now) }
{
    Rate(u64::from(codec::read::<u32>(prices, 4 * usize::from(band))))
}

// The prices of a month, by band; the price of a single reading stands at F1.
pub fn price_row(sheet: &Sheet, series: Series, month: usize) -> [Rate; 3]
    requires { month < 12 }
    ensures { result ≡ prices_in sheet.now series month }
{
    let from = sheet::HEADER + 96 * month + 24;
    let middle = from + 16;
    let to = middle + 20;
    let pun = <&[u8; 16]>::try_from(&sheet[from..middle]).unwrap();
    let zone = <&[u8; 20]>::try_from(&sheet[middle..to]).unwrap();
    let prices = series_part(zone, pun, series);
    match series {
        Series::PunBands | Series::ZoneBands => {
            [rate_at(prices, 0), rate_at(prices, 1), rate_at(prices, 2)]
        }
        _ => [rate_at(prices, 0), Rate(0), Rate(0)],
    }
}

// The prices of a series, by month and band.
fn price_rows(sheet: &Sheet, series: Series) -> [[Rate; 3]; 12]
    ensures { PriceRows (prices_in sheet.now series) result }
{
    let mut rows = [[Rate(0); 3]; 12];
    for month in 0..12 {
        rows[month] = price_row(sheet, series, month);
    }
    rows
}

impl Prices {
    // The prices of a series. Not one function with `Energies::of`: kWh and rates never stand in for one another.
    fn of(sheet: PassedSheet<'_>, series: Series) -> Prices
        ensures { PriceRows (prices_in sheet.entry.bytes.now series) result.months }
    {
        let bytes = sheet.bytes;
        let months = price_rows(bytes, series);
        Prices { months }
    }
}

// Energy times price over the bands of a month.
fn row_value(energy: [Kwh; 3], prices: [Rate; 3]) -> Ticks
    requires { RowFits energy prices }
    ensures { TicksWithin (row_value energy prices) (3 * (max_kwh * max_price)) result }
{
    let f1 = units::priced(energy[0], prices[0]);
    let f2 = units::priced(energy[1], prices[1]);
    let f3 = units::priced(energy[2], prices[2]);
    f1 + f2 + f3
}

// The same over the year.
fn year_value(energies: Energies, prices: Prices) -> Ticks
    ensures { TicksWithin (sum_below 12 (λ m. row_value (get_or energies.months m []) (get_or prices.months m [])))
        max_year_ticks result }
{
    let mut sum = Ticks(0);
    for month in 0..12 {
        sum += row_value(energies.months[month], prices.months[month]);
    }
    sum
}

// "O: withdrawn times PUN, by band or by mean, summed over the months."
pub fn cost(sheet: PassedSheet<'_>) -> Ticks
    ensures { TicksWithin (cost_of sheet.entry.bytes.now) max_year_ticks result }
{
    let bytes = sheet.bytes;
    let bands = sheet::withdrawn_reading(bytes) == 1;
    let series = Series::of(bands, true, false);
    year_value(
        Energies::of(sheet, Reading::Withdrawn),
        Prices::of(sheet, series),
    )
}

// "C: injected times zone price by band", or its PUN price on an island.
pub fn value(sheet: PassedSheet<'_>, island: bool, photovoltaic: bool) -> Ticks
    ensures { TicksWithin (value_of sheet.entry.bytes.now island photovoltaic) max_year_ticks result }
{
    let bytes = sheet.bytes;
    let bands = sheet::injected_reading(bytes) == 1;
    let series = Series::of(bands, island, photovoltaic);
    year_value(
        Energies::of(sheet, Reading::Injected),
        Prices::of(sheet, series),
    )
}
