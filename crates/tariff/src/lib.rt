// The part of "Year's values" of document 01 that needs no sheet: methods, tiers and rates.
// Classes and kinds of plants stay numbers: by a rule of the project, ranges over them choose.
#![tactic(auto)]

mod table1;

ghost use Rattle.std.specs.Prelude.{◌≡◌, ℕ, ◌*◌, ◌≤◌, ◌<◌, map, get_or};
ghost use Rattle.units.specs.Units.{kwh, rate, units_per_euro_mwh};
ghost use Rattle.units.specs.Limits.{max_price, max_tier_rate};
ghost use Rattle.tariff.specs.Table1.{table_euro_per_mwh};
ghost use Rattle.tariff.specs.Tariff.{domestic, monthly_method, between, above, tiers, numbers, tier_sum};
ghost use Rattle.tariff.specs.Tariff.{annual_tiers, monthly_tiers, mean_rate, limit, tier_rate, max_year_kwh, flat_rate_of};

use units::{Kwh, Rate, Ticks};

// "Classes: 1 domestic D2, 2 domestic D3".
#[tactic(auto, unfolding(crate::specs::Tariff::domestic))]
pub fn is_domestic(class: u8) -> bool
    ensures { result ≡ domestic class }
{
    match class {
        1..=2 => true,
        _ => false,
    }
}

// The month's withdrawal, in kWh, above which the monthly method applies.
pub const MONTHLY_THRESHOLD: u32 = 4_000_000;

// "Monthly method: classes 9–11, or classes 3–8 if some month's withdrawal is above 4,000,000."
#[tactic(auto, unfolding(crate::specs::Tariff::monthly_method))]
pub fn monthly_method(class: u8, month_above: bool) -> bool
    ensures { result ≡ monthly_method class month_above }
{
    match class {
        3..=8 => month_above,
        9..=11 => true,
        _ => false,
    }
}

// What the stretch from `low` to `high` has between two bounds.
#[tactic(auto, unfolding(crate::specs::Tariff::between))]
fn between(low: Kwh, high: Kwh, a: Kwh, b: Kwh) -> Kwh
    ensures { result.0 ≡ between low.0 high.0 a.0 b.0 }
{
    Kwh(high.min(b).0.saturating_sub(low.max(a).0))
}

// What it has above the last bound.
#[tactic(auto, unfolding(crate::specs::Tariff::above))]
fn above(low: Kwh, high: Kwh, a: Kwh) -> Kwh
    ensures { result.0 ≡ above low.0 high.0 a.0 }
{
    Kwh(high.0.saturating_sub(low.max(a).0))
}

// The three bounds of the tiers, which rise.
#[derive(Clone, Copy)]
struct Bounds {
    first: Kwh,
    second: Kwh,
    third: Kwh,
    ghost rise: { (first.0 ≤ second.0) × (second.0 ≤ third.0) },
}

// "Bounds: 1,800, 2,640, 4,440 per year for classes 1 and 2".
const ANNUAL_BOUNDS: Bounds = Bounds {
    first: Kwh(1_800),
    second: Kwh(2_640),
    third: Kwh(4_440),
};

// "4, 8, 12 million per month in the monthly method".
const MONTHLY_BOUNDS: Bounds = Bounds {
    first: Kwh(4_000_000),
    second: Kwh(8_000_000),
    third: Kwh(12_000_000),
};

impl Bounds {
    // The exchanged energy cut at these bounds: "Withdrawal beyond E fills the lowest tiers, so E lies from W − E to W and is cut
    // at the bounds."
    #[tactic(auto, using(crate::proofs::Tiers::parts_sum), unfolding(crate::specs::Tariff::tiers))]
    fn cut(self, withdrawn: Kwh, exchanged: Kwh) -> [Kwh; 4]
        requires { exchanged.0 ≤ withdrawn.0 }
        ensures tiers { result ≡ map kwh (tiers self.first.0 self.second.0 self.third.0 withdrawn.0 exchanged.0) }
        ensures whole { tier_sum (numbers result) ≡ exchanged.0 }
    {
        let low = Kwh(withdrawn.0 - exchanged.0);
        let high = withdrawn;
        [
            between(low, high, Kwh(0), self.first),
            between(low, high, self.first, self.second),
            between(low, high, self.second, self.third),
            above(low, high, self.third),
        ]
    }
}

// The tiers of a year's exchanged energy. "Other users have tier 1 only."
#[tactic(auto, using(crate::proofs::Tiers::first_tier_sum), unfolding(crate::specs::Tariff::annual_tiers, crate::specs::Tariff::domestic))]
pub fn annual_tiers(class: u8, withdrawn: Kwh, exchanged: Kwh) -> [Kwh; 4]
    requires { exchanged.0 ≤ withdrawn.0 }
    ensures tiers { result ≡ map kwh (annual_tiers class withdrawn.0 exchanged.0) }
    ensures whole { tier_sum (numbers result) ≡ exchanged.0 }
{
    match class {
        1..=2 => ANNUAL_BOUNDS.cut(withdrawn, exchanged),
        _ => [exchanged, Kwh(0), Kwh(0), Kwh(0)],
    }
}

// The tiers of a month's exchanged energy in the monthly method.
#[tactic(auto, unfolding(crate::specs::Tariff::monthly_tiers))]
pub fn monthly_tiers(withdrawn: Kwh, exchanged: Kwh) -> [Kwh; 4]
    requires { exchanged.0 ≤ withdrawn.0 }
    ensures tiers { result ≡ map kwh (monthly_tiers withdrawn.0 exchanged.0) }
    ensures whole { tier_sum (numbers result) ≡ exchanged.0 }
{
    MONTHLY_BOUNDS.cut(withdrawn, exchanged)
}

// An annual rate: "the sum of twelve divided by 12, halves up", for any number of months to twelve.
#[tactic(auto, unfolding(crate::specs::Tariff::mean_rate))]
pub fn mean_rate(sum: Rate, months: u64) -> Rate
    requires sum_bound { sum.0 ≤ 12 * max_price }
    requires months_nonzero { (0 < months) × (months ≤ 12) }
    ensures { result ≡ rate (mean_rate months sum.0) }
{
    Rate((2 * sum.0 + months) / (2 * months))
}

// "One €/MWh is 100 units of price."
pub const UNITS_PER_EURO_MWH: u64 = 100;

// "17 is non-renewable high-efficiency cogeneration."
const COGENERATION: u8 = 17;

// "renewable up to 20,000 W", in watts.
const SMALL_POWER: u32 = 20_000;

// Table 1 for a kind of plant and a power in watts, as a price; 0 where the table has no row.
pub fn table_price(kind: u8, power: u32) -> Rate
    ensures { result ≡ rate (units_per_euro_mwh * table_euro_per_mwh kind power) }
{
    Rate(UNITS_PER_EURO_MWH * u64::from(table1::euro_per_mwh(kind, power)))
}

// A plant: its kind by document 01's number, its power in watts, and Table 1 for them, looked up once for all tiers and months.
#[derive(Clone, Copy, Debug, PartialEq, Eq)]
pub struct Plant {
    pub kind: u8,
    pub power: u32,
    pub table_price: Rate,
    pub ghost of_table1: { table_price ≡ rate (units_per_euro_mwh * table_euro_per_mwh kind power) },
}

impl Plant {
    pub fn new(kind: u8, power: u32) -> Plant
        ensures kind { result.kind ≡ kind }
        ensures power { result.power ≡ power }
    {
        Plant {
            kind,
            power,
            table_price: table_price(kind, power),
        }
    }

    // "the limit, which is Table 1 less that tier's net (house), not below zero."
    #[tactic(auto, unfolding(crate::specs::Tariff::limit))]
    fn limit_of(self, net: Rate) -> Rate
        ensures { result ≡ rate (limit self.kind self.power net.0) }
    {
        Rate(self.table_price.0.saturating_sub(net.0))
    }

    // "Tier rate: cogeneration net; renewable up to 20,000 W net + system; above, net + the smaller of system and the limit".
    #[tactic(auto, unfolding(crate::specs::Tariff::tier_rate))]
    pub fn tier_rate(self, net: Rate, system: Rate) -> Rate
        requires { (net.0 ≤ max_price) × (system.0 ≤ max_price) }
        ensures is { result ≡ rate (tier_rate self.kind self.power net.0 system.0) }
        ensures most { result.0 ≤ max_tier_rate }
    {
        if self.kind == COGENERATION {
            return net;
        }
        if self.power <= SMALL_POWER {
            return Rate(net.0 + system.0);
        }
        let limit = self.limit_of(net);
        Rate(net.0 + system.min(limit).0)
    }
}

// "F, the flat-rate part: the sum of tier energy times tier rate."
#[tactic(auto, using(crate::proofs::FlatRate::worth_none, crate::proofs::FlatRate::worth_all, crate::proofs::FlatRate::flat_rate_capped))]
pub fn flat_rate_of(energies: [Kwh; 4], rates: [Rate; 4]) -> Ticks
    requires tier_rates { (t : ℕ) → t < 4 → (get_or rates t (rate 0)).0 ≤ max_tier_rate }
    requires energies_bound { tier_sum (numbers energies) ≤ max_year_kwh }
    ensures is { result.0 ≡ flat_rate_of (numbers energies) (λ t. (get_or rates t (rate 0)).0) }
    ensures most { result.0 ≤ max_tier_rate * tier_sum (numbers energies) }
{
    let mut sum = Ticks(0);
    for (energy, rate) in energies.iter().zip(&rates) {
        sum += units::priced(*energy, *rate);
    }
    sum
}
