// The ten figures of document 01, "Figures to prove, one table", as the proved functions work them: a figure a line, its
// number and then its values.
#![tactic(auto)]

ghost use Rattle.std.specs.Prelude.{◌≡◌};
ghost use Rattle.figures.specs.Accounts.{opened, year_with};

use account_steps::{Account, Charge};
use output::{Failure, Printer};
use sheet_values::{Details, YearValues};
use tariff::Plant;
use units::{Kwh, Rate, Ticks, UserNumber};

const USAGE: &str = "give no argument";

// (1) and (2): the tiers of a domestic user, class 1, and the flat-rate part of their energies.
fn tiers_and_flat_rate(out: &mut Printer) -> Result<(), Failure> {
    let withdrawn = Kwh(3_000);
    let exchanged = withdrawn.min(Kwh(1_800));
    let tiers = tariff::annual_tiers(1, withdrawn, exchanged);
    let [first, second, third, fourth] = tiers.map(|energy| energy.0);
    out.line(format_args!("1 {first} {second} {third} {fourth}"))?;
    let rates = [Rate(3_000), Rate(4_000), Rate(6_000), Rate(7_000)];
    out.line(format_args!("2 {}", tariff::flat_rate_of(tiers, rates).0))
}

// (3) and (4): mean rates.
fn mean_rates(out: &mut Printer) -> Result<(), Failure> {
    out.line(format_args!("3 {}", tariff::mean_rate(Rate(18), 12).0))?;
    out.line(format_args!("4 {}", tariff::mean_rate(Rate(17), 12).0))
}

// (5) to (7): tier rates of plant 1.
fn tier_rates(out: &mut Printer) -> Result<(), Failure> {
    let plant = Plant::new(1, 50_000);
    out.line(format_args!("5 {}", plant.tier_rate(Rate(2_000), Rate(6_000)).0))?;
    out.line(format_args!("6 {}", plant.tier_rate(Rate(8_000), Rate(6_000)).0))?;
    let small = Plant::new(1, 20_000);
    out.line(format_args!("7 {}", small.tier_rate(Rate(2_000), Rate(6_000)).0))
}

// (8) and (9): what a run pays.
fn advances(out: &mut Printer) -> Result<(), Failure> {
    out.line(format_args!("8 {}", calendar::paid_of(Ticks(1_500_000)).0))?;
    out.line(format_args!("9 {}", calendar::paid_of(Ticks(1_500_001)).0))
}

// An account on credit, before its first closing.
fn opened() -> Account
    ensures { result ≡ opened }
{
    Account {
        number: UserNumber(7),
        details: Details {
            class: 1,
            plant: 1,
            power: 3_000,
            year: 2014,
            month: 1,
            island: 0,
        },
        option: 0,
        open_year: 2014,
        runs: 0,
        later_runs: 0,
        credit: Ticks(0),
        advances: Ticks(0),
        later_advances: Ticks(0),
        half1: Kwh(0),
        half2: Kwh(0),
        charge: Charge {
            made: 0,
            rest: Ticks(0),
        },
    }
}

// A year of C and O, with F 0.
fn year_with(value: u64, cost: u64) -> YearValues
    ensures { result ≡ year_with value cost }
{
    YearValues {
        value: Ticks(value),
        cost: Ticks(cost),
        flat_rate: Ticks(0),
        half1: Kwh(0),
        half2: Kwh(0),
    }
}

// (10): two years on credit and one liquidated.
fn closings(out: &mut Printer) -> Result<(), Failure> {
    let first = opened().closed(year_with(10, 4));
    let second = first.account.closed(year_with(3, 5));
    let third = second.account.elected(1).closed(year_with(9, 2));
    let outcome = third.settlement.outcome;
    out.line(format_args!(
        "10 {} {} {} {} {} {}",
        first.settlement.contribution.0,
        second.settlement.contribution.0,
        third.settlement.contribution.0,
        outcome.liquidation().0,
        outcome.lapsed().0,
        third.account.credit.0,
    ))
}

fn run(rt: &HostRuntime) -> Result<(), Failure> {
    if output::has_argument(rt, 1) {
        return Err(Failure::Use);
    }
    let out = &mut Printer::new(rt.alloc(), rt.stdout());
    tiers_and_flat_rate(out)?;
    mean_rates(out)?;
    tier_rates(out)?;
    advances(out)?;
    closings(out)
}

fn main(rt: HostRuntime) {
    output::report(&mut rt.stderr(), "figures", USAGE, run(&rt));
}
