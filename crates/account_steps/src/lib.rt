// The account of one user, by value: an election, an advance or a closing takes the account and hands back the account
// after it (document 01, "Closing", "Election and advances").
#![tactic(auto)]

ghost use Rattle.std.specs.Prelude.{◌≡◌, ◌+◌, ◌^◌, ◌<◌, ◌≤◌, ◌+ℤ◌, FitsSigned};
ghost use Rattle.std.specs.Int.{w64};
ghost use Rattle.units.specs.Units.{ticks};
ghost use Rattle.units.specs.Limits.{max_year_ticks, max_flat_rate, max_charge};
ghost use Rattle.units.specs.InnerWithin.{TicksWithin};
ghost use Rattle.account_steps.specs.Closing.{contribution_of, balance_of};
ghost use Rattle.account_steps.specs.Charges.{charge_of, withheld_from, withheld_at_closing, account_charged, account_withheld};
ghost use Rattle.account_steps.specs.Account.{held_balance, outcome_of, settlement_of};
ghost use Rattle.account_steps.specs.Account.{account_elected, runs_in, advances_in, account_advanced, closed_of, SumsInRange, InRange};

use sheet_values::{Details, YearValues};
use std::ops::{Add, AddAssign};
use units::{Kwh, MAX_CHARGE, Ticks, UserNumber};

// The option that pays a year's surplus out ("Book": 0 credit, 1 liquidation).
const LIQUIDATION: u8 = 1;

/// The yearly charge (document 02, ticket 1): whether the open year is charged, 0 or 1, and what of all charges is still unpaid.
#[derive(Clone, Copy, Debug, PartialEq, Eq)]
pub struct Charge {
    pub made: u8,
    pub rest: Ticks,
}

/// A user's account. Runs and advances of its two open years are four fields: the theorem's definitions name each of them, and each
/// place wants one, so that a struct of both would be no plainer. Option, runs and what `Charge` has made are numbers, as the details
/// are: the check of a book reads them from any bytes and judges them, so an enum would want an account of the faulty ones beside it.
#[derive(Clone, Copy, Debug, PartialEq, Eq)]
pub struct Account {
    pub number: UserNumber,
    pub details: Details,
    pub option: u8,
    pub open_year: u16,
    pub runs: u8,
    pub later_runs: u8,
    pub credit: Ticks,
    pub advances: Ticks,
    pub later_advances: Ticks,
    pub half1: Kwh,
    pub half2: Kwh,
    pub charge: Charge,
}

/// A signed amount in ticks.
#[derive(Clone, Copy, Debug, PartialEq, Eq, PartialOrd, Ord)]
pub struct Balance(pub i64);

/// What a closing does with the credit.
#[derive(Clone, Copy, Debug, PartialEq, Eq)]
pub enum Outcome {
    /// The credit that stands afterwards.
    Carried(Ticks),
    /// The amount paid out, and the credit that lapses.
    Liquidated(Ticks, Ticks),
}

/// What the closing of a year comes to.
#[derive(Clone, Copy, Debug, PartialEq, Eq)]
pub struct Settlement {
    pub contribution: Ticks,
    pub balance: Balance,
    pub outcome: Outcome,
}

/// The account after a closing, and what the closing came to.
#[derive(Clone, Copy, Debug, PartialEq, Eq)]
pub struct Closed {
    pub account: Account,
    pub settlement: Settlement,
}

/// The seven sums of a closing: what its entry keeps and its call answers.
#[derive(Clone, Copy, Debug, PartialEq, Eq)]
pub struct ClosingSums {
    pub value: Ticks,
    pub cost: Ticks,
    pub flat_rate: Ticks,
    pub contribution: Ticks,
    pub liquidation: Ticks,
    pub lapsed: Ticks,
    pub balance: Balance,
}

/// "Balance = contribution − A", of any amounts of 64 bits.
pub fn balance_of(contribution: Ticks, advances: Ticks) -> Balance
    ensures { result ≡ held_balance (balance_of contribution.0 advances.0) }
{
    Balance(contribution.0.wrapping_sub(advances.0).cast_signed())
}

impl Add for Balance {
    ghost use Rattle.account_steps.specs.Account.{balance};

    type Output = Balance;

    ghost can_add = { λ a b. FitsSigned w64 (a.0 +ℤ b.0) };

    ghost add_gives = { λ a b r. r ≡ balance (a.0 +ℤ b.0) };

    fn add(self, other: Balance) -> Balance {
        Balance(self.0 + other.0)
    }
}

impl AddAssign for Balance {
    ghost use Rattle.account_steps.specs.Account.{balance};

    ghost can_add_assign = { λ a b. FitsSigned w64 (a.0 +ℤ b.0) };

    ghost add_assign_gives = { λ a b r. r ≡ balance (a.0 +ℤ b.0) };

    fn add_assign(&mut self, other: Balance) {
        *self = *self + other;
    }
}

// The contribution of a closing, by its option and the credit before it.
#[tactic(auto, unfolding(crate::specs::Closing::contribution_of))]
fn contribution_of(option: u8, credit: Ticks, values: YearValues) -> Ticks
    requires cost_bound { values.cost.0 ≤ max_year_ticks }
    requires flat_rate_bound { values.flat_rate.0 ≤ max_flat_rate }
    ensures { result.0 ≡ contribution_of option credit.0 values.value.0 values.cost.0 values.flat_rate.0 }
{
    let covered = values.cost.min(values.value) + values.flat_rate;
    if option == LIQUIDATION {
        covered
    } else {
        covered + credit.min(values.cost.saturating_sub(values.value))
    }
}

/// What a closing does with the credit before it.
pub fn outcome_of(option: u8, credit: Ticks, value: Ticks, cost: Ticks) -> Outcome
    requires { credit.0 + value.0 < 2 ^ 64 }
    ensures { result ≡ outcome_of option credit.0 value.0 cost.0 }
{
    if option == LIQUIDATION {
        Outcome::Liquidated(value.saturating_sub(cost), credit)
    } else {
        Outcome::Carried((credit + value).saturating_sub(cost))
    }
}

// One function for the three would hand out all parts, of which each caller wants one.
impl Outcome {
    ghost use Rattle.account_steps.specs.Account.{liquidation_in, lapsed_in, credit_in};

    /// The amount that a closing pays out: 0 on credit.
    #[tactic(auto, unfolding(crate::specs::Account::liquidation_in))]
    pub fn liquidation(self) -> Ticks
        ensures { result.0 ≡ liquidation_in self }
    {
        match self {
            Outcome::Carried(_) => Ticks(0),
            Outcome::Liquidated(amount, _) => amount,
        }
    }

    /// The credit that lapses at a closing: 0 on credit.
    #[tactic(auto, unfolding(crate::specs::Account::lapsed_in))]
    pub fn lapsed(self) -> Ticks
        ensures { result.0 ≡ lapsed_in self }
    {
        match self {
            Outcome::Carried(_) => Ticks(0),
            Outcome::Liquidated(_, lapsed) => lapsed,
        }
    }

    /// The credit that stands after a closing: 0 after a liquidation.
    #[tactic(auto, unfolding(crate::specs::Account::credit_in))]
    pub fn credit(self) -> Ticks
        ensures { result.0 ≡ credit_in self }
    {
        match self {
            Outcome::Carried(credit) => credit,
            Outcome::Liquidated(_, _) => Ticks(0),
        }
    }
}

// "15 € up to 3 kW, 30 € up to 20 kW and 45 € above", in watts and ticks.
const LOW_CHARGE_POWER: u32 = 3_000;

const MIDDLE_CHARGE_POWER: u32 = 20_000;

/// The charge of a year, by the power in watts.
#[tactic(auto, unfolding(crate::specs::Charges::charge_of))]
pub fn charge_of(power: u32) -> Ticks
    ensures { TicksWithin (charge_of power) max_charge result }
{
    if power <= LOW_CHARGE_POWER {
        Ticks(1_500_000)
    } else if power <= MIDDLE_CHARGE_POWER {
        Ticks(3_000_000)
    } else {
        Ticks(MAX_CHARGE)
    }
}

/// What of a rest is withheld from a payment.
#[tactic(auto, unfolding(crate::specs::Charges::withheld_from))]
pub fn withheld_from(rest: Ticks, payment: Ticks) -> Ticks
    ensures { result ≡ ticks (withheld_from rest.0 payment.0) }
{
    rest.min(payment)
}

/// What of a rest is withheld at a closing: first from the balance if that is positive, then from the liquidation.
#[tactic(auto, unfolding(crate::specs::Charges::withheld_at_closing, crate::specs::Charges::withheld_from))]
pub fn withheld_at_closing(
    rest: Ticks,
    contribution: Ticks,
    advances: Ticks,
    liquidation: Ticks,
) -> Ticks
    ensures { result ≡ ticks (withheld_at_closing rest.0 (balance_of contribution.0 advances.0) liquidation.0) }
{
    let first = withheld_from(rest, contribution.saturating_sub(advances));
    first + withheld_from(rest.saturating_sub(first), liquidation)
}

// The result of a closing, from the credit before it and the advances of the year.
#[tactic(auto, unfolding(crate::specs::Account::settlement_of))]
fn settle(option: u8, credit: Ticks, advances: Ticks, values: YearValues) -> Settlement
    requires { SumsInRange credit.0 values }
    ensures { result ≡ settlement_of option credit.0 advances.0 values.value.0 values.cost.0 values.flat_rate.0 }
{
    let contribution = contribution_of(option, credit, values);
    Settlement {
        contribution,
        balance: balance_of(contribution, advances),
        outcome: outcome_of(option, credit, values.value, values.cost),
    }
}

impl Account {
    /// "An election sets the option of the open year a and those after it."
    #[tactic(auto, unfolding(crate::specs::Account::account_elected))]
    pub fn elected(self, option: u8) -> Account
        ensures { result ≡ account_elected option self }
    {
        Account { option, ..self }
    }

    /// "Each run adds one entry, joins the advances field and sets its bit.", of the open year or of the one after it. The bit is
    /// not set before.
    #[tactic(auto, unfolding(crate::specs::Account::runs_in, crate::specs::Account::advances_in, crate::specs::Account::account_advanced))]
    pub fn advanced(mut self, year: u32, run: u8, paid: Ticks) -> Account
        requires run_bound { runs_in year self + run ≤ 7 }
        requires paid_bound { advances_in year self + paid.0 < 2 ^ 64 }
        ensures { result ≡ account_advanced year run paid.0 self }
    {
        if year == u32::from(self.open_year) {
            self.runs += run;
            self.advances += paid;
        } else {
            self.later_runs += run;
            self.later_advances += paid;
        }
        self
    }

    /// The account after the closing of its open year, and what the closing came to.
    pub fn closed(self, values: YearValues) -> Closed
        requires { InRange values self }
        ensures { result ≡ closed_of values self }
    {
        let settlement = settle(self.option, self.credit, self.advances, values);
        let account = Account {
            open_year: self.open_year + 1,
            runs: self.later_runs,
            later_runs: 0,
            credit: settlement.outcome.credit(),
            advances: self.later_advances,
            later_advances: Ticks(0),
            half1: values.half1,
            half2: values.half2,
            charge: Charge {
                made: 0,
                ..self.charge
            },
            ..self
        };
        Closed {
            account,
            settlement,
        }
    }

    /// "A new call charges the open year once."
    #[tactic(auto, unfolding(crate::specs::Charges::account_charged, crate::specs::Charges::with_charge, crate::specs::Charges::charge_is))]
    pub fn charged(mut self) -> Account
        requires { self.charge.rest.0 + max_charge < 2 ^ 64 }
        ensures { result ≡ account_charged self }
    {
        self.charge.made = 1;
        self.charge.rest += charge_of(self.details.power);
        self
    }

    /// The account once so much of its rest is withheld.
    #[tactic(auto, unfolding(crate::specs::Charges::account_withheld))]
    pub fn withheld(mut self, amount: Ticks) -> Account
        requires { amount.0 ≤ self.charge.rest.0 }
        ensures { result ≡ account_withheld amount.0 self }
    {
        self.charge.rest.0 -= amount.0;
        self
    }
}
