// A user's account year by year (document 01, "Closing"): the closing of each year, what its entries pay, and the credit after
// it; and what the user was charged (document 02, ticket 1).
#![tactic(auto)]

ghost use Rattle.std.specs.Prelude.{◌≡◌, ◌+◌, ◌*◌, ◌≤◌, ◌<◌, IfSome};
ghost use Rattle.units.specs.Units.{ticks};
ghost use Rattle.units.specs.Limits.{max_year_ticks, max_charge, most_years};
ghost use Rattle.units.specs.InnerWithin.{NumberWithin};
ghost use Rattle.book_rules.specs.Book.{activation_of};
ghost use Rattle.account_years.specs.History.{closing_of, closing_after, by_advance, by_closing, payments_of};
ghost use Rattle.account_years.specs.History.{charge_of_open, charge_of_each, charges_of};
ghost use Rattle.account_years.specs.History.{credit_over, credit_then, credit_after_years, closed_year};
ghost use Rattle.account_years.specs.InnerEntries.{closing_in_year, entry_payments, payments_added, AmountsFit, EntryFits, PaymentsRoom};

use account_steps::Balance;
use book_records::{AdvanceRecord, ClosingRecord};
use book_view::User;
use chain_reader::{Entries, Entry};
use units::{RecordIndex, Ticks};

// The last year that the bytes of an entry can name.
pub const LAST_NAMED_YEAR: u16 = 65_535;

// What entries pay: the advances among them, what was withheld from all of them, and what was paid out.
#[derive(Clone, Copy, Debug, PartialEq, Eq)]
pub struct Payments {
    pub advances: Ticks,
    pub withheld: Ticks,
    pub paid: Ticks,
}

// The charges made, what of them was withheld and what rests, and those of the open year and of each closed one: none where
// which closed years were charged is not kept.
#[derive(Clone, Copy, Debug, PartialEq, Eq)]
pub struct Charges {
    pub made: Ticks,
    pub withheld: Ticks,
    pub rest: Ticks,
    pub open: Ticks,
    pub each: Option<Ticks>,
}

// One closed year.
#[derive(Clone, Copy, Debug, PartialEq, Eq)]
pub struct Year {
    pub year: u16,
    pub option: u8,
    pub value: Ticks,
    pub cost: Ticks,
    pub flat_rate: Ticks,
    pub contribution: Ticks,
    pub payments: Payments,
    pub balance: Balance,
    pub liquidation: Ticks,
    pub lapsed: Ticks,
    pub credit: Ticks,
}

// The closing that an entry is, if it is that of a year.
#[tactic(auto, unfolding(crate::specs::InnerEntries::closing_in_year))]
fn closing_in_year(entry: Entry, year: u16) -> Option<ClosingRecord>
    ensures { result ≡ closing_in_year year entry }
{
    match entry {
        Entry::Closing(closing) => (closing.year == year).then_some(closing),
        Entry::Advance(_) => None,
    }
}

// The closing of a year.
fn closing_of_year(user: User<'_>, year: u16) -> Option<ClosingRecord>
    ensures { result ≡ closing_of user.entry.book.bytes.now user.entry.index.0 year }
{
    for entry in Entries::of(user) {
        if let Some(closing) = closing_in_year(entry, year) {
            return Some(closing);
        }
    }
    None
}

// WHAT ENTRIES PAY (document 02, ticket 1)

const NO_PAYMENTS: Payments = Payments {
    advances: Ticks(0),
    withheld: Ticks(0),
    paid: Ticks(0),
};

impl Payments {
    #[tactic(auto, unfolding(crate::specs::InnerEntries::payments_added))]
    fn with(mut self, part: Payments) -> Payments
        requires { PaymentsRoom part self }
        ensures { result ≡ payments_added part self }
    {
        self.advances += part.advances;
        self.withheld += part.withheld;
        self.paid += part.paid;
        self
    }
}

#[tactic(auto, unfolding(crate::specs::History::by_advance))]
fn by_advance(advance: AdvanceRecord) -> Payments
    ensures { result ≡ by_advance advance }
{
    Payments {
        advances: advance.ticks,
        withheld: advance.withheld,
        paid: advance.ticks.saturating_sub(advance.withheld),
    }
}

#[tactic(auto, unfolding(crate::specs::History::by_closing))]
fn by_closing(closing: ClosingRecord) -> Payments
    requires { closing.sums.liquidation.0 ≤ max_year_ticks }
    ensures { result ≡ by_closing closing }
{
    let paid = book_rules::paid_balance(closing.sums.balance) + closing.sums.liquidation;
    Payments {
        advances: Ticks(0),
        withheld: closing.withheld,
        paid: paid.saturating_sub(closing.withheld),
    }
}

// What an entry pays, if its year is one of those from `first` to `last`.
#[tactic(auto, unfolding(crate::specs::InnerEntries::entry_payments))]
fn payments_by(entry: Entry, first: u16, last: u16) -> Payments
    requires { EntryFits entry }
    ensures { result ≡ entry_payments first last entry }
{
    match entry {
        Entry::Advance(advance) => {
            if (first <= advance.year) & (advance.year <= last) {
                by_advance(advance)
            } else {
                NO_PAYMENTS
            }
        }
        Entry::Closing(closing) => {
            if (first <= closing.year) & (closing.year <= last) {
                by_closing(closing)
            } else {
                NO_PAYMENTS
            }
        }
    }
}

// What a user's entries of the years from `first` to `last` pay.
pub fn payments_of(user: User<'_>, first: u16, last: u16) -> Payments
    ensures { result ≡ payments_of user.entry.book.bytes.now user.entry.index.0 first last }
{
    let mut payments = NO_PAYMENTS;
    for entry in Entries::of(user) {
        payments = payments.with(payments_by(entry, first, last));
    }
    payments
}

// WHAT IS CHARGED

// What each closed year was charged, where the charges made tell it.
#[tactic(auto, unfolding(crate::specs::History::charge_of_each))]
fn charge_of_each(made: Ticks, of_open: Ticks, yearly: Ticks, closed: u16) -> Option<Ticks>
    requires { (of_open.0 ≤ max_charge) × (yearly.0 ≤ max_charge) }
    ensures { result ≡ charge_of_each made.0 of_open.0 yearly.0 closed }
{
    if made == of_open {
        return Some(Ticks(0));
    }
    (made.0 == of_open.0 + yearly.0 * u64::from(closed)).then_some(yearly)
}

// What the open year was charged.
#[tactic(auto, unfolding(crate::specs::History::charge_of_open))]
fn charge_of_open(made: u8, yearly: Ticks) -> Ticks
    ensures { result ≡ ticks (charge_of_open made yearly.0) }
{
    if made == 0 { Ticks(0) } else { yearly }
}

// The charges of a user.
pub fn charges_of(user: User<'_>) -> Charges
    ensures { result ≡ charges_of user.entry.book.bytes.now user.entry.index.0 }
{
    let account = user.account();
    let withheld = payments_of(user, 0, LAST_NAMED_YEAR).withheld;
    let rest = account.charge.rest;
    let made = withheld + rest;
    let yearly = account_steps::charge_of(account.details.power);
    let open = charge_of_open(account.charge.made, yearly);
    let each = charge_of_each(made, open, yearly, account.open_year - account.details.year);
    Charges {
        made,
        withheld,
        rest,
        open,
        each,
    }
}

// WHAT IS CLOSED

// The year n years after the activation.
fn year_after(user: User<'_>, n: u16) -> u16
    requires { n ≤ most_years }
    ensures { result ≡ activation_of user.entry.book.bytes.now user.entry.index.0 + n }
{
    user.account().details.year + n
}

// The closing of that year.
#[tactic(auto, using(crate::proofs::Years::found_fits), unfolding(crate::specs::History::closing_after))]
fn closing_after(user: User<'_>, n: u16) -> Option<ClosingRecord>
    requires { n ≤ most_years }
    ensures is { result ≡ closing_after user.entry.book.bytes.now user.entry.index.0 n }
    ensures fits { IfSome result AmountsFit }
{
    closing_of_year(user, year_after(user, n))
}

// The credit after a closing, from the credit before it.
fn credit_over(closing: ClosingRecord, credit: Ticks) -> Ticks
    requires { AmountsFit closing × (credit.0 ≤ max_year_ticks * most_years) }
    ensures { NumberWithin (credit_over closing credit.0) (credit.0 + max_year_ticks) result.0 }
{
    let sums = closing.sums;
    account_steps::outcome_of(closing.option, credit, sums.value, sums.cost).credit()
}

// The same, where a year without a closing leaves the credit.
fn next_credit(closing: Option<ClosingRecord>, credit: Ticks) -> Ticks
    requires { IfSome closing AmountsFit × (credit.0 ≤ max_year_ticks * most_years) }
    ensures { NumberWithin (credit_then closing credit.0) (credit.0 + max_year_ticks) result.0 }
{
    match closing {
        Some(closing) => credit_over(closing, credit),
        None => credit,
    }
}

// The credit after the first years: the rule of "Closing", from zero.
fn credit_after_years(user: User<'_>, years: u16) -> Ticks
    requires { years ≤ most_years }
    ensures { result ≡ ticks (credit_after_years user.entry.book.bytes.now user.entry.index.0 years) }
{
    let mut credit = Ticks(0);
    // The years are counted from the activation: no list holds them.
    for n in 0..years {
        credit = next_credit(closing_after(user, n), credit);
    }
    credit
}

// The year n years after the activation. One that is not closed has no closing, and the figures that the head's bytes would give.
#[tactic(auto, using(crate::proofs::Years::head_stands), unfolding(crate::specs::History::closed_year, crate::specs::History::year_of))]
pub fn closed_year(user: User<'_>, n: u16) -> Year
    requires { n < most_years }
    ensures { result ≡ closed_year user.entry.book.bytes.now user.entry.index.0 n }
{
    let year = year_after(user, n);
    let head = book_layout::whole(user.book.bytes, RecordIndex(0));
    let closing = closing_after(user, n).unwrap_or(book_records::read_closing(head));
    Year {
        year,
        option: closing.option,
        value: closing.sums.value,
        cost: closing.sums.cost,
        flat_rate: closing.sums.flat_rate,
        contribution: closing.sums.contribution,
        payments: payments_of(user, year, year),
        balance: closing.sums.balance,
        liquidation: closing.sums.liquidation,
        lapsed: closing.sums.lapsed,
        credit: credit_after_years(user, n + 1),
    }
}
