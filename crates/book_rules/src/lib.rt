// The rules of document 01, "Book", on a record by itself, and the length of a book.
#![tactic(auto)]

ghost use Rattle.std.specs.Prelude.{◌≡◌, true, ◌&&◌, ◌-◌, ◌*◌, ◌<◌, leb};
ghost use Rattle.units.specs.Limits.{max_year_ticks};
ghost use Rattle.units.specs.InnerWithin.{NumberWithin};
ghost use Rattle.book_rules.specs.Book.{length_fits, details_fit, open_year_fits, halves_of, is_made, due_if_made, runs_fit, halves_made};
ghost use Rattle.book_rules.specs.Book.{advances_fit, later_half, later_fits, charge_fits, payments_fit, credit_fits, halves_fit};
ghost use Rattle.book_rules.specs.Book.{account_fits, is_run, level_from, booked_fits, advance_fits, balance_fits, paid_balance};
ghost use Rattle.book_rules.specs.Book.{withheld_fits, closing_fits, entry_ranges, unnamed_of, entry_kind, level_in, year_fits};
ghost use Rattle.book_layout.specs.Fields.{get, kind_field, all_zero, unnamed_of_user};
ghost use Rattle.book_records.specs.Records.{account_in};

use account_steps::{Account, Balance};
use book_layout::kind::Kind;
use book_layout::{Record, field, place};
use book_records::{AdvanceRecord, ClosingRecord};
use calendar::{Halves, JANUARY, JUNE, OCTOBER};
use sheet_values::Details;
use units::{
    FIRST_ACTIVATION, LAST_ACTIVATION, LAST_OPEN_YEAR, LEAST_RECORDS, MAX_CHARGE, MAX_CONTRIBUTION,
    MAX_FLAT_RATE, MAX_HALF, MAX_HALF_KWH, MAX_POWER, MAX_YEAR, MOST_RECORDS, RECORD_LENGTH, Ticks,
};

// "Records of 80 bytes, 2 to 800 of them"
const SHORTEST: usize = LEAST_RECORDS * RECORD_LENGTH;

pub const LONGEST: usize = MOST_RECORDS * RECORD_LENGTH;

// "balance from −3.6·10^14 to 1.08·10^15". Both by `as`: a call has no place in a constant.
const LEAST_BALANCE: i64 = -(MAX_YEAR as i64);

const MOST_BALANCE: i64 = MAX_CONTRIBUTION as i64;

// What is compared with 0 below is an amount, a set of runs or a user's number: 0 is a value of each, and the rules ask it.

/// Whether a book is 2 to 800 records long, which refusal 1 asks.
#[tactic(auto, unfolding(crate::specs::Book::length_fits))]
pub fn length_fits(book: &[u8]) -> bool
    ensures { result ≡ length_fits book.now }
{
    let n = book.len();
    (SHORTEST <= n) & (n <= LONGEST) & (n % RECORD_LENGTH == 0)
}

/// Whether a user's details and its option are in their ranges, which refusal 5 asks.
#[tactic(auto, unfolding(crate::specs::Book::details_fit))]
pub fn details_fit(details: Details, option: u8) -> bool
    ensures { result ≡ details_fit details option }
{
    let plant = ((1 <= details.class) & (details.class <= 11))
        & ((1 <= details.plant) & (details.plant <= 17));
    let power = (1 <= details.power) & (details.power <= MAX_POWER);
    let year = (FIRST_ACTIVATION <= details.year) & (details.year <= LAST_ACTIVATION);
    let month = (1 <= details.month) & (details.month <= 12);
    (plant & power) & ((year & month) & ((option <= 1) & (details.island <= 1)))
}

#[tactic(auto, unfolding(crate::specs::Book::open_year_fits))]
fn open_year_fits(a: Account) -> bool
    ensures { result ≡ open_year_fits a }
{
    (a.details.year <= a.open_year) & (a.open_year <= LAST_OPEN_YEAR)
}

// The halves that a run of the open year pays.
#[tactic(auto, unfolding(crate::specs::Book::halves_of))]
fn halves_of(a: Account, run: u8) -> Halves
    ensures { result ≡ halves_of a run }
{
    calendar::halves_paid(a.details.year, a.details.month, a.open_year, run)
}

/// Whether a run is among those made of a year, each of which is a bit.
#[tactic(auto, unfolding(crate::specs::Book::is_made))]
pub fn is_made(runs: u8, run: u8) -> bool
    ensures { result ≡ is_made runs run }
{
    run != 0 && runs / run % 2 == 1
}

#[tactic(auto, unfolding(crate::specs::Book::due_if_made))]
fn due_if_made(a: Account, run: u8) -> bool
    ensures { result ≡ due_if_made a run }
{
    !is_made(a.runs, run) | halves_of(a, run).is_due()
}

#[tactic(auto, unfolding(crate::specs::Book::runs_fit))]
fn runs_fit(a: Account) -> bool
    ensures { result ≡ runs_fit a }
{
    (a.runs < 8) & ((due_if_made(a, JUNE) & due_if_made(a, OCTOBER)) & due_if_made(a, JANUARY))
}

#[tactic(auto, unfolding(crate::specs::Book::halves_made), using(calendar::proofs::Amounts::halves_at_most))]
fn halves_made(a: Account, run: u8) -> u64
    ensures { NumberWithin (halves_made a run) 2 result }
{
    if is_made(a.runs, run) {
        halves_of(a, run).count()
    } else {
        0
    }
}

#[tactic(auto, unfolding(crate::specs::Book::advances_fit))]
fn advances_fit(a: Account) -> bool
    ensures { result ≡ advances_fit a }
{
    let halves = halves_made(a, JUNE) + halves_made(a, OCTOBER) + halves_made(a, JANUARY);
    a.advances.0 <= MAX_HALF * halves
}

// A run of the later year pays one half.
#[tactic(auto, unfolding(crate::specs::Book::later_half))]
fn later_half(a: Account, run: u8) -> u64
    ensures { NumberWithin (later_half a run) 1 result }
{
    u64::from(is_made(a.later_runs, run))
}

// Where no run of it is made nothing of it is paid.
#[tactic(auto, using(crate::proofs::Payments::later_unpaid), unfolding(crate::specs::Book::later_fits))]
fn later_fits(a: Account) -> bool
    ensures { result ≡ later_fits a }
{
    if a.later_runs == 0 {
        a.later_advances.0 == 0
    } else {
        let halves = later_half(a, JUNE) + later_half(a, OCTOBER);
        (a.later_runs <= 3) & (a.later_advances.0 <= MAX_HALF * halves)
    }
}

// Where no run is made nothing is paid.
#[inline(always)]
#[tactic(auto, using(crate::proofs::Payments::unpaid))]
fn paid_fits(a: Account) -> bool
    ensures { result ≡ (runs_fit a && advances_fit a) }
{
    if a.runs == 0 {
        a.advances.0 == 0
    } else {
        runs_fit(a) & advances_fit(a)
    }
}

fn years_between(from: u16, to: u16) -> u64
    ensures { result ≡ to - from }
{
    u64::from(to.saturating_sub(from))
}

// An amount is at most that of a year for each year between two; most amounts here are nothing.
fn fits_years(amount: Ticks, from: u16, to: u16) -> bool
    ensures { result ≡ leb amount.0 (max_year_ticks * (to - from)) }
{
    amount.0 == 0 || amount.0 <= MAX_YEAR.saturating_mul(years_between(from, to))
}

#[tactic(auto, unfolding(crate::specs::Book::credit_fits))]
fn credit_fits(a: Account) -> bool
    ensures { result ≡ credit_fits a }
{
    fits_years(a.credit, a.details.year, a.open_year)
}

#[tactic(auto, unfolding(crate::specs::Book::halves_fit))]
fn halves_fit(a: Account) -> bool
    ensures { result ≡ halves_fit a }
{
    (a.half1.0 <= MAX_HALF_KWH) & (a.half2.0 <= MAX_HALF_KWH)
}

// A rest of at most a year's charge for each closed year, and for the open one where it is charged.
#[tactic(auto, unfolding(crate::specs::Book::charge_fits))]
fn charge_fits(a: Account) -> bool
    ensures { result ≡ charge_fits a }
{
    let years = years_between(a.details.year, a.open_year);
    let charge = a.charge;
    (charge.made <= 1) & (charge.rest.0 <= MAX_CHARGE * (years + u64::from(charge.made)))
}

// Most users have no run made, nothing paid and nothing charged: that fits.
#[tactic(auto, using(crate::proofs::Payments::nothing_fits))]
fn nothing_paid(a: Account) -> bool
    ensures { result ≡ true → payments_fit a ≡ true }
{
    let made = (a.runs == 0) & (a.later_runs == 0) & (a.charge.made == 0);
    made && (a.advances.0 == 0) & (a.later_advances.0 == 0) & (a.charge.rest.0 == 0)
}

// What is paid of both open years, and what of the charges is not.
#[inline(always)]
#[tactic(auto, using(crate::proofs::Guards::tested))]
fn payments_fit(a: Account) -> bool
    ensures { result ≡ payments_fit a }
{
    nothing_paid(a) || charge_fits(a) && paid_fits(a) & later_fits(a)
}

// What is paid is looked at last, where all else fits.
#[inline(always)]
#[tactic(auto, unfolding(crate::specs::Book::account_fits))]
fn account_fits(a: Account) -> bool
    ensures { result ≡ account_fits a }
{
    let details = !(a.number.0 == 0) & (details_fit(a.details, a.option) & open_year_fits(a));
    details & halves_fit(a) && credit_fits(a) && payments_fit(a)
}

// The owner of an entry, of whose account the entry's rules ask two years alone: its activation year and its open year.
#[derive(Clone, Copy)]
struct Owner<'a> {
    record: &'a [u8],
    activation: u16,
    open_year: u16,
    ghost activated: { activation ≡ (account_in record.now).details.year },
    ghost opened: { open_year ≡ (account_in record.now).open_year },
}

impl<'a> Owner<'a> {
    #[tactic(auto, unfolding(book_records::specs::Records::account_in))]
    fn of(record: &'a [u8]) -> Owner<'a>
        ensures { result.record.now ≡ record.now }
    {
        Owner {
            record,
            activation: field(record, place::ACTIVATION_YEAR),
            open_year: field(record, place::OPEN_YEAR),
        }
    }

    #[tactic(auto, unfolding(crate::specs::Book::year_fits))]
    fn year_fits(self, year: u16) -> bool
        ensures { result ≡ year_fits (account_in self.entry.record.now) year }
    {
        (self.activation <= year) & (year <= self.open_year)
    }

    // Most advances note no year of booking.
    #[tactic(auto, unfolding(crate::specs::Book::advance_fits, crate::specs::Book::level_from, crate::specs::Book::booked_fits))]
    fn advance_fits(self, a: AdvanceRecord) -> bool
        ensures { result ≡ advance_fits (account_in self.entry.record.now) a }
    {
        if !((is_run(a.run) & (a.ticks.0 <= MAX_YEAR)) & (a.withheld.0 <= a.ticks.0)) {
            return false;
        }
        if a.booked == 0 {
            self.year_fits(a.year)
        } else {
            self.year_fits(a.booked) & booked_fits(a.year, a.booked)
        }
    }

    #[tactic(auto, unfolding(crate::specs::Book::closing_fits))]
    fn closing_fits(self, c: ClosingRecord) -> bool
        ensures { result ≡ closing_fits (account_in self.entry.record.now) c }
    {
        let sums = c.sums;
        let energy = (sums.value.0 <= MAX_YEAR) & (sums.cost.0 <= MAX_YEAR);
        let flat = (sums.flat_rate.0 <= MAX_FLAT_RATE) & (sums.contribution.0 <= MAX_CONTRIBUTION);
        let lapse = fits_years(sums.lapsed, self.activation, c.year);
        let rest = (sums.liquidation.0 <= MAX_YEAR) & lapse;
        let payments = balance_fits(sums.balance) & withheld_fits(c);
        (self.year_fits(c.year) & (c.option <= 1)) & ((energy & flat) & (rest & payments))
    }
}

#[tactic(auto, unfolding(crate::specs::Book::is_run))]
pub fn is_run(run: u8) -> bool
    ensures { result ≡ is_run run }
{
    matches!(run, JUNE | OCTOBER | JANUARY)
}

#[tactic(auto, unfolding(crate::specs::Book::level_from))]
fn level_from(year: u16, booked: u16) -> u16
    ensures { result ≡ level_from year booked }
{
    if booked == 0 { year } else { booked }
}

#[tactic(auto, unfolding(crate::specs::Book::booked_fits))]
fn booked_fits(year: u16, booked: u16) -> bool
    ensures { result ≡ booked_fits year booked }
{
    (booked == 0) | (u32::from(booked) + 1 == u32::from(year))
}

#[tactic(auto, unfolding(crate::specs::Book::balance_fits))]
fn balance_fits(balance: Balance) -> bool
    ensures { result ≡ balance_fits balance.0 }
{
    (LEAST_BALANCE <= balance.0) & (balance.0 <= MOST_BALANCE)
}

/// What a balance in its range pays: nothing where it is negative.
#[tactic(auto, unfolding(crate::specs::Book::paid_balance))]
pub fn paid_balance(balance: Balance) -> Ticks
    ensures { result.0 ≡ paid_balance balance.0 }
{
    match u64::try_from(balance.0) {
        Ok(paid) if paid <= MAX_CONTRIBUTION => Ticks(paid),
        _ => Ticks(0),
    }
}

// Most closings have nothing withheld.
#[tactic(auto, unfolding(crate::specs::Book::withheld_fits))]
fn withheld_fits(c: ClosingRecord) -> bool
    ensures { result ≡ withheld_fits c }
{
    let paid = paid_balance(c.sums.balance);
    c.withheld.0 == 0 || c.withheld.0 <= paid.0.saturating_add(c.sums.liquidation.0)
}

// A RECORD'S OWN RULES: its ranges and its zero bytes. Those of an entry go by its owner's record too. A pass over a book asks them of
// every record, so that they and what they ask of an account are made part of it.

#[inline(always)]
pub fn user_record_fits(r: &Record) -> bool
    ensures { result ≡ (account_fits (account_in r.now) && all_zero unnamed_of_user r.now) }
{
    Kind::User.rest_is_zero(r) && account_fits(book_records::read_account(r))
}

#[inline(always)]
#[tactic(auto, unfolding(crate::specs::Book::entry_ranges, crate::specs::Book::unnamed_of, book_layout::specs::Kinds::kind_named))]
pub fn entry_record_fits(r: &Record, owner: &[u8]) -> bool
    ensures { result ≡ (entry_ranges (account_in owner.now) r.now
        && all_zero (unnamed_of (get kind_field r.now)) r.now) }
{
    let owner = Owner::of(owner);
    match Kind::of(r) {
        Some(Kind::Advance) => {
            owner.advance_fits(book_records::read_advance(r)) && Kind::Advance.rest_is_zero(r)
        }
        Some(Kind::Closing) => {
            owner.closing_fits(book_records::read_closing(r)) && Kind::Closing.rest_is_zero(r)
        }
        _ => false,
    }
}

/// Whether the number of a kind is that of an entry.
#[tactic(auto, unfolding(crate::specs::Book::entry_kind))]
pub fn is_entry_kind(kind: u8) -> bool
    ensures { result ≡ entry_kind kind }
{
    (kind == u8::from(Kind::Advance)) | (kind == u8::from(Kind::Closing))
}

/// Whether a record is an entry.
pub fn is_entry_record(r: &[u8]) -> bool
    ensures { result ≡ entry_kind (get kind_field r.now) }
{
    is_entry_kind(field(r, place::KIND))
}

// THE ORDER OF A CHAIN

/// The level of an entry: the year that was open when it was booked.
#[tactic(auto, unfolding(crate::specs::Book::level_in))]
pub fn level_of(r: &[u8]) -> u16
    ensures { result ≡ level_in r.now }
{
    let year = field(r, place::YEAR);
    if Kind::Closing.is_of(r) {
        year
    } else {
        level_from(year, field(r, place::BOOKED))
    }
}
