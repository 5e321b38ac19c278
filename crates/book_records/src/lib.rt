// The records of the book by value: read from a record's bytes, and written as a whole image (document 01, "Book").
#![tactic(auto)]

ghost use Rattle.std.specs.Prelude.{◌≡◌};
ghost use Rattle.book_records.specs.Records.{head_image, user_image, advance_image, closing_image, account_in, advance_in, closing_in};

use account_steps::{Account, Balance, Charge, ClosingSums};
use book_layout::kind::Kind;
use book_layout::{Record, field, place};
use codec::{get, put};
use sheet_values::Details;
use units::{RECORD_LENGTH, RecordIndex, Ticks};

/// A user record: its links and the account.
#[derive(Clone, Copy, Debug, PartialEq, Eq)]
pub struct UserRecord {
    pub next: RecordIndex,
    pub first: RecordIndex,
    pub account: Account,
}

/// An advance entry. One of the later year has the year that was open when it was booked; else that is 0. An entry keeps what was
/// withheld from what it pays (document 02, ticket 1).
// The year of booking is a number, 0 for none: the check reads it from any bytes and judges it.
#[derive(Clone, Copy, Debug, PartialEq, Eq)]
pub struct AdvanceRecord {
    pub next: RecordIndex,
    pub run: u8,
    pub year: u16,
    pub ticks: Ticks,
    pub owner: RecordIndex,
    pub booked: u16,
    pub withheld: Ticks,
}

/// A closing entry.
#[derive(Clone, Copy, Debug, PartialEq, Eq)]
pub struct ClosingRecord {
    pub next: RecordIndex,
    pub option: u8,
    pub year: u16,
    pub sums: ClosingSums,
    pub owner: RecordIndex,
    pub withheld: Ticks,
}

// READING, of whole records, so that no read looks for the record's end.

#[tactic(auto, unfolding(crate::specs::Records::account_in, book_layout::specs::Fields::get))]
fn read_details(r: &Record) -> Details
    ensures { result ≡ (account_in r.now).details }
{
    Details {
        class: get(r, place::CLASS),
        plant: get(r, place::PLANT),
        power: get(r, place::POWER),
        year: get(r, place::ACTIVATION_YEAR),
        month: get(r, place::ACTIVATION_MONTH),
        island: get(r, place::ISLAND),
    }
}

#[tactic(auto, unfolding(crate::specs::Records::account_in, book_layout::specs::Fields::get))]
fn read_charge(r: &Record) -> Charge
    ensures { result ≡ (account_in r.now).charge }
{
    Charge {
        made: get(r, place::CHARGED),
        rest: get(r, place::REST),
    }
}

/// The account that a user record holds.
#[tactic(auto, unfolding(crate::specs::Records::account_in, book_layout::specs::Fields::get))]
pub fn read_account(r: &Record) -> Account
    ensures { result ≡ account_in r.now }
{
    Account {
        number: get(r, place::NUMBER),
        details: read_details(r),
        option: get(r, place::OPTION),
        open_year: get(r, place::OPEN_YEAR),
        runs: get(r, place::RUNS),
        later_runs: get(r, place::LATER_RUNS),
        credit: get(r, place::CREDIT),
        advances: get(r, place::ADVANCES),
        later_advances: get(r, place::LATER_ADVANCES),
        half1: get(r, place::HALF1),
        half2: get(r, place::HALF2),
        charge: read_charge(r),
    }
}

/// The advance that a record holds.
#[tactic(auto, unfolding(crate::specs::Records::advance_in, book_layout::specs::Fields::get))]
pub fn read_advance(r: &Record) -> AdvanceRecord
    ensures { result ≡ advance_in r.now }
{
    AdvanceRecord {
        next: get(r, place::NEXT),
        run: get(r, place::RUN),
        year: get(r, place::YEAR),
        ticks: get(r, place::TICKS),
        owner: get(r, place::OWNER),
        booked: get(r, place::BOOKED),
        withheld: get(r, place::WITHHELD),
    }
}

#[tactic(auto, unfolding(crate::specs::Records::closing_in, book_layout::specs::Fields::get))]
fn read_sums(r: &Record) -> ClosingSums
    ensures { result ≡ (closing_in r.now).sums }
{
    ClosingSums {
        value: get(r, place::VALUE),
        cost: get(r, place::COST),
        flat_rate: get(r, place::FLAT_RATE),
        contribution: get(r, place::CONTRIBUTION),
        liquidation: get(r, place::LIQUIDATION),
        lapsed: get(r, place::LAPSED),
        balance: Balance(get::<u64>(r, place::BALANCE).cast_signed()),
    }
}

/// The closing that a record holds.
#[tactic(auto, unfolding(crate::specs::Records::closing_in, book_layout::specs::Fields::get))]
pub fn read_closing(r: &Record) -> ClosingRecord
    ensures { result ≡ closing_in r.now }
{
    ClosingRecord {
        next: get(r, place::NEXT),
        option: get(r, place::CLOSING_OPTION),
        year: get(r, place::YEAR),
        sums: read_sums(r),
        owner: get(r, place::OWNER),
        withheld: get(r, place::WITHHELD),
    }
}

// READING, of any bytes: a field past the end is 0.

/// The advance that any bytes say: a field, or a part of one, that they end before is read as 0. What holds 80 bytes and more is read
/// as its first 80 bytes are.
#[tactic(auto, unfolding(crate::specs::Records::advance_in, book_layout::specs::Fields::get))]
pub fn advance_of(r: &[u8]) -> AdvanceRecord
    ensures { result ≡ advance_in r.now }
{
    AdvanceRecord {
        next: field(r, place::NEXT),
        run: field(r, place::RUN),
        year: field(r, place::YEAR),
        ticks: field(r, place::TICKS),
        owner: field(r, place::OWNER),
        booked: field(r, place::BOOKED),
        withheld: field(r, place::WITHHELD),
    }
}

#[tactic(auto, unfolding(crate::specs::Records::closing_in, book_layout::specs::Fields::get))]
fn sums_of(r: &[u8]) -> ClosingSums
    ensures { result ≡ (closing_in r.now).sums }
{
    ClosingSums {
        value: field(r, place::VALUE),
        cost: field(r, place::COST),
        flat_rate: field(r, place::FLAT_RATE),
        contribution: field(r, place::CONTRIBUTION),
        liquidation: field(r, place::LIQUIDATION),
        lapsed: field(r, place::LAPSED),
        balance: Balance(field::<u64>(r, place::BALANCE).cast_signed()),
    }
}

/// The closing that any bytes say, as `advance_of` reads an advance.
#[tactic(auto, unfolding(crate::specs::Records::closing_in, book_layout::specs::Fields::get))]
pub fn closing_of(r: &[u8]) -> ClosingRecord
    ensures { result ≡ closing_in r.now }
{
    ClosingRecord {
        next: field(r, place::NEXT),
        option: field(r, place::CLOSING_OPTION),
        year: field(r, place::YEAR),
        sums: sums_of(r),
        owner: field(r, place::OWNER),
        withheld: field(r, place::WITHHELD),
    }
}

// IMAGES

#[tactic(auto, unfolding(crate::specs::Records::head_image, book_layout::specs::Fields::written))]
pub fn head_image(used: u32, first: RecordIndex) -> Record
    ensures { result ≡ head_image used first.0 }
{
    let mut image = [0; RECORD_LENGTH];
    put(&mut image, place::USED, used);
    put(&mut image, place::FIRST_USER, first);
    image
}

#[tactic(auto, unfolding(crate::specs::Records::user_image, book_layout::specs::Fields::written))]
pub fn user_image(user: UserRecord) -> Record
    ensures { result ≡ user_image user }
{
    let account = user.account;
    let details = account.details;
    let charge = account.charge;
    let mut image = [0; RECORD_LENGTH];
    put(&mut image, place::NEXT, user.next);
    put(&mut image, place::KIND, u8::from(Kind::User));
    put(&mut image, place::CLASS, details.class);
    put(&mut image, place::PLANT, details.plant);
    put(&mut image, place::OPTION, account.option);
    put(&mut image, place::NUMBER, account.number);
    put(&mut image, place::FIRST_ENTRY, user.first);
    put(&mut image, place::POWER, details.power);
    put(&mut image, place::ACTIVATION_YEAR, details.year);
    put(&mut image, place::ACTIVATION_MONTH, details.month);
    put(&mut image, place::ISLAND, details.island);
    put(&mut image, place::OPEN_YEAR, account.open_year);
    put(&mut image, place::RUNS, account.runs);
    put(&mut image, place::CREDIT, account.credit);
    put(&mut image, place::ADVANCES, account.advances);
    put(&mut image, place::HALF1, account.half1);
    put(&mut image, place::HALF2, account.half2);
    put(&mut image, place::LATER_RUNS, account.later_runs);
    put(&mut image, place::LATER_ADVANCES, account.later_advances);
    put(&mut image, place::CHARGED, charge.made);
    put(&mut image, place::REST, charge.rest);
    image
}

#[tactic(auto, unfolding(crate::specs::Records::advance_image, book_layout::specs::Fields::written))]
pub fn advance_image(advance: AdvanceRecord) -> Record
    ensures { result ≡ advance_image advance }
{
    let mut image = [0; RECORD_LENGTH];
    put(&mut image, place::NEXT, advance.next);
    put(&mut image, place::KIND, u8::from(Kind::Advance));
    put(&mut image, place::RUN, advance.run);
    put(&mut image, place::YEAR, advance.year);
    put(&mut image, place::TICKS, advance.ticks);
    put(&mut image, place::OWNER, advance.owner);
    put(&mut image, place::BOOKED, advance.booked);
    put(&mut image, place::WITHHELD, advance.withheld);
    image
}

#[tactic(auto, unfolding(crate::specs::Records::closing_image, book_layout::specs::Fields::written))]
pub fn closing_image(closing: ClosingRecord) -> Record
    ensures { result ≡ closing_image closing }
{
    let sums = closing.sums;
    let mut image = [0; RECORD_LENGTH];
    put(&mut image, place::NEXT, closing.next);
    put(&mut image, place::KIND, u8::from(Kind::Closing));
    put(&mut image, place::CLOSING_OPTION, closing.option);
    put(&mut image, place::YEAR, closing.year);
    put(&mut image, place::VALUE, sums.value);
    put(&mut image, place::COST, sums.cost);
    put(&mut image, place::FLAT_RATE, sums.flat_rate);
    put(&mut image, place::CONTRIBUTION, sums.contribution);
    put(&mut image, place::LIQUIDATION, sums.liquidation);
    put(&mut image, place::LAPSED, sums.lapsed);
    put(&mut image, place::BALANCE, sums.balance.0.cast_unsigned());
    put(&mut image, place::OWNER, closing.owner);
    put(&mut image, place::WITHHELD, closing.withheld);
    image
}
