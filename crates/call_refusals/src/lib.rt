// The refusals of each call by its own rules, once the book is sound and the user is there (document 01, "Who brings which number").
#![tactic(auto)]

ghost use Rattle.std.specs.Prelude.{◌≡◌, ◌<◌, ◌^◌, not, ◌&&◌, MatchResult, leb};
ghost use Rattle.refusals.specs.Refusals.{number_of, position_of};
ghost use Rattle.sheet.specs.YearSheet.{Tells};
ghost use Rattle.call_rules.specs.Rules.{refused_by};
ghost use Rattle.call_rules.specs.Refusals.{has_room, day_and_option, election_open, is_open, run_open, order_fits, year_open};
ghost use Rattle.call_rules.specs.Refusals.{charge_open};
ghost use Rattle.calendar.specs.ElectionAndAdvances.{halves_paid, due};
ghost use Rattle.account_steps.specs.Account.{runs_in};
ghost use Rattle.book_rules.specs.Book.{is_made, is_run};
ghost use Rattle.units.specs.Limits.{last_activation};
ghost use Rattle.call_refusals.specs.Orders.{enrol_rules, elect_rules, charge_rules, advance_rules, close_rules, Follows};

use account_steps::Account;
use calendar::{Day, Halves};
use refusals::Refusal;
use sheet::{FormedSheet, PassedSheet};
use sheet_values::Details;
use units::{
    LAST_ACTIVATION, LAST_OPEN_YEAR, MAX_HALF_KWH, MAX_PRICE, RECORD_LENGTH, Rate, UserNumber,
    WideKwh,
};

// The last year that a run or a closing may name: "9 .. above 2099", "12 .. above 2099". A cast, since `From` is not const.
const LAST_YEAR: u32 = LAST_ACTIVATION as u32;

const MAX_ESTIMATE: u64 = MAX_HALF_KWH as u64;

/// What an advance pays by: the rate, and an estimate for each half of the year.
#[derive(Clone, Copy, Debug, PartialEq, Eq)]
pub struct Order {
    pub price: Rate,
    pub estimate1: WideKwh,
    pub estimate2: WideKwh,
}

impl Order {
    #[tactic(auto, unfolding(call_rules::specs::Refusals::order_fits))]
    fn fits(self) -> bool
        ensures { result ≡ order_fits self.price.0 self.estimate1.0 self.estimate2.0 }
    {
        (self.price.0 <= MAX_PRICE)
            & ((self.estimate1.0 <= MAX_ESTIMATE) & (self.estimate2.0 <= MAX_ESTIMATE))
    }
}

// Of any bytes, since the order has it last: it is asked while a call still only reads. The tests below are `&` and `|`, as the rules are.
// 32 bits fit a `usize`, for which std has no `From`.
#[tactic(auto, unfolding(call_rules::specs::Refusals::has_room))]
pub fn has_room(book: &[u8]) -> bool
    ensures { result ≡ has_room book.now }
{
    !(book_view::used(book) as usize == book.len() / RECORD_LENGTH)
}

#[tactic(auto, unfolding(call_rules::specs::Refusals::day_and_option))]
fn day_and_option(option: u8, day: Day) -> bool
    ensures { result ≡ day_and_option option day.year day.month day.day }
{
    day.is_gregorian() & (option <= 1)
}

#[tactic(auto, unfolding(call_rules::specs::Refusals::election_open))]
fn election_open(a: Account, day: Day) -> bool
    ensures { result ≡ election_open a day.year day.month day.day }
{
    day.is_in_window(a.open_year) & !(a.open_year == LAST_OPEN_YEAR)
}

// The open year, or the one after it.
#[tactic(auto, unfolding(call_rules::specs::Refusals::is_open))]
fn is_open(a: Account, year: u32) -> bool
    ensures { result ≡ is_open a year }
{
    (year == u32::from(a.open_year)) | (year == u32::from(a.open_year) + 1)
}

// The runs made of either open year.
#[tactic(auto, unfolding(account_steps::specs::Account::runs_in))]
fn runs_in(a: Account, year: u32) -> u8
    ensures { result ≡ runs_in year a }
{
    if year == u32::from(a.open_year) {
        a.runs
    } else {
        a.later_runs
    }
}

// The halves that a run of a year pays.
pub fn halves_in(a: Account, year: u16, run: u8) -> Halves
    ensures { result ≡ halves_paid a.details.year a.details.month year run }
{
    calendar::halves_paid(a.details.year, a.details.month, year, run)
}

// Whether a run of a year is due and not made. The year is narrowed below its limit, which std's `try_from` would test again.
fn run_due(a: Account, year: u32, run: u8) -> bool
    requires { year < 2 ^ 16 }
    ensures { result ≡ (due (halves_paid a.details.year a.details.month year run) && not (is_made (runs_in year a) run)) }
{
    halves_in(a, year as u16, run).is_due() & !book_rules::is_made(runs_in(a, year), run)
}

// A run of an open year up to 2099.
fn run_named(a: Account, year: u32, run: u8) -> bool
    ensures { result ≡ ((is_open a year && leb year last_activation) && is_run run) }
{
    is_open(a, year) & (year <= LAST_YEAR) & book_rules::is_run(run)
}

fn run_open(a: Account, year: u32, run: u8) -> bool
    ensures { result ≡ run_open a year run }
{
    if run_named(a, year, run) {
        run_due(a, year, run)
    } else {
        false
    }
}

#[tactic(auto, unfolding(call_rules::specs::Refusals::year_open))]
fn year_open(a: Account, year: u16) -> bool
    ensures { result ≡ year_open a year }
{
    (year == a.open_year) & (u32::from(year) <= LAST_YEAR)
}

#[tactic(auto, unfolding(call_rules::specs::Refusals::charge_open))]
fn charge_open(a: Account) -> bool
    ensures { result ≡ charge_open a }
{
    (a.charge.made == 0) & (a.open_year <= LAST_ACTIVATION)
}

// 4 5 3. `taken`: a user has the number. The number 0 may be brought, and is refused: it marks nothing here.
#[tactic(auto, unfolding(call_rules::specs::Rules::refused_by))]
pub fn may_enrol(
    number: UserNumber,
    taken: bool,
    details: Details,
    option: u8,
    room: bool,
) -> Result<(), Refusal>
    ensures { Follows (enrol_rules number.0 taken details option room) result }
{
    if (number.0 == 0) | taken {
        return Err(Refusal::NumberTaken);
    }
    if !book_rules::details_fit(details, option) {
        return Err(Refusal::DetailOutOfRange);
    }
    if !room {
        return Err(Refusal::BookFull);
    }
    Ok(())
}

// 7 8
#[tactic(auto, unfolding(call_rules::specs::Rules::refused_by))]
pub fn may_elect(a: Account, option: u8, day: Day) -> Result<(), Refusal>
    ensures { Follows (elect_rules a option day.year day.month day.day) result }
{
    if !day_and_option(option, day) {
        return Err(Refusal::NoSuchDayOrOption);
    }
    if !election_open(a, day) {
        return Err(Refusal::OutsideWindow);
    }
    Ok(())
}

// 16
#[tactic(auto, unfolding(call_rules::specs::Rules::refused_by))]
pub fn may_charge(a: Account) -> Result<(), Refusal>
    ensures { Follows (charge_rules a) result }
{
    if !charge_open(a) {
        return Err(Refusal::ChargeNotOpen);
    }
    Ok(())
}

// 9 10 3
#[tactic(auto, unfolding(call_rules::specs::Rules::refused_by))]
pub fn may_advance(a: Account, year: u32, run: u8, order: Order, room: bool) -> Result<(), Refusal>
    ensures { Follows (advance_rules a year run order.price.0 order.estimate1.0 order.estimate2.0 room) result }
{
    if !run_open(a, year, run) {
        return Err(Refusal::RunNotOpen);
    }
    if !order.fits() {
        return Err(Refusal::OrderOutOfRange);
    }
    if !room {
        return Err(Refusal::BookFull);
    }
    Ok(())
}

// 12 13 19 14 3, of any bytes.
pub fn close_objection(s: &[u8], a: Account, room: bool) -> Result<(), Refusal>
    ensures { MatchResult result
        (λ met. refused_by (close_rules a s.now room) ≡ 0)
        (λ refusal. (refused_by (close_rules a s.now room) ≡ number_of refusal) × Tells s.now (number_of refusal) (position_of refusal)) }
{
    if !year_open(a, sheet::year(s)) {
        return Err(Refusal::YearNotOpen);
    }
    sheet::first_fault(s)?;
    if sheet::domestic_excess(a.details.class, s) {
        return Err(Refusal::DomesticExcess);
    }
    if !room {
        return Err(Refusal::BookFull);
    }
    Ok(())
}

// The same of a sheet of the right form, which has then passed.
#[tactic(auto, using(crate::proofs::Closings::sheet_passed))]
pub fn may_close<'a>(
    sheet: FormedSheet<'a>,
    a: Account,
    room: bool,
) -> Result<PassedSheet<'a>, Refusal>
    ensures { MatchResult result
        (λ passed. (passed.bytes.now ≡ sheet.entry.bytes.now) × (refused_by (close_rules a sheet.entry.bytes.now room) ≡ 0))
        (λ refusal. (refused_by (close_rules a sheet.entry.bytes.now room) ≡ number_of refusal)
        × Tells sheet.entry.bytes.now (number_of refusal) (position_of refusal)) }
{
    let bytes = sheet.bytes;
    close_objection(bytes, a, room)?;
    Ok(PassedSheet { bytes })
}
