// Advances (document 01, "Election and advances"): refusals 1 2 6 9 10 3, then the run's entry in front of the user's chain.
#![tactic(auto)]

ghost use Rattle.std.specs.Prelude.{◌≡◌, true, cond, ◌<◌, ◌^◌, eqb, IfOk};
ghost use Rattle.refusals.specs.Refusals.{refusal_in, record_in};
ghost use Rattle.units.specs.Units.{ticks};
ghost use Rattle.book_rules.specs.Book.{halves_fit};
ghost use Rattle.call_rules.specs.Changes.{applied, booked_in, run_amount};
ghost use Rattle.call_rules.specs.Refusals.{order_fits, user_at};
ghost use Rattle.call_rules.specs.Calls.{advance};
ghost use Rattle.call_answers.specs.Answers.{Answered};
ghost use Rattle.call_advance.specs.Advances.{RunFits, run_booked};

use account_steps::Account;
use book_records::AdvanceRecord;
use call_refusals::Order;
use refusals::Refusal;
use units::{Kwh, Rate, RecordIndex, Ticks, UserNumber, WideKwh};

// "the last closed year's half, or .. that half's estimate if no year is closed"
fn half_or_estimate(a: Account, half: Kwh, estimate: WideKwh) -> WideKwh
    ensures { result.0 ≡ cond (eqb a.open_year a.details.year) estimate.0 half.0 }
{
    if a.open_year == a.details.year {
        estimate
    } else {
        WideKwh(u64::from(half.0))
    }
}

// What a run of a year pays. The year is narrowed below its limit, which std's `try_from` would test again.
fn run_amount(a: Account, year: u32, run: u8, order: Order) -> Ticks
    requires year_bound { (year < 2 ^ 16) × (halves_fit a ≡ true) }
    requires order { order_fits order.price.0 order.estimate1.0 order.estimate2.0 ≡ true }
    ensures { result ≡ ticks (run_amount a year run order.price.0 order.estimate1.0 order.estimate2.0) }
{
    let first = half_or_estimate(a, a.half1, order.estimate1);
    let second = half_or_estimate(a, a.half2, order.estimate2);
    call_refusals::halves_in(a, year as u16, run).amount(order.price, first, second)
}

// An entry of the later year notes the year that is open when it is booked.
#[tactic(auto, unfolding(call_rules::specs::Changes::booked_in))]
fn booked_in(a: Account, year: u32) -> u16
    ensures { result ≡ booked_in a year }
{
    if year == u32::from(a.open_year) {
        0
    } else {
        a.open_year
    }
}

// "Each run adds one entry, joins the advances field and sets its bit." What is withheld from it is taken from the rest.
fn book_run(book: &mut [u8], user: RecordIndex, account: Account, year: u32, run: u8, paid: Ticks)
    requires { RunFits book.old user.0 account year run paid.0 }
    ensures { book.new ≡ applied user.0 (run_booked account year run paid.0) book.old }
{
    // Narrowed below its limit, as above.
    let named = year as u16;
    let charge = account.charge;
    let withheld = account_steps::withheld_from(charge.rest, paid);
    let entry = book_records::advance_image(AdvanceRecord {
        next: book_view::first_entry_of(book, user),
        run,
        year: named,
        ticks: paid,
        owner: user,
        booked: booked_in(account, year),
        withheld,
    });
    let after = account.advanced(year, run, paid);
    call_writes::write_entry(book, user, after.withheld(withheld), entry);
}

/// Books an advance of a user, and answers what the run pays. Rate and estimates one by one, as the theorem names a call's arguments.
pub fn advance(
    book: &mut [u8],
    number: UserNumber,
    year: u32,
    run: u8,
    price: Rate,
    estimate1: WideKwh,
    estimate2: WideKwh,
) -> Result<Ticks, Refusal>
    ensures reply { Answered book.old (advance number.0 year run price.0 estimate1.0 estimate2.0) 0
        (refusal_in result) (record_in (λ paid. 0) result) book.new }
    ensures ticks { IfOk result
        (λ paid. paid ≡ ticks (run_amount (user_at book.old number.0) year run price.0 estimate1.0 estimate2.0)) }
{
    let (_book, user) = check_book::find(book, number)?;
    let user = user.ok_or(Refusal::UnknownUser)?;
    let account = user.account();
    let order = Order {
        price,
        estimate1,
        estimate2,
    };
    let room = call_refusals::has_room(book);
    call_refusals::may_advance(account, year, run, order, room)?;
    let paid = run_amount(account, year, run, order);
    let index = user.index;
    book_run(book, index, account, year, run, paid);
    Ok(paid)
}
