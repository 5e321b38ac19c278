// Enrolment (document 01, "Book" and "Who brings which number"): refusals 1 2 4 5 3, then a new user in front of the users' chain.
#![tactic(auto)]

ghost use Rattle.std.specs.Prelude.{◌≡◌};
ghost use Rattle.refusals.specs.Refusals.{refusal_in, record_in};
ghost use Rattle.book_rules.specs.Book.{used};
ghost use Rattle.call_rules.specs.Changes.{new_account};
ghost use Rattle.call_rules.specs.Calls.{enrol};
ghost use Rattle.call_answers.specs.Answers.{Answered};

use account_steps::{Account, Charge};
use refusals::Refusal;
use sheet_values::Details;
use units::{Kwh, RecordIndex, Ticks, UserNumber};

// "the open year is the activation year, .. the rest zero."
#[tactic(auto, unfolding(call_rules::specs::Changes::new_account))]
fn new_account(number: UserNumber, details: Details, option: u8) -> Account
    ensures { result ≡ new_account number.0 details option }
{
    Account {
        number,
        details,
        option,
        open_year: details.year,
        runs: 0,
        later_runs: 0,
        credit: Ticks(0),
        advances: Ticks(0),
        later_advances: Ticks(0),
        half1: Kwh(0),
        half2: Kwh(0),
        charge: Charge {
            made: 0,
            rest: Ticks(0),
        },
    }
}

/// Enters a new user, and answers its record.
pub fn enrol(
    book: &mut [u8],
    number: UserNumber,
    details: Details,
    option: u8,
) -> Result<RecordIndex, Refusal>
    ensures { Answered book.old (enrol number.0 details option) (used book.old) (refusal_in result)
        (record_in (λ new. new.0) result) book.new }
{
    let (_book, user) = check_book::find(book, number)?;
    let taken = user.is_some();
    let room = call_refusals::has_room(book);
    call_refusals::may_enrol(number, taken, details, option, room)?;
    let new = RecordIndex(book_view::used(book));
    call_writes::write_user(book, new_account(number, details, option));
    Ok(new)
}
