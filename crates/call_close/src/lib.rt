// Closing a year (document 01, "Closing"): refusals 1 2 11 6 12 13 19 14 3, then the year's entry in front of the user's chain.
#![tactic(auto)]

ghost use Rattle.std.specs.Prelude.{◌≡◌, IfOk};
ghost use Rattle.refusals.specs.Refusals.{refusal_in, position_in, record_in};
ghost use Rattle.account_steps.specs.Account.{closed_of, settled};
ghost use Rattle.account_steps.specs.declared.Account.{Account};
ghost use Rattle.sheet.specs.YearSheet.{sheet_user, Tells};
ghost use Rattle.sheet_values.specs.YearsValues.{year_values};
ghost use Rattle.call_rules.specs.Refusals.{user_at};
ghost use Rattle.call_rules.specs.Calls.{close};
ghost use Rattle.call_answers.specs.Answers.{Answered};
ghost use Rattle.call_close.specs.Closings.{YearFits};
ghost use Rattle.call_close.specs.InnerBooked.{YearEntered};

use account_steps::{Account, ClosingSums, Settlement};
use book_records::ClosingRecord;
use refusals::Refusal;
use sheet::FormedSheet;
use sheet_values::YearValues;
use units::RecordIndex;

// The sums of a settled year.
fn settled_sums(values: YearValues, settlement: Settlement) -> ClosingSums
    ensures { (account : Account) → settlement ≡ (closed_of values account).settlement → result ≡ settled account values }
{
    ClosingSums {
        value: values.value,
        cost: values.cost,
        flat_rate: values.flat_rate,
        contribution: settlement.contribution,
        liquidation: settlement.outcome.liquidation(),
        lapsed: settlement.outcome.lapsed(),
        balance: settlement.balance,
    }
}

// Books the closing of a user's open year. What is withheld from what it pays is taken from the rest.
fn book_year(
    book: &mut [u8],
    user: RecordIndex,
    account: Account,
    values: YearValues,
) -> ClosingSums
    requires { YearFits book.old user.0 account values }
    ensures { YearEntered user.0 account values book.old book.new result }
{
    let first = book_view::first_entry_of(book, user);
    let after = account.closed(values);
    let sums = settled_sums(values, after.settlement);
    let charge = account.charge;
    let withheld = account_steps::withheld_at_closing(
        charge.rest,
        sums.contribution,
        account.advances,
        sums.liquidation,
    );
    let entry = ClosingRecord {
        next: first,
        option: account.option,
        year: account.open_year,
        sums,
        owner: user,
        withheld,
    };
    let image = book_records::closing_image(entry);
    let closed = after.account;
    let left = closed.withheld(withheld);
    call_writes::write_entry(book, user, left, image);
    sums
}

/// Closes a user's open year by its sheet, and answers the entry's sums.
pub fn close(book: &mut [u8], sheet: &[u8]) -> Result<ClosingSums, Refusal>
    ensures reply { Answered book.old (close sheet.now) 0 (refusal_in result) (record_in (λ sums. 0) result)
        book.new }
    ensures position { Tells sheet.now (refusal_in result) (position_in result) }
    ensures sums { IfOk result
        (λ sums. sums ≡ settled (user_at book.old (sheet_user sheet.now))
        (year_values sheet.now (user_at book.old (sheet_user sheet.now)).details)) }
{
    let (_book, user) = check_book::find(book, sheet::user(sheet))?;
    let formed = FormedSheet::new(sheet)?;
    let user = user.ok_or(Refusal::UnknownUser)?;
    let account = user.account();
    let room = call_refusals::has_room(book);
    let passed = call_refusals::may_close(formed, account, room)?;
    let values = YearValues::of(passed, account.details);
    let index = user.index;
    Ok(book_year(book, index, account, values))
}
