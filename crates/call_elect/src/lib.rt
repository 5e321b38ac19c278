// Election (document 01, "Election and advances"): refusals 1 2 6 7 8, then the option.
#![tactic(auto)]

ghost use Rattle.refusals.specs.Refusals.{refusal_in, record_in};
ghost use Rattle.call_rules.specs.Calls.{elect};
ghost use Rattle.call_answers.specs.Answers.{Answered};

use calendar::Day;
use refusals::Refusal;
use units::UserNumber;

/// Sets the option of a user's open year and those after it. Year, month and day one by one, as the theorem names a call's arguments.
pub fn elect(
    book: &mut [u8],
    number: UserNumber,
    option: u8,
    year: u32,
    month: u32,
    day: u32,
) -> Result<(), Refusal>
    ensures { Answered book.old (elect number.0 option year month day) 0 (refusal_in result)
        (record_in (λ elected. 0) result) book.new }
{
    let (_book, user) = check_book::find(book, number)?;
    let user = user.ok_or(Refusal::UnknownUser)?;
    let account = user.account();
    call_refusals::may_elect(account, option, Day { year, month, day })?;
    let index = user.index;
    call_writes::write_account(book, index, account.elected(option));
    Ok(())
}
