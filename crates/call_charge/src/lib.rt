// The yearly charge (document 02, ticket 1): refusals 1 2 6 16, then the open year is charged and the rest grows.
#![tactic(auto)]

ghost use Rattle.refusals.specs.Refusals.{refusal_in, record_in};
ghost use Rattle.book_rules.specs.Find.{find_user};
ghost use Rattle.call_rules.specs.Calls.{charge};
ghost use Rattle.call_answers.specs.Answers.{Answered};

use refusals::Refusal;
use units::{RecordIndex, UserNumber};

/// Charges a user's open year. It adds no record, and answers the user's.
pub fn charge(book: &mut [u8], number: UserNumber) -> Result<RecordIndex, Refusal>
    ensures { Answered book.old (charge number.0) (find_user book.old number.0) (refusal_in result)
        (record_in (λ user. user.0) result) book.new }
{
    let (_book, user) = check_book::find(book, number)?;
    let user = user.ok_or(Refusal::UnknownUser)?;
    let account = user.account();
    call_refusals::may_charge(account)?;
    let index = user.index;
    let charged = account.charged();
    call_writes::write_account(book, index, charged);
    Ok(index)
}
