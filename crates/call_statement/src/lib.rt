// The statement of a user (document 01, "Election and advances"): refusals 1 2 6, then the sums over its chain.
#![tactic(auto)]

ghost use Rattle.std.specs.Prelude.{◌≡◌, IfOk};
ghost use Rattle.refusals.specs.Refusals.{refusal_in, record_in};
ghost use Rattle.book_rules.specs.Find.{find_user};
ghost use Rattle.chains.specs.Statements.{statement_at};
ghost use Rattle.statements.specs.InnerWalk.{sums_of};
ghost use Rattle.call_rules.specs.Calls.{statement};
ghost use Rattle.call_answers.specs.Answers.{Answered};

use refusals::Refusal;
use statements::Sums;
use units::UserNumber;

/// The sums of a user's account. The book is only read.
pub fn statement(book: &[u8], number: UserNumber) -> Result<Sums, Refusal>
    ensures reply { Answered book.now (statement number.0) 0 (refusal_in result) (record_in (λ sums. 0) result)
        book.now }
    ensures sums { IfOk result (λ sums. sums ≡ sums_of (statement_at book.now (find_user book.now number.0))) }
{
    let (_book, user) = check_book::find(book, number)?;
    let user = user.ok_or(Refusal::UnknownUser)?;
    Ok(statements::statement_of(user))
}
