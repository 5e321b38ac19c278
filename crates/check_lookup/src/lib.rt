// The user with a number, found by a pass over the records in use.
#![tactic(auto)]

ghost use Rattle.std.specs.Prelude.{◌≡◌};
ghost use Rattle.check_lookup.specs.Found.{found_user};

use units::{RecordIndex, UserNumber};

/// The record of the user with a number, the last one where several have it; none where no user has it.
// A loop by index from the last: std tells what `find` finds over a range from its front, and of a reversed one nothing, so that
// `(1..used).rev().find(..)` would be shorter here and want a law of its own beside it.
pub fn find_user(book: &[u8], number: UserNumber) -> Option<RecordIndex>
    ensures { result ≡ found_user book.now number.0 }
{
    for i in (1..book_view::used(book)).rev() {
        let index = RecordIndex(i);
        if check_rules::has_number(book, index, number) {
            return Some(index);
        }
    }
    None
}
