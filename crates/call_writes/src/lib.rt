// What an accepted call writes into the book: whole records, one after the other (document 01, "Book"). What is asked of the book
// stays in `requires`: it holds of the bytes before the write, which no view outlives. Three functions, since each call makes one change.
#![tactic(auto)]

ghost use Rattle.std.specs.Prelude.{◌≡◌, ◌+◌, ◌*◌, ◌≤◌, ◌<◌, ◌^◌, length};
ghost use Rattle.units.specs.Limits.{record_length};
ghost use Rattle.book_rules.specs.Book.{used};
ghost use Rattle.call_rules.specs.Changes.{enrolled_as, with_account, with_entry};

use account_steps::Account;
use book_records::UserRecord;
use units::{RECORD_LENGTH, RecordIndex};

// A user's record with another account; its links stay.
#[tactic(auto, unfolding(call_rules::specs::Changes::with_account))]
pub fn write_account(book: &mut [u8], user: RecordIndex, account: Account)
    requires { record_length * user.0 + record_length ≤ length book.old }
    ensures { book.new ≡ with_account user.0 account book.old }
{
    let next = book_view::next_of(book, user);
    let first = book_view::first_entry_of(book, user);
    book_layout::store(
        book,
        user,
        book_records::user_image(UserRecord {
            next,
            first,
            account,
        }),
    );
}

// A new entry in front of a user's chain, and the user's account after it.
#[tactic(auto, unfolding(call_rules::specs::Changes::with_entry))]
pub fn write_entry(book: &mut [u8], user: RecordIndex, account: Account, entry: [u8; RECORD_LENGTH])
    requires user_in_book { record_length * user.0 + record_length ≤ length book.old }
    requires new_record_in_book { record_length * used book.old + record_length ≤ length book.old }
    requires records_bound { used book.old + 1 < 2 ^ 32 }
    ensures { book.new ≡ with_entry user.0 account entry book.old }
{
    let new = book_view::used(book);
    let newest = book_view::first_user(book);
    let next = book_view::next_of(book, user);
    let first = RecordIndex(new);
    book_layout::store(book, RecordIndex(new), entry);
    book_layout::store(
        book,
        user,
        book_records::user_image(UserRecord {
            next,
            first,
            account,
        }),
    );
    book_layout::store(
        book,
        RecordIndex(0),
        book_records::head_image(new + 1, newest),
    );
}

// A new user in front of the users' chain.
#[tactic(auto, unfolding(call_rules::specs::Changes::enrolled_as))]
pub fn write_user(book: &mut [u8], account: Account)
    requires new_record_in_book { record_length * used book.old + record_length ≤ length book.old }
    requires records_bound { used book.old + 1 < 2 ^ 32 }
    ensures { book.new ≡ enrolled_as account book.old }
{
    let new = book_view::used(book);
    let next = book_view::first_user(book);
    let first = RecordIndex(0);
    book_layout::store(
        book,
        RecordIndex(new),
        book_records::user_image(UserRecord {
            next,
            first,
            account,
        }),
    );
    book_layout::store(
        book,
        RecordIndex(0),
        book_records::head_image(new + 1, RecordIndex(new)),
    );
}
