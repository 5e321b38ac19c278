// How often each record is pointed to, counted in one pass over the book (document 01, "Book": "Each record but the head is
// pointed to exactly once, by the head, a next or a first"). Any bytes are a book here, as long as u is 1 to capacity and no
// more than a book can have.
#![tactic(auto)]

ghost use Rattle.std.specs.Prelude.{◌≡◌, ℕ, ◌≤◌, ◌<◌, get_or, length};
ghost use Rattle.units.specs.Limits.{most_records};
ghost use Rattle.book_rules.specs.Book.{pointers_to, used};
ghost use Rattle.check_pointers.specs.InnerPointers.{PointerCounted};

use book_layout::kind::Kind;
use book_layout::{field, place};
use book_view::UsedBook;
use units::{MOST_RECORDS, RecordIndex};

// Counts a pointer at the record that it leads to. One that leads past the records of any book is not counted. The counts are an
// array, since the library has no heap; an index widens to `usize` by `as`: std has no `From` for it.
fn count(counts: &mut [u16; MOST_RECORDS], pointer: RecordIndex)
    requires counts_length { length counts.old ≡ most_records }
    requires counts_room { (m : ℕ) → m < most_records → get_or counts.old m 0 < 65535 }
    ensures { PointerCounted pointer.0 counts.old counts.new }
{
    let to = pointer.0 as usize;
    if to < MOST_RECORDS {
        counts[to] += 1;
    }
}

// A null pointer counts for the head, which nothing looks at. Each record is read once; a record of no known kind points nowhere.
// That u is within the array is asked here, and does not stand in `UsedBook`: the rules are asked of books of any length. The loop
// goes by index: it is what the invariant counts to, and records by an iterator would have to bring it along.
pub fn counts(book: UsedBook<'_>) -> [u16; MOST_RECORDS]
    requires { used book.bytes.now ≤ most_records }
    ensures { (m : ℕ) → 1 ≤ m → m < most_records → get_or result m 0 ≡ pointers_to book.entry.bytes.now m }
{
    let mut counts = [0; MOST_RECORDS];
    let records = book_view::used(book.bytes);
    count(&mut counts, book_view::first_user(book.bytes));
    for j in 1..records {
        let r = book.whole(RecordIndex(j));
        if Kind::User.is_of(r) {
            count(&mut counts, field(r, place::NEXT));
            count(&mut counts, field(r, place::FIRST_ENTRY));
        } else if book_rules::is_entry_record(r) {
            count(&mut counts, field(r, place::NEXT));
        }
    }
    counts
}
