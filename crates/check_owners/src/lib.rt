// The entries of each owner, linked in one pass over the book, so that all of them are met without a look at the records of
// others. Any bytes are a book here, as long as u is 1 to capacity and no more than a book can have: an owner may be no user.
#![tactic(auto)]

ghost use Rattle.std.specs.Prelude.{◌≤◌};
ghost use Rattle.book_rules.specs.Book.{used};
ghost use Rattle.units.specs.Limits.{most_records};
ghost use Rattle.check_owners.specs.InnerOwners.{Linked};

use book_layout::place;
use book_view::UsedBook;
use units::{MOST_RECORDS, RecordIndex};

// The first entry of each owner, and of each entry the next one that has the same owner: arrays, since the library has no heap.
#[derive(Clone, Copy)]
pub struct Entries {
    pub first: [Option<RecordIndex>; MOST_RECORDS],
    pub later: [Option<RecordIndex>; MOST_RECORDS],
}

// The records but the head are passed from the last one down, and each is read once. An entry whose owner is no record of the book
// stands in no list. The loop goes by index, which the lists hold; one widens to `usize` by `as`: std has no `From` for it. That u is
// within the arrays is asked here, and does not stand in `UsedBook`: the rules are asked of books of any length.
pub fn by_owner(book: UsedBook<'_>) -> Entries
    requires { used book.bytes.now ≤ most_records }
    ensures { Linked book.entry.bytes.now result }
{
    let mut first = [None; MOST_RECORDS];
    let mut later = [None; MOST_RECORDS];
    let records = book_view::used(book.bytes);
    for e in (1..records).rev() {
        let r = book.whole(RecordIndex(e));
        let owner: u32 = book_layout::field(r, place::OWNER);
        if book_rules::is_entry_record(r) & (owner < records) {
            later[e as usize] = first[owner as usize];
            first[owner as usize] = Some(RecordIndex(e));
        }
    }
    Entries { first, later }
}
