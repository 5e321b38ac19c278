// The rules of document 01, "Book", on where the links of a record lead. Any bytes are a book here.
// A link of 0 leads nowhere, and is asked as the number that the rules name: an `Option` made from it would be taken apart at once.
#![tactic(auto)]

ghost use Rattle.std.specs.Prelude.{◌≡◌, true, ◌&&◌, ◌<◌, eqb};
ghost use Rattle.book_layout.specs.Fields.{user_kind};
ghost use Rattle.book_rules.specs.Book.{used, kind_at, is_user, number_of, own_rules_fit, user_next_fits, number_is_new};
ghost use Rattle.book_rules.specs.Book.{first_entry_fits};
ghost use Rattle.book_rules.specs.Book.{entry_next_fits, owner_fits, pointers_to, in_order, first_in_order, next_in_order, links_fit};
ghost use Rattle.book_rules.specs.Book.{good_record};
ghost use Rattle.book_rules.specs.Book.{good_head};
ghost use Rattle.check_rules.specs.InnerFollows.{follows_entry};

use book_layout::kind::Kind;
use book_layout::{field, place, record};
use book_view::{
    UsedBook, activation_of, first_entry_of, first_user, is_advance, is_closing, is_entry, is_user,
    level_of, next_of, number_of, open_year_of, owner_of,
};
use units::{RecordIndex, UserNumber};

// LINKS OF A USER

#[tactic(auto, unfolding(book_rules::specs::Book::user_next_fits))]
fn user_next_fits(book: &[u8], index: RecordIndex) -> bool
    ensures { result ≡ user_next_fits book.now index.0 }
{
    let next = next_of(book, index);
    next.0 == 0 || (is_user(book, next) & (next < index))
}

// A user with the number. Most records have another.
pub fn has_number(book: &[u8], index: RecordIndex, number: UserNumber) -> bool
    ensures { result ≡ (is_user book.now index.0 && eqb (number_of book.now index.0) number.0) }
{
    number_of(book, index) == number && is_user(book, index)
}

#[tactic(auto, unfolding(book_rules::specs::Book::number_is_new))]
pub fn number_is_new(book: &[u8], index: RecordIndex) -> bool
    ensures { result ≡ number_is_new book.now index.0 }
{
    let number = number_of(book, index);
    !(0..index.0).any(|j| has_number(book, RecordIndex(j), number))
}

#[tactic(auto, unfolding(book_rules::specs::Book::first_entry_fits))]
fn first_entry_fits(book: &[u8], index: RecordIndex) -> bool
    ensures { result ≡ first_entry_fits book.now index.0 }
{
    let first = first_entry_of(book, index);
    first.0 == 0 || (is_entry(book, first) & (owner_of(book, first) == index))
}

// LINKS OF AN ENTRY

#[tactic(auto, unfolding(book_rules::specs::Book::owner_fits))]
pub fn owner_fits(book: &[u8], index: RecordIndex) -> bool
    ensures { result ≡ owner_fits book.now index.0 }
{
    let owner = owner_of(book, index);
    is_user(book, owner) & (owner < index)
}

// THE ORDER OF A CHAIN

// What stands where entries of a year may follow: nothing in the activation year, an advance of that year, or the closing of
// the year before.
#[tactic(auto, unfolding(book_rules::specs::Book::in_order))]
fn in_order(book: &[u8], activation: u16, year: u16, entry: RecordIndex) -> bool
    ensures { result ≡ in_order book.now activation year entry.0 }
{
    if entry.0 == 0 {
        year == activation
    } else {
        let level = level_of(book, entry);
        let advance = is_advance(book, entry) & (level == year);
        let closing = is_closing(book, entry) & (u32::from(level) + 1 == u32::from(year));
        advance | closing
    }
}

#[tactic(auto, unfolding(book_rules::specs::Book::first_in_order))]
fn first_in_order(book: &[u8], index: RecordIndex) -> bool
    ensures { result ≡ first_in_order book.now index.0 }
{
    in_order(
        book,
        activation_of(book, index),
        open_year_of(book, index),
        first_entry_of(book, index),
    )
}

// An entry that stands behind one of an owner and of a level: it has the same owner, and its level is that one, or it is the closing
// of the year before.
fn follows(r: &[u8], owner: RecordIndex, level: u16) -> bool
    ensures { result ≡ follows_entry r.now owner.0 level }
{
    let of: RecordIndex = field(r, place::OWNER);
    let kin = book_rules::is_entry_record(r) & (of == owner);
    let behind = book_rules::level_of(r);
    let advance = Kind::Advance.is_of(r) & (behind == level);
    let closing = Kind::Closing.is_of(r) & (u32::from(behind) + 1 == u32::from(level));
    kin & (advance | closing)
}

// Owner, next and order together: each of the records that they name is read once, and only where its index is below the entry's.
fn entry_links_fit(book: UsedBook<'_>, index: RecordIndex) -> bool
    requires index_bound { index.0 < used book.bytes.now }
    ensures { result ≡ ((owner_fits book.entry.bytes.now index.0 && entry_next_fits book.entry.bytes.now index.0)
        && next_in_order book.entry.bytes.now index.0) }
{
    let r = book.whole(index);
    let owner: RecordIndex = field(r, place::OWNER);
    if owner.0 == 0 || index <= owner {
        return false;
    }
    let home = book.whole(owner);
    if !Kind::User.is_of(home) {
        return false;
    }
    let level = book_rules::level_of(r);
    let next: RecordIndex = field(r, place::NEXT);
    if next.0 == 0 {
        return level == field(home, place::ACTIVATION_YEAR);
    }
    if index <= next {
        return false;
    }
    follows(book.whole(next), owner, level)
}

// FAULTS

// Whether a user's number is new comes from the caller, who knows it of all users: `new` is a fact of the record and no step to run.
// That the index is below u is asked and no type: a book and an index in one struct would be put together for this call alone.
#[tactic(auto, unfolding(book_rules::specs::Book::links_fit, book_rules::specs::Book::kind_at))]
fn links_fit(book: UsedBook<'_>, index: RecordIndex, new: bool) -> bool
    requires new_number { kind_at book.bytes.now index.0 ≡ user_kind → new ≡ number_is_new book.bytes.now index.0 }
    requires index_bound { index.0 < used book.bytes.now }
    ensures { result ≡ links_fit book.entry.bytes.now index.0 }
{
    if Kind::User.is_of(book.whole(index)) {
        let user = user_next_fits(book.bytes, index) & new;
        user & (first_entry_fits(book.bytes, index) & first_in_order(book.bytes, index))
    } else {
        entry_links_fit(book, index)
    }
}

// A record that keeps its own rules is judged with the number of pointers that lead to it and, if it is a user, with whether its
// number is new: both are known of all records together at less cost than of each by itself.
#[tactic(auto, unfolding(book_rules::specs::Book::good_record, book_rules::specs::Book::pointed_once))]
pub fn good_record(book: UsedBook<'_>, index: RecordIndex, pointers: u16, new: bool) -> bool
    requires pointer_count { pointers ≡ pointers_to book.bytes.now index.0 }
    requires new_number { kind_at book.bytes.now index.0 ≡ user_kind → new ≡ number_is_new book.bytes.now index.0 }
    requires own_rules { own_rules_fit book.bytes.now index.0 ≡ true }
    requires index_bound { index.0 < used book.bytes.now }
    ensures { result ≡ good_record book.entry.bytes.now index.0 }
{
    links_fit(book, index, new) & (pointers == 1)
}

#[tactic(auto, unfolding(book_rules::specs::Book::good_head))]
pub fn good_head(book: &[u8]) -> bool
    ensures { result ≡ good_head book.now }
{
    let first = first_user(book);
    let leads = first.0 == 0 || is_user(book, first);
    leads & book_layout::head_rest_zero(record(book, RecordIndex(0)))
}
