// What a book holds, read from its bytes: the head, what each record is, and its fields (document 01, "Book"). Any bytes are a
// book here: an index may lead anywhere, and a record past the end has zeros in all its fields.
#![tactic(auto)]

ghost use Rattle.std.specs.Prelude.{◌≡◌, true, ◌+◌, ◌*◌, ◌<◌, ◌≤◌, length};
ghost use Rattle.book_layout.specs.Fields.{bytes, get, record_at};
ghost use Rattle.book_layout.specs.Kinds.{kind_number};
ghost use Rattle.units.specs.Limits.{record_length};
ghost use Rattle.units.specs.Units.{user_number, record_index};
ghost use Rattle.book_rules.specs.Book.{first_user, used_fits, kind_at, has_kind, is_user, is_advance, is_closing, is_entry, owner_of};
ghost use Rattle.book_rules.specs.Book.{account_at, length_fits, good_head, sound};
ghost use Rattle.book_rules.specs.Book.{next_of, first_entry_of, number_of, level_of, activation_of, open_year_of};
ghost use Rattle.book_rules.specs.Book.{used as usedIn};

use account_steps::Account;
use book_layout::kind::Kind;
use book_layout::{Record, place, record};
use codec::Number;
use units::{RECORD_LENGTH, RecordIndex, UserNumber};

/// A book whose u is at least 1 and counts records that the book has.
#[derive(Clone, Copy)]
pub struct UsedBook<'a> {
    pub bytes: &'a [u8],
    ghost counted: { used_fits bytes.now ≡ true },
}

/// A book of the length of a book, whose head is not faulty.
#[derive(Clone, Copy)]
pub struct HeadedBook<'a> {
    pub used: UsedBook<'a>,
    ghost length: { length_fits used.bytes.now ≡ true },
    ghost head: { good_head used.bytes.now ≡ true },
}

/// A book that refusals 1 and 2 pass: of the length of a book, and with no faulty record.
#[derive(Clone, Copy)]
pub struct SoundBook<'a> {
    pub bytes: &'a [u8],
    ghost length: { length_fits bytes.now ≡ true },
    ghost no_fault: { sound bytes.now ≡ true },
}

/// A user of a sound book, by the index of its record.
#[derive(Clone, Copy)]
pub struct User<'a> {
    pub book: SoundBook<'a>,
    pub index: RecordIndex,
    ghost user_record: { is_user book.bytes.now index.0 ≡ true },
}

impl<'a> UsedBook<'a> {
    /// The record at an index below u.
    pub fn whole(self, index: RecordIndex) -> &'a Record
        requires { index.0 < usedIn self.bytes.now }
        ensures { result.now ≡ record_at self.entry.bytes.now index.0 }
    {
        book_layout::whole(self.bytes, index)
    }
}

// THE HEAD. Its two fields have a function each, as in specs/Book: `field` with the head's index and a place is no plainer.

/// The records that are used, u, the head among them.
#[tactic(auto, unfolding(book_rules::specs::Book::used))]
pub fn used(book: &[u8]) -> u32
    ensures { result ≡ usedIn book.now }
{
    field(book, RecordIndex(0), place::USED)
}

/// The newest user, 0 where there is none.
#[tactic(auto, unfolding(book_rules::specs::Book::first_user))]
pub fn first_user(book: &[u8]) -> RecordIndex
    ensures { result ≡ record_index (first_user book.now) }
{
    field(book, RecordIndex(0), place::FIRST_USER)
}

/// Whether u is at least 1 and counts records that the book has.
// By `as`: no `From` leads from 32 bits to `usize`.
#[tactic(auto, unfolding(book_rules::specs::Book::used_fits))]
pub fn used_fits(book: &[u8]) -> bool
    ensures { result ≡ used_fits book.now }
{
    (1 <= used(book)) & (used(book) as usize <= book.len() / RECORD_LENGTH)
}

// WHAT A RECORD IS

// The index of a record below u that is of a kind.
#[tactic(auto, unfolding(book_rules::specs::Book::has_kind, book_rules::specs::Book::kind_at))]
fn has_kind(book: &[u8], kind: Kind, index: RecordIndex) -> bool
    ensures { result ≡ has_kind book.now (kind_number kind) index.0 }
{
    ((0 < index.0) & (index.0 < used(book))) & kind.is_of(record(book, index))
}

/// Whether an index is that of a user in use; so an advance, a closing, an entry of either kind.
pub fn is_user(book: &[u8], index: RecordIndex) -> bool
    ensures { result ≡ is_user book.now index.0 }
{
    has_kind(book, Kind::User, index)
}

pub fn is_advance(book: &[u8], index: RecordIndex) -> bool
    ensures { result ≡ is_advance book.now index.0 }
{
    has_kind(book, Kind::Advance, index)
}

pub fn is_closing(book: &[u8], index: RecordIndex) -> bool
    ensures { result ≡ is_closing book.now index.0 }
{
    has_kind(book, Kind::Closing, index)
}

#[tactic(auto, unfolding(book_rules::specs::Book::is_entry, book_rules::specs::Book::kind_at))]
pub fn is_entry(book: &[u8], index: RecordIndex) -> bool
    ensures { result ≡ is_entry book.now index.0 }
{
    ((0 < index.0) & (index.0 < used(book))) & book_rules::is_entry_record(record(book, index))
}

// FIELDS OF A RECORD

/// The number in a field of the record at an index, as wide as its type.
// A field is known by its place in a record, so that the two are given side by side.
pub fn field<T: Number>(book: &[u8], index: RecordIndex, at: usize) -> T
    requires { at < record_length }
    ensures { T.value result ≡ get (bytes at T.WIDTH) (record_at book.now index.0) }
{
    book_layout::field(record(book, index), at)
}

// Each of these is `field` under the name that its definition has in specs/Book: a caller that took `field` would name both, the place
// and the definition that its proof unfolds, so that it is no plainer.

#[tactic(auto, unfolding(book_rules::specs::Book::owner_of))]
pub fn owner_of(book: &[u8], index: RecordIndex) -> RecordIndex
    ensures { result ≡ record_index (owner_of book.now index.0) }
{
    field(book, index, place::OWNER)
}

#[tactic(auto, unfolding(book_rules::specs::Book::next_of))]
pub fn next_of(book: &[u8], index: RecordIndex) -> RecordIndex
    ensures { result ≡ record_index (next_of book.now index.0) }
{
    field(book, index, place::NEXT)
}

#[tactic(auto, unfolding(book_rules::specs::Book::first_entry_of))]
pub fn first_entry_of(book: &[u8], index: RecordIndex) -> RecordIndex
    ensures { result ≡ record_index (first_entry_of book.now index.0) }
{
    field(book, index, place::FIRST_ENTRY)
}

#[tactic(auto, unfolding(book_rules::specs::Book::number_of))]
pub fn number_of(book: &[u8], index: RecordIndex) -> UserNumber
    ensures { result ≡ user_number (number_of book.now index.0) }
{
    field(book, index, place::NUMBER)
}

#[tactic(auto, unfolding(book_rules::specs::Book::level_of))]
pub fn level_of(book: &[u8], index: RecordIndex) -> u16
    ensures { result ≡ level_of book.now index.0 }
{
    book_rules::level_of(record(book, index))
}

#[tactic(auto, unfolding(book_rules::specs::Book::activation_of))]
pub fn activation_of(book: &[u8], index: RecordIndex) -> u16
    ensures { result ≡ activation_of book.now index.0 }
{
    field(book, index, place::ACTIVATION_YEAR)
}

#[tactic(auto, unfolding(book_rules::specs::Book::open_year_of))]
pub fn open_year_of(book: &[u8], index: RecordIndex) -> u16
    ensures { result ≡ open_year_of book.now index.0 }
{
    field(book, index, place::OPEN_YEAR)
}

/// The account of the user whose record stands at an index.
// That it is whole is asked of any bytes: `User` carries it where the book is known to be sound.
pub fn account_at(book: &[u8], index: RecordIndex) -> Account
    requires { record_length * index.0 + record_length ≤ length book.now }
    ensures { result ≡ account_at book.now index.0 }
{
    book_records::read_account(book_layout::whole_record(book, index.0 as usize))
}

impl<'a> User<'a> {
    /// The account of the user.
    #[tactic(auto, using(crate::proofs::Users::user_whole))]
    pub fn account(self) -> Account
        ensures { result ≡ account_at self.entry.book.bytes.now self.entry.index.0 }
    {
        account_at(self.book.bytes, self.index)
    }

    /// Its newest entry, 0 where it has none.
    pub fn first_entry(self) -> RecordIndex
        ensures { result ≡ record_index (first_entry_of self.entry.book.bytes.now self.entry.index.0) }
    {
        first_entry_of(self.book.bytes, self.index)
    }
}
