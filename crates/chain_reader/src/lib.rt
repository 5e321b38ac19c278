// The chain reader: a struct that holds the book's slice and the current index (document 01, "Book": chains run by a next
// index, and zero ends the chain). It is an iterator, over the entries of a user or over the users of a book.
#![tactic(auto)]

ghost use Rattle.std.specs.Prelude.{◌≡◌, ◌≢◌, true};
ghost use Rattle.units.specs.Units.{record_index};
ghost use Rattle.book_rules.specs.Book.{is_user, is_entry, first_user, first_entry_of};

use book_layout::kind::Kind;
use book_layout::{Record, place};
use book_records::{AdvanceRecord, ClosingRecord};
use book_view::{SoundBook, User};
use units::RecordIndex;

/// An entry of an account, by its kind.
#[derive(Clone, Copy, Debug, PartialEq, Eq)]
pub enum Entry {
    Advance(AdvanceRecord),
    Closing(ClosingRecord),
}

impl Entry {
    ghost use Rattle.chain_reader.specs.Entries.{entry_in};

    // The entry that a record holds: what is no closing is an advance.
    #[tactic(auto, unfolding(crate::specs::Entries::entry_in, book_layout::specs::Kinds::kind_named))]
    fn read(r: &Record) -> Entry
        ensures { result ≡ entry_in r.now }
    {
        match Kind::of(r) {
            Some(Kind::Closing) => Entry::Closing(book_records::read_closing(r)),
            _ => Entry::Advance(book_records::read_advance(r)),
        }
    }
}

/// The entries of a user of a sound book, newest first.
#[derive(Drop)]
pub struct Entries<'a> {
    book: SoundBook<'a>,
    at: RecordIndex,
    ghost ahead: { at.0 ≢ 0 → is_entry book.bytes.now at.0 ≡ true },
}

impl<'a> Entries<'a> {
    /// The entries of a user, newest first.
    #[tactic(auto, using(crate::proofs::Ahead::first_is_entry))]
    pub fn of(user: User<'a>) -> Entries<'a>
        ensures { (result.book ≡ user.entry.book)
            × (result.at ≡ record_index (first_entry_of user.entry.book.bytes.now user.entry.index.0)) }
    {
        Entries {
            book: user.book,
            at: user.first_entry(),
        }
    }
}

impl<'a> Iterator for Entries<'a> {
    ghost use Rattle.std.specs.Iterator.{at_most};
    ghost use Rattle.chain_reader.specs.Steps.{ReadsEntry};

    type Item = Entry;

    ghost next_gives = { ReadsEntry };

    ghost remaining = { λ s. at_most s.at.0 };

    #[tactic(auto, using(crate::proofs::Ahead::entry_less, crate::proofs::Ahead::entry_leads), unfolding(book_rules::specs::Book::next_of))]
    fn next(&mut self) -> Option<Entry> {
        let at = self.at;
        // A rule of the book: zero ends a chain.
        if at.0 == 0 {
            return None;
        }
        let r = book_layout::whole(self.book.bytes, at);
        self.at = book_layout::field(r, place::NEXT);
        Some(Entry::read(r))
    }
}

/// The users of a sound book, newest first.
#[derive(Drop)]
pub struct Users<'a> {
    book: SoundBook<'a>,
    at: RecordIndex,
    ghost ahead: { at.0 ≢ 0 → is_user book.bytes.now at.0 ≡ true },
}

impl<'a> Users<'a> {
    /// The users of a sound book, newest first.
    #[tactic(auto, using(crate::proofs::Ahead::first_is_user))]
    pub fn of(book: SoundBook<'a>) -> Users<'a>
        ensures { (result.book ≡ book.entry) × (result.at ≡ record_index (first_user book.entry.bytes.now)) }
    {
        Users {
            book,
            at: book_view::first_user(book.bytes),
        }
    }
}

impl<'a> Iterator for Users<'a> {
    ghost use Rattle.std.specs.Iterator.{at_most};
    ghost use Rattle.chain_reader.specs.Steps.{ReadsUser};

    type Item = User<'a>;

    ghost next_gives = { ReadsUser };

    ghost remaining = { λ s. at_most s.at.0 };

    #[tactic(auto, using(crate::proofs::Ahead::user_less, crate::proofs::Ahead::user_leads), unfolding(book_rules::specs::Book::next_of))]
    fn next(&mut self) -> Option<User<'a>> {
        let index = self.at;
        // A rule of the book: zero ends a chain.
        if index.0 == 0 {
            return None;
        }
        self.at = book_view::field(self.book.bytes, index, place::NEXT);
        Some(User {
            book: self.book,
            index,
        })
    }
}
