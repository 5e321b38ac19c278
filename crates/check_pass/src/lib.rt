// One pass over the records of a book, from the last one down (document 01, "Book"). It tests each record's own rules, tells
// whether the chains lead to every record, and finds the user with a number on its way.
// An index of 0 leads nowhere, and is asked as the number that the rules name: an `Option` made from it would be taken apart at once.
// An index widens to `usize` by `as`: std has no `From` for it.
#![tactic(auto)]

ghost use Rattle.std.specs.Prelude.{◌≡◌, true, false, ◌≤◌, ◌<◌, MatchOption};
ghost use Rattle.units.specs.Limits.{most_records};
ghost use Rattle.check_numbers.specs.InnerHeld.{places};
ghost use Rattle.book_rules.specs.Book.{used, good_record};
ghost use Rattle.check_pass.specs.InnerSteps.{first_due, due_behind, UserLeads, EntryLeads, KeptRecord, last_met, Tables, KeptAfter};
ghost use Rattle.check_pass.specs.InnerSteps.{Followed, BrokenFirst, PassedThrough};

use book_layout::kind::Kind;
use book_layout::{Record, field, place};
use book_view::{HeadedBook, UsedBook};
use check_numbers::PLACES;
use units::{MOST_RECORDS, RecordIndex, UserNumber};

// A small book and a middling one, and places for the numbers of their users.
const SMALL_BOOK: usize = 32;

const SMALL_PLACES: usize = 64;

const MIDDLING_BOOK: usize = 200;

const MIDDLING_PLACES: usize = 512;

// What the chain of a user leads to next: an entry, 0 at its end, and the year from which it leads there.
#[derive(Clone, Copy)]
struct Due {
    entry: RecordIndex,
    year: u16,
}

impl Due {
    // From the user itself.
    fn first(user: &[u8]) -> Due
        ensures { result ≡ first_due user.now }
    {
        Due {
            entry: field(user, place::FIRST_ENTRY),
            year: field(user, place::OPEN_YEAR),
        }
    }

    // From an entry of it.
    fn behind(entry: &[u8]) -> Due
        ensures { result ≡ due_behind entry.now }
    {
        Due {
            entry: field(entry, place::NEXT),
            year: book_rules::level_of(entry),
        }
    }
}

// A user is met where the users' chain leads, at the end of its own chain.
fn user_leads(r: &[u8], index: RecordIndex, expected: RecordIndex, due: Due) -> bool
    ensures { result ≡ true → UserLeads r.now index.0 expected.0 due }
{
    let opened = due.year == field(r, place::ACTIVATION_YEAR);
    (expected == index) & ((due.entry.0 == 0) & opened)
}

// An entry is met where its owner's chain leads, with the year that is due, or as the closing of the year before.
#[tactic(auto, unfolding(book_rules::specs::Book::years_ended))]
fn entry_leads(r: &[u8], owner: &[u8], index: RecordIndex, due: Due) -> bool
    ensures { result ≡ true → EntryLeads r.now owner.now index.0 due }
{
    let ended = u32::from(Kind::Closing.is_of(r));
    let dated = u32::from(book_rules::level_of(r)) + ended == u32::from(due.year);
    (due.entry == index) & (Kind::User.is_of(owner) & dated)
}

// A record that keeps its own rules: a user, or an entry with its owner's index and record.
#[derive(Clone, Copy)]
enum Kept<'a> {
    User(&'a Record),
    Entry(&'a Record, RecordIndex, &'a Record),
}

// The record at an index, none where it breaks a rule by itself or its owner is not before it. Where the chains are followed each
// record comes here, so that a call would cost. That the index is below u is asked and no type: a book and an index in one struct
// would be put together for this call alone.
#[inline(always)]
fn kept_at<'a>(book: UsedBook<'a>, index: RecordIndex) -> Option<Kept<'a>>
    requires { index.0 < used book.bytes.now }
    ensures { MatchOption result (good_record book.entry.bytes.now index.0 ≡ false)
        (KeptRecord book.entry.bytes.now index.0) }
{
    let r = book.whole(index);
    if Kind::User.is_of(r) {
        if !book_rules::user_record_fits(r) {
            return None;
        }
        return Some(Kept::User(r));
    }
    let home: RecordIndex = field(r, place::OWNER);
    if home.0 == 0 || index <= home {
        return None;
    }
    let owner = book.whole(home);
    if !book_rules::entry_record_fits(r, owner) {
        return None;
    }
    Some(Kept::Entry(r, home, owner))
}

// The record of the user that is looked for: the last that is met with the number. Where the chains lead to all records there is
// one at most.
#[tactic(auto, unfolding(crate::specs::InnerSteps::last_met))]
fn last_met(
    found: Option<RecordIndex>,
    index: RecordIndex,
    number: UserNumber,
    wanted: UserNumber,
) -> Option<RecordIndex>
    ensures { result ≡ last_met found index number.0 wanted.0 }
{
    if number == wanted { Some(index) } else { found }
}

// From the last record down as the chains lead, to the user that is looked for. They are left at the first record that breaks a rule
// or to which they do not lead, or at the head where the users' chain does not end. What is due is kept of each user of which an
// entry was met, and all the numbers that were seen. The loop goes by index, at which the tables are asked.
fn follow_chains(
    book: HeadedBook<'_>,
    wanted: UserNumber,
    dues: &mut [Option<Due>],
    seen: &mut [u32],
) -> Result<Option<RecordIndex>, RecordIndex>
    requires { Tables (used book.used.bytes.now) dues.old seen.old }
    ensures { Followed book.entry.used.bytes.now wanted.0 result }
{
    let mut found = None;
    let mut expected = book_view::first_user(book.used.bytes);
    for i in (1..book_view::used(book.used.bytes)).rev() {
        let index = RecordIndex(i);
        match kept_at(book.used, index).ok_or(index)? {
            Kept::User(r) => {
                let due = dues[i as usize].unwrap_or(Due::first(r));
                let number = field(r, place::NUMBER);
                if !user_leads(r, index, expected, due) {
                    return Err(index);
                }
                if !check_numbers::insert(seen, number) {
                    return Err(index);
                }
                found = last_met(found, index, number, wanted);
                expected = field(r, place::NEXT);
            }
            Kept::Entry(r, home, owner) => {
                let due = dues[home.0 as usize].unwrap_or(Due::first(owner));
                if !entry_leads(r, owner, index, due) {
                    return Err(index);
                }
                dues[home.0 as usize] = Some(Due::behind(r));
            }
        }
    }
    if expected.0 == 0 {
        Ok(found)
    } else {
        Err(RecordIndex(0))
    }
}

// The smallest record that breaks a rule by itself, of those up to the one where the chains were left. `find` over the range would
// take a closure that asks of its index what `kept_at` asks, which the loop has from its bounds.
#[cold]
#[inline(never)]
fn first_broken(book: UsedBook<'_>, left: RecordIndex) -> Option<RecordIndex>
    requires { KeptAfter book.bytes.now left.0 }
    ensures { BrokenFirst book.entry.bytes.now result }
{
    for i in 1..=left.0 {
        let index = RecordIndex(i);
        if kept_at(book, index).is_none() {
            return Some(index);
        }
    }
    None
}

// With tables for so many records, and for the numbers of their users: a small book pays for small ones alone. They are arrays, since
// the library has no heap; that u is within them is asked here, where their size is known.
#[inline(never)]
fn with_tables<const RECORDS: usize, const NUMBERS: usize>(
    book: HeadedBook<'_>,
    wanted: UserNumber,
) -> Result<Option<RecordIndex>, Option<RecordIndex>>
    requires room { used book.used.bytes.now ≤ RECORDS }
    requires most { RECORDS ≤ most_records }
    requires places { (0 < NUMBERS) × (NUMBERS ≤ places) }
    ensures { PassedThrough book.entry.used.bytes.now wanted.0 result }
{
    let mut dues = [None; RECORDS];
    let mut seen = [0; NUMBERS];
    match follow_chains(book, wanted, &mut dues, &mut seen) {
        Ok(user) => Ok(user),
        Err(left) => Err(first_broken(book.used, left)),
    }
}

// Where the chains lead to all records the book is sound: the user that was looked for. Else the smallest record that breaks a rule
// by itself, if one does. Tables for the records that the book uses: those for 800 take longer to clear than a small book to pass
// over.
#[tactic(auto, using(crate::proofs::Counted::counted))]
pub fn find(
    book: HeadedBook<'_>,
    wanted: UserNumber,
) -> Result<Option<RecordIndex>, Option<RecordIndex>>
    ensures { PassedThrough book.entry.used.bytes.now wanted.0 result }
{
    let records = book_view::used(book.used.bytes) as usize;
    if records <= SMALL_BOOK {
        with_tables::<SMALL_BOOK, SMALL_PLACES>(book, wanted)
    } else if records <= MIDDLING_BOOK {
        with_tables::<MIDDLING_BOOK, MIDDLING_PLACES>(book, wanted)
    } else {
        with_tables::<MOST_RECORDS, PLACES>(book, wanted)
    }
}
