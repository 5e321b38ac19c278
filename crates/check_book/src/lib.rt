// The check that a book is sound, and the fresh book (document 01, "Book"). Any bytes are a book here: cycles, wild indexes and
// unknown kinds are ordinary input.
#![tactic(auto)]

ghost use Rattle.std.specs.Prelude.{◌≡◌, true, ◌&&◌};
ghost use Rattle.book_rules.specs.Book.{length_fits, used_fits, good_head, is_entry, owner_fits, number_is_new};
ghost use Rattle.check_lookup.specs.Found.{found_user};
ghost use Rattle.check_pass.specs.InnerSteps.{BrokenFirst};
ghost use Rattle.refusals.specs.Refusals.{refusal_in};
ghost use Rattle.check_book.specs.Verdicts.{RecordsSearched, BookJudged, UserFound, BookFound, BookChecked, fresh_answer, fresh_after};

use book_view::{HeadedBook, SoundBook, UsedBook, User, is_entry, is_user, number_of, used};
use check_numbers::PLACES;
use refusals::Refusal;
use units::{RecordIndex, UserNumber};

fn owned(book: &[u8], index: RecordIndex) -> bool
    ensures { result ≡ (is_entry book.now index.0 && owner_fits book.now index.0) }
{
    is_entry(book, index) & check_rules::owner_fits(book, index)
}

// "no user with a smaller index has its number". Where that is not known, the users before are asked one by one: `known` is a fact of
// the user and no step to run.
fn is_new(book: &[u8], user: RecordIndex, known: bool) -> bool
    requires { known ≡ true → number_is_new book.now user.0 ≡ true }
    ensures { result ≡ number_is_new book.now user.0 }
{
    known || check_rules::number_is_new(book, user)
}

// "The faulty record with the smallest index" of the records but the head: each user in rising order, then the entries that it owns,
// in rising order too. A record that is neither a user nor owned by a user before it is faulty. `bad` is the smallest faulty record
// so far, first the smallest that breaks a rule by itself, or u. The entries of a user are left at the first that is faulty, or not
// before `bad`; the users are left at one that is faulty, or at `bad`: whatever stands before it was looked at, since the owner of
// an entry stands before the entry. Each record is looked at once: the entries of a user are linked beforehand, and its number is
// new where a table of the numbers of all users before it takes it in. An entry has no number. The loop goes by index, at which the
// arrays are asked; one widens to `usize` by `as`: std has no `From` for it. They are arrays, since the library has no heap.
#[tactic(auto, using(check_pass::proofs::Counted::counted))]
fn faulty_record(book: HeadedBook<'_>, broken: Option<RecordIndex>) -> Option<RecordIndex>
    requires { BrokenFirst book.used.bytes.now broken }
    ensures { RecordsSearched book.entry.used.bytes.now result }
{
    let book = book.used;
    let counts = check_pointers::counts(book);
    let entries = check_owners::by_owner(book);
    let records = used(book.bytes);
    let mut seen = [0; PLACES];
    let mut all_seen = true;
    let mut bad = broken.unwrap_or(RecordIndex(records)).0;
    'users: for i in 1..records {
        if i == bad {
            break 'users;
        }
        let home = RecordIndex(i);
        if is_user(book.bytes, home) {
            all_seen = all_seen & check_numbers::insert(&mut seen, number_of(book.bytes, home));
            let new = is_new(book.bytes, home, all_seen);
            if !check_rules::good_record(book, home, counts[i as usize], new) {
                bad = i;
                break 'users;
            }
            let mut next = entries.first[i as usize];
            'entries: while let Some(RecordIndex(e)) = next {
                if bad <= e {
                    break 'entries;
                }
                if !check_rules::good_record(book, RecordIndex(e), counts[e as usize], true) {
                    bad = e;
                    break 'entries;
                }
                next = entries.later[e as usize];
            }
        } else if !owned(book.bytes, home) {
            bad = i;
            break 'users;
        }
    }
    (bad < records).then_some(RecordIndex(bad))
}

// A book whose chains do not lead to all records is judged record by record, by arrays for which no other book pays.
#[cold]
#[inline(never)]
fn judge(
    book: HeadedBook<'_>,
    number: UserNumber,
    broken: Option<RecordIndex>,
) -> Result<Option<RecordIndex>, Refusal>
    requires { BrokenFirst book.used.bytes.now broken }
    ensures { BookJudged book.entry.used.bytes.now number.0 result }
{
    match faulty_record(book, broken) {
        Some(bad) => Err(Refusal::FaultyRecord(bad)),
        None => Ok(check_lookup::find_user(book.used.bytes, number)),
    }
}

// One pass over the records tells whether a book is sound, and the smallest record that breaks a rule by itself. Where it is not
// sound, the records are judged one by one.
fn pass(book: &[u8], number: UserNumber) -> Result<Option<RecordIndex>, Refusal>
    ensures { BookJudged book.now number.0 result }
{
    if !book_rules::length_fits(book) {
        return Err(Refusal::BookLength);
    }
    if !book_view::used_fits(book) {
        return Err(Refusal::FaultyRecord(RecordIndex(0)));
    }
    if !check_rules::good_head(book) {
        return Err(Refusal::FaultyRecord(RecordIndex(0)));
    }
    let used = UsedBook { bytes: book };
    let book = HeadedBook { used };
    match check_pass::find(book, number) {
        Ok(user) => Ok(user),
        Err(broken) => judge(book, number, broken),
    }
}

// The user that was found in a sound book, as one of its users.
#[tactic(auto, using(check_lookup::proofs::Search::found))]
fn user_in<'a>(
    book: SoundBook<'a>,
    number: UserNumber,
    found: Option<RecordIndex>,
) -> Option<User<'a>>
    requires { found ≡ found_user book.bytes.now number.0 }
    ensures { UserFound book.entry.bytes.now number.0 result }
{
    match found {
        Some(index) => Some(User { book, index }),
        None => None,
    }
}

/// The look with which every call begins: refusal 1, or 2 with the faulty record that has the smallest index; or the book, known to
/// be sound, and the user with a number, where it has one.
pub fn find<'a>(
    book: &'a [u8],
    number: UserNumber,
) -> Result<(SoundBook<'a>, Option<User<'a>>), Refusal>
    ensures { BookFound book.now number.0 result }
{
    let found = pass(book, number)?;
    let book = SoundBook { bytes: book };
    Ok((book, user_in(book, number, found)))
}

/// The check alone, of which no user is asked.
pub fn check<'a>(book: &'a [u8]) -> Result<SoundBook<'a>, Refusal>
    ensures { BookChecked book.now result }
{
    // No user has the number 0.
    let _nobody = pass(book, UserNumber(0))?;
    Ok(SoundBook { bytes: book })
}

/// "A fresh book is all zero but u = 1." Refusal 1 is the only one, and leaves the bytes.
pub fn fresh(book: &mut [u8]) -> Result<(), Refusal>
    ensures answer { refusal_in result ≡ fresh_answer book.old }
    ensures after { book.new ≡ fresh_after book.old }
{
    if !book_rules::length_fits(book) {
        return Err(Refusal::BookLength);
    }
    book.fill(0);
    book[0] = 1;
    Ok(())
}
