// The text of the listing (document 01): from the bytes of a book to the bytes that are printed.
#![tactic(auto)]

ghost use Rattle.std.specs.Prelude.{◌≡◌, ◌+◌, ◌≤◌, length, IfOk, string_bytes};
ghost use Rattle.book_rules.specs.Chains.{users_of};
ghost use Rattle.decimals.specs.InnerWritten.{TextPut};
ghost use Rattle.listing_text.specs.Listing.{user_lines, refused, listing};
ghost use Rattle.listing_text.specs.InnerWritten.{longest_field, longest_user_line, longest_refusal, longest_text, account_line};
ghost use Rattle.listing_text.specs.InnerWritten.{ListingAnswered, FieldPut, TextFirst};

use account_steps::Account;
use book_view::SoundBook;
use chain_reader::Users;
use std::alloc::{AllocError, Global};
use units::MOST_RECORDS;

// The longest listing: of each user three numbers of at most twenty digits, each with a byte after it.
const MOST_USERS: usize = MOST_RECORDS - 1;

const LONGEST_USER_LINE: usize = 63;

const LONGEST_TEXT: usize = MOST_USERS * LONGEST_USER_LINE;

/// Room for every listing, in bytes.
pub fn buffer() -> [u8; LONGEST_TEXT]
    ensures { longest_text ≡ length result }
{
    [0; LONGEST_TEXT]
}

// Writes a number of 64 bits at a place of the text with one byte after it, a blank or a line feed, and answers the place after it.
fn field_at(out: &mut [u8], at: usize, n: u64, after: u8) -> usize
    requires { at + longest_field ≤ length out.old }
    ensures { FieldPut at n after out.old out.new result }
{
    decimals::write_field(out, at, n, after)
}

// Writes the line of an account: number, open year and credit.
fn line_at(out: &mut [u8], at: usize, account: Account) -> usize
    requires { at + longest_user_line ≤ length out.old }
    ensures { TextPut at (account_line account) out.old out.new result }
{
    let number = u64::from(account.number.0);
    let open_year = u64::from(account.open_year);
    let credit = account.credit.0;
    let second = field_at(out, at, number, b' ');
    let third = field_at(out, second, open_year, b' ');
    field_at(out, third, credit, b'\n')
}

// Writes the lines of the users of a sound book in chain order, and answers how many bytes they are.
fn write_lines(book: SoundBook<'_>, out: &mut [u8]) -> usize
    requires { longest_text ≤ length out.old }
    ensures { TextFirst (user_lines book.entry.bytes.now (users_of book.entry.bytes.now)) out.old out.new result }
{
    let mut end = 0;
    for user in Users::of(book) {
        end = line_at(out, end, user.account());
    }
    end
}

// Writes the line of a refused book.
fn refusal_of(out: &mut [u8], n: u64) -> usize
    requires { longest_refusal ≤ length out.old }
    ensures { TextFirst (refused n) out.old out.new result }
{
    out[0] = b'r';
    out[1] = b'e';
    out[2] = b'f';
    out[3] = b'u';
    out[4] = b's';
    out[5] = b'e';
    out[6] = b'd';
    out[7] = b' ';
    field_at(out, 8, n, b'\n')
}

// Writes the text that a book has, by what the check says of it.
fn text_of(book: &[u8], out: &mut [u8]) -> usize
    requires { longest_text ≤ length out.old }
    ensures { TextFirst (listing book.now) out.old out.new result }
{
    match check_book::check(book) {
        Ok(book) => write_lines(book, out),
        Err(refusal) => refusal_of(out, u64::from(refusal.number())),
    }
}

/// Writes what the listing program prints of a book, any bytes, at the front of a text, and answers how many bytes it is. It needs no
/// memory. A text that is shorter than `buffer()` stays as it was, whatever the book, and the answer is `None`.
pub fn listing_of(book: &[u8], out: &mut [u8]) -> Option<usize>
    ensures { ListingAnswered book.now out.old out.new result }
{
    if out.len() < LONGEST_TEXT {
        return None;
    }
    Some(text_of(book, out))
}

// The lines of the users of a sound book in chain order: number, open year and credit.
fn lines_of(alloc: Global, book: SoundBook<'_>) -> Result<String, AllocError>
    ensures { IfOk result (λ text. string_bytes text ≡ user_lines book.entry.bytes.now (users_of book.entry.bytes.now)) }
{
    let mut text = String::new(alloc);
    for user in Users::of(book) {
        let account = user.account();
        let number = account.number.0;
        let open_year = account.open_year;
        let credit = account.credit.0;
        writeln!(text, "{number} {open_year} {credit}")?;
    }
    Ok(text)
}

/// What the listing program prints of a book, any bytes, as a text of its own; it fails where no memory is left.
#[tactic(auto, unfolding(crate::specs::Listing::listing, crate::specs::Listing::refused))]
pub fn listing(alloc: Global, book: &[u8]) -> Result<String, AllocError>
    ensures { IfOk result (λ text. string_bytes text ≡ listing book.now) }
{
    match check_book::check(book) {
        Ok(book) => lines_of(alloc, book),
        Err(refusal) => {
            let number = refusal.number();
            format!(in alloc; "refused {number}\n")
        }
    }
}

#[cfg(test)]
mod tests {
    use super::*;
    use std::test::Fail;

    // The listing that is written into a buffer is the one that is made as a text.
    fn is_written(book: &[u8], text: &[u8]) -> bool {
        let mut out = buffer();
        match listing_of(book, &mut out) {
            Some(length) => out.get(..length) == Some(text),
            None => false,
        }
    }

    #[test]
    fn books_are_listed(rt: HostRuntime) -> Result<(), Fail> {
        let mut book = [0; 160];
        assert_eq!(rt; listing(rt.alloc(), b"")?.as_str(), "refused 1\n");
        assert_eq!(rt; listing(rt.alloc(), &book)?.as_str(), "refused 2\n");
        let _ = check_book::fresh(&mut book);
        assert_eq!(rt; listing(rt.alloc(), &book)?.as_str(), "");
        // The user 7, of class 2, plant 1 and 3 kW, from January 2013.
        book[0] = 2;
        book[4] = 1;
        book[84] = 1;
        book[85] = 2;
        book[86] = 1;
        book[88] = 7;
        book[96] = 0xb8;
        book[97] = 0x0b;
        book[100] = 0xdd;
        book[101] = 0x07;
        book[102] = 1;
        book[104] = 0xdd;
        book[105] = 0x07;
        assert_eq!(rt; listing(rt.alloc(), &book)?.as_str(), "7 2013 0\n");
        assert!(rt; is_written(&book, b"7 2013 0\n"));
        assert!(rt; is_written(b"", b"refused 1\n"));
        let mut short = [1; LONGEST_TEXT - 1];
        assert_eq!(rt; listing_of(&book, &mut short), None);
        assert_eq!(rt; short.first(), Some(&1));
        Ok(())
    }
}
