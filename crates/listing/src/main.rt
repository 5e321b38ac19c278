// The listing program of document 01: it reads a book on standard input and prints its listing. The text is
// `listing_text`'s; here it is only read and written.
#![tactic(auto)]

use output::{Failure, Printer};

const USAGE: &str = "give the book on standard input, and no argument";

// The buffer has room for every listing.
fn list(out: &mut Printer, book: &[u8]) -> Result<(), Failure> {
    let mut lines = listing_text::buffer();
    match listing_text::listing_of(book, &mut lines) {
        Some(length) => out.bytes(&lines[..length]),
        None => Ok(()),
    }
}

fn run(rt: &HostRuntime) -> Result<(), Failure> {
    if output::has_argument(rt, 1) {
        return Err(Failure::Use);
    }
    let mut book = input::book_buffer();
    let length = input::read_book(&mut rt.stdin(), &mut book).map_err(Failure::Input)?;
    list(&mut Printer::new(rt.alloc(), rt.stdout()), &book[..length])
}

fn main(rt: HostRuntime) {
    let outcome = run(&rt);
    output::report(&mut rt.stderr(), "listing", USAGE, outcome);
}
