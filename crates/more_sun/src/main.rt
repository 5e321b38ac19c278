// How much more sun, for whoever plans panels: the file of a year sheet as the argument, the book on standard input. For the user
// of the sheet it prints a table of the twelve months by the bands of its reading: the least kWh that, added there, bring C to O
// or above, or `-` where none do within the limit.
#![tactic(auto)]

use output::{Failure, Printer};
use refusals::{Position, Refusal};
use std::fmt;
use units::Kwh;

const USAGE: &str = "give the file of a year sheet, and the book on standard input";

// A byte more than a sheet has: a file of so many is longer than any sheet, and has a length that is refused with 11.
const SHEET: usize = sheet::LENGTH + 1;

// A path of a file is at most so long: the system's limit. A program's arguments are read into lent bytes, which std wants sized.
const PATH: usize = 4095;

// The least addition to a band, at the right of its column.
#[derive(Clone, Copy, Debug, PartialEq, Eq)]
struct Column(Option<Kwh>);

impl fmt::Display for Column {
    fn fmt<W: fmt::Write>(&self, f: &mut fmt::Formatter<W>) -> fmt::Result {
        match self.0 {
            Some(added) => write!(f, "{:>11}", added.0),
            None => write!(f, "{:>11}", "-"),
        }
    }
}

fn least(book: &[u8], s: &[u8], month: u32, band: u32) -> Column {
    Column(call_more_sun::more_sun(book, s, month, band).unwrap_or(None))
}

fn say_table(out: &mut Printer, book: &[u8], s: &[u8]) -> Result<(), Failure> {
    let by_bands = sheet::injected_reading(s) == 1;
    if by_bands {
        out.line(format_args!("month{:>11}{:>11}{:>11}", "F1", "F2", "F3"))?;
    } else {
        out.line(format_args!("month{:>11}", "single"))?;
    }
    // The numbers of the months, which the call takes: no slice holds them.
    for month in 1..=12 {
        let first = least(book, s, month, 1);
        if by_bands {
            let second = least(book, s, month, 2);
            let third = least(book, s, month, 3);
            out.line(format_args!("{month:>5}{first}{second}{third}"))?;
        } else {
            out.line(format_args!("{month:>5}{first}"))?;
        }
    }
    Ok(())
}

// After a 13 or 19 the month and the place of the number at fault are told too.
fn say_refused(out: &mut Printer, refusal: Refusal) -> Result<(), Failure> {
    let number = refusal.number();
    match refusal {
        Refusal::AboveLimit(position) | Refusal::UnusedBand(position) => {
            let Position { month, place } = position;
            out.line(format_args!("refused {number} {month} {place}"))
        }
        _ => out.line(format_args!("refused {number}")),
    }
}

// Every reading has the first band, so what is refused of it is refused of all.
fn answer(out: &mut Printer, book: &[u8], s: &[u8]) -> Result<(), Failure> {
    match call_more_sun::more_sun(book, s, 1, 1) {
        Ok(_) => say_table(out, book, s),
        Err(refusal) => say_refused(out, refusal),
    }
}

// The sheet whose file is named, and then the book on standard input.
fn run(rt: &HostRuntime) -> Result<(), Failure> {
    let mut path = [0u8; PATH];
    let path = output::only_argument(rt, &mut path).ok_or(Failure::Use)?;
    let mut s = [0u8; SHEET];
    let sheet = input::read_file(rt, path, &mut s).map_err(Failure::Sheet)?;
    let mut book = input::book_buffer();
    let length = input::read_book(&mut rt.stdin(), &mut book).map_err(Failure::Input)?;
    let out = &mut Printer::new(rt.alloc(), rt.stdout());
    answer(out, &book[..length], &s[..sheet])
}

fn main(rt: HostRuntime) {
    output::report(&mut rt.stderr(), "more_sun", USAGE, run(&rt));
}
