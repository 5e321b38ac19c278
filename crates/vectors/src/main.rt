// Answers the lines of outside vectors on standard input; the argument names what they ask: `values`, `table1`, `verdicts` or
// `listings`. A line that does not ask it is answered `error`.
#![tactic(auto)]

ghost use Rattle.std.specs.Prelude.{◌≤◌, length, IfSome};

use input::Found;
use output::{Failure, Printer};
use refusals::Refusal;
use sheet::FormedSheet;
use sheet_values::{Details, YearValues};
use tariff::UNITS_PER_EURO_MWH;
use text::Hex;

const USAGE: &str = "give values, table1, verdicts or listings, and the lines on standard input";

// The longest word that names a question has fewer bytes. An argument is read into lent bytes, which std wants sized.
const WORD: usize = 16;

// More bytes are not read of a sheet or of a book: none has so many.
const SHEET: usize = 4096;

const BOOK: usize = 65_536;

// Room for what a line spells: no other is taken while lines are answered.
type Room = [u8; BOOK];

// What the lines ask.
#[derive(Clone, Copy, Debug, PartialEq, Eq)]
enum Question {
    Values,
    Table1,
    Verdicts,
    Listings,
}

fn question_of(word: &[u8]) -> Option<Question> {
    match word {
        b"values" => Some(Question::Values),
        b"table1" => Some(Question::Table1),
        b"verdicts" => Some(Question::Verdicts),
        b"listings" => Some(Question::Listings),
        _ => None,
    }
}

fn say_error(out: &mut Printer) -> Result<(), Failure> {
    out.bytes(b"error\n")
}

fn say_refused(out: &mut Printer, refusal: Refusal) -> Result<(), Failure> {
    out.line(format_args!("refused {}", refusal.number()))
}

// `values`: the year's values of sheets, a line each: class, plant, power, island and the sheet in hexadecimal. For each it prints C,
// O, F and the two halves, or `refused` with the number of the refusal.

fn sheet_of(line: &[u8]) -> Option<(Details, Hex<'_>)> {
    let (class, rest) = text::first_number(line)?;
    let ([plant, power, island], rest) = text::fields::<3>(rest)?;
    let sheet = Hex::new(rest.strip_prefix(b" ")?)?;
    let details = Details {
        class: u8::try_from(class).unwrap_or(0),
        plant: u8::try_from(plant).unwrap_or(0),
        power: u32::try_from(power).unwrap_or(0),
        year: 2013,
        month: 1,
        island: u8::try_from(island).unwrap_or(0),
    };
    Some((details, sheet))
}

fn values_of(sheet: &[u8], details: Details) -> Result<YearValues, Refusal> {
    let sheet = FormedSheet::new(sheet)?.passed()?;
    let bytes = sheet.bytes;
    if sheet::domestic_excess(details.class, bytes) {
        return Err(Refusal::DomesticExcess);
    }
    Ok(YearValues::of(sheet, details))
}

fn answer_values(out: &mut Printer, room: &mut Room, line: &[u8]) -> Result<(), Failure> {
    let Some((details, sheet)) = sheet_of(line) else {
        return say_error(out);
    };
    let Some(count) = sheet.try_copy_to(&mut room[..SHEET]) else {
        return say_error(out);
    };
    match values_of(&room[..count], details) {
        Ok(values) => {
            let YearValues {
                value,
                cost,
                flat_rate,
                half1,
                half2,
            } = values;
            out.line(format_args!(
                "{} {} {} {} {}",
                value.0, cost.0, flat_rate.0, half1.0, half2.0
            ))
        }
        Err(refusal) => say_refused(out, refusal),
    }
}

// `table1`: Table 1 at kinds and powers, a line each: kind, power in watts, €/MWh. It prints the kind and the power with the price
// that the tariff looks up.

// The kind and the power that a line names, with a price behind them.
fn plant_of(line: &[u8]) -> Option<(u64, u64)> {
    let (kind, rest) = text::first_number(line)?;
    let ([power, _price], _rest) = text::fields::<2>(rest)?;
    Some((kind, power))
}

fn answer_table1(out: &mut Printer, line: &[u8]) -> Result<(), Failure> {
    let Some((kind, power)) = plant_of(line) else {
        return say_error(out);
    };
    let price = tariff::table_price(
        u8::try_from(kind).unwrap_or(0),
        u32::try_from(power).unwrap_or(0),
    );
    let euro = price.0 / UNITS_PER_EURO_MWH;
    out.line(format_args!("{kind} {power} {euro}"))
}

// Puts the book that a line spells at the front of the room, and answers its length.
fn book_of(line: &[u8], room: &mut Room) -> Option<usize>
    ensures { IfSome result (λ count. count ≤ length room.new) }
{
    Hex::new(line)?.try_copy_to(room)
}

// `verdicts`: the check of books, a line each in hexadecimal. For each it prints `sound`, `faulty` with the index of the record
// named, or `refused 1` where no book has the length.

fn answer_verdict(out: &mut Printer, room: &mut Room, line: &[u8]) -> Result<(), Failure> {
    let Some(count) = book_of(line, room) else {
        return say_error(out);
    };
    match check_book::check(&room[..count]) {
        Ok(_) => out.line("sound"),
        Err(Refusal::FaultyRecord(index)) => out.line(format_args!("faulty {}", index.0)),
        Err(refusal) => say_refused(out, refusal),
    }
}

// `listings`: the listings of books, a line each in hexadecimal, `-` for no bytes. For each it prints what the listing program
// prints, then a line `end`.

// The buffer has room for every listing.
fn say_listing(out: &mut Printer, book: &[u8]) -> Result<(), Failure> {
    let mut lines = listing_text::buffer();
    if let Some(length) = listing_text::listing_of(book, &mut lines) {
        out.bytes(&lines[..length])?;
    }
    out.line("end")
}

fn answer_listing(out: &mut Printer, room: &mut Room, line: &[u8]) -> Result<(), Failure> {
    if line == b"-".as_slice() {
        return say_listing(out, b"");
    }
    let Some(count) = book_of(line, room) else {
        return say_error(out);
    };
    say_listing(out, &room[..count])
}

fn answer(
    out: &mut Printer,
    room: &mut Room,
    question: Question,
    line: &[u8],
) -> Result<(), Failure> {
    match question {
        Question::Values => answer_values(out, room, line),
        Question::Table1 => answer_table1(out, line),
        Question::Verdicts => answer_verdict(out, room, line),
        Question::Listings => answer_listing(out, room, line),
    }
}

fn run(rt: &HostRuntime) -> Result<(), Failure> {
    let mut word = [0u8; WORD];
    let question = output::only_argument(rt, &mut word)
        .and_then(question_of)
        .ok_or(Failure::Use)?;
    let mut out = Printer::new(rt.alloc(), rt.stdout());
    let mut input = rt.stdin();
    let mut room = [0; BOOK];
    let mut lent = input::line_buffer();
    let mut held = input::start();
    // A proved loop has to end: no input has as many lines as are counted.
    for _ in 0..u64::MAX {
        match input::next_line(&mut input, &mut lent, &mut held).map_err(Failure::Input)? {
            Some(Found::Whole { from, to }) => {
                answer(&mut out, &mut room, question, &lent[from..to])?;
            }
            Some(Found::Long) => say_error(&mut out)?,
            Some(Found::Half) => return say_error(&mut out),
            None => return Ok(()),
        }
    }
    Ok(())
}

fn main(rt: HostRuntime) {
    output::report(&mut rt.stderr(), "vectors", USAGE, run(&rt));
}
