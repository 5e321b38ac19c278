// Replays a script of calls on a book and on sheets: one call a line on standard input, one answer a line on standard output,
// numbers in decimal with one blank between. A line that is no call is answered `error` and changes nothing.
#![tactic(auto)]

ghost use Rattle.std.specs.Prelude.{◌≡◌, ◌+◌, ◌*◌, ◌≤◌, length, None, IfOk, IfSome};
ghost use Rattle.input.specs.LentLines.{FoundWithin};
ghost use Rattle.replay_script.specs.Requests.{longest_book, request_of};
ghost use Rattle.replay.specs.InnerLines.{held_book, LineAnswered};

use account_steps::ClosingSums;
use input::Found;
use output::{Failure, Printer};
use refusals::{Position, Refusal};
use replay_script::Request;
use sheet_values::Details;
use statements::Sums;
use std::fmt::{Display, InlineText};
use std::io;
use text::Hex;
use units::{Kwh, Rate, UserNumber, WideKwh};

const USAGE: &str = "give the lines of a script on standard input, and no argument";

// The longest book, and the longest buffer that a word spells, in bytes.
const LONGEST: usize = 65_536;

// What stands in front of a buffer's digits takes less.
const FRONT: usize = 256;

// What the longest answer takes: a front, two digits a byte, and the line feed.
const ANSWER: usize = FRONT + 2 * LONGEST + 1;

// The book, which stands at the front of its room.
#[derive(Drop)]
struct Book {
    bytes: [u8; LONGEST],
    count: usize,
}

// Room for what the words of a line spell, two of them one behind the other, and for the answer: none is taken while a script runs.
// A line has no digits for more bytes than the longest book has.
#[derive(Drop)]
struct Room {
    words: [u8; LONGEST],
    answer: [u8; ANSWER],
}

fn say_error(out: &mut Printer) -> Result<(), Failure> {
    out.bytes(b"error\n")
}

// The number of a refusal, 0 of an accepted call, and the values behind it.
fn say<D: Display + Drop>(out: &mut Printer, number: u32, values: D) -> Result<(), Failure> {
    out.line(format_args!("{number} {values}"))
}

// A refused call: what it objects to in one place stands in the place of the values, else zeros do, each with a blank before it.
fn say_refused(out: &mut Printer, refusal: Refusal, zeros: &str) -> Result<(), Failure> {
    let number = refusal.number();
    match refusal {
        Refusal::FaultyRecord(record) => say(out, number, record.0),
        Refusal::WrongLine(line) => say(out, number, line),
        Refusal::AboveLimit(position) | Refusal::UnusedBand(position) => {
            let Position { month, place } = position;
            say(out, number, format_args!("{month} {place}"))
        }
        _ => out.line(format_args!("{number}{zeros}")),
    }
}

// A call that answers no value.
fn say_done(out: &mut Printer, answer: Result<(), Refusal>) -> Result<(), Failure> {
    match answer {
        Ok(()) => out.line(0),
        Err(refusal) => say_refused(out, refusal, ""),
    }
}

// A call that answers one number: the record of an enrolment or a charge, what a run pays.
fn say_number<N: Display + Drop>(
    out: &mut Printer,
    answer: Result<N, Refusal>,
) -> Result<(), Failure> {
    match answer {
        Ok(number) => say(out, 0, number),
        Err(refusal) => say_refused(out, refusal, " 0"),
    }
}

fn say_closed(out: &mut Printer, answer: Result<ClosingSums, Refusal>) -> Result<(), Failure> {
    let sums = match answer {
        Ok(sums) => sums,
        Err(refusal) => return say_refused(out, refusal, " 0 0 0 0 0 0 0"),
    };
    let balance = sums.balance.0;
    let values = format_args!(
        "{} {} {} {} {} {} {balance}",
        sums.value.0,
        sums.cost.0,
        sums.flat_rate.0,
        sums.contribution.0,
        sums.liquidation.0,
        sums.lapsed.0
    );
    say(out, 0, values)
}

fn say_stated(out: &mut Printer, answer: Result<Sums, Refusal>) -> Result<(), Failure> {
    let sums = match answer {
        Ok(sums) => sums,
        Err(refusal) => return say_refused(out, refusal, " 0 0 0 0 0 0 0 0 0 0 0"),
    };
    let balance = sums.balance.0;
    let values = format_args!(
        "{} {} {} {} {} {} {} {} {balance} {} {}",
        sums.open_year,
        sums.credit.0,
        sums.value.0,
        sums.cost.0,
        sums.flat_rate.0,
        sums.contribution.0,
        sums.liquidation.0,
        sums.lapsed.0,
        sums.advances.0,
        sums.closed_advances.0
    );
    say(out, 0, values)
}

// 1 and the least addition, or zeros where there is none.
fn say_more_sun(out: &mut Printer, answer: Result<Option<Kwh>, Refusal>) -> Result<(), Failure> {
    match answer {
        Ok(Some(added)) => say(out, 0, format_args!("1 {}", added.0)),
        Ok(None) => say(out, 0, "0 0"),
        Err(refusal) => say_refused(out, refusal, " 0 0"),
    }
}

// What stands in front, and bytes in hexadecimal behind it, as one line.
fn say_bytes<D: Display + Drop>(
    out: &mut Printer,
    front: D,
    bytes: &[u8],
    answer: &mut [u8],
) -> Result<(), Failure>
    requires { 256 + 2 * length bytes.now + 1 ≤ length answer.old }
{
    let front = InlineText::<FRONT>::of(front);
    let front = front.as_str().as_bytes();
    let at = front.len();
    answer[..at].copy_from_slice(front);
    let end = at + text::hex_to(bytes, &mut answer[at..]);
    answer[end] = b'\n';
    out.bytes(&answer[..end + 1])
}

// What is made of the bytes of one word in a buffer that holds those of another: the number, and of an accepted call the buffer.
fn rearrange<F: FnOnce(&[u8], &mut [u8]) -> Result<(), Refusal>>(
    out: &mut Printer,
    room: &mut Room,
    source: Hex<'_>,
    buffer: Hex<'_>,
    work: F,
) -> Result<(), Failure>
    requires { F.IsAlwaysCallable work }
{
    let Some(given) = source.try_copy_to(&mut room.words) else {
        return say_error(out);
    };
    let (source, rest) = room.words.split_at_mut(given);
    let Some(lent) = buffer.try_copy_to(rest) else {
        return say_error(out);
    };
    let made = &mut rest[..lent];
    match work(source, made) {
        Ok(()) => say_bytes(out, "0 ", made, &mut room.answer),
        Err(refusal) => say_refused(out, refusal, ""),
    }
}

// The number and the length, and of an accepted call the buffer after it.
fn write_measures(
    out: &mut Printer,
    room: &mut Room,
    sheet: Hex<'_>,
    buffer: Hex<'_>,
) -> Result<(), Failure> {
    let Some(given) = sheet.try_copy_to(&mut room.words) else {
        return say_error(out);
    };
    let (sheet, rest) = room.words.split_at_mut(given);
    let Some(lent) = buffer.try_copy_to(rest) else {
        return say_error(out);
    };
    let text = &mut rest[..lent];
    match sheet_text::write_measures(sheet, text) {
        Ok(length) => {
            let front = format_args!("0 {length} ");
            say_bytes(out, front, text, &mut room.answer)
        }
        Err(refusal) => say_refused(out, refusal, " 0"),
    }
}

// The number and the rests, and of an accepted call the sheet after them.
fn raise(out: &mut Printer, room: &mut Room, sheet: Hex<'_>, factor: u32) -> Result<(), Failure> {
    let Some(given) = sheet.try_copy_to(&mut room.words) else {
        return say_error(out);
    };
    let words = &mut room.words[..];
    let sheet = &mut words[..given];
    match sheet_losses::raise(sheet, factor) {
        Ok(rests) => {
            let [first, second, third] = rests;
            let front = format_args!("0 {first} {second} {third} ");
            say_bytes(out, front, sheet, &mut room.answer)
        }
        Err(refusal) => say_refused(out, refusal, " 0 0 0"),
    }
}

// Closes a year from the sheet that a word spells.
fn close(
    out: &mut Printer,
    room: &mut Room,
    book: &mut [u8],
    sheet: Hex<'_>,
) -> Result<(), Failure> {
    let Some(given) = sheet.try_copy_to(&mut room.words) else {
        return say_error(out);
    };
    say_closed(out, call_close::close(book, &room.words[..given]))
}

// Asks how much more sun the user of the sheet needs that a word spells.
fn ask_more_sun(
    out: &mut Printer,
    room: &mut Room,
    book: &[u8],
    sheet: Hex<'_>,
    month: u32,
    band: u32,
) -> Result<(), Failure> {
    let Some(given) = sheet.try_copy_to(&mut room.words) else {
        return say_error(out);
    };
    say_more_sun(
        out,
        call_more_sun::more_sun(book, &room.words[..given], month, band),
    )
}

// The room for an answer holds every listing.
fn list(out: &mut Printer, room: &mut Room, book: &[u8]) -> Result<(), Failure> {
    match listing_text::listing_of(book, &mut room.answer) {
        Some(length) => out.bytes(&room.answer[..length]),
        None => Ok(()),
    }
}

// Makes a call, on the book or on sheets, and prints its answer.
fn call(
    out: &mut Printer,
    room: &mut Room,
    book: &mut [u8],
    request: Request<Hex<'_>>,
) -> Result<(), Failure>
    requires { length book.old ≤ longest_book }
{
    match request {
        Request::Fresh => say_done(out, check_book::fresh(book)),
        Request::Enrol {
            number,
            class,
            plant,
            option,
            power,
            year,
            month,
            island,
        } => {
            let details = Details {
                class,
                plant,
                power,
                year,
                month,
                island,
            };
            let entered = call_enrol::enrol(book, UserNumber(number), details, option);
            say_number(out, entered.map(|index| index.0))
        }
        Request::Elect {
            number,
            option,
            year,
            month,
            day,
        } => {
            say_done(
                out,
                call_elect::elect(book, UserNumber(number), option, year, month, day),
            )
        }
        Request::Advance {
            number,
            year,
            run,
            rate,
            estimate1,
            estimate2,
        } => {
            let paid = call_advance::advance(
                book,
                UserNumber(number),
                year,
                run,
                Rate(rate),
                WideKwh(estimate1),
                WideKwh(estimate2),
            );
            say_number(out, paid.map(|ticks| ticks.0))
        }
        Request::Close(sheet) => close(out, room, book, sheet),
        Request::Charge(number) => {
            let charged = call_charge::charge(book, UserNumber(number));
            say_number(out, charged.map(|index| index.0))
        }
        Request::Statement(number) => say_stated(
            out,
            call_statement::statement(book, UserNumber(number)),
        ),
        Request::Archive { sheet, buffer } => rearrange(
            out,
            room,
            sheet,
            buffer,
            sheet_archive::archive,
        ),
        Request::Restore { archive, buffer } => rearrange(
            out,
            room,
            archive,
            buffer,
            sheet_archive::restore,
        ),
        Request::Raise { sheet, factor } => raise(out, room, sheet, factor),
        Request::ReadMeasures { sheet, text } => {
            rearrange(
                out,
                room,
                text,
                sheet,
                |text, sheet| sheet_text::read_measures(sheet, text),
            )
        }
        Request::WriteMeasures { sheet, buffer } => write_measures(out, room, sheet, buffer),
        Request::MoreSun { sheet, month, band } => ask_more_sun(
            out, room, book, sheet, month, band,
        ),
        Request::Dump => say_bytes(out, "", book, &mut room.answer),
        Request::List => list(out, room, book),
        // These two make the book (`answer_line`).
        Request::New(_) | Request::Load(_) => say_error(out),
    }
}

// A book of zeros.
fn new_book(out: &mut Printer, book: &mut Book, count: usize) -> Result<(), Failure>
    requires { book.old.count ≤ longest_book }
    ensures { book.new.count ≤ longest_book }
{
    if LONGEST < count {
        return say_error(out);
    }
    let bytes = &mut book.bytes[..];
    bytes[..count].fill(0);
    book.count = count;
    Ok(())
}

fn load_book(out: &mut Printer, book: &mut Book, word: Hex<'_>) -> Result<(), Failure>
    requires { book.old.count ≤ longest_book }
    ensures { book.new.count ≤ longest_book }
{
    let Some(count) = word.try_copy_to(&mut book.bytes) else {
        return say_error(out);
    };
    book.count = count;
    Ok(())
}

// Does what a line asks.
fn answer_line(
    out: &mut Printer,
    room: &mut Room,
    book: &mut Book,
    line: &[u8],
) -> Result<(), Failure>
    requires { book.old.count ≤ longest_book }
    ensures within { book.new.count ≤ longest_book }
    ensures wrong { request_of line.now ≡ None → held_book book.new ≡ held_book book.old }
{
    match replay_script::request_of(line) {
        None => say_error(out),
        Some(Request::New(count)) => new_book(out, book, count),
        Some(Request::Load(word)) => load_book(out, book, word),
        Some(request) => {
            let bytes = &mut book.bytes[..];
            call(out, room, &mut bytes[..book.count], request)
        }
    }
}

// Answers what was found where a line was looked for, and says whether to look for the next. Only a whole line makes a call. Where
// the input cannot be read no further line is looked for: the program ends, and tells why.
fn answer(
    out: &mut Printer,
    room: &mut Room,
    book: &mut Book,
    found: io::Result<Option<Found>>,
    lent: &[u8],
) -> Result<bool, Failure>
    requires found { IfOk found (λ found. IfSome found (FoundWithin lent.now)) }
    requires book { book.old.count ≤ longest_book }
    ensures within { book.new.count ≤ longest_book }
    ensures answered { LineAnswered found lent.now (held_book book.old) (held_book book.new) result }
{
    match found {
        Ok(Some(Found::Whole { from, to })) => {
            answer_line(out, room, book, &lent[from..to])?;
            Ok(true)
        }
        Ok(Some(Found::Long)) => {
            say_error(out)?;
            Ok(true)
        }
        Ok(Some(Found::Half)) => {
            say_error(out)?;
            Ok(false)
        }
        Ok(None) => Ok(false),
        Err(error) => Err(Failure::Input(error)),
    }
}

fn run(rt: &HostRuntime) -> Result<(), Failure> {
    if output::has_argument(rt, 1) {
        return Err(Failure::Use);
    }
    let mut out = Printer::new(rt.alloc(), rt.stdout());
    let mut input = rt.stdin();
    let mut room = Room {
        words: [0; LONGEST],
        answer: [0; ANSWER],
    };
    let mut book = Book {
        bytes: [0; LONGEST],
        count: 0,
    };
    let mut lent = input::line_buffer();
    let mut held = input::start();
    // A proved loop has to end: no input has as many lines as are counted.
    for _ in 0..u64::MAX {
        let found = input::next_line(&mut input, &mut lent, &mut held);
        if !answer(&mut out, &mut room, &mut book, found, &lent)? {
            return Ok(());
        }
    }
    Ok(())
}

fn main(rt: HostRuntime) {
    output::report(&mut rt.stderr(), "replay", USAGE, run(&rt));
}
