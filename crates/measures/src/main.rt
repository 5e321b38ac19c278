// Checks the grid operator's text file on standard input (document 02, ticket 2). It prints the kWh withdrawn and injected in
// each month, a line each, or which line is wrong and why. What is right is `sheet_text`'s; here it is only read and written.
#![tactic(auto)]

ghost use Rattle.std.specs.Prelude.{◌≡◌, ◌≤◌, length};
ghost use Rattle.std.specs.List.{sum_by};

use output::{Failure, Printer};
use refusals::{Position, Refusal};
use sheet::MONTHS;
use sheet_text::READINGS;
use units::{Kwh, MAX_KWH};

const USAGE: &str = "give the operator's file on standard input, and no argument";

// A file that has so many bytes has more than any operator's; what comes behind them is not read.
const TOO_LONG: usize = input::BOOK;

// The sum of three numbers: a month's kWh withdrawn, or injected.
fn total(kwh: &[Kwh]) -> u64
    requires { length kwh.now ≤ 3 }
    ensures { result ≡ sum_by (λ k. k.0) kwh.now }
{
    kwh.iter().map(|kwh| u64::from(kwh.0)).sum()
}

fn say_sums(out: &mut Printer, year: [[Kwh; READINGS]; MONTHS]) -> Result<(), Failure> {
    for (month, readings) in year.iter().enumerate() {
        let (withdrawn, injected) = readings.split_at(READINGS / 2);
        out.line(format_args!("{} {} {}", month + 1, total(withdrawn), total(injected)))?;
    }
    Ok(())
}

fn say_refused(out: &mut Printer, refusal: Refusal) -> Result<(), Failure> {
    match refusal {
        Refusal::AboveLimit(Position { month, place }) => out.line(format_args!(
            "line {month}: number {} is above {MAX_KWH} kWh",
            u64::from(place) + 1
        )),
        // `as`: std has no `From` of 32 bits to a length.
        Refusal::WrongLine(line) if MONTHS < line as usize => out.line(format_args!(
            "line {line}: the file goes on behind its twelfth line"
        )),
        Refusal::WrongLine(line) => out.line(format_args!(
            "line {line}: not seven numbers with semicolons and a line feed, the first of them {line}"
        )),
        other => out.line(other),
    }
}

fn check(out: &mut Printer, text: &[u8]) -> Result<(), Failure> {
    if TOO_LONG <= text.len() {
        return out.line("the file has more than 64000 bytes");
    }
    match sheet_text::measures_of(text) {
        Ok(year) => say_sums(out, year),
        Err(refusal) => say_refused(out, refusal),
    }
}

fn run(rt: &HostRuntime) -> Result<(), Failure> {
    if output::has_argument(rt, 1) {
        return Err(Failure::Use);
    }
    let mut file = input::book_buffer();
    let length = input::read_book(&mut rt.stdin(), &mut file).map_err(Failure::Input)?;
    check(&mut Printer::new(rt.alloc(), rt.stdout()), &file[..length])
}

fn main(rt: HostRuntime) {
    output::report(&mut rt.stderr(), "measures", USAGE, run(&rt));
}
