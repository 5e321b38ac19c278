// A user's account for a clerk: a book on standard input, a user number as the argument. It prints the account year by year,
// oldest first, with the totals of the statement; what each year was charged and what was paid out, with the charges made; and the
// conserved sum, in euro.
#![tactic(auto)]

ghost use Rattle.std.specs.Prelude.{◌≡◌, false, Some};
ghost use Rattle.std.specs.Prelude.{unsigned_abs};
ghost use Rattle.std.specs.Int.{is_negative};
ghost use Rattle.account.specs.Amounts.{amount};
ghost use Rattle.account_conserved.specs.Conservation.{Small};

use account_steps::Balance;
use account_years::{Charges, Payments, Year};
use book_view::User;
use output::{Failure, Printer};
use statements::Sums;
use std::fmt;
use units::{Ticks, UserNumber};

const USAGE: &str = "give one user number, 1 to 4294967295, and the book on standard input";

// A user number has at most so many digits, with the zeros in front of it; std writes an argument into a buffer that is lent.
const LONGEST_NUMBER: usize = 64;

const TICKS_PER_EURO: u64 = 100_000;

// An amount in euro with five decimals, at the right of a column of its own. The sign stands beside the ticks: no number of 64 bits
// holds both what a `Ticks` and what a `Balance` can be.
#[derive(Clone, Copy, Debug, PartialEq, Eq)]
struct Amount {
    is_negative: bool,
    ticks: u64,
}

impl From<Ticks> for Amount {
    ghost from_gives = { λ ticks a. (a.is_negative ≡ false) × (a.ticks ≡ ticks.0) };

    fn from(ticks: Ticks) -> Amount {
        Amount {
            is_negative: false,
            ticks: ticks.0,
        }
    }
}

impl From<Balance> for Amount {
    ghost from_gives = { λ balance a. (a.is_negative ≡ is_negative balance.0) × (a.ticks ≡ unsigned_abs balance.0) };

    fn from(balance: Balance) -> Amount {
        Amount {
            is_negative: balance.0 < 0,
            ticks: balance.0.unsigned_abs(),
        }
    }
}

impl fmt::Display for Amount {
    ghost output = { λ a. Some (amount a.is_negative a.ticks) };

    #[tactic(auto, using(crate::proofs::Printed::printed, crate::proofs::Printed::printed_below, crate::proofs::Printed::printed_negative))]
    fn fmt<W: fmt::Write>(&self, f: &mut fmt::Formatter<W>) -> fmt::Result {
        let euros = self.ticks / TICKS_PER_EURO;
        let decimals = self.ticks % TICKS_PER_EURO;
        match (self.is_negative, euros) {
            (false, _) => write!(f, " {euros:>12}.{decimals:05}"),
            // No number is -0.
            (true, 0) => write!(f, " {:>12}.{decimals:05}", "-0"),
            (true, _) => {
                // `as`: std has no `From` of 64 bits to signed ones, and these are below 2^48.
                let euros = -(euros as i64);
                write!(f, " {euros:>12}.{decimals:05}")
            }
        }
    }
}

// What a year was charged, where the book tells it.
#[derive(Clone, Copy)]
struct Charge(Option<Ticks>);

impl fmt::Display for Charge {
    fn fmt<W: fmt::Write>(&self, f: &mut fmt::Formatter<W>) -> fmt::Result {
        match self.0 {
            Some(ticks) => write!(f, "{}", Amount::from(ticks)),
            None => write!(f, "{:>19}", "-"),
        }
    }
}

fn say_headings(out: &mut Printer) -> Result<(), Failure> {
    out.line(format_args!(
        "year option     {:>19}{:>19}{:>19}{:>19}{:>19}{:>19}{:>19}{:>19}{:>19}",
        "value",
        "purchase cost",
        "flat-rate part",
        "contribution",
        "advances",
        "balance",
        "liquidation",
        "lapsed credit",
        "credit after",
    ))
}

fn say_year(out: &mut Printer, year: Year) -> Result<(), Failure> {
    // An option is a number, 1 for liquidation, as the account's record holds it.
    out.line(format_args!(
        "{} {:<11}{}{}{}{}{}{}{}{}{}",
        year.year,
        if year.option == 1 {
            "liquidation"
        } else {
            "credit"
        },
        Amount::from(year.value),
        Amount::from(year.cost),
        Amount::from(year.flat_rate),
        Amount::from(year.contribution),
        Amount::from(year.payments.advances),
        Amount::from(year.balance),
        Amount::from(year.liquidation),
        Amount::from(year.lapsed),
        Amount::from(year.credit),
    ))
}

// The closed years of a user, oldest first.
fn say_years(out: &mut Printer, user: User<'_>) -> Result<(), Failure> {
    let account = user.account();
    // The years are counted from the activation: no list holds them.
    for n in 0..account.open_year - account.details.year {
        say_year(out, account_years::closed_year(user, n))?;
    }
    Ok(())
}

fn say_totals(out: &mut Printer, sums: Sums) -> Result<(), Failure> {
    out.line(format_args!(
        "{:<16}{}{}{}{}{}{}{}{}{}",
        "all",
        Amount::from(sums.value),
        Amount::from(sums.cost),
        Amount::from(sums.flat_rate),
        Amount::from(sums.contribution),
        Amount::from(sums.closed_advances),
        Amount::from(sums.balance),
        Amount::from(sums.liquidation),
        Amount::from(sums.lapsed),
        Amount::from(sums.credit),
    ))
}

// PAYMENTS (document 02, tickets 1 and 6): a second table, of what each year was charged, its advances, what was withheld and what
// was paid out; the two open years too.

fn say_payment_headings(out: &mut Printer) -> Result<(), Failure> {
    out.line(format_args!(
        "\n{:<16}{:>19}{:>19}{:>19}{:>19}",
        "year", "charge", "advances", "withheld", "net paid",
    ))
}

// Of a year, or of all.
fn say_payments<N: fmt::Display + Drop>(
    out: &mut Printer,
    name: N,
    charge: Option<Ticks>,
    payments: Payments,
) -> Result<(), Failure> {
    out.line(format_args!(
        "{name:<16}{}{}{}{}",
        Charge(charge),
        Amount::from(payments.advances),
        Amount::from(payments.withheld),
        Amount::from(payments.paid),
    ))
}

// The closed years of a user, oldest first.
fn say_closed_payments(
    out: &mut Printer,
    user: User<'_>,
    each: Option<Ticks>,
) -> Result<(), Failure> {
    let account = user.account();
    // The years by their numbers: no list holds them.
    for year in account.details.year..account.open_year {
        let payments = account_years::payments_of(user, year, year);
        say_payments(out, year, each, payments)?;
    }
    Ok(())
}

// The two open years, of which the earlier one takes charges.
fn say_open_payments(out: &mut Printer, user: User<'_>, charge: Ticks) -> Result<(), Failure> {
    let open = user.account().open_year;
    let payments = account_years::payments_of(user, open, open);
    say_payments(out, open, Some(charge), payments)?;
    let later = open + 1;
    let payments = account_years::payments_of(user, later, later);
    say_payments(out, later, Some(Ticks(0)), payments)
}

// "A user's charges made equal those withheld plus the rest"
fn say_charges_made(out: &mut Printer, charges: Charges) -> Result<(), Failure> {
    out.line(format_args!(
        "{:<16}{} = withheld{} + rest{}",
        "charges",
        Amount::from(charges.made),
        Amount::from(charges.withheld),
        Amount::from(charges.rest),
    ))
}

fn say_charges(out: &mut Printer, user: User<'_>) -> Result<(), Failure> {
    say_payment_headings(out)?;
    let charges = account_years::charges_of(user);
    say_closed_payments(out, user, charges.each)?;
    say_open_payments(out, user, charges.open)?;
    let payments = account_years::payments_of(user, 0, account_years::LAST_NAMED_YEAR);
    say_payments(out, "all", Some(charges.made), payments)?;
    say_charges_made(out, charges)
}

// What is paid in all, and whether the account keeps its sum.
fn say_rest(out: &mut Printer, sums: Sums) -> Result<(), Failure>
    requires { Small sums }
{
    out.line(format_args!("{:<17}{}", "all advances", Amount::from(sums.advances)))?;
    let sum = account_conserved::conserved_sum(sums);
    out.line(format_args!("{:<17}{}", "conserved sum", Amount::from(sum)))?;
    out.line(if account_conserved::is_conserved(sums) {
        "The sum holds: it is the value of the injected energy."
    } else {
        "The sum does not hold: it is not the value of the injected energy."
    })
}

fn say_account(out: &mut Printer, user: User<'_>) -> Result<(), Failure> {
    say_headings(out)?;
    say_years(out, user)?;
    let sums = statements::statement_of(user);
    say_totals(out, sums)?;
    say_charges(out, user)?;
    out.line(format_args!("\nopen year {}", sums.open_year))?;
    say_rest(out, sums)
}

fn answer(out: &mut Printer, book: &[u8], number: UserNumber) -> Result<(), Failure> {
    match check_book::find(book, number) {
        Ok((_, Some(user))) => say_account(out, user),
        Ok((_, None)) => out.line("refused 6"),
        Err(refusal) => out.line(format_args!("refused {}", refusal.number())),
    }
}

// A user number in decimal, "not 0", and nothing behind it.
fn number_of(word: &[u8]) -> Option<UserNumber> {
    let (number, rest) = text::first_number(word)?;
    let number = u32::try_from(number).ok()?;
    if number == 0 || !rest.is_empty() {
        return None;
    }
    Some(UserNumber(number))
}

fn run(rt: &HostRuntime) -> Result<(), Failure> {
    let mut word = [0u8; LONGEST_NUMBER];
    let number = output::only_argument(rt, &mut word)
        .and_then(number_of)
        .ok_or(Failure::Use)?;
    let mut book = input::book_buffer();
    let length = input::read_book(&mut rt.stdin(), &mut book).map_err(Failure::Input)?;
    let out = &mut Printer::new(rt.alloc(), rt.stdout());
    answer(out, &book[..length], number)
}

fn main(rt: HostRuntime) {
    let outcome = run(&rt);
    output::report(&mut rt.stderr(), "account", USAGE, outcome);
}
