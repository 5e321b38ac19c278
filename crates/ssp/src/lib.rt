// The calls as other programs link them (include/ssp.h; `ssp_c` exports them). Each answer is flat, of plain numbers, and is by
// definition the answer of the call beneath it: a C struct has no `Result`, so a refusal's number has zeros beside it here.
#![tactic(auto)]

ghost use Rattle.std.specs.Prelude.{◌≡◌, None};
ghost use Rattle.std.specs.Result.{result_unwrap_or};
ghost use Rattle.units.specs.Units.{ticks};
ghost use Rattle.refusals.specs.Refusals.{refusal_in, record_in, position_in};
ghost use Rattle.sheet_archive.specs.Archive.{size_answer, archive_after, restored_after};
ghost use Rattle.sheet_losses.specs.Losses.{answer_of, raised_after};
ghost use Rattle.sheet_text.specs.Reading.{read_answer, read_after};
ghost use Rattle.sheet_text.specs.Writing.{write_answer, buffer_after};
ghost use Rattle.book_rules.specs.Book.{used};
ghost use Rattle.book_rules.specs.Find.{find_user};
ghost use Rattle.check_book.specs.Verdicts.{fresh_answer, fresh_after};
ghost use Rattle.sheet.specs.YearSheet.{Tells};
ghost use Rattle.call_rules.specs.Calls.{enrol, elect, charge, advance, close, statement};
ghost use Rattle.call_answers.specs.Answers.{Answered};
ghost use Rattle.call_answers.specs.Answers.{AnsweredBy};
ghost use Rattle.call_more_sun.specs.Asked.{more_sun_order, addition_answered};
ghost use Rattle.call_advance.specs.Advances.{ticks_answered};
ghost use Rattle.call_close.specs.Closings.{no_sums, sums_answered};
ghost use Rattle.call_statement.specs.Stated.{no_statement, sums_stated};
ghost use Rattle.ssp.specs.Flat.{interface_number, details_of, position_of, flat_booked, flat_advanced};
ghost use Rattle.ssp.specs.Flat.{flat_closed, flat_sums, flat_read, flat_written, flat_raised};
ghost use Rattle.ssp.specs.FlatSun.{flat_sun};

use account_steps::ClosingSums;
use refusals::{Position, Refusal};
use sheet_values::Details;
use units::{Kwh, Rate, RecordIndex, Ticks, UserNumber, WideKwh};

// The number of this interface, SSP_INTERFACE of the header: it rises with each landing that changes a struct or a function.
const INTERFACE: u32 = 7;

#[repr(C)]
#[derive(Clone, Copy, Debug, Default, PartialEq, Eq)]
pub struct Booked {
    pub refusal: u32,
    pub record: u32,
}

#[repr(C)]
#[derive(Clone, Copy, Debug, Default, PartialEq, Eq)]
pub struct Advanced {
    pub refusal: u32,
    pub record: u32,
    pub ticks: u64,
}

#[repr(C)]
#[derive(Clone, Copy, Debug, Default, PartialEq, Eq)]
pub struct Closed {
    pub refusal: u32,
    pub record: u32,
    pub month: u32,
    pub place: u32,
    pub value: u64,
    pub cost: u64,
    pub flat_rate: u64,
    pub contribution: u64,
    pub liquidation: u64,
    pub lapsed: u64,
    pub balance: i64,
}

#[repr(C)]
#[derive(Clone, Copy, Debug, Default, PartialEq, Eq)]
pub struct Sums {
    pub refusal: u32,
    pub record: u32,
    pub open_year: u64,
    pub credit: u64,
    pub value: u64,
    pub cost: u64,
    pub flat_rate: u64,
    pub contribution: u64,
    pub liquidation: u64,
    pub lapsed: u64,
    pub balance: i64,
    pub advances: u64,
    pub closed_advances: u64,
}

#[repr(C)]
#[derive(Clone, Copy, Debug, Default, PartialEq, Eq)]
pub struct Raised {
    pub refusal: u32,
    pub month: u32,
    pub place: u32,
    pub rest1: u32,
    pub rest2: u32,
    pub rest3: u32,
}

#[repr(C)]
#[derive(Clone, Copy, Debug, Default, PartialEq, Eq)]
pub struct Read {
    pub refusal: u32,
    pub line: u32,
    pub month: u32,
    pub place: u32,
}

#[repr(C)]
#[derive(Clone, Copy, Debug, Default, PartialEq, Eq)]
pub struct Written {
    pub refusal: u32,
    pub length: u32,
    pub month: u32,
    pub place: u32,
}

#[repr(C)]
#[derive(Clone, Copy, Debug, Default, PartialEq, Eq)]
pub struct Sun {
    pub refusal: u32,
    pub record: u32,
    pub month: u32,
    pub place: u32,
    pub found: u32,
    pub added: u32,
}

// The number of a refusal, 0 for an accepted call.
fn refusal_in(answer: Result<(), Refusal>) -> u32
    ensures { result ≡ refusal_in answer }
{
    match answer {
        Ok(()) => 0,
        Err(refusal) => refusal.number(),
    }
}

// An answer as a flat struct: an accepted call fills the fields of its values, a refusal those of its number and of what it names, and
// the others are zeros.

impl From<Result<RecordIndex, Refusal>> for Booked {
    ghost from_gives = { λ answer flat. flat ≡ flat_booked (refusal_in answer) (record_in (λ index. index.0) answer) };

    fn from(answer: Result<RecordIndex, Refusal>) -> Booked {
        match answer {
            Ok(index) => Booked {
                refusal: 0,
                record: index.0,
            },
            Err(refusal) => Booked {
                refusal: refusal.number(),
                record: refusal.faulty_record().0,
            },
        }
    }
}

impl From<Result<Ticks, Refusal>> for Advanced {
    ghost from_gives = { λ answer flat.
        flat ≡ flat_advanced (refusal_in answer) (record_in (λ paid. 0) answer) (result_unwrap_or answer (ticks 0)) };

    fn from(answer: Result<Ticks, Refusal>) -> Advanced {
        match answer {
            Ok(paid) => Advanced {
                ticks: paid.0,
                ..Advanced::default()
            },
            Err(refusal) => Advanced {
                refusal: refusal.number(),
                record: refusal.faulty_record().0,
                ticks: 0,
            },
        }
    }
}

impl From<Result<ClosingSums, Refusal>> for Closed {
    ghost from_gives = { λ answer flat.
        flat ≡ flat_closed (refusal_in answer) (record_in (λ sums. 0) answer) (position_in answer) (result_unwrap_or answer no_sums) };

    #[tactic(auto, unfolding(crate::specs::Flat::flat_closed, call_close::specs::Closings::no_sums))]
    fn from(answer: Result<ClosingSums, Refusal>) -> Closed {
        match answer {
            Ok(year) => Closed {
                value: year.value.0,
                cost: year.cost.0,
                flat_rate: year.flat_rate.0,
                contribution: year.contribution.0,
                liquidation: year.liquidation.0,
                lapsed: year.lapsed.0,
                balance: year.balance.0,
                ..Closed::default()
            },
            Err(refusal) => {
                let at = refusal.position();
                Closed {
                    refusal: refusal.number(),
                    record: refusal.faulty_record().0,
                    month: at.month,
                    place: at.place,
                    ..Closed::default()
                }
            }
        }
    }
}

impl From<Result<statements::Sums, Refusal>> for Sums {
    ghost from_gives = { λ answer flat.
        flat ≡ flat_sums (refusal_in answer) (record_in (λ sums. 0) answer) (result_unwrap_or answer no_statement) };

    #[tactic(auto, unfolding(crate::specs::Flat::flat_sums, call_statement::specs::Stated::no_statement))]
    fn from(answer: Result<statements::Sums, Refusal>) -> Sums {
        match answer {
            Ok(sums) => Sums {
                open_year: sums.open_year,
                credit: sums.credit.0,
                value: sums.value.0,
                cost: sums.cost.0,
                flat_rate: sums.flat_rate.0,
                contribution: sums.contribution.0,
                liquidation: sums.liquidation.0,
                lapsed: sums.lapsed.0,
                balance: sums.balance.0,
                advances: sums.advances.0,
                closed_advances: sums.closed_advances.0,
                ..Sums::default()
            },
            Err(refused) => Sums {
                refusal: refused.number(),
                record: refused.faulty_record().0,
                ..Sums::default()
            },
        }
    }
}

// December's rest of each band.
impl From<Result<[u32; 3], Refusal>> for Raised {
    ghost from_gives = { λ answer flat. flat ≡ flat_raised answer };

    #[tactic(auto, unfolding(crate::specs::Flat::flat_raised))]
    fn from(answer: Result<[u32; 3], Refusal>) -> Raised {
        match answer {
            Ok(rests) => Raised {
                rest1: rests[0],
                rest2: rests[1],
                rest3: rests[2],
                ..Raised::default()
            },
            Err(refusal) => {
                let reading = refusal.position();
                Raised {
                    refusal: refusal.number(),
                    month: reading.month,
                    place: reading.place,
                    ..Raised::default()
                }
            }
        }
    }
}

impl From<Result<(), Refusal>> for Read {
    ghost from_gives = { λ answer flat. flat ≡ flat_read answer };

    fn from(answer: Result<(), Refusal>) -> Read {
        match answer {
            Ok(()) => Read::default(),
            Err(refusal) => {
                let position = refusal.position();
                Read {
                    refusal: refusal.number(),
                    line: refusal.line(),
                    month: position.month,
                    place: position.place,
                }
            }
        }
    }
}

// The length of the lines.
impl From<Result<u32, Refusal>> for Written {
    ghost from_gives = { λ answer flat. flat ≡ flat_written answer };

    fn from(answer: Result<u32, Refusal>) -> Written {
        match answer {
            Ok(length) => Written {
                length,
                ..Written::default()
            },
            Err(refusal) => {
                let Position { month, place } = refusal.position();
                Written {
                    refusal: refusal.number(),
                    length: 0,
                    month,
                    place,
                }
            }
        }
    }
}

// 1 and the least addition, or zeros where there is none.
impl From<Result<Option<Kwh>, Refusal>> for Sun {
    ghost from_gives = { λ answer flat.
        flat ≡ flat_sun (refusal_in answer) (record_in (λ addition. 0) answer) (position_in answer) (result_unwrap_or answer None) };

    #[tactic(auto, unfolding(crate::specs::FlatSun::flat_sun))]
    fn from(answer: Result<Option<Kwh>, Refusal>) -> Sun {
        match answer {
            Ok(Some(added)) => Sun {
                found: 1,
                added: added.0,
                ..Sun::default()
            },
            Ok(None) => Sun::default(),
            Err(refusal) => {
                let Position { month, place } = refusal.position();
                Sun {
                    refusal: refusal.number(),
                    record: refusal.faulty_record().0,
                    month,
                    place,
                    ..Sun::default()
                }
            }
        }
    }
}

// Header and library belong together: a program asks the library for the number that its header has.
pub fn ssp_interface() -> u32
    ensures { result ≡ interface_number }
{
    INTERFACE
}

pub fn ssp_fresh(book: &mut [u8]) -> u32
    ensures answer { result ≡ fresh_answer book.old }
    ensures after { book.new ≡ fresh_after book.old }
{
    refusal_in(check_book::fresh(book))
}

pub fn ssp_enrol(
    book: &mut [u8],
    number: u32,
    user_class: u8,
    plant: u8,
    option: u8,
    power: u32,
    year: u16,
    month: u8,
    island: u8,
) -> Booked
    ensures { Answered book.old (enrol number (details_of user_class plant power year month island) option)
        (used book.old) result.refusal result.record book.new }
{
    let details = Details {
        class: user_class,
        plant,
        power,
        year,
        month,
        island,
    };
    Booked::from(call_enrol::enrol(book, UserNumber(number), details, option))
}

pub fn ssp_elect(
    book: &mut [u8],
    number: u32,
    option: u8,
    year: u32,
    month: u32,
    day: u32,
) -> Booked
    ensures { Answered book.old (elect number option year month day) 0 result.refusal result.record book.new }
{
    let elected = call_elect::elect(book, UserNumber(number), option, year, month, day);
    Booked::from(elected.and(Ok(RecordIndex(0))))
}

pub fn ssp_charge(book: &mut [u8], number: u32) -> Booked
    ensures { Answered book.old (charge number) (find_user book.old number) result.refusal result.record
        book.new }
{
    Booked::from(call_charge::charge(book, UserNumber(number)))
}

#[tactic(auto, using(crate::proofs::Flat::ticks_or))]
pub fn ssp_advance(
    book: &mut [u8],
    number: u32,
    year: u32,
    run: u8,
    rate: u64,
    estimate1: u64,
    estimate2: u64,
) -> Advanced
    ensures reply { Answered book.old (advance number year run rate estimate1 estimate2) 0 result.refusal result.record
        book.new }
    ensures ticks { result.ticks ≡ (ticks_answered book.old number year run rate estimate1 estimate2 result.refusal).0 }
{
    Advanced::from(call_advance::advance(
        book,
        UserNumber(number),
        year,
        run,
        Rate(rate),
        WideKwh(estimate1),
        WideKwh(estimate2),
    ))
}

pub fn ssp_close(book: &mut [u8], sheet: &[u8]) -> Closed
    ensures reply { Answered book.old (close sheet.now) 0 result.refusal result.record book.new }
    ensures position { Tells sheet.now result.refusal (position_of result.month result.place) }
    ensures flat { result ≡ flat_closed result.refusal result.record (position_of result.month result.place)
        (sums_answered book.old sheet.now result.refusal) }
{
    Closed::from(call_close::close(book, sheet))
}

pub fn ssp_statement(book: &[u8], number: u32) -> Sums
    ensures reply { Answered book.now (statement number) 0 result.refusal result.record book.now }
    ensures flat { result ≡ flat_sums result.refusal result.record (sums_stated book.now number result.refusal) }
{
    Sums::from(call_statement::statement(book, UserNumber(number)))
}

pub fn ssp_archive(sheet: &[u8], archive: &mut [u8]) -> u32
    ensures answer { result ≡ size_answer sheet.now archive.old }
    ensures after { archive.new ≡ archive_after sheet.now archive.old }
{
    refusal_in(sheet_archive::archive(sheet, archive))
}

pub fn ssp_restore(archive: &[u8], sheet: &mut [u8]) -> u32
    ensures answer { result ≡ size_answer archive.now sheet.old }
    ensures after { sheet.new ≡ restored_after archive.now sheet.old }
{
    refusal_in(sheet_archive::restore(archive, sheet))
}

pub fn ssp_raise(sheet: &mut [u8], factor: u32) -> Raised
    ensures answer { result ≡ flat_raised (answer_of factor sheet.old) }
    ensures after { sheet.new ≡ raised_after factor sheet.old }
{
    Raised::from(sheet_losses::raise(sheet, factor))
}

pub fn ssp_read_measures(sheet: &mut [u8], text: &[u8]) -> Read
    ensures answer { result ≡ flat_read (read_answer sheet.old text.now) }
    ensures after { sheet.new ≡ read_after sheet.old text.now }
{
    Read::from(sheet_text::read_measures(sheet, text))
}

pub fn ssp_write_measures(sheet: &[u8], text: &mut [u8]) -> Written
    ensures answer { result ≡ flat_written (write_answer sheet.now text.old) }
    ensures after { text.new ≡ buffer_after sheet.now text.old }
{
    Written::from(sheet_text::write_measures(sheet, text))
}

pub fn ssp_more_sun(book: &[u8], sheet: &[u8], month: u32, band: u32) -> Sun
    ensures reply { AnsweredBy book.now (more_sun_order book.now sheet.now month band) 0 result.refusal
        result.record }
    ensures position { Tells sheet.now result.refusal (position_of result.month result.place) }
    ensures flat { result ≡ flat_sun result.refusal result.record (position_of result.month result.place)
        (addition_answered book.now sheet.now month band result.refusal) }
{
    Sun::from(call_more_sun::more_sun(book, sheet, month, band))
}
