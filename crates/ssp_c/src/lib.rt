// The functions that other programs link (include/ssp.h): each is by definition the function of `ssp` with its name, and promises the
// same. What is claimed of those holds of these: proofs/Linked.antt.
#![tactic(auto)]

ghost use Rattle.std.specs.Prelude.{◌≡◌};
ghost use Rattle.sheet_archive.specs.Archive.{size_answer, archive_after, restored_after};
ghost use Rattle.sheet_losses.specs.Losses.{answer_of, raised_after};
ghost use Rattle.sheet_text.specs.Reading.{read_answer, read_after};
ghost use Rattle.sheet_text.specs.Writing.{write_answer, buffer_after};
ghost use Rattle.book_rules.specs.Book.{used};
ghost use Rattle.book_rules.specs.Find.{find_user};
ghost use Rattle.check_book.specs.Verdicts.{fresh_answer, fresh_after};
ghost use Rattle.sheet.specs.YearSheet.{Tells};
ghost use Rattle.call_rules.specs.Calls.{enrol, elect, charge, advance, close, statement};
ghost use Rattle.call_answers.specs.Answers.{Answered};
ghost use Rattle.call_answers.specs.Answers.{AnsweredBy};
ghost use Rattle.call_more_sun.specs.Asked.{more_sun_order, addition_answered};
ghost use Rattle.call_advance.specs.Advances.{ticks_answered};
ghost use Rattle.call_close.specs.Closings.{sums_answered};
ghost use Rattle.call_statement.specs.Stated.{sums_stated};
ghost use Rattle.ssp.specs.Flat.{interface_number, details_of, position_of, flat_closed, flat_sums, flat_read, flat_written, flat_raised};
ghost use Rattle.ssp.specs.FlatSun.{flat_sun};

use ssp::{Advanced, Booked, Closed, Raised, Read, Sums, Sun, Written};

// Header and library belong together: a program asks the library for the number that its header has.
#[unsafe(no_mangle)]
pub extern "C" fn ssp_interface() -> u32
    ensures { result ≡ interface_number }
{
    ssp::ssp_interface()
}

#[unsafe(no_mangle)]
pub extern "C" fn ssp_fresh(book: &mut [u8]) -> u32
    ensures answer { result ≡ fresh_answer book.old }
    ensures after { book.new ≡ fresh_after book.old }
{
    ssp::ssp_fresh(book)
}

#[unsafe(no_mangle)]
pub extern "C" fn ssp_enrol(
    book: &mut [u8],
    number: u32,
    user_class: u8,
    plant: u8,
    option: u8,
    power: u32,
    year: u16,
    month: u8,
    island: u8,
) -> Booked
    ensures { Answered book.old (enrol number (details_of user_class plant power year month island) option)
        (used book.old) result.refusal result.record book.new }
{
    ssp::ssp_enrol(
        book, number, user_class, plant, option, power, year, month, island,
    )
}

#[unsafe(no_mangle)]
pub extern "C" fn ssp_elect(
    book: &mut [u8],
    number: u32,
    option: u8,
    year: u32,
    month: u32,
    day: u32,
) -> Booked
    ensures { Answered book.old (elect number option year month day) 0 result.refusal result.record book.new }
{
    ssp::ssp_elect(book, number, option, year, month, day)
}

#[unsafe(no_mangle)]
pub extern "C" fn ssp_charge(book: &mut [u8], number: u32) -> Booked
    ensures { Answered book.old (charge number) (find_user book.old number) result.refusal result.record
        book.new }
{
    ssp::ssp_charge(book, number)
}

#[unsafe(no_mangle)]
pub extern "C" fn ssp_advance(
    book: &mut [u8],
    number: u32,
    year: u32,
    run: u8,
    rate: u64,
    estimate1: u64,
    estimate2: u64,
) -> Advanced
    ensures reply { Answered book.old (advance number year run rate estimate1 estimate2) 0 result.refusal result.record
        book.new }
    ensures ticks { result.ticks ≡ (ticks_answered book.old number year run rate estimate1 estimate2 result.refusal).0 }
{
    ssp::ssp_advance(book, number, year, run, rate, estimate1, estimate2)
}

#[unsafe(no_mangle)]
pub extern "C" fn ssp_close(book: &mut [u8], sheet: &[u8]) -> Closed
    ensures reply { Answered book.old (close sheet.now) 0 result.refusal result.record book.new }
    ensures position { Tells sheet.now result.refusal (position_of result.month result.place) }
    ensures flat { result ≡ flat_closed result.refusal result.record (position_of result.month result.place)
        (sums_answered book.old sheet.now result.refusal) }
{
    ssp::ssp_close(book, sheet)
}

#[unsafe(no_mangle)]
pub extern "C" fn ssp_statement(book: &[u8], number: u32) -> Sums
    ensures reply { Answered book.now (statement number) 0 result.refusal result.record book.now }
    ensures flat { result ≡ flat_sums result.refusal result.record (sums_stated book.now number result.refusal) }
{
    ssp::ssp_statement(book, number)
}

#[unsafe(no_mangle)]
pub extern "C" fn ssp_archive(sheet: &[u8], archive: &mut [u8]) -> u32
    ensures answer { result ≡ size_answer sheet.now archive.old }
    ensures after { archive.new ≡ archive_after sheet.now archive.old }
{
    ssp::ssp_archive(sheet, archive)
}

#[unsafe(no_mangle)]
pub extern "C" fn ssp_restore(archive: &[u8], sheet: &mut [u8]) -> u32
    ensures answer { result ≡ size_answer archive.now sheet.old }
    ensures after { sheet.new ≡ restored_after archive.now sheet.old }
{
    ssp::ssp_restore(archive, sheet)
}

#[unsafe(no_mangle)]
pub extern "C" fn ssp_raise(sheet: &mut [u8], factor: u32) -> Raised
    ensures answer { result ≡ flat_raised (answer_of factor sheet.old) }
    ensures after { sheet.new ≡ raised_after factor sheet.old }
{
    ssp::ssp_raise(sheet, factor)
}

#[unsafe(no_mangle)]
pub extern "C" fn ssp_read_measures(sheet: &mut [u8], text: &[u8]) -> Read
    ensures answer { result ≡ flat_read (read_answer sheet.old text.now) }
    ensures after { sheet.new ≡ read_after sheet.old text.now }
{
    ssp::ssp_read_measures(sheet, text)
}

#[unsafe(no_mangle)]
pub extern "C" fn ssp_write_measures(sheet: &[u8], text: &mut [u8]) -> Written
    ensures answer { result ≡ flat_written (write_answer sheet.now text.old) }
    ensures after { text.new ≡ buffer_after sheet.now text.old }
{
    ssp::ssp_write_measures(sheet, text)
}

#[unsafe(no_mangle)]
pub extern "C" fn ssp_more_sun(book: &[u8], sheet: &[u8], month: u32, band: u32) -> Sun
    ensures reply { AnsweredBy book.now (more_sun_order book.now sheet.now month band) 0 result.refusal
        result.record }
    ensures position { Tells sheet.now result.refusal (position_of result.month result.place) }
    ensures flat { result ≡ flat_sun result.refusal result.record (position_of result.month result.place)
        (addition_answered book.now sheet.now month band result.refusal) }
{
    ssp::ssp_more_sun(book, sheet, month, band)
}
