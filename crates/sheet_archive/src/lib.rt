// Sheets for the archive (document 02, ticket 14): "24 columns of twelve, each number after the first of its column replaced
// by its difference from the one before, modulo 2^32", and the way back. Both work on any bytes.
#![tactic(auto)]

ghost use Rattle.std.specs.Prelude.{◌≡◌, ◌+◌, ◌*◌, ◌<◌, ◌≤◌, length};
ghost use Rattle.codec.specs.Bytes.{stored};
ghost use Rattle.sheet.specs.YearSheet.{sheet_length};
ghost use Rattle.refusals.specs.Refusals.{refusal_in};
ghost use Rattle.sheet_archive.specs.Tables.{header_length, header, number_in};
ghost use Rattle.sheet_archive.specs.Archive.{sheet_columns, sheet_months, archive_of, sheet_of};
ghost use Rattle.sheet_archive.specs.Archive.{sizes_fit, size_answer, archive_after, restored_after};
ghost use Rattle.sheet_archive.specs.InnerSteps.{column_written, next_four, four_stored, Restored};

use refusals::Refusal;
use sheet::{HEADER, LENGTH, MONTHS, Sheet};

// A month's numbers, the last one too.
const COLUMNS: usize = 24;

fn sizes_fit(source: usize, destination: usize) -> bool
    ensures { result ≡ sizes_fit source destination }
{
    (source == LENGTH) & (destination == LENGTH)
}

// Where the number at a place of a line stands, in a table of so many numbers a line: a sheet has a line for each month, an archive
// one for each column.
fn place_in(places: usize, line: usize, place: usize) -> usize
    requires { header_length + 4 * (places * line + place) ≤ sheet_length }
    ensures { result ≡ header_length + 4 * (places * line + place) }
{
    HEADER + 4 * (places * line + place)
}

#[tactic(auto, unfolding(crate::specs::Tables::number_in))]
fn number_in(places: usize, table: &Sheet, line: usize, place: usize) -> u32
    requires { header_length + 4 * (places * line + place) + 4 ≤ sheet_length }
    ensures { result ≡ number_in places table.now line place }
{
    codec::get(table, place_in(places, line, place))
}

// "The header goes first." A buffer that is written is a slice with its length in a clause: std's `try_from` of a `&mut [T]` does not tell
// what the slice holds afterwards.
fn copy_header(from: &Sheet, to: &mut [u8])
    requires { length to.old ≡ sheet_length }
    ensures { to.new ≡ stored 0 (header from.now) to.old }
{
    to[..HEADER].copy_from_slice(&from[..HEADER]);
}

// A column of the sheet goes to its line of the archive: "each number after the first of its column replaced by its
// difference from the one before".
fn archive_column(sheet: &Sheet, archive: &mut [u8], column: usize)
    requires { (length archive.old ≡ sheet_length) × (column < sheet_columns) }
    ensures { archive.new ≡ column_written sheet.now column archive.old }
{
    // By number, here and below: a column's number is read at the month, and put at it.
    let mut last = number_in(COLUMNS, sheet, 0, column);
    codec::put(archive, place_in(MONTHS, column, 0), last);
    for month in 1..MONTHS {
        let number = number_in(COLUMNS, sheet, month, column);
        let difference = number.wrapping_sub(last);
        codec::put(archive, place_in(MONTHS, column, month), difference);
        last = number;
    }
}

// The numbers of a month in four columns that stand side by side, each the one before it in its column with the archive's difference.
fn next_four(archive: &Sheet, last: [u32; 4], column: usize, month: usize) -> [u32; 4]
    requires { (column + 4 ≤ sheet_columns) × (month < sheet_months) }
    ensures { result ≡ next_four archive.now last column month }
{
    [
        number_in(MONTHS, archive, column, month).wrapping_add(last[0]),
        number_in(MONTHS, archive, column + 1, month).wrapping_add(last[1]),
        number_in(MONTHS, archive, column + 2, month).wrapping_add(last[2]),
        number_in(MONTHS, archive, column + 3, month).wrapping_add(last[3]),
    ]
}

fn store_four(sheet: &mut [u8], column: usize, month: usize, numbers: [u32; 4])
    requires whole_sheet { length sheet.old ≡ sheet_length }
    requires column_bound { (column + 4 ≤ sheet_columns) × (month < sheet_months) }
    ensures { sheet.new ≡ four_stored column month numbers sheet.old }
{
    codec::put(sheet, place_in(COLUMNS, month, column), numbers[0]);
    codec::put(sheet, place_in(COLUMNS, month, column + 1), numbers[1]);
    codec::put(sheet, place_in(COLUMNS, month, column + 2), numbers[2]);
    codec::put(sheet, place_in(COLUMNS, month, column + 3), numbers[3]);
}

fn restore_four(archive: &Sheet, sheet: &mut [u8], column: usize)
    requires four_columns { column + 4 ≤ sheet_columns }
    requires restored { Restored archive.now sheet.old column 0 0 }
    ensures { Restored archive.now sheet.new (column + 4) 0 0 }
{
    let mut numbers = [0; 4];
    for month in 0..MONTHS {
        let next = next_four(archive, numbers, column, month);
        store_four(sheet, column, month, next);
        numbers = next;
    }
}

fn write_columns(sheet: &Sheet, archive: &mut [u8])
    requires { length archive.old ≡ sheet_length }
    ensures { archive.new ≡ archive_of sheet_columns sheet_months sheet.now }
{
    copy_header(sheet, archive);
    for column in 0..COLUMNS {
        archive_column(sheet, archive, column);
    }
}

fn write_months(archive: &Sheet, sheet: &mut [u8])
    requires { length sheet.old ≡ sheet_length }
    ensures { sheet.new ≡ sheet_of sheet_columns sheet_months archive.now }
{
    copy_header(archive, sheet);
    for four in 0..COLUMNS / 4 {
        restore_four(archive, sheet, 4 * four);
    }
}

// Writes the archive of a sheet. Where either is not of a sheet's length it refuses, and leaves the archive as it was.
pub fn archive(sheet: &[u8], archive: &mut [u8]) -> Result<(), Refusal>
    ensures size_answer { refusal_in result ≡ size_answer sheet.now archive.old }
    ensures after { archive.new ≡ archive_after sheet.now archive.old }
{
    if !sizes_fit(sheet.len(), archive.len()) {
        return Err(Refusal::BufferLength);
    }
    let source = <&Sheet>::try_from(sheet).unwrap();
    write_columns(source, archive);
    Ok(())
}

// Writes the sheet of an archive. Where either is not of a sheet's length it refuses, and leaves the sheet as it was.
pub fn restore(archive: &[u8], sheet: &mut [u8]) -> Result<(), Refusal>
    ensures size_answer { refusal_in result ≡ size_answer archive.now sheet.old }
    ensures after { sheet.new ≡ restored_after archive.now sheet.old }
{
    if !sizes_fit(archive.len(), sheet.len()) {
        return Err(Refusal::BufferLength);
    }
    let source = <&Sheet>::try_from(archive).unwrap();
    write_months(source, sheet);
    Ok(())
}
