// "Grid operator's text file" (document 02, ticket 2): the kWh of a sheet from twelve lines of text, and the lines from a sheet.
// Every string of bytes is an ordinary input.
#![tactic(auto)]

ghost use Rattle.std.specs.Prelude.{◌≡◌, true, false, ◌+◌, ◌*◌, ◌≤◌, ◌<◌, length, MatchOption, MatchResult};
ghost use Rattle.sheet.specs.YearSheet.{sheet_length};
ghost use Rattle.decimals.specs.InnerWritten.{TextPut};
ghost use Rattle.sheet_text.specs.Lines.{months, readings, line, begins_line};
ghost use Rattle.sheet_text.specs.Reading.{read_answer, read_after, month_filled, filled, some_kwh_above};
ghost use Rattle.sheet_text.specs.Writing.{buffers_fit, sheet_above, write_answer, buffer_after};
ghost use Rattle.sheet_text.specs.InnerSteps.{kwh_of, kwh_of_year, stop_at, numbers_to};
ghost use Rattle.sheet_text.specs.InnerSteps.{LineRead, FirstAbove, YearRead, TextRefused, MonthOf, SheetAbove, YearPut};

use refusals::{Position, Refusal};
use sheet::{HEADER, LENGTH, MONTHS, Sheet};
use units::{Kwh, MAX_KWH};

// A month's kWh: three withdrawn, three injected.
pub const READINGS: usize = 6;

// The kWh of a year.
pub const YEAR_READINGS: usize = READINGS * MONTHS;

// What the lines of every sheet fit into.
const TEXT_ROOM: usize = 675;

// A number above its limit counts as this.
const TOO_MUCH: u32 = MAX_KWH + 1;

// The byte behind the number at a place.
#[tactic(auto, unfolding(crate::specs::InnerSteps::stop_at))]
fn stop_at(place: usize) -> u8
    ensures { result ≡ stop_at place }
{
    if place == 5 { b'\n' } else { b';' }
}

// The line of a month at the front of a text: its numbers as far as they count, and the text behind it.
fn line_of(text: &[u8], month: u32) -> Option<([Kwh; READINGS], &[u8])>
    requires { month ≤ months }
    ensures { MatchOption result (begins_line month text.now ≡ false) (λ r. LineRead month text.now r.0 r.1.now) }
{
    let Ok((front, mut rest)) = decimals::read_field(text, b';', TOO_MUCH) else {
        return None;
    };
    if front != month {
        return None;
    }
    let mut kwh = [Kwh(0); READINGS];
    // By number, here and below: a number's place tells what stands behind it, and where it goes in the sheet.
    for place in 0..READINGS {
        let Ok((number, behind)) = decimals::read_field(rest, stop_at(place), TOO_MUCH) else {
            return None;
        };
        kwh[place] = Kwh(number);
        rest = behind;
    }
    Some((kwh, rest))
}

// The first place of a month with a number above its limit.
fn place_above(kwh: [Kwh; READINGS]) -> Option<u8>
    ensures { MatchOption result (some_kwh_above (kwh_of kwh) ≡ false) (λ place. FirstAbove (kwh_of kwh) place) }
{
    for place in 0..6 {
        if MAX_KWH < kwh[usize::from(place)].0 {
            return Some(place);
        }
    }
    None
}

// The kWh of the year, month by month, that a text says: "the earlier line goes first, in one line 17".
pub fn measures_of(text: &[u8]) -> Result<[[Kwh; READINGS]; MONTHS], Refusal>
    ensures { MatchResult result (λ year. YearRead text.now year) (λ e. TextRefused text.now e) }
{
    let mut year = [[Kwh(0); READINGS]; MONTHS];
    let mut rest = text;
    for month in 0..12 {
        let line = u32::from(month) + 1;
        let (kwh, behind) = line_of(rest, line).ok_or(Refusal::WrongLine(line))?;
        if let Some(place) = place_above(kwh) {
            return Err(Refusal::AboveLimit(Position::at(month, place)));
        }
        year[usize::from(month)] = kwh;
        rest = behind;
    }
    if !rest.is_empty() {
        // Of a constant, where `from` is not to be had.
        return Err(Refusal::WrongLine(MONTHS as u32 + 1));
    }
    Ok(year)
}

// A sheet that is written is a slice: std's `try_from` of a `&mut [T]` does not tell what the slice holds afterwards.
fn fill_month(sheet: &mut [u8], month: usize, kwh: [Kwh; READINGS])
    requires { (length sheet.old ≡ sheet_length) × (month < months) }
    ensures { sheet.new ≡ month_filled (kwh_of kwh) month readings sheet.old }
{
    for place in 0..READINGS {
        codec::put(sheet, HEADER + 96 * month + 4 * place, kwh[place]);
    }
}

// Not one function with `sheet_losses::write_year`: six numbers a month against three, and the laws of the two are told in another shape.
fn fill(sheet: &mut [u8], year: [[Kwh; READINGS]; MONTHS])
    requires { length sheet.old ≡ sheet_length }
    ensures { sheet.new ≡ filled (kwh_of_year year) sheet.old }
{
    for month in 0..MONTHS {
        fill_month(sheet, month, year[month]);
    }
}

// Fills the kWh of a sheet. All of the text is looked at before the first byte is written, so that a refusal leaves the sheet.
pub fn read_measures(sheet: &mut [u8], text: &[u8]) -> Result<(), Refusal>
    ensures answer { result ≡ read_answer sheet.old text.now }
    ensures after { sheet.new ≡ read_after sheet.old text.now }
{
    if sheet.len() != LENGTH {
        return Err(Refusal::SheetForm);
    }
    let year = measures_of(text)?;
    fill(sheet, year);
    Ok(())
}

// The kWh of a month of a sheet.
fn month_of(sheet: &Sheet, month: u8) -> [Kwh; READINGS]
    ensures { MonthOf sheet.now month result }
{
    let mut kwh = [Kwh(0); READINGS];
    for place in 0..6 {
        kwh[usize::from(place)] = Kwh(sheet::number(sheet, month, place));
    }
    kwh
}

// Where the first kWh of a sheet above its limit stands.
fn position_above(sheet: &Sheet) -> Option<Position>
    ensures { MatchOption result (sheet_above sheet.now ≡ false) (λ position. SheetAbove sheet.now position) }
{
    for month in 0..12 {
        if let Some(place) = place_above(month_of(sheet, month)) {
            return Some(Position::at(month, place));
        }
    }
    None
}

// Writes the numbers of a line at a place of the text, and answers the place behind them. The text goes into lent bytes, since the library
// has no heap: the place is all that a step hands on to the next.
fn write_numbers(out: &mut [u8], at: usize, kwh: [Kwh; READINGS]) -> usize
    requires { at + length (numbers_to (kwh_of kwh) readings) ≤ length out.old }
    ensures { TextPut at (numbers_to (kwh_of kwh) readings) out.old out.new result }
{
    let mut end = at;
    for place in 0..READINGS {
        end = decimals::write_field(out, end, u64::from(kwh[place].0), stop_at(place));
    }
    end
}

// The line of a month, counted from 0.
fn write_line(out: &mut [u8], at: usize, month: u8, kwh: [Kwh; READINGS]) -> usize
    requires { at + length (line (month + 1) (kwh_of kwh)) ≤ length out.old }
    ensures { TextPut at (line (month + 1) (kwh_of kwh)) out.old out.new result }
{
    let end = decimals::write_field(out, at, u64::from(month) + 1, b';');
    write_numbers(out, end, kwh)
}

fn write_lines(sheet: &Sheet, out: &mut [u8]) -> usize
    requires { (buffers_fit sheet.now out.old ≡ true) × (sheet_above sheet.now ≡ false) }
    ensures { YearPut sheet.now out.old out.new result }
{
    let mut end = 0;
    for month in 0..12 {
        end = write_line(out, end, month, month_of(sheet, month));
    }
    end
}

// Writes the lines of a sheet into exactly TEXT_ROOM bytes, of which the rest stays, and answers how many bytes they are. A refusal
// leaves them all.
pub fn write_measures(sheet: &[u8], text: &mut [u8]) -> Result<u32, Refusal>
    ensures answer { result ≡ write_answer sheet.now text.old }
    ensures after { text.new ≡ buffer_after sheet.now text.old }
{
    if (sheet.len() != LENGTH) | (text.len() != TEXT_ROOM) {
        return Err(Refusal::SheetForm);
    }
    // What is read is known to be whole, so that no number looks for the sheet's end.
    let whole = <&Sheet>::try_from(sheet).unwrap();
    if let Some(position) = position_above(whole) {
        return Err(Refusal::AboveLimit(position));
    }
    // At most 675: `try_from` would bring an error that cannot come.
    Ok(write_lines(whole, text) as u32)
}
