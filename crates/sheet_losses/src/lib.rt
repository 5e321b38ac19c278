// Raw injected readings (document 02, ticket 12): "A preparation call raises each of these in a sheet by a factor of 0 to 200
// thousandths." Every string of bytes and every factor is an ordinary input.
#![tactic(auto)]

ghost use Rattle.std.specs.Prelude.{◌≡◌, ◌/◌, ◌%◌, ◌≤◌, ◌<◌, length, MatchResult};
ghost use Rattle.refusals.specs.declared.Refusal.TheVariants.{FactorAboveLimit};
ghost use Rattle.codec.specs.Bytes.{stored};
ghost use Rattle.sheet.specs.YearSheet.{sheet_length};
ghost use Rattle.sheet_losses.specs.Losses.{max_factor, thousandths, injected_place, three_readings, with_injected};
ghost use Rattle.sheet_losses.specs.Losses.{answer_of, raised_after};
ghost use Rattle.sheet_losses.specs.InnerSteps.{in_band, readings_in, RestsTo, MonthRaised, MonthAbove, YearRaised, YearAbove};

use refusals::{Position, Refusal};
use sheet::{HEADER, MONTHS, Sheet};
use units::{Kwh, MAX_KWH, WideKwh};

// The place of a month's injected F1, counted from 0.
const INJECTED: u8 = 3;

// "a factor of 0 to 200 thousandths"
const MAX_FACTOR: u32 = 200;

// A factor that readings are raised by.
#[derive(Clone, Copy, Debug, PartialEq, Eq)]
struct Factor {
    thousandths: u32,
    ghost in_range: { thousandths ≤ max_factor },
}

impl Factor {
    // 26.
    fn new(thousandths: u32) -> Result<Factor, Refusal>
        ensures { MatchResult result (λ factor. (thousandths ≤ max_factor) × (factor.thousandths ≡ thousandths))
            (λ e. (max_factor < thousandths) × (e ≡ FactorAboveLimit)) }
    {
        if MAX_FACTOR < thousandths {
            return Err(Refusal::FactorAboveLimit);
        }
        Ok(Factor { thousandths })
    }
}

// A raw reading, raised: a raw one may be any 32 bits, so that the raised one may need more. Beside it the rest of the division by
// 1,000, which passes on.
fn raised(reading: u32, factor: Factor, rest: u32) -> (WideKwh, u32)
    requires { rest < 1000 }
    ensures kwh { result.0.0 ≡ thousandths factor.thousandths reading rest / 1000 }
    ensures rest { result.1 ≡ thousandths factor.thousandths reading rest % 1000 }
{
    let thousandths = u64::from(reading) * (1000 + u64::from(factor.thousandths)) + u64::from(rest);
    // The casts here are of numbers below a limit just seen: `try_from` would bring an error that cannot come.
    let passed = (thousandths % 1000) as u32;
    (WideKwh(thousandths / 1000), passed)
}

// "The rest of the division by 1,000 passes to the same band of the next month." A month's raised readings with the rests that pass on,
// up to a reading above the limit.
fn raised_month(
    sheet: &Sheet,
    factor: Factor,
    rests: [u32; 3],
    month: u8,
) -> Result<([Kwh; 3], [u32; 3]), Refusal>
    requires { RestsTo factor.thousandths sheet.now month rests }
    ensures { MatchResult result (λ r. MonthRaised factor.thousandths sheet.now month r.0 r.1)
        (λ e. MonthAbove factor.thousandths sheet.now month e) }
{
    let mut readings = [Kwh(0); 3];
    let mut passed = rests;
    // By number, here and below: a reading is read at its month and band, and put at them.
    for band in 0..3 {
        let place = INJECTED + band as u8;
        let raw = sheet::number(sheet, month, place);
        let (kwh, rest) = raised(raw, factor, passed[band]);
        if u64::from(MAX_KWH) < kwh.0 {
            return Err(Refusal::AboveLimit(Position::at(month, place)));
        }
        readings[band] = Kwh(kwh.0 as u32);
        passed[band] = rest;
    }
    Ok((readings, passed))
}

// The year, month by month, and December's rests.
fn raised_year(sheet: &Sheet, factor: Factor) -> Result<([[Kwh; 3]; 12], [u32; 3]), Refusal>
    ensures { MatchResult result (λ r. YearRaised factor.thousandths sheet.now r.0 r.1)
        (λ e. YearAbove factor.thousandths sheet.now e) }
{
    let mut months = [[Kwh(0); 3]; 12];
    let mut rests = [0; 3];
    for month in 0..12 {
        let (readings, passed) = raised_month(sheet, factor, rests, month)?;
        months[usize::from(month)] = readings;
        rests = passed;
    }
    Ok((months, rests))
}

// A sheet that is written is a slice: std's `try_from` of a `&mut [T]` does not tell what the slice holds afterwards.
fn store_month(sheet: &mut [u8], month: usize, readings: [Kwh; 3])
    requires { (length sheet.old ≡ sheet_length) × (month < 12) }
    ensures { sheet.new ≡ stored (injected_place month) (three_readings (in_band readings)) sheet.old }
{
    let at = HEADER + 96 * month + 4 * usize::from(INJECTED);
    codec::put(sheet, at, readings[0]);
    codec::put(sheet, at + 4, readings[1]);
    codec::put(sheet, at + 8, readings[2]);
}

// Not one function with `sheet_text::fill`: three numbers a month against six, and the laws of the two are told in another shape.
fn write_year(sheet: &mut [u8], months: [[Kwh; 3]; 12])
    requires { length sheet.old ≡ sheet_length }
    ensures { sheet.new ≡ with_injected (readings_in months) sheet.old 12 }
{
    for month in 0..MONTHS {
        store_month(sheet, month, months[month]);
    }
}

// Raises the injected readings of a sheet, and answers December's rest of each band, in thousandths of a kWh. A refusal leaves the sheet
// as it was: all of the year is worked before the first byte is written.
pub fn raise(sheet: &mut [u8], factor: u32) -> Result<[u32; 3], Refusal>
    ensures answer { result ≡ answer_of factor sheet.old }
    ensures after { sheet.new ≡ raised_after factor sheet.old }
{
    if !sheet::form_fits(sheet) {
        return Err(Refusal::SheetForm);
    }
    let factor = Factor::new(factor)?;
    // What is read is known to be whole, so that no number looks for the sheet's end.
    let whole = <&Sheet>::try_from(&*sheet).unwrap();
    let (months, rests) = raised_year(whole, factor)?;
    write_year(sheet, months);
    Ok(rests)
}
