// The year sheet of document 01, "Year sheet": its fields, and what refusals 11, 13, 14 and 19 look at. Every string of
// bytes is an ordinary input.
#![tactic(auto)]

ghost use Rattle.std.specs.Prelude.{◌≡◌, ◌-◌, ◌^◌, min, true, false, not, ◌&&◌, eqb, ltb, MatchResult};
ghost use Rattle.units.specs.Units.{user_number, kwh};
ghost use Rattle.units.specs.Folds.{any_below};
ghost use Rattle.refusals.specs.Refusals.{position_at};
ghost use Rattle.refusals.specs.declared.Refusal.TheVariants.{SheetForm};
ghost use Rattle.sheet.specs.Objections.{answer_to, Faulted};
ghost use Rattle.sheet.specs.YearSheet.{sheet_user, sheet_year, withdrawn_reading, injected_reading, word, limit_at};
ghost use Rattle.sheet.specs.YearSheet.{unused_band, at_fault, above_limit, stray_band, header_fits, last_words_fit, form_fits};
ghost use Rattle.sheet.specs.YearSheet.{version_zero, point_zero, refused11, refused14, month_withdrawn, Past13, SheetPassed};

use refusals::{Position, Refusal};
use tariff::MONTHLY_THRESHOLD;
use units::{Kwh, MAX_KWH, MAX_PRICE, UserNumber};

pub const LENGTH: usize = 1184;

pub const HEADER: usize = 32;

pub const MONTHS: usize = 12;

// A month's numbers that have a limit; the one after them is zero. Loops go over months and places by number, since these are read at.
const NUMBERS: u8 = 23;

// The bytes of a sheet, whatever stands in them.
pub type Sheet = [u8; LENGTH];

// A sheet whose form, version and point are right: it has passed 11.
#[derive(Clone, Copy)]
pub struct FormedSheet<'a> {
    pub bytes: &'a Sheet,
    ghost past11: { refused11 bytes.now ≡ false },
}

// A sheet that has passed 11, 13 and 19: each of its numbers is within its limit.
#[derive(Clone, Copy)]
pub struct PassedSheet<'a> {
    pub bytes: &'a Sheet,
    ghost passed: { SheetPassed bytes.now },
}

impl<'a> FormedSheet<'a> {
    // 11.
    #[tactic(auto, using(crate::proofs::Limits::passed_length))]
    pub fn new(s: &'a [u8]) -> Result<FormedSheet<'a>, Refusal>
        ensures { MatchResult result (λ sheet. (refused11 s.now ≡ false) × (sheet.bytes.now ≡ s.now))
            (λ e. (refused11 s.now ≡ true) × (e ≡ SheetForm)) }
    {
        if header_wrong(s) {
            return Err(Refusal::SheetForm);
        }
        let bytes = <&Sheet>::try_from(s).unwrap();
        Ok(FormedSheet { bytes })
    }

    // 13 and 19.
    pub fn passed(self) -> Result<PassedSheet<'a>, Refusal>
        ensures { MatchResult result (λ sheet. sheet.bytes.now ≡ self.entry.bytes.now) (λ e. Faulted self.entry.bytes.now e) }
    {
        let bytes = self.bytes;
        first_fault(bytes)?;
        Ok(PassedSheet { bytes })
    }
}

pub fn user(s: &[u8]) -> UserNumber
    ensures { result ≡ user_number (sheet_user s.now) }
{
    UserNumber(codec::read(s, 0))
}

pub fn year(s: &[u8]) -> u16
    ensures { result ≡ sheet_year s.now }
{
    codec::read(s, 4)
}

// 0 single, 1 by bands, as a number: 11 judges it on any bytes.
pub fn withdrawn_reading(s: &[u8]) -> u8
    ensures { result ≡ withdrawn_reading s.now }
{
    codec::byte_at(s, 6)
}

pub fn injected_reading(s: &[u8]) -> u8
    ensures { result ≡ injected_reading s.now }
{
    codec::byte_at(s, 7)
}

// The number at a place of a month, both counted from 0.
#[tactic(auto, unfolding(crate::specs::YearSheet::word))]
pub fn number(s: &[u8], month: u8, place: u8) -> u32
    ensures { result ≡ word s.now month place }
{
    codec::read(s, HEADER + 96 * usize::from(month) + 4 * usize::from(place))
}

// 11: a length, a header or a zero word that is wrong. Bytes 8 and 12–15 of the header are parts of their own.
fn header_fits(s: &[u8]) -> bool
    ensures { result ≡ header_fits s.now }
{
    (withdrawn_reading(s) <= 1)
        & (injected_reading(s) <= 1)
        & (codec::zeros(s, 9, 3) & codec::zeros(s, 16, 16))
}

fn last_words_fit(s: &[u8]) -> bool
    ensures { result ≡ last_words_fit s.now }
{
    let mut zeros = true;
    for month in 0..12 {
        zeros = zeros & (number(s, month, NUMBERS) == 0);
    }
    zeros
}

// The sheet's form, whatever stands in bytes 8 and 12–15.
#[tactic(auto, unfolding(crate::specs::YearSheet::form_fits))]
pub fn form_fits(s: &[u8]) -> bool
    ensures { result ≡ form_fits s.now }
{
    match <&Sheet>::try_from(s) {
        Ok(sheet) => header_fits(sheet) & last_words_fit(sheet),
        Err(_) => false,
    }
}

fn version_zero(s: &[u8]) -> bool
    ensures { result ≡ version_zero s.now }
{
    codec::zeros(s, 8, 1)
}

fn point_zero(s: &[u8]) -> bool
    ensures { result ≡ point_zero s.now }
{
    codec::zeros(s, 12, 4)
}

#[tactic(auto, unfolding(crate::specs::YearSheet::refused11))]
fn header_wrong(s: &[u8]) -> bool
    ensures { result ≡ refused11 s.now }
{
    !(form_fits(s) & (version_zero(s) & point_zero(s)))
}

#[tactic(auto, unfolding(crate::specs::YearSheet::limit_at))]
fn limit_at(place: u8) -> u64
    ensures { result ≡ limit_at place }
{
    if place < 6 {
        u64::from(MAX_KWH)
    } else {
        MAX_PRICE
    }
}

// A single reading stands at F1; its F2 and F3 are unused.
#[tactic(auto, unfolding(crate::specs::YearSheet::unused_band))]
fn unused_band(s: &[u8], place: u8) -> bool
    ensures { result ≡ unused_band s.now place }
{
    (!(withdrawn_reading(s) == 1) & ((place == 1) | (place == 2)))
        | (!(injected_reading(s) == 1) & ((place == 4) | (place == 5)))
}

// The tests of a number at its place in a month.
fn above_limit(number: u32, place: u8) -> bool
    ensures { result ≡ ltb (limit_at place) number }
{
    limit_at(place) < u64::from(number)
}

fn stray_band(s: &[u8], number: u32, place: u8) -> bool
    ensures { result ≡ (unused_band s.now place && not (eqb number 0)) }
{
    unused_band(s, place) & !(number == 0)
}

fn at_fault(s: &[u8], month: u8, place: u8) -> bool
    ensures { result ≡ at_fault s.now month place }
{
    let number = number(s, month, place);
    above_limit(number, place) | stray_band(s, number, place)
}

// Some number of the month is at fault. All are looked at, without a branch.
fn month_wrong(s: &[u8], month: u8) -> bool
    ensures { result ≡ any_below 23 (λ place. at_fault s.now month place) }
{
    let mut wrong = false;
    for place in 0..NUMBERS {
        wrong = wrong | at_fault(s, month, place);
    }
    wrong
}

// "Where one number has both faults, 13 goes first."
fn answer_to(above: bool, stray: bool, position: Position) -> Result<(), Refusal>
    ensures { result ≡ answer_to above stray position }
{
    if above {
        return Err(Refusal::AboveLimit(position));
    }
    if stray {
        return Err(Refusal::UnusedBand(position));
    }
    Ok(())
}

// What the number at a place of a month is refused for.
#[tactic(auto, unfolding(crate::specs::YearSheet::above_limit, crate::specs::YearSheet::stray_band))]
fn fault_at(s: &[u8], month: u8, place: u8) -> Result<(), Refusal>
    ensures { result ≡ answer_to (above_limit s.now month place) (stray_band s.now month place) (position_at month place) }
{
    let number = number(s, month, place);
    let above = above_limit(number, place);
    let stray = stray_band(s, number, place);
    answer_to(above, stray, Position::at(month, place))
}

// Some number of the sheet is at fault. Nothing is kept of the numbers, so that the test of a month stays short.
fn some_wrong(s: &[u8]) -> bool
    ensures { result ≡ any_below 12 (λ m. any_below 23 (λ place. at_fault s.now m place)) }
{
    let mut wrong = false;
    for month in 0..12 {
        wrong = wrong | month_wrong(s, month);
    }
    wrong
}

// 13 or 19 by the earliest number at fault. Only a month at fault is searched.
pub fn first_fault(s: &[u8]) -> Result<(), Refusal>
    ensures { MatchResult result (λ nothing. Past13 s.now) (λ e. Faulted s.now e) }
{
    if !some_wrong(s) {
        return Ok(());
    }
    for month in 0..12 {
        if month_wrong(s, month) {
            for place in 0..NUMBERS {
                fault_at(s, month, place)?;
            }
        }
    }
    Ok(())
}

// Energy withdrawn in a month. No number of a sheet past 13 is above 20,000,000, so that 32 bits hold three of them; of other bytes it is
// the most that 32 bits hold where the sum is above that.
#[tactic(auto, unfolding(crate::specs::YearSheet::month_withdrawn))]
fn month_withdrawn(s: &[u8], month: u8) -> Kwh
    ensures { result ≡ kwh (min (month_withdrawn s.now month) (2 ^ 32 - 1)) }
{
    let bands = number(s, month, 0).saturating_add(number(s, month, 1));
    Kwh(bands.saturating_add(number(s, month, 2)))
}

// 14: a domestic user with a month above the threshold of the monthly method.
pub fn domestic_excess(class: u8, s: &[u8]) -> bool
    ensures { result ≡ refused14 class s.now }
{
    let mut above = false;
    for month in 0..12 {
        above = above | (MONTHLY_THRESHOLD < month_withdrawn(s, month).0);
    }
    tariff::is_domestic(class) & above
}
