// How much more sun (document 02, ticket 10), asked for the user of a sheet: refusals 1 2 11 6 13 19 23, then the least addition
// to the injected field of a month and a band. The book is only read.
#![tactic(auto)]

ghost use Rattle.std.specs.Prelude.{◌≡◌, ◌-◌, IfOk};
ghost use Rattle.refusals.specs.Refusals.{refusal_in, position_in, record_in};
ghost use Rattle.sheet.specs.YearSheet.{sheet_user, Tells};
ghost use Rattle.sheet_more_sun.specs.MoreSun.{more_sun};
ghost use Rattle.call_rules.specs.Refusals.{user_at};
ghost use Rattle.call_answers.specs.Answers.{AnsweredBy};
ghost use Rattle.call_more_sun.specs.Asked.{has_field, more_sun_order};

use refusals::Refusal;
use sheet::{FormedSheet, PassedSheet};
use units::Kwh;

// 23: a month or a band that the reading does not have. The reading's sort is the sheet's byte, 0 or 1.
fn has_field(sheet: PassedSheet<'_>, month: u32, band: u32) -> bool
    ensures { result ≡ has_field sheet.entry.bytes.now month band }
{
    let bytes = sheet.bytes;
    let bands = sheet::injected_reading(bytes) == 1;
    ((1 <= month) & (month <= 12)) & (((1 <= band) & (band <= 3)) & (bands | (band == 1)))
}

/// The least addition, in kWh, to the injected field of a month, 1–12, and a band, 1–3, that brings C to O or above; `None` where none
/// within the limit does.
pub fn more_sun(book: &[u8], sheet: &[u8], month: u32, band: u32) -> Result<Option<Kwh>, Refusal>
    ensures reply { AnsweredBy book.now (more_sun_order book.now sheet.now month band) 0 (refusal_in result)
        (record_in (λ addition. 0) result) }
    ensures position { Tells sheet.now (refusal_in result) (position_in result) }
    ensures addition { IfOk result (λ addition.
        addition ≡ more_sun sheet.now (user_at book.now (sheet_user sheet.now)).details (month - 1) (band - 1)) }
{
    let (_book, user) = check_book::find(book, sheet::user(sheet))?;
    let formed = FormedSheet::new(sheet)?;
    let user = user.ok_or(Refusal::UnknownUser)?;
    let passed = formed.passed()?;
    if !has_field(passed, month, band) {
        return Err(Refusal::NoSuchField);
    }
    let account = user.account();
    // 32 bits fit a `usize`, for which std has no `From`.
    Ok(sheet_more_sun::least_addition(
        passed,
        account.details,
        month as usize - 1,
        band as usize - 1,
    ))
}
