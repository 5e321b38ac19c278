// How much more sun (document 02, ticket 10): the least energy that, added to one injected field of a sheet, brings C to O or
// above.
#![tactic(auto)]

ghost use Rattle.std.specs.Prelude.{◌≡◌, ◌+◌, ◌-◌, ◌≤◌, ◌<◌};
ghost use Rattle.units.specs.Limits.{max_kwh, max_price, max_year_ticks};
ghost use Rattle.units.specs.InnerWithin.{NumberWithin};
ghost use Rattle.sheet_more_sun.specs.MoreSun.{FieldStands, more_sun};
ghost use Rattle.sheet_more_sun.specs.Laws.{IsLeast};
ghost use Rattle.sheet_more_sun.specs.InnerSteps.{LeastWorth, InLimits, comes_to, field_price};

use sheet::PassedSheet;
use sheet_prices::Series;
use sheet_values::Details;
use units::{Kwh, MAX_KWH, Rate, Ticks, WideKwh};

// The least energy that is worth an amount at a price.
fn worth(amount: Ticks, price: Rate) -> WideKwh
    requires { (amount.0 ≤ max_year_ticks) × ((0 < price.0) × (price.0 ≤ max_price)) }
    ensures { LeastWorth amount.0 price.0 result.0 }
{
    WideKwh((amount.0 + (price.0 - 1)) / price.0)
}

// What a field has room for.
fn room_in(field: Kwh) -> u64
    requires { field.0 ≤ max_kwh }
    ensures { result ≡ max_kwh - field.0 }
{
    u64::from(MAX_KWH - field.0)
}

// The price of a field, "for the enrolled plant".
fn price_of(sheet: PassedSheet<'_>, details: Details, month: usize, band: usize) -> Rate
    requires field_stands { FieldStands sheet.bytes.now month band }
    ensures { NumberWithin (field_price sheet.entry.bytes.now details month band) max_price result.0 }
{
    let bytes = sheet.bytes;
    let bands = sheet::injected_reading(bytes) == 1;
    let series = Series::of(bands, details.island == 1, details.plant == 1);
    sheet_prices::price_row(bytes, series, month)[band]
}

// The energy to be added to a field at its price, so that C comes to O; none that is within the field's limit does where there is none.
fn least_for(cost: Ticks, value: Ticks, price: Rate, field: Kwh) -> Option<Kwh>
    requires { InLimits cost.0 value.0 price.0 field.0 }
    ensures { IsLeast (max_kwh + 1 - field.0) (comes_to cost.0 value.0 price.0) result }
{
    if cost <= value {
        return Some(Kwh(0));
    }
    if price.0 == 0 {
        return None;
    }
    let added = worth(Ticks(cost.0 - value.0), price);
    if room_in(field) < added.0 {
        return None;
    }
    Some(Kwh(added.0 as u32))
}

// The least addition to the injected field of a month and a band, counted from 0, for a user with these details; none where no addition
// within the field's limit brings C to O.
pub fn least_addition(
    sheet: PassedSheet<'_>,
    details: Details,
    month: usize,
    band: usize,
) -> Option<Kwh>
    requires field_stands { FieldStands sheet.bytes.now month band }
    ensures { result ≡ more_sun sheet.entry.bytes.now details month band }
{
    let bytes = sheet.bytes;
    let price = price_of(sheet, details, month, band);
    // Below 12 and 3: `try_from` would bring an error that cannot come.
    let field = Kwh(sheet::number(bytes, month as u8, 3 + band as u8));
    let cost = sheet_prices::cost(sheet);
    let value = sheet_prices::value(sheet, details.island == 1, details.plant == 1);
    least_for(cost, value, price, field)
}
