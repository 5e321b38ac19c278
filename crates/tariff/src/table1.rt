// Table 1 of source document 000, in €/MWh: document 01's kinds 1 to 16, in printed order.
ghost use Rattle.std.specs.Prelude.{◌≡◌, map};
ghost use Rattle.tariff.specs.Table1.{table1, rows_of_kind, reaches, table_euro_per_mwh};
ghost use Rattle.tariff.specs.InnerParts.{power_of, row_of};

use Power::{Beyond, UpTo};

// The powers of a row, in kW, above those of the row before: up to a bound that belongs to the row, or all.
#[derive(Clone, Copy)]
enum Power {
    UpTo(u32),
    Beyond,
}

impl Power {
    // Whether these powers reach a power in watts.
    #[tactic(auto, unfolding(crate::specs::Table1::reaches))]
    fn reaches(self, watts: u32) -> bool
        ensures { result ≡ reaches (power_of self) watts }
    {
        match self {
            UpTo(kw) => u64::from(watts) <= 1_000 * u64::from(kw),
            Beyond => true,
        }
    }
}

// A row: its powers and its €/MWh. A tuple: with named fields the layout breaks each of the 52 rows over four lines.
#[derive(Clone, Copy)]
struct Row(Power, u16);

// The rows of each kind, in their order.
static ROWS: [&[Row]; 16] = [
    // 1 solar: photovoltaic
    &[
        Row(UpTo(200), 76),
        Row(UpTo(1_000), 48),
        Row(UpTo(5_000), 36),
        Row(Beyond, 30),
    ],
    // 2 wind: on shore
    &[
        Row(UpTo(200), 186),
        Row(UpTo(1_000), 67),
        Row(UpTo(5_000), 53),
        Row(Beyond, 45),
    ],
    // 3 wind: off shore
    &[Row(UpTo(5_000), 94), Row(Beyond, 83)],
    // 4 hydro: run of river, waterworks included
    &[
        Row(UpTo(500), 137),
        Row(UpTo(1_000), 73),
        Row(UpTo(10_000), 47),
        Row(Beyond, 37),
    ],
    // 5 hydro: basin or reservoir
    &[Row(UpTo(10_000), 19), Row(Beyond, 14)],
    // 6 ocean, tides and waves included
    &[Row(UpTo(5_000), 218), Row(Beyond, 112)],
    // 7 geothermal
    &[Row(UpTo(1_000), 53), Row(UpTo(20_000), 17), Row(Beyond, 3)],
    // 8 landfill gas
    &[Row(UpTo(1_000), 17), Row(UpTo(5_000), 12), Row(Beyond, 8)],
    // 9 sewage gas
    &[Row(UpTo(1_000), 29), Row(UpTo(5_000), 6), Row(Beyond, 3)],
    // 10 biogas: a) biological products
    &[
        Row(UpTo(300), 98),
        Row(UpTo(600), 78),
        Row(UpTo(1_000), 58),
        Row(UpTo(5_000), 22),
        Row(Beyond, 9),
    ],
    // 11 biogas: b) biological by-products of Table 1-A, d) other waste not collected separately
    &[
        Row(UpTo(300), 154),
        Row(UpTo(600), 124),
        Row(UpTo(1_000), 96),
        Row(UpTo(5_000), 43),
        Row(Beyond, 19),
    ],
    // 12 biogas: c) waste whose biodegradable share is set at a flat rate
    &[Row(UpTo(1_000), 134), Row(UpTo(5_000), 27), Row(Beyond, 3)],
    // 13 biomass: a) biological products
    &[
        Row(UpTo(300), 147),
        Row(UpTo(1_000), 98),
        Row(UpTo(5_000), 51),
        Row(Beyond, 40),
    ],
    // 14 biomass: b) biological by-products of Table 1-A, d) other waste not collected separately
    &[
        Row(UpTo(300), 175),
        Row(UpTo(1_000), 127),
        Row(UpTo(5_000), 79),
        Row(Beyond, 63),
    ],
    // 15 biomass: c) waste whose biodegradable share is set at a flat rate
    &[Row(UpTo(5_000), 92), Row(Beyond, 43)],
    // 16 sustainable bioliquids
    &[Row(UpTo(5_000), 39), Row(Beyond, 28)],
];

// The rows of a kind of plant, none where the table does not have the kind.
#[tactic(auto, unfolding(crate::specs::Table1::table1, crate::specs::Table1::rows_of_kind))]
fn rows_of(kind: u8) -> &'static [Row]
    ensures { map (row_of kind) result.now ≡ rows_of_kind kind table1 }
{
    match kind {
        1..=16 => ROWS[usize::from(kind) - 1],
        _ => &[],
    }
}

// The €/MWh of the first row of the plant's kind that reaches a power in watts; 0 if there is none.
#[tactic(auto, unfolding(crate::specs::Table1::first_reaching, crate::specs::Table1::table_euro_per_mwh))]
pub fn euro_per_mwh(kind: u8, watts: u32) -> u16
    ensures { result ≡ table_euro_per_mwh kind watts }
{
    for Row(power, euro_per_mwh) in rows_of(kind) {
        if power.reaches(watts) {
            return *euro_per_mwh;
        }
    }
    0
}
