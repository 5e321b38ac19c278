// A set of user numbers, to tell whether a number was seen before. A number for which no place is found counts as seen.
#![tactic(auto)]

ghost use Rattle.std.specs.Prelude.{◌≡◌, true, ◌+◌, ◌%◌, ◌<◌, length};
ghost use Rattle.check_numbers.specs.InnerHeld.{remixed, start_of, PlaceIs, Put};

use units::UserNumber;

// Places for the numbers of the 800 records that a book can have: most numbers find the first place that is tried empty.
pub const PLACES: usize = 2048;

// The places that are tried for a number: at most 512 runs of 4 neighbours.
const MOST_RUNS: usize = 512;

const RUN_LENGTH: usize = 4;

// 2^32, and its golden section: numbers that follow one another fall far apart.
const WORD_SIZE: usize = 4_294_967_296;

const GOLDEN: u32 = 2_654_435_769;

// Each run starts from all bits of the number, so that few numbers share the starts of several runs. The 1 is for numbers such as
// 2^31, which no odd factor moves.
#[tactic(auto, unfolding(crate::specs::InnerHeld::remixed))]
fn remix(mixed: u32) -> u32
    ensures { result ≡ remixed mixed }
{
    mixed.wrapping_mul(GOLDEN).wrapping_add(1)
}

// As far along the table as the mixed number is along 2^32. The product fits: no place from 2^32 on is a start.
#[tactic(auto, using(crate::proofs::Places::start_inside), unfolding(crate::specs::InnerHeld::start_of))]
fn start_of(places: usize, mixed: u32) -> usize
    requires { 0 < places }
    ensures { PlaceIs (start_of places mixed) places result }
{
    mixed as usize * places.min(WORD_SIZE) / WORD_SIZE
}

// After the last place comes the first.
fn place_after(places: usize, at: usize) -> usize
    requires { at < places }
    ensures { PlaceIs ((at + 1) % places) places result }
{
    if at + 1 < places { at + 1 } else { 0 }
}

// A table is an array, since the library has no heap. 0 is an empty place: an `Option` a place doubles the 8 KB that the check of a
// large book clears. A number and a place widen to `usize` by `as`: std has no `From` for it.
// Adds a number that the table does not hold. The answer is false where it holds it, or where all places that are tried are taken.
pub fn insert(table: &mut [u32], number: UserNumber) -> bool
    requires table_size { 0 < length table.old }
    requires number_nonzero { 0 < number.0 }
    ensures { Put table.old number.0 table.new result }
{
    let mut mixed = number.0;
    for _run in 0..MOST_RUNS {
        mixed = remix(mixed);
        let mut at = start_of(table.len(), mixed);
        for _step in 0..RUN_LENGTH {
            let there = table[at];
            if there == 0 {
                table[at] = number.0;
                return true;
            }
            if there == number.0 {
                return false;
            }
            at = place_after(table.len(), at);
        }
    }
    false
}
