// A line of a script of calls, from its bytes to what it asks. Every string of bytes is an ordinary input.
#![tactic(auto)]

ghost use Rattle.std.specs.Prelude.{◌≡◌, ℕ, ◌<◌, ◌≤◌, Some, None, MatchOption, IfSome, slice_index};
ghost use Rattle.replay_script.specs.Requests.{all_within, arguments, digits_of, bytes, one_word, word, words, asked};
ghost use Rattle.replay_script.specs.Requests.{enrol_request, elect_request, advance_request, number_alone};
ghost use Rattle.replay_script.specs.Requests.{raise_request, more_sun_request, new_request, request_of_word, request_of};

use std::str;
use text::Hex;

/// What a line asks; `B` stands for the bytes that it names.
#[derive(Clone, Copy, Debug, PartialEq, Eq)]
pub enum Request<B> {
    New(usize),
    Load(B),
    Fresh,
    Enrol {
        number: u32,
        class: u8,
        plant: u8,
        option: u8,
        power: u32,
        year: u16,
        month: u8,
        island: u8,
    },
    Elect {
        number: u32,
        option: u8,
        year: u32,
        month: u32,
        day: u32,
    },
    Advance {
        number: u32,
        year: u32,
        run: u8,
        rate: u64,
        estimate1: u64,
        estimate2: u64,
    },
    Close(B),
    Charge(u32),
    Statement(u32),
    Archive {
        sheet: B,
        buffer: B,
    },
    Restore {
        archive: B,
        buffer: B,
    },
    Raise {
        sheet: B,
        factor: u32,
    },
    ReadMeasures {
        sheet: B,
        text: B,
    },
    WriteMeasures {
        sheet: B,
        buffer: B,
    },
    MoreSun {
        sheet: B,
        month: u32,
        band: u32,
    },
    Dump,
    List,
}

// The longest buffer, and the longest line: `load`, a blank and two digits for each of its bytes.
const LONGEST_BOOK: usize = 65_536;

const LONGEST_LINE: usize = 4 + 1 + 2 * LONGEST_BOOK;

// The largest numbers of the widths that the exported interface has. What `arguments` lets through is cast to its width by `as`: a
// `try_from` would have a failure that no number meets.
const MOST8: u64 = 255;

const MOST16: u64 = 65_535;

const MOST32: u64 = 4_294_967_295;

const MOST64: u64 = u64::MAX;

// Each number is at most the one beside it.
#[tactic(auto, unfolding(crate::specs::Requests::all_within))]
fn all_within(values: &[u64], most: &[u64]) -> bool
    ensures { result ≡ all_within values.now most.now }
{
    values.iter().zip(most).all(|(value, most)| value <= most)
}

// To the end of the line one number for each of `most`, at most that. A `?` on an array beside a slice gets no proof.
#[tactic(auto, using(crate::proofs::Within::within_at), unfolding(crate::specs::Requests::arguments))]
fn arguments<const N: usize>(rest: &[u8], most: [u64; N]) -> Option<[u64; N]>
    ensures read { result ≡ arguments most.entry rest.now }
    ensures within { IfSome result (λ n. (k : ℕ) → k < N → slice_index n k ≤ slice_index most.entry k) }
{
    let Some(read) = text::fields(rest) else {
        return None;
    };
    let values = read.0;
    (all_within(&values, &most) && read.1.is_empty()).then_some(values)
}

// Digits of at most so many bytes as the longest book has.
#[tactic(auto, unfolding(crate::specs::Requests::digits_of))]
fn digits_of(text: &[u8]) -> Option<Hex<'_>>
    ensures { MatchOption result (digits_of text.now ≡ None) (λ h. digits_of text.now ≡ Some h.digits.now) }
{
    let hex = Hex::new(text)?;
    if hex.count() <= LONGEST_BOOK {
        Some(hex)
    } else {
        None
    }
}

// To the end of the line a blank and digits, or nothing.
#[tactic(auto, unfolding(crate::specs::Requests::bytes))]
fn bytes(rest: &[u8]) -> Option<Hex<'_>>
    ensures { MatchOption result (bytes rest.now ≡ None) (λ h. bytes rest.now ≡ Some h.digits.now) }
{
    if rest.is_empty() {
        return digits_of(rest);
    }
    digits_of(rest.strip_prefix(b" ")?)
}

// A word is `-`, which is no bytes, or digits.
#[tactic(auto, unfolding(crate::specs::Requests::one_word))]
fn one_word(word: &[u8]) -> Option<Hex<'_>>
    ensures { MatchOption result (one_word word.now ≡ None) (λ h. one_word word.now ≡ Some h.digits.now) }
{
    match word {
        b"-" => digits_of(b""),
        b"" => None,
        _ => digits_of(word),
    }
}

// One blank and a word of bytes, and what stands after it.
#[tactic(auto, unfolding(crate::specs::Requests::word))]
fn word(rest: &[u8]) -> Option<(Hex<'_>, &[u8])>
    ensures { MatchOption result (word rest.now ≡ None) (λ r. word rest.now ≡ Some (r.0.digits.now, r.1.now)) }
{
    let (word, after) = text::first_word(rest.strip_prefix(b" ")?);
    Some((one_word(word)?, after))
}

// To the end of the line two words of bytes.
#[tactic(auto, unfolding(crate::specs::Requests::words))]
fn words(rest: &[u8]) -> Option<(Hex<'_>, Hex<'_>)>
    ensures { MatchOption result (words rest.now ≡ None) (λ r. words rest.now ≡ Some (r.0.digits.now, r.1.digits.now)) }
{
    let (first, rest) = word(rest)?;
    let (second, after) = word(rest)?;
    after.is_empty().then_some((first, second))
}

// The length of a new book.
#[tactic(auto, unfolding(crate::specs::Requests::new_request))]
fn new(rest: &[u8]) -> Option<Request<Hex<'_>>>
    ensures { asked result ≡ new_request rest.now }
{
    // `as` both ways: std has no `From` between a length and 64 bits.
    let [length] = arguments(rest, [LONGEST_BOOK as u64])?;
    Some(Request::New(length as usize))
}

#[tactic(auto, unfolding(crate::specs::Requests::enrol_request))]
fn enrol(rest: &[u8]) -> Option<Request<Hex<'_>>>
    ensures { asked result ≡ enrol_request rest.now }
{
    let most = [MOST32, MOST8, MOST8, MOST8, MOST32, MOST16, MOST8, MOST8];
    let [number, class, plant, option, power, year, month, island] = arguments(rest, most)?;
    Some(Request::Enrol {
        number: number as u32,
        class: class as u8,
        plant: plant as u8,
        option: option as u8,
        power: power as u32,
        year: year as u16,
        month: month as u8,
        island: island as u8,
    })
}

#[tactic(auto, unfolding(crate::specs::Requests::elect_request))]
fn elect(rest: &[u8]) -> Option<Request<Hex<'_>>>
    ensures { asked result ≡ elect_request rest.now }
{
    let most = [MOST32, MOST8, MOST32, MOST32, MOST32];
    let [number, option, year, month, day] = arguments(rest, most)?;
    Some(Request::Elect {
        number: number as u32,
        option: option as u8,
        year: year as u32,
        month: month as u32,
        day: day as u32,
    })
}

#[tactic(auto, unfolding(crate::specs::Requests::advance_request))]
fn advance(rest: &[u8]) -> Option<Request<Hex<'_>>>
    ensures { asked result ≡ advance_request rest.now }
{
    let most = [MOST32, MOST32, MOST8, MOST64, MOST64, MOST64];
    let [number, year, run, rate, estimate1, estimate2] = arguments(rest, most)?;
    Some(Request::Advance {
        number: number as u32,
        year: year as u32,
        run: run as u8,
        rate,
        estimate1,
        estimate2,
    })
}

// The number of a user, and nothing after it.
#[tactic(auto, unfolding(crate::specs::Requests::number_alone))]
fn number_alone(rest: &[u8]) -> Option<u32>
    ensures { result ≡ number_alone rest.now }
{
    let [number] = arguments(rest, [MOST32])?;
    Some(number as u32)
}

// A sheet and a factor.
#[tactic(auto, unfolding(crate::specs::Requests::raise_request))]
fn raise(rest: &[u8]) -> Option<Request<Hex<'_>>>
    ensures { asked result ≡ raise_request rest.now }
{
    let (sheet, after) = word(rest)?;
    let [factor] = arguments(after, [MOST32])?;
    Some(Request::Raise {
        sheet,
        factor: factor as u32,
    })
}

// A sheet, a month and a band.
#[tactic(auto, unfolding(crate::specs::Requests::more_sun_request))]
fn more_sun(rest: &[u8]) -> Option<Request<Hex<'_>>>
    ensures { asked result ≡ more_sun_request rest.now }
{
    let (sheet, after) = word(rest)?;
    let [month, band] = arguments(after, [MOST32, MOST32])?;
    Some(Request::MoreSun {
        sheet,
        month: month as u32,
        band: band as u32,
    })
}

// The request of a word, by what stands after it. Every request takes a blank next, or the end of the line, so a word is never
// the front of a longer one.
#[tactic(auto, unfolding(crate::specs::Requests::request_of_word))]
fn request_of_word<'a>(word: &str, rest: &'a [u8]) -> Option<Request<Hex<'a>>>
    ensures { asked result ≡ request_of_word word.now rest.now }
{
    match word {
        "new" => new(rest),
        "load" => Some(Request::Load(bytes(rest)?)),
        "fresh" => rest.is_empty().then_some(Request::Fresh),
        "dump" => rest.is_empty().then_some(Request::Dump),
        "list" => rest.is_empty().then_some(Request::List),
        "enrol" => enrol(rest),
        "elect" => elect(rest),
        "advance" => advance(rest),
        "close" => Some(Request::Close(bytes(rest)?)),
        "charge" => Some(Request::Charge(number_alone(rest)?)),
        "statement" => Some(Request::Statement(number_alone(rest)?)),
        "moresun" => more_sun(rest),
        "raise" => raise(rest),
        "archive" => {
            let (sheet, buffer) = words(rest)?;
            Some(Request::Archive { sheet, buffer })
        }
        "restore" => {
            let (archive, buffer) = words(rest)?;
            Some(Request::Restore { archive, buffer })
        }
        "readmeasures" => {
            let (sheet, text) = words(rest)?;
            Some(Request::ReadMeasures { sheet, text })
        }
        "writemeasures" => {
            let (sheet, buffer) = words(rest)?;
            Some(Request::WriteMeasures { sheet, buffer })
        }
        _ => None,
    }
}

/// What a line asks; none where it is no call.
#[tactic(auto, using(crate::proofs::Names::no_word), unfolding(crate::specs::Requests::request_of))]
pub fn request_of(line: &[u8]) -> Option<Request<Hex<'_>>>
    ensures { asked result ≡ request_of line.now }
{
    if LONGEST_LINE < line.len() {
        return None;
    }
    let (word, rest) = text::first_word(line);
    request_of_word(str::from_utf8(word).ok()?, rest)
}
