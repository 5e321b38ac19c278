// Decimal numbers as text, written and read: for the library and for programs. Every string of bytes is an ordinary input.
#![tactic(auto)]

ghost use Rattle.std.specs.Prelude.{◌≡◌, ◌+◌, ◌*◌, ◌≤◌, min, length, MatchResult};
ghost use Rattle.decimals.specs.Decimals.{decimal, field, is_digit, RunRead, FieldRead, FieldMissing};
ghost use Rattle.decimals.specs.InnerWritten.{TextPut};

// The digits at the front of a text: how many, and their number as far as it counts.
#[derive(Drop)]
struct DigitRun {
    pub count: usize,
    pub value: u32,
}

// Writes a number at a place of the text, and answers the place behind it. The text is lent, since the library has no heap; a digit is
// narrowed by `as`, since it is below 10.
pub fn write_number(out: &mut [u8], at: usize, n: u64) -> usize
    requires { at + length (decimal n) ≤ length out.old }
    ensures { TextPut at (decimal n) out.old out.new result }
{
    let mut end = at;
    if 10 <= n {
        end = write_number(out, at, n / 10);
    }
    out[end] = b'0' + (n % 10) as u8;
    end + 1
}

// The same, with one byte behind it.
pub fn write_field(out: &mut [u8], at: usize, n: u64, stop: u8) -> usize
    requires { at + length (field n stop) ≤ length out.old }
    ensures { TextPut at (field n stop) out.old out.new result }
{
    let end = write_number(out, at, n);
    out[end] = stop;
    end + 1
}

#[tactic(auto, unfolding(crate::specs::Decimals::is_digit))]
fn is_digit(b: u8) -> bool
    ensures { result ≡ is_digit b }
{
    b.is_ascii_digit()
}

// The number with a digit more behind it, at most `most`.
fn with_digit(value: u32, digit: u8, most: u32) -> u32
    ensures { result ≡ min (value * 10 + digit) most }
{
    value
        .saturating_mul(10)
        .saturating_add(u32::from(digit))
        .min(most)
}

// The digits at the front of a text, however many: a number above `most` counts as `most`.
fn read_run(s: &[u8], most: u32) -> DigitRun
    ensures { RunRead s.now most result }
{
    let mut count = 0;
    let mut value = 0;
    for b in s {
        if !is_digit(*b) {
            return DigitRun { count, value };
        }
        value = with_digit(value, *b - b'0', most);
        count += 1;
    }
    DigitRun { count, value }
}

// A number at the front of a text, without a needless zero before it and with the byte `stop` behind it: the number, `most` where it is
// larger, and the text behind that byte. Where none stands there, the error has what the digits at the front write, 0 where there are
// none, and the text behind the byte that follows them.
pub fn read_field(s: &[u8], stop: u8, most: u32) -> Result<(u32, &[u8]), (u32, &[u8])>
    ensures { MatchResult result (λ r. FieldRead s.now stop most r.0 r.1.now) (λ r. FieldMissing s.now stop most r.0 r.1.now) }
{
    let run = read_run(s, most);
    let count = run.count;
    let plain = (0 < count) & ((count == 1) | !(codec::byte_at(s, 0) == b'0'));
    let end = (count + 1).min(s.len());
    let read = (run.value, &s[end..]);
    if plain & (codec::byte_at(s, count) == stop) {
        Ok(read)
    } else {
        Err(read)
    }
}
