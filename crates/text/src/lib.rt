// Text as programs read and write it: decimal numbers with one blank before each, words, bytes in hexadecimal. Every string of bytes is
// an ordinary input. What is read stands at the front, and what stands after it is handed out with it.
#![tactic(auto)]

ghost use Rattle.std.specs.Prelude.{◌≡◌, true, false, ◌++◌, ◌*◌, ◌/◌, ◌<◌, ◌≤◌, length, take, drop};
ghost use Rattle.std.specs.Prelude.{None, Some, MatchOption, IfSome, IfNone, IfOk};
ghost use Rattle.std.specs.Fmt.{digit_glyph, WritesOnOk};
ghost use Rattle.std.specs.List.{list_all};
ghost use Rattle.std.specs.Str.{IsUtf8};
ghost use Rattle.std.specs.Str.Parse.{AllDigits};
ghost use Rattle.text.specs.Text.{digits, number_of, first_number, field, fields, word_length, first_word, after_word};
ghost use Rattle.text.specs.Text.{is_hex_digit, is_hex, hex_of};

use std::alloc::{AllocError, Global};
use std::{fmt, str};

/// How many digits a text begins with.
fn digits(text: &[u8]) -> usize
    ensures count { result ≡ digits text.now }
    ensures within { result ≤ length text.now }
{
    text.iter().take_while(|b| b.is_ascii_digit()).count()
}

/// The number that digits write; none where they are none, and where it is 2^64 or more.
// Not `parse`, which takes text: whether digits are text is looked at anew, which costs more than to read them.
fn number_of(digits: &[u8]) -> Option<u64>
    requires { AllDigits 10 digits.now }
    ensures { result ≡ number_of digits.now }
{
    if digits.is_empty() {
        return None;
    }
    let mut value: u64 = 0;
    for digit in digits {
        value = value
            .checked_mul(10)?
            .checked_add(u64::from(*digit - b'0'))?;
    }
    Some(value)
}

/// The decimal number that a text begins with, and the text after it; none where no digit stands there, and where it is 2^64 or
/// more.
#[tactic(auto, using(crate::proofs::Numbers::digits_in_front), unfolding(crate::specs::Text::first_number))]
pub fn first_number(text: &[u8]) -> Option<(u64, &[u8])>
    ensures { MatchOption result (first_number text.now ≡ None) (λ r. first_number text.now ≡ Some (r.0, r.1.now)) }
{
    let (digits, rest) = text.split_at(digits(text));
    Some((number_of(digits)?, rest))
}

/// One blank and the decimal number after it, and the text after that; none where either is missing, and where the number is 2^64 or
/// more.
#[tactic(auto, unfolding(crate::specs::Text::field))]
pub fn field(text: &[u8]) -> Option<(u64, &[u8])>
    ensures { MatchOption result (field text.now ≡ None) (λ r. field text.now ≡ Some (r.0, r.1.now)) }
{
    first_number(text.strip_prefix(b" ")?)
}

/// So many numbers, each after one blank, and the text after them.
#[tactic(auto, using(crate::proofs::Numbers::fields_missing, crate::proofs::Numbers::fields_more), unfolding(crate::specs::Text::fields))]
pub fn fields<const N: usize>(text: &[u8]) -> Option<([u64; N], &[u8])>
    ensures { MatchOption result (fields N text.now ≡ None) (λ r. fields N text.now ≡ Some (r.0, r.1.now)) }
{
    let mut values = [0; N];
    let mut rest = text;
    for value in values.iter_mut() {
        (*value, rest) = field(rest)?;
    }
    Some((values, rest))
}

/// How many bytes stand before the first blank; all of them where there is none.
fn word_length(text: &[u8]) -> usize
    ensures count { result ≡ word_length text.now }
    ensures within { result ≤ length text.now }
{
    text.iter().take_while(|b| **b != b' ').count()
}

/// What stands before the first blank, and what stands from that blank on; all of the text and nothing where there is no blank.
#[tactic(auto, unfolding(crate::specs::Text::first_word, crate::specs::Text::after_word))]
pub fn first_word(text: &[u8]) -> (&[u8], &[u8])
    ensures word { result.0.now ≡ first_word text.now }
    ensures after { result.1.now ≡ after_word text.now }
{
    text.split_at(word_length(text))
}

/// `0`–`9` and `a`–`f`.
#[tactic(auto, unfolding(crate::specs::Text::is_hex_digit))]
fn is_hex_digit(b: u8) -> bool
    ensures { result ≡ is_hex_digit b }
{
    matches!(b, b'0'..=b'9' | b'a'..=b'f')
}

/// What a digit stands for.
#[tactic(auto, unfolding(crate::specs::Text::is_hex_digit))]
fn digit_value(b: u8) -> u8
    requires { is_hex_digit b ≡ true }
    ensures small { result < 16 }
    ensures digit { digit_glyph false result ≡ b }
{
    if b.is_ascii_digit() {
        b - b'0'
    } else {
        b - b'a' + 10
    }
}

fn are_hex_digits(text: &[u8]) -> bool
    ensures { result ≡ list_all is_hex_digit text.now }
{
    text.iter().all(|b| is_hex_digit(*b))
}

/// Two digits for each byte.
#[tactic(auto, unfolding(crate::specs::Text::is_hex))]
fn is_hex(digits: &[u8]) -> bool
    ensures { result ≡ is_hex digits.now }
{
    digits.len() % 2 == 0 && are_hex_digits(digits)
}

/// Bytes in hexadecimal: the digits `0`–`9` and `a`–`f`, two for each byte.
#[derive(Clone, Copy)]
pub struct Hex<'a> {
    pub digits: &'a [u8],
    ghost spelling: { is_hex digits.now ≡ true },
}

impl<'a> Hex<'a> {
    /// None where a byte is no digit, or one digit has no second.
    pub fn new(digits: &'a [u8]) -> Option<Hex<'a>>
        ensures { MatchOption result (is_hex digits.now ≡ false) (λ h. (is_hex digits.now ≡ true) × (h.digits.now ≡ digits.now)) }
    {
        if is_hex(digits) {
            Some(Hex { digits })
        } else {
            None
        }
    }

    /// How many bytes they spell.
    pub fn count(self) -> usize
        ensures { result ≡ length self.entry.digits.now / 2 }
    {
        self.digits.len() / 2
    }

    /// The bytes that they spell.
    #[tactic(auto, using(crate::proofs::Spellings::whole))]
    pub fn bytes(self, alloc: Global) -> Result<Vec<u8>, AllocError>
        ensures { IfOk result (λ v. hex_of v.items ≡ self.entry.digits.now) }
    {
        let mut bytes = vec![in alloc; 0; self.count()]?;
        self.copy_to(bytes.as_mut_slice());
        Ok(bytes)
    }

    /// The bytes that they spell, put at the front of `out`, which stays as it is behind them; and how many they are.
    #[tactic(auto, using(crate::proofs::Spellings::byte_by_byte))]
    pub fn copy_to(self, out: &mut [u8]) -> usize
        requires { length self.digits.now / 2 ≤ length out.old }
        ensures bytes { hex_of (take result out.new) ≡ self.entry.digits.now }
        ensures rest { drop result out.new ≡ drop result out.old }
        ensures count { result ≡ length self.entry.digits.now / 2 }
        ensures room { length out.new ≡ length out.old }
    {
        let count = self.count();
        for k in 0..count {
            out[k] = 16 * digit_value(self.digits[2 * k]) + digit_value(self.digits[2 * k + 1]);
        }
        count
    }

    /// The same where they have room there; else `None`, and `out` stays as it was.
    pub fn try_copy_to(self, out: &mut [u8]) -> Option<usize>
        ensures none { IfNone result ((length out.old < length self.entry.digits.now / 2) × (out.new ≡ out.old)) }
        ensures bytes { IfSome result (λ n. hex_of (take n out.new) ≡ self.entry.digits.now) }
        ensures rest { IfSome result (λ n. drop n out.new ≡ drop n out.old) }
        ensures count { IfSome result (λ n. n ≡ length self.entry.digits.now / 2) }
        ensures within { IfSome result (λ n. n ≤ length out.new) }
        ensures room { length out.new ≡ length out.old }
    {
        if out.len() < self.count() {
            return None;
        }
        Some(self.copy_to(out))
    }
}

/// The digit of a number below 16, in lower case.
fn digit_of(n: u8) -> u8
    requires { n < 16 }
    ensures { result ≡ digit_glyph false n }
{
    if n < 10 { b'0' + n } else { b'a' + (n - 10) }
}

/// Bytes in hexadecimal, in lower case, two digits for each, put at the front of `out`, which stays as it is behind them; and how many
/// digits they are.
pub fn hex_to(bytes: &[u8], out: &mut [u8]) -> usize
    requires { 2 * length bytes.now ≤ length out.old }
    ensures digits { out.new ≡ hex_of bytes.now ++ drop (2 * length bytes.now) out.old }
    ensures count { result ≡ 2 * length bytes.now }
    ensures text { IsUtf8 (hex_of bytes.now) }
{
    for k in 0..bytes.len() {
        out[2 * k] = digit_of(bytes[k] / 16);
        out[2 * k + 1] = digit_of(bytes[k] % 16);
    }
    2 * bytes.len()
}

/// Bytes that print in hexadecimal, in lower case: two digits for each, the upper half first.
#[derive(Clone, Copy, Debug, PartialEq, Eq)]
pub struct InHexadecimal<'a>(pub &'a [u8]);

impl fmt::Display for InHexadecimal<'_> {
    ghost output = { λ bytes. Some (hex_of bytes.0.now) };

    fn fmt<W: fmt::Write>(&self, f: &mut fmt::Formatter<W>) -> fmt::Result {
        spell(self.0, f)
    }
}

/// Digits as text.
fn text_of(digits: &[u8]) -> &str
    requires { IsUtf8 digits.now }
    ensures { result.now ≡ digits.now }
{
    str::from_utf8(digits).unwrap()
}

// So many digits at once, and not a byte at a time: the formatter's call costs far more than the digits.
fn spell<W: fmt::Write>(bytes: &[u8], f: &mut fmt::Formatter<W>) -> fmt::Result
    ensures { WritesOnOk W.write_str_gives f.old result (hex_of bytes.now) f.new }
{
    let mut digits = [0u8; 512];
    for part in bytes.chunks(256) {
        let count = hex_to(part, &mut digits);
        f.write_str(text_of(&digits[..count]))?;
    }
    Ok(())
}

#[cfg(test)]
mod tests {
    use super::*;
    use std::test::Fail;

    // `bytes` may be out of memory, so no clause says that it answers.
    #[test]
    fn digits_are_read_and_printed(rt: HostRuntime) -> Result<(), Fail> {
        let Some(hex) = Hex::new(b"00ff1a") else {
            assert!(rt; false, "they spell no bytes");
            return Ok(());
        };
        let bytes = hex.bytes(rt.alloc())?;
        assert_eq!(rt; bytes.as_slice(), b"\x00\xff\x1a".as_slice());
        let digits = format!(in rt.alloc(); "{}", InHexadecimal(&bytes))?;
        assert_eq!(rt; digits.as_bytes(), b"00ff1a".as_slice());
        Ok(())
    }
}
