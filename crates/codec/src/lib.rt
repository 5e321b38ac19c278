// Little-endian numbers in byte strings (document 01, "Units"). A byte past the end of a string reads as 0, so that every
// string of bytes is an ordinary input.
#![tactic(auto)]

ghost use Rattle.std.specs.Prelude.{◌≡◌, ℕ, ◌+◌, ◌≤◌, ◌<◌, ◌^◌, get_or, length};
ghost use Rattle.std.proofs.Common.{rules};
ghost use Rattle.codec.specs.Bytes.{little_endian, number, stored, bytes_of};
ghost use Rattle.codec.specs.Bytes.{zeros as zeroBytes};

use units::{Kwh, RecordIndex, Ticks, UserNumber};

// A number as it stands in a record or a sheet: so many bytes, the lowest first. Each width and each quantity has its few lines: no
// trait of the library speaks of `to_le_bytes` for all of them, and a second trait would want the same two functions of each.
pub trait Number: Copy {
    ghost WIDTH: { ℕ };

    const WIDTH: usize;

    ghost value: { Self → ℕ };

    fn load(bytes: &[u8]) -> Self
        requires { length bytes.now ≡ WIDTH }
        ensures { value result ≡ little_endian bytes.now };

    fn save(self, to: &mut [u8])
        requires { length to.old ≡ WIDTH }
        ensures { to.new ≡ bytes_of WIDTH (value self) };

    ghost narrow: { WIDTH ≤ 8 };
}

impl Number for u8 {
    ghost WIDTH = { 1 };

    const WIDTH: usize = 1;

    ghost value = { λ n. n };

    #[tactic(auto, unfolding(crate::specs::Bytes::little_endian))]
    fn load(bytes: &[u8]) -> u8 {
        bytes[0]
    }

    #[tactic(auto, unfolding(crate::specs::Bytes::bytes_of))]
    fn save(self, to: &mut [u8]) {
        to[0] = self;
    }

    ghost narrow = { Prim.search rules };
}

impl Number for u16 {
    ghost WIDTH = { 2 };

    const WIDTH: usize = 2;

    ghost value = { λ n. n };

    #[tactic(auto, unfolding(crate::specs::Bytes::little_endian))]
    fn load(bytes: &[u8]) -> u16 {
        u16::from_le_bytes([bytes[0], bytes[1]])
    }

    #[tactic(auto, unfolding(crate::specs::Bytes::bytes_of))]
    fn save(self, to: &mut [u8]) {
        to.copy_from_slice(&u16::to_le_bytes(self));
    }

    ghost narrow = { Prim.search rules };
}

impl Number for u32 {
    ghost WIDTH = { 4 };

    const WIDTH: usize = 4;

    ghost value = { λ n. n };

    #[tactic(auto, unfolding(crate::specs::Bytes::little_endian))]
    fn load(bytes: &[u8]) -> u32 {
        u32::from_le_bytes([bytes[0], bytes[1], bytes[2], bytes[3]])
    }

    #[tactic(auto, unfolding(crate::specs::Bytes::bytes_of))]
    fn save(self, to: &mut [u8]) {
        to.copy_from_slice(&u32::to_le_bytes(self));
    }

    ghost narrow = { Prim.search rules };
}

impl Number for u64 {
    ghost WIDTH = { 8 };

    const WIDTH: usize = 8;

    ghost value = { λ n. n };

    #[tactic(auto, unfolding(crate::specs::Bytes::little_endian))]
    fn load(bytes: &[u8]) -> u64 {
        u64::from_le_bytes([
            bytes[0], bytes[1], bytes[2], bytes[3], bytes[4], bytes[5], bytes[6], bytes[7],
        ])
    }

    #[tactic(auto, unfolding(crate::specs::Bytes::bytes_of))]
    fn save(self, to: &mut [u8]) {
        to.copy_from_slice(&u64::to_le_bytes(self));
    }

    ghost narrow = { Prim.search rules };
}

impl Number for RecordIndex {
    ghost WIDTH = { 4 };

    const WIDTH: usize = 4;

    ghost value = { λ index. index.0 };

    fn load(bytes: &[u8]) -> RecordIndex {
        RecordIndex(u32::load(bytes))
    }

    fn save(self, to: &mut [u8]) {
        self.0.save(to);
    }

    ghost narrow = { Prim.search rules };
}

impl Number for UserNumber {
    ghost WIDTH = { 4 };

    const WIDTH: usize = 4;

    ghost value = { λ number. number.0 };

    fn load(bytes: &[u8]) -> UserNumber {
        UserNumber(u32::load(bytes))
    }

    fn save(self, to: &mut [u8]) {
        self.0.save(to);
    }

    ghost narrow = { Prim.search rules };
}

impl Number for Kwh {
    ghost WIDTH = { 4 };

    const WIDTH: usize = 4;

    ghost value = { λ energy. energy.0 };

    fn load(bytes: &[u8]) -> Kwh {
        Kwh(u32::load(bytes))
    }

    fn save(self, to: &mut [u8]) {
        self.0.save(to);
    }

    ghost narrow = { Prim.search rules };
}

impl Number for Ticks {
    ghost WIDTH = { 8 };

    const WIDTH: usize = 8;

    ghost value = { λ amount. amount.0 };

    fn load(bytes: &[u8]) -> Ticks {
        Ticks(u64::load(bytes))
    }

    fn save(self, to: &mut [u8]) {
        self.0.save(to);
    }

    ghost narrow = { Prim.search rules };
}

// A number is known by its place in a string (document 01), so that `get`, `read`, `put` and `byte_at` take the two side by side.

// The number at a place where all its bytes stand in the string.
#[tactic(auto, unfolding(crate::specs::Bytes::number, crate::specs::Bytes::part))]
pub fn get<T: Number>(s: &[u8], at: usize) -> T
    requires { at + T.WIDTH ≤ length s.now }
    ensures { T.value result ≡ number T.WIDTH at s.now }
{
    T::load(&s[at..at + T::WIDTH])
}

// A byte, or 0 past the end of the string.
pub fn byte_at(s: &[u8], at: usize) -> u8
    ensures { result ≡ get_or s.now at 0 }
{
    s.get(at).copied().unwrap_or(0)
}

// The bytes from a place on, with zeros for those past the end.
fn padded(s: &[u8], at: usize) -> [u8; 8]
    requires { at < 2 ^ 40 }
    ensures { (i : ℕ) → i < 8 → get_or result i 0 ≡ get_or s.now (at + i) 0 }
{
    std::array::from_fn(|i| byte_at(s, at + i))
}

// The number at a place of any string.
pub fn read<T: Number>(s: &[u8], at: usize) -> T
    requires { at < 2 ^ 40 }
    ensures { T.value result ≡ number T.WIDTH at s.now }
{
    if at + T::WIDTH <= s.len() {
        return get(s, at);
    }
    T::load(&padded(s, at)[..T::WIDTH])
}

// A number goes to its place.
#[tactic(auto, unfolding(crate::specs::Bytes::stored))]
pub fn put<T: Number>(s: &mut [u8], at: usize, n: T)
    requires { at + T.WIDTH ≤ length s.old }
    ensures { s.new ≡ stored at (bytes_of T.WIDTH (T.value n)) s.old }
{
    n.save(&mut s[at..at + T::WIDTH]);
}

// The lowest `width` bytes of a number go to its place, where the width is known only when the program runs: beyond eight bytes, zeros.
pub fn put_bytes(s: &mut [u8], at: usize, width: usize, n: u64)
    requires { at + width ≤ length s.old }
    ensures { s.new ≡ stored at (bytes_of width n) s.old }
{
    let mut rest = n;
    for k in 0..width {
        s[at + k] = (rest % 256) as u8;
        rest = rest / 256;
    }
}

// A stretch of bytes is zero. Every byte is looked at: `all`, which stops at the first that is not, took twenty times as long.
pub fn zeros(s: &[u8], from: usize, count: usize) -> bool
    requires { from + count < 2 ^ 40 }
    ensures { result ≡ zeroBytes from count s.now }
{
    let end = (from + count).min(s.len());
    let first = from.min(end);
    let (words, rest) = s[first..end].as_chunks::<8>();
    let mut all = true;
    for word in words {
        all = all & (u64::load(word) == 0);
    }
    for b in rest {
        all = all & (*b == 0);
    }
    all
}
