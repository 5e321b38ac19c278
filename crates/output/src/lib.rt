// What every program prints on, and how it tells why it stops: a line is made first and written at once, and what cannot be read or
// written is told on standard error.
#![tactic(auto)]

ghost use Rattle.std.specs.Prelude.{◌≡◌, ◌≤◌, [], ◌∷◌, length, IfSome, OnOk};
ghost use Rattle.std.specs.Fmt.{with_newline};
ghost use Rattle.std.specs.Fmt.InlineText.{inline_text};
ghost use Rattle.std.specs.Io.KnownBytes.{Appends};
ghost use Rattle.io.specs.Digits.{last_digits};
ghost use Rattle.decimals.specs.Decimals.{decimal};
ghost use Rattle.output.specs.InnerRows.{text_of, joined, blanks};
ghost use Rattle.output.specs.declared.Failure.TheVariants.{OutOfMemory};

use std::alloc::{AllocError, AllocFailed, Global};
use std::env::FillError;
use std::error::Error;
use std::fmt::{Display, Formatter, InlineText};
use std::io::{Stdout, Write};
use std::rt::Env;
use std::{fmt, io};

/// Why a program stops before it has answered.
#[derive(Clone, Copy, Debug)]
pub enum Failure {
    /// It was given other arguments than it takes.
    Use,
    /// Standard input cannot be read.
    Input(io::Error),
    /// The file of a year sheet cannot be read.
    Sheet(io::Error),
    /// Standard output cannot be written.
    Output(io::Error),
    /// No memory is left.
    OutOfMemory,
}

impl From<AllocError> for Failure {
    ghost from_gives = { λ _ failure. failure ≡ OutOfMemory };

    fn from(_error: AllocError) -> Failure {
        Failure::OutOfMemory
    }
}

impl<T: Drop> From<AllocFailed<T>> for Failure {
    ghost from_gives = { λ _ failure. failure ≡ OutOfMemory };

    fn from(_error: AllocFailed<T>) -> Failure {
        Failure::OutOfMemory
    }
}

/// An error's words, without the number that the system's errors have behind them.
fn without_number(words: &str) -> &str {
    words
        .split_once(" (os error ")
        .map_or(words, |(front, _)| front)
}

impl Display for Failure {
    fn fmt<W: fmt::Write>(&self, f: &mut Formatter<W>) -> fmt::Result {
        let (what, error) = match self {
            Failure::Use => return f.write_str("wrong arguments"),
            Failure::OutOfMemory => return f.write_str("out of memory"),
            Failure::Input(error) => ("standard input", error),
            Failure::Sheet(error) => ("sheet", error),
            Failure::Output(error) => ("standard output", error),
        };
        let words = InlineText::<256>::of(error);
        write!(f, "{what}: {}", without_number(words.as_str()))
    }
}

impl Error for Failure {}

/// What a row holds at most, in bytes.
const ROOM: usize = 256;

/// A row of text as it is made, which needs no memory: its bytes stand at the front. What does not fit is left out.
#[derive(Clone, Copy)]
pub struct Row {
    pub bytes: [u8; ROOM],
    pub count: usize,
}

impl Row {
    /// A row of no text.
    pub fn new() -> Row
        ensures { text_of result ≡ [] }
    {
        Row {
            bytes: [0; ROOM],
            count: 0,
        }
    }

    /// Puts a byte behind what the row holds.
    pub fn put(&mut self, byte: u8)
        ensures { text_of self.new ≡ joined (text_of self.old) (byte ∷ []) }
    {
        let at = self.count;
        if ROOM <= at {
            return;
        }
        self.bytes[at] = byte;
        self.count = at + 1;
    }

    /// Puts a text behind what the row holds.
    pub fn put_text(&mut self, text: &[u8])
        ensures { text_of self.new ≡ joined (text_of self.old) text.now }
    {
        for k in 0..text.len() {
            self.put(text[k]);
        }
    }

    /// Puts so many blanks behind what the row holds.
    pub fn put_blanks(&mut self, count: usize)
        ensures { text_of self.new ≡ joined (text_of self.old) (blanks count) }
    {
        for k in 0..count {
            self.put(b' ');
        }
    }

    /// Puts the last decimal digit of a number behind what the row holds.
    // `as`: the digit is below 10.
    pub fn put_digit(&mut self, n: u64)
        ensures { text_of self.new ≡ joined (text_of self.old) (last_digits 10 1 n) }
    {
        self.put(b'0' + (n % 10) as u8);
    }

    /// Puts a number in decimal, without zeros in front, behind what the row holds.
    pub fn put_number(&mut self, n: u64)
        ensures { text_of self.new ≡ joined (text_of self.old) (decimal n) }
    {
        let mut digits = [0; 20];
        let count = decimals::write_number(&mut digits, 0, n);
        self.put_text(&digits[..count]);
    }

    /// Puts a blank, and a number in decimal, behind what the row holds.
    pub fn put_field(&mut self, n: u64)
        ensures { text_of self.new ≡ joined (joined (text_of self.old) (32 ∷ [])) (decimal n) }
    {
        self.put(b' ');
        self.put_number(n);
    }

    // What the row holds.
    fn text(&self) -> &[u8]
        ensures { result.now ≡ text_of self.now }
    {
        &self.bytes[..self.count.min(ROOM)]
    }
}

// What prints itself is put behind what a row holds.
impl fmt::Write for Row {
    ghost write_str_gives = { λ before text after. text_of after ≡ joined (text_of before) text };

    fn write_str(&mut self, s: &str) -> fmt::Result {
        self.put_text(s.as_bytes());
        Ok(())
    }
}

// A line of so many bytes, its line feed among them, is made without memory.
const LINE: usize = 512;

// A text and a line feed, where they are no longer than that.
fn short_line<D: Display + Drop>(text: D) -> Option<InlineText<LINE>>
    ensures { IfSome result (λ line. IfSome (with_newline (D.output text)) (λ bytes. inline_text line ≡ bytes)) }
{
    let mut line = InlineText::new();
    match fmt::Write::writeln(&mut line, text) {
        Ok(()) => Some(line),
        Err(_) => None,
    }
}

/// What a program prints on.
#[derive(Drop)]
pub struct Printer<W = Stdout> {
    pub out: W,
    alloc: Global,
}

impl<W: Write> Printer<W> {
    pub fn new(alloc: Global, out: W) -> Printer<W>
        ensures { result.out ≡ out }
    {
        Printer { out, alloc }
    }

    /// A line, which is made first and then written at once: the text and a line feed. Up to 512 bytes, the line feed among them, it
    /// is made without memory; a longer one takes memory, and fails where none is left.
    pub fn line<D: Display + Drop>(&mut self, text: D) -> Result<(), Failure>
        ensures { OnOk result (IfSome (with_newline (D.output text)) (Appends (W.contents self.old.out) (W.contents self.new.out))) }
    {
        if let Some(line) = short_line(&text) {
            return self.bytes(line.as_str().as_bytes());
        }
        let line = format!(in self.alloc; "{text}\n")?;
        self.bytes(line.as_bytes())
    }

    /// A row, written at once and without memory.
    pub fn row(&mut self, row: &Row) -> Result<(), Failure>
        ensures { OnOk result (Appends (W.contents self.old.out) (W.contents self.new.out) (text_of row.now)) }
    {
        self.bytes(row.text())
    }

    /// Bytes as they are.
    pub fn bytes(&mut self, bytes: &[u8]) -> Result<(), Failure>
        ensures { OnOk result (Appends (W.contents self.old.out) (W.contents self.new.out) bytes.now) }
    {
        self.out.write_all(bytes).map_err(Failure::Output)
    }
}

/// Tells on standard error why a program stopped before it had answered, if it did: how it is used, or what failed. The status
/// stays 0.
// Every `main` is this one call: the entry that each program has names it, and a function that took its `run` would be called so too.
pub fn report<E: Write>(err: &mut E, program: &str, usage: &str, outcome: Result<(), Failure>)
    ensures quiet { OnOk outcome (err.new ≡ err.old) }
{
    // Where standard error cannot be written, nothing is left to tell it on.
    let _ = match outcome {
        Ok(()) => Ok(()),
        Err(Failure::Use) => tell(err, format_args!("{program}: {usage}")),
        Err(failure) => tell(err, format_args!("{program}: {failure}")),
    };
}

// Writes a line at once, and a longer one than 512 bytes in pieces: it needs no memory, also where none is left.
fn tell<E: Write, D: Display + Drop>(err: &mut E, text: D) -> io::Result<()>
    ensures { OnOk result (IfSome (with_newline (D.output text)) (Appends (E.contents err.old) (E.contents err.new))) }
{
    match short_line(&text) {
        Some(line) => err.write_all(line.as_str().as_bytes()),
        None => err.writeln(text),
    }
}

/// The argument of a program, at the front of a buffer, where it was given one that fits and no other.
pub fn only_argument<'a, V: Env>(env: &V, buffer: &'a mut [u8]) -> Option<&'a [u8]>
    ensures { IfSome result (λ word. length word.now ≤ length buffer.entry.now) }
{
    let length = env.arg(1, buffer).ok()?;
    if has_argument(env, 2) {
        return None;
    }
    buffer.get(..length)
}

/// Whether a program was given an argument at a place, an empty one too. The program's own name stands at 0.
// No clause: of the words that an `Env` has, std tells how many bytes they fill at most and nothing else.
pub fn has_argument<V: Env>(env: &V, place: usize) -> bool {
    let mut none = [0u8; 0];
    match env.arg(place, &mut none) {
        Err(FillError::NotPresent) => false,
        _ => true,
    }
}

#[cfg(test)]
mod tests {
    use super::*;
    use std::test::Fail;

    // What is written on here stands there, a byte at each call; the first call is interrupted, and what has no room fails.
    #[derive(Drop)]
    struct Paper {
        text: Vec<u8>,
        room: usize,
        calls: u64,
    }

    fn blank_paper(alloc: Global, room: usize) -> Paper {
        Paper {
            text: Vec::new(alloc),
            room,
            calls: 0,
        }
    }

    impl Write for Paper {
        fn write(&mut self, buf: &[u8]) -> io::Result<usize> {
            self.calls = self.calls.wrapping_add(1);
            if self.calls == 1 {
                return Err(io::Error::from(io::ErrorKind::Interrupted));
            }
            let Some(first) = buf.first() else {
                return Ok(0);
            };
            if self.room == 0 {
                return Err(io::Error::from_raw_os_error(28));
            }
            self.room -= 1;
            self.text.push(*first)?;
            Ok(1)
        }

        fn flush(&mut self) -> io::Result<()> {
            Ok(())
        }
    }

    // A writer that takes nothing.
    #[derive(Drop)]
    struct Wall;

    impl Write for Wall {
        fn write(&mut self, _buf: &[u8]) -> io::Result<usize> {
            Ok(0)
        }

        fn flush(&mut self) -> io::Result<()> {
            Ok(())
        }
    }

    // The name of a program and one argument, which is empty.
    #[derive(Drop)]
    struct OneEmpty;

    impl Env for OneEmpty {
        fn arg(&self, i: usize, buf: &mut [u8]) -> Result<usize, FillError> {
            if i == 1 {
                return Ok(0);
            }
            if i != 0 {
                return Err(FillError::NotPresent);
            }
            if buf.is_empty() {
                return Err(FillError::TooLong);
            }
            buf[0] = b'p';
            Ok(1)
        }

        fn var(&self, _name: &str, _buf: &mut [u8]) -> Result<usize, FillError> {
            Err(FillError::NotPresent)
        }

        fn var_at(&self, _i: usize, _buf: &mut [u8]) -> Result<usize, FillError> {
            Err(FillError::NotPresent)
        }
    }

    #[test]
    fn bytes_are_written_whole(rt: HostRuntime) -> Result<(), Fail> {
        let mut out = Printer::new(rt.alloc(), blank_paper(rt.alloc(), 100));
        out.bytes(b"two words\n")?;
        assert_eq!(rt; out.out.text.as_slice(), b"two words\n".as_slice());
        out.bytes(b"and 2014")?;
        assert_eq!(rt; out.out.text.as_slice(), b"two words\nand 2014".as_slice());
        Ok(())
    }

    #[test]
    fn a_line_is_written_whole(rt: HostRuntime) -> Result<(), Fail> {
        let mut out = Printer::new(rt.alloc(), blank_paper(rt.alloc(), 1000));
        let year = 2014;
        out.line(format_args!("and {year} {:>250}", "far"))?;
        out.line("")?;
        let text = out.out.text.as_slice();
        assert_eq!(rt; text.len(), 9 + 250 + 2);
        assert_eq!(rt; text.starts_with(b"and 2014  "), true);
        assert_eq!(rt; text.ends_with(b" far\n\n"), true);
        Ok(())
    }

    // A line that fits the room on the stack, one that is as long as it, and one that is longer.
    #[test]
    fn lines_of_every_length_are_written_whole(rt: HostRuntime) -> Result<(), Fail> {
        for width in [1, 510, 511, 512, 513, 2000] {
            let mut out = Printer::new(rt.alloc(), blank_paper(rt.alloc(), 3000));
            out.line(format_args!("{:>width$}", "a"))?;
            out.line("b")?;
            let text = out.out.text.as_slice();
            assert_eq!(rt; text.len(), width + 3);
            assert_eq!(rt; text.ends_with(b"a\nb\n"), true);
            assert_eq!(rt; text.starts_with(b" "), 1 < width);
        }
        Ok(())
    }

    // A writer that counts the writes on it.
    #[derive(Drop)]
    struct Counted {
        text: Row,
        calls: u64,
    }

    impl Write for Counted {
        fn write(&mut self, buf: &[u8]) -> io::Result<usize> {
            self.calls = self.calls.wrapping_add(1);
            self.text.put_text(buf);
            Ok(buf.len())
        }

        fn flush(&mut self) -> io::Result<()> {
            Ok(())
        }
    }

    #[test]
    fn a_failure_is_told_in_one_write(rt: HostRuntime) {
        let mut err = Counted {
            text: Row::new(),
            calls: 0,
        };
        let outcome = Err(Failure::Input(io::Error::from_raw_os_error(21)));
        report(&mut err, "book", "give none", outcome);
        report(&mut err, "book", "give none", Err(Failure::Use));
        assert_eq!(rt; err.calls, 2);
        let said = "book: standard input: Is a directory\nbook: give none\n";
        assert_eq!(rt; err.text.text(), said.as_bytes());
    }

    #[test]
    fn a_row_is_written_whole(rt: HostRuntime) -> Result<(), Fail> {
        let mut out = Printer::new(rt.alloc(), blank_paper(rt.alloc(), 400));
        let mut row = Row::new();
        row.put_text(b"and");
        row.put_field(2014);
        row.put_blanks(2);
        row.put_digit(37);
        row.put(b'\n');
        out.row(&row)?;
        assert_eq!(rt; out.out.text.as_slice(), b"and 2014  7\n".as_slice());
        row.put_number(u64::MAX);
        assert_eq!(rt; fmt::Write::write(&mut row, 0), Ok(()));
        assert_eq!(rt;
            row.text(),
            b"and 2014  7\n184467440737095516150".as_slice()
        );
        row.put_blanks(300);
        assert_eq!(rt; row.text().len(), 256);
        Ok(())
    }

    #[test]
    fn a_write_that_fails_is_reported(rt: HostRuntime) {
        let mut out = Printer::new(rt.alloc(), blank_paper(rt.alloc(), 5));
        let mut err = blank_paper(rt.alloc(), 100);
        report(&mut err, "paper", "", out.line("two words"));
        assert_eq!(rt; out.out.text.as_slice(), b"two w".as_slice());
        assert_eq!(rt;
            err.text.as_slice(),
            b"paper: standard output: No space left on device\n".as_slice()
        );
        let mut err = blank_paper(rt.alloc(), 100);
        report(
            &mut err,
            "wall",
            "",
            Printer::new(rt.alloc(), Wall).bytes(b"b"),
        );
        assert_eq!(rt;
            err.text.as_slice(),
            b"wall: standard output: failed to write whole buffer\n".as_slice()
        );
    }

    #[test]
    fn a_failure_is_told_without_its_number(rt: HostRuntime) {
        let mut err = blank_paper(rt.alloc(), 300);
        let outcomes = [
            Err(Failure::Sheet(io::Error::from_raw_os_error(21))),
            Err(Failure::Sheet(io::Error::other("it is (old)"))),
            Err(Failure::Use),
            Ok(()),
            Err(Failure::Input(io::Error::from_raw_os_error(11))),
            Err(Failure::from(AllocError)),
        ];
        for outcome in outcomes {
            report(&mut err, "book", "give none", outcome);
        }
        let said = "book: sheet: Is a directory\nbook: sheet: it is (old)\nbook: give none\n\
            book: standard input: Resource temporarily unavailable\nbook: out of memory\n";
        assert_eq!(rt; err.text.as_slice(), said.as_bytes());
    }

    #[test]
    fn an_empty_argument_is_one(rt: HostRuntime) {
        assert!(rt; has_argument(&OneEmpty, 0));
        assert!(rt; has_argument(&OneEmpty, 1));
        assert!(rt; !has_argument(&OneEmpty, 2));
        let mut word = [0u8; 4];
        assert_eq!(rt; only_argument(&OneEmpty, &mut word), Some(b"".as_slice()));
    }
}
