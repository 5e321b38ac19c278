// Input as every program reads it, a line at a time or a whole book, and a file by its name. A read that a signal
// interrupted is made again, and one that failed is told from the end of the input.
#![tactic(auto)]

ghost use Rattle.std.specs.Prelude.{◌≡◌, ◌≢◌, ◌≤◌, ◌<◌, ◌+◌, max, ◌==◌, if◌then◌else◌, [], length, take, slice_range, vec_len};
ghost use Rattle.std.specs.Prelude.{None, Some, MatchOption, IfSome, IfOk, OnOk, IfErr, OnErr};
ghost use Rattle.std.specs.Io.{ReadsAtMost, StartsWith, appended_bytes};
ghost use Rattle.std.specs.Io.KnownBytes.{ReadConsumes, Consumes, IsAtEnd};
ghost use Rattle.std.specs.IoError.{error_kind};
ghost use Rattle.input.specs.Input.{room_for_lines, room_for_book, Unfed, FirstFeed, AllTaken};
ghost use Rattle.input.specs.LentLines.{nothing_held, HeldWithin, FoundWithin, LentFinds};

use book_rules::LONGEST;
use std::alloc::Global;
use std::io::ErrorKind;
use std::rt::Files;
use std::{fs, io, str};

// What is held of lines at once, more than the longest line that is no error.
const ROOM: usize = 262_144;

// A byte more than the longest book has: input that fills it is longer than any book, and has a length that is refused
// with 1.
pub const BOOK: usize = LONGEST + 1;

// What is read at once.
const PIECE: usize = 65_536;

// What is read at once where there is no memory for more.
const SMALL_PIECE: usize = 8192;

// A proved loop has to end: the reads are counted to a number that no input needs, and this is the failure behind it.
fn gave_up() -> io::Error
    ensures { error_kind result ≡ ErrorKind.TimedOut }
{
    io::Error::from(io::ErrorKind::TimedOut)
}

// One read, made again where a signal interrupts it.
fn read_again<R: io::Read>(from: &mut R, buffer: &mut [u8]) -> io::Result<usize>
    ensures within { ReadsAtMost result buffer.new }
    ensures taken { ReadConsumes (R.remaining from.old) (R.remaining from.new) result buffer.new }
    ensures retried { IfErr result (λ e. error_kind e ≢ ErrorKind.Interrupted) }
{
    // A count of retries, which stands for no index: a proved loop has to end.
    for _ in 0..u64::MAX {
        match from.read(buffer) {
            Ok(count) => return Ok(count),
            Err(error) if error.kind() == io::ErrorKind::Interrupted => {}
            Err(error) => return Err(error),
        }
    }
    Err(gave_up())
}

// One read behind the bytes that are held at the front of lent ones.
fn read_behind<R: io::Read>(from: &mut R, bytes: &mut [u8], filled: &mut usize) -> io::Result<usize>
    requires { filled.old ≤ length bytes.old }
    ensures same { length bytes.new ≡ length bytes.old }
    ensures within { filled.new ≤ length bytes.new }
    ensures appends { StartsWith (take filled.new bytes.new) (take filled.old bytes.old) }
    ensures taken { Consumes (R.remaining from.old) (R.remaining from.new)
        (appended_bytes (take filled.old bytes.old) (take filled.new bytes.new)) }
    ensures count { IfOk result (λ n. filled.new ≡ filled.old + n) }
    ensures end { IfOk result (λ n. n ≡ 0 → filled.old < length bytes.old → IsAtEnd (R.remaining from.new)) }
    ensures failed { OnErr result (filled.new ≡ filled.old) }
    ensures retried { IfErr result (λ e. error_kind e ≢ ErrorKind.Interrupted) }
{
    let count = read_again(from, &mut bytes[*filled..])?;
    *filled += count;
    Ok(count)
}

// One read behind what is held. Room is made first, so that no byte is lost where there is no memory, and where there is little,
// less is read at once.
fn read_piece<R: io::Read>(from: &mut R, most: usize, held: &mut Vec<u8>) -> io::Result<usize>
    ensures appends { StartsWith held.new.items held.old.items }
    ensures taken { Consumes (R.remaining from.old) (R.remaining from.new) (appended_bytes held.old.items held.new.items) }
    ensures count { IfOk result (λ n. (vec_len held.new ≡ vec_len held.old + n) × (n ≤ most)) }
    ensures end { IfOk result (λ n. n ≡ 0 → 0 < most → IsAtEnd (R.remaining from.new)) }
    ensures failed { OnErr result (held.new.items ≡ held.old.items) }
    ensures retried { IfErr result (λ e. error_kind e ≢ ErrorKind.Interrupted) }
{
    let mut piece = [0u8; PIECE];
    let mut room = most.min(PIECE);
    if held.reserve(room).is_err() {
        room = room.min(SMALL_PIECE);
        held.reserve(room)?;
    }
    let count = read_again(from, &mut piece[..room])?;
    held.extend_from_slice(&piece[..count]).unwrap();
    Ok(count)
}

/// Reads behind what `bytes` holds, to the end of the input or until that many bytes more are read. Nothing that the reader
/// gave is lost, also where a read fails or memory runs out.
fn read_into<R: io::Read>(from: &mut R, most: usize, bytes: &mut Vec<u8>) -> io::Result<()>
    ensures appends { StartsWith bytes.new.items bytes.old.items }
    ensures most { vec_len bytes.new ≤ vec_len bytes.old + most }
    ensures taken { Consumes (R.remaining from.old) (R.remaining from.new) (appended_bytes bytes.old.items bytes.new.items) }
    ensures end { OnOk result (vec_len bytes.new < vec_len bytes.old + most → IsAtEnd (R.remaining from.new)) }
    ensures retried { IfErr result (λ e. error_kind e ≢ ErrorKind.Interrupted) }
{
    let mut left = most;
    // No `for`: what is counted is the bytes that are left, and a read brings any number of them.
    while left > 0 {
        let count = read_piece(from, left, bytes)?;
        if count == 0 {
            return Ok(());
        }
        left -= count;
    }
    Ok(())
}

/// Reads a book: a byte more of it than the longest book has, which no book's length is.
pub fn read_book_into<R: io::Read>(from: &mut R, book: &mut Vec<u8>) -> io::Result<()>
    ensures appends { StartsWith book.new.items book.old.items }
    ensures most { vec_len book.new ≤ vec_len book.old + room_for_book }
    ensures taken { Consumes (R.remaining from.old) (R.remaining from.new) (appended_bytes book.old.items book.new.items) }
    ensures end { OnOk result (vec_len book.new < vec_len book.old + room_for_book → IsAtEnd (R.remaining from.new)) }
    ensures retried { IfErr result (λ e. error_kind e ≢ ErrorKind.Interrupted) }
{
    read_into(from, BOOK, book)
}

/// Reads a file by its name in the same way. A name that is no text is no file's.
pub fn read_file_into<F: Files>(
    files: &F,
    path: &[u8],
    most: usize,
    bytes: &mut Vec<u8>,
) -> io::Result<()>
    ensures appends { StartsWith bytes.new.items bytes.old.items }
    ensures most { vec_len bytes.new ≤ vec_len bytes.old + most }
{
    let Ok(name) = str::from_utf8(path) else {
        return Err(io::Error::from(io::ErrorKind::InvalidFilename));
    };
    let mut file = fs::open(files, name)?;
    read_into(&mut file, most, bytes)
}

/// A place for a book: a byte more than the longest one has.
pub fn book_buffer() -> [u8; BOOK]
    ensures { length result ≡ room_for_book }
{
    [0; BOOK]
}

/// Reads a book into lent bytes, to the end of the input or until they are full, and needs no memory. What is read stands at the
/// front, what came before a failure too; the answer is how many bytes that are.
pub fn read_book<R: io::Read>(from: &mut R, book: &mut [u8]) -> io::Result<usize>
    ensures same { length book.new ≡ length book.old }
    ensures within { IfOk result (λ n. n ≤ length book.new) }
    ensures taken { AllTaken (R.remaining from.old) (R.remaining from.new) book.new result }
    ensures retried { IfErr result (λ e. error_kind e ≢ ErrorKind.Interrupted) }
{
    let mut filled = 0;
    // No `for`: what is counted is the bytes that are read, and a read brings any number of them.
    while filled < book.len() {
        if read_behind(from, book, &mut filled)? == 0 {
            return Ok(filled);
        }
    }
    Ok(filled)
}

/// Reads a file by its name in the same way. A name that is no text is no file's.
pub fn read_file<F: Files>(files: &F, path: &[u8], held: &mut [u8]) -> io::Result<usize>
    ensures same { length held.new ≡ length held.old }
    ensures within { IfOk result (λ n. n ≤ length held.new) }
{
    let Ok(name) = str::from_utf8(path) else {
        return Err(io::Error::from(io::ErrorKind::InvalidFilename));
    };
    let mut file = fs::open(files, name)?;
    read_book(&mut file, held)
}

/// What stands where a line is looked for.
#[derive(Clone, Debug, PartialEq, Eq, Drop)]
pub enum Line {
    /// A line, without its line feed.
    Whole(Vec<u8>),
    /// A line of more bytes than are held at once; it is passed over.
    Long,
    /// The input ended before a line feed came.
    Half,
}

/// What is held of a reader's lines in lent bytes: those from `next` to `filled` were read, and are not handed out yet.
#[derive(Clone, Copy, Debug, PartialEq, Eq)]
pub struct Held {
    pub next: usize,
    pub filled: usize,
}

/// What stands where a line is looked for in lent bytes.
#[derive(Clone, Copy, Debug, PartialEq, Eq)]
pub enum Found {
    /// A line, without its line feed: the bytes between two places.
    Whole { from: usize, to: usize },
    /// A line that leaves no room for its line feed; it is passed over.
    Long,
    /// The input ended before a line feed came.
    Half,
}

/// A place for lines: one fits that has less than 262,144 bytes.
pub fn line_buffer() -> [u8; ROOM]
    ensures { length result ≡ room_for_lines }
{
    [0; ROOM]
}

/// Before the first line.
pub fn start() -> Held
    ensures { result ≡ nothing_held }
{
    Held { next: 0, filled: 0 }
}

// Where the first line feed stands, given that none is among so many bytes at the front.
fn first_feed(bytes: &[u8], searched: usize) -> Option<usize>
    requires within { searched ≤ length bytes.now }
    requires none { Unfed (take searched bytes.now) }
    ensures { MatchOption result (Unfed bytes.now) (FirstFeed bytes.now) }
{
    let at = memchr::memchr(b'\n', &bytes[searched..])?;
    Some(searched + at)
}

// What is left where the input has ended.
fn last(held: &mut Held) -> Option<Found>
    requires { held.old.next ≡ 0 }
    ensures found { result ≡ (if held.old.filled == 0 then None else Some Found.Half) }
    ensures held { held.new ≡ nothing_held }
{
    let kept = held.filled;
    *held = Held { next: 0, filled: 0 };
    if kept == 0 { None } else { Some(Found::Half) }
}

// Passes over the rest of a line that fills the bytes.
fn pass_over<R: io::Read>(
    from: &mut R,
    bytes: &mut [u8],
    held: &mut Held,
) -> io::Result<Option<Found>>
    requires full { held.old.filled ≡ length bytes.old }
    requires front { held.old.next ≡ 0 }
    requires none { Unfed (take held.old.filled bytes.old) }
    ensures { LentFinds (take held.old.filled bytes.old) (R.remaining from.old) result bytes.new held.new (R.remaining from.new) }
{
    // A count of reads, which stands for no index: a proved loop has to end.
    for _ in 0..u64::MAX {
        *held = Held { next: 0, filled: 0 };
        if read_behind(from, bytes, &mut held.filled)? == 0 {
            return Ok(Some(Found::Half));
        }
        if let Some(at) = first_feed(&bytes[..held.filled], 0) {
            held.next = at + 1;
            return Ok(Some(Found::Long));
        }
    }
    Err(gave_up())
}

// Reads on behind what is held at the front, in which no line ends, until one does.
fn read_line<R: io::Read>(
    from: &mut R,
    bytes: &mut [u8],
    held: &mut Held,
) -> io::Result<Option<Found>>
    requires within { held.old.filled ≤ length bytes.old }
    requires front { held.old.next ≡ 0 }
    requires none { Unfed (take held.old.filled bytes.old) }
    ensures { LentFinds (take held.old.filled bytes.old) (R.remaining from.old) result bytes.new held.new (R.remaining from.new) }
{
    while held.filled < bytes.len() {
        let searched = held.filled;
        if read_behind(from, bytes, &mut held.filled)? == 0 {
            return Ok(last(held));
        }
        if let Some(to) = first_feed(&bytes[..held.filled], searched) {
            held.next = to + 1;
            return Ok(Some(Found::Whole { from: 0, to }));
        }
    }
    pass_over(from, bytes, held)
}

// The next line in lent bytes. What is held of a line when a read fails stays held.
fn find_line<R: io::Read>(
    from: &mut R,
    bytes: &mut [u8],
    held: &mut Held,
) -> io::Result<Option<Found>>
    requires { HeldWithin bytes.old held.old }
    ensures { LentFinds (slice_range bytes.old held.old.next held.old.filled) (R.remaining from.old) result bytes.new held.new
        (R.remaining from.new) }
{
    let Held { next, filled } = *held;
    if let Some(at) = first_feed(&bytes[next..filled], 0) {
        held.next = next + at + 1;
        return Ok(Some(Found::Whole {
            from: next,
            to: next + at,
        }));
    }
    bytes.copy_within(next..filled, 0);
    *held = Held {
        next: 0,
        filled: filled - next,
    };
    read_line(from, bytes, held)
}

/// The next line in lent bytes, or `None` at the end of the input; needs no memory. More is read only where no line ends in what
/// is held, which then moves to the front, so whoever types a line gets its answer before typing the next. What is read of a line
/// when a read fails is let go.
pub fn next_line<R: io::Read>(
    from: &mut R,
    bytes: &mut [u8],
    held: &mut Held,
) -> io::Result<Option<Found>>
    requires { HeldWithin bytes.old held.old }
    ensures finds { LentFinds (slice_range bytes.old held.old.next held.old.filled) (R.remaining from.old) result bytes.new held.new
        (R.remaining from.new) }
    ensures within { IfOk result (λ found. IfSome found (FoundWithin bytes.new)) }
    ensures let_go { OnErr result (held.new ≡ nothing_held) }
{
    match find_line(from, bytes, held) {
        Ok(found) => Ok(found),
        Err(error) => {
            *held = start();
            Err(error)
        }
    }
}

/// The lines of a reader. At most `room` bytes are held of it at once.
// Not `BufReader::take`: its contract does not say what it leaves of the reader behind its limit.
#[derive(Drop)]
pub struct Lines<R> {
    from: R,
    bytes: Vec<u8>,
    held: Held,
    room: usize,
    ghost some: { 0 < room },
    ghost within: { HeldWithin bytes.items held },
    ghost made: { 0 < vec_len bytes → vec_len bytes ≡ room },
}

impl<R: io::Read> Lines<R> {
    ghost use Rattle.input.specs.Lines.{held_bytes, lines_room, lines_left, FindsNext};

    /// Nothing is read yet. A line fits that has less than 262,144 bytes.
    pub fn new(alloc: Global, from: R) -> Lines<R>
        ensures room { lines_room result ≡ room_for_lines }
        ensures held { held_bytes result ≡ [] }
        ensures left { lines_left R.remaining result ≡ R.remaining from }
    {
        Lines::with_room(alloc, ROOM, from)
    }

    /// A line fits that has less bytes than `room`; an empty one always does.
    fn with_room(alloc: Global, room: usize, from: R) -> Lines<R>
        ensures room { lines_room result ≡ max room 1 }
        ensures held { held_bytes result ≡ [] }
        ensures left { lines_left R.remaining result ≡ R.remaining from }
    {
        Lines {
            from,
            bytes: Vec::new(alloc),
            held: start(),
            room: room.max(1),
        }
    }

    // Room is made once, before the first read.
    fn make_room(&mut self) -> io::Result<()>
        ensures made { OnOk result (vec_len self.new.bytes ≡ lines_room self.new) }
        ensures failed { IfErr result (λ e. error_kind e ≡ ErrorKind.OutOfMemory) }
        ensures held { held_bytes self.new ≡ held_bytes self.old }
        ensures room { lines_room self.new ≡ lines_room self.old }
        ensures left { lines_left R.remaining self.new ≡ lines_left R.remaining self.old }
    {
        if self.bytes.is_empty() {
            self.bytes.resize(self.room, 0)?;
        }
        Ok(())
    }

    /// The next line, or `None` at the end of the input. More is read only where no line ends in what is held, so whoever types a
    /// line gets its answer before typing the next. After a failure the next call goes on with the bytes that are held.
    fn next_line(&mut self) -> io::Result<Option<Line>>
        ensures { FindsNext R.remaining self.old result self.new }
    {
        self.make_room()?;
        match find_line(&mut self.from, &mut self.bytes, &mut self.held)? {
            Some(Found::Whole { from, to }) => Ok(Some(Line::Whole(self.hand_out(from, to)?))),
            Some(Found::Long) => Ok(Some(Line::Long)),
            Some(Found::Half) => Ok(Some(Line::Half)),
            None => Ok(None),
        }
    }

    // Hands out a copy of a line that was found; where there is no memory for it, it is held again.
    fn hand_out(&mut self, from: usize, to: usize) -> io::Result<Vec<u8>>
        requires order { from ≤ to }
        requires next { self.old.held.next ≡ to + 1 }
        ensures line { IfOk result (λ line. line.items ≡ slice_range self.old.bytes.items from to) }
        ensures rest { OnOk result (held_bytes self.new ≡ held_bytes self.old) }
        ensures again { OnErr result (held_bytes self.new ≡ slice_range self.old.bytes.items from self.old.held.filled) }
        ensures failed { IfErr result (λ e. error_kind e ≡ ErrorKind.OutOfMemory) }
        ensures room { lines_room self.new ≡ lines_room self.old }
        ensures left { lines_left R.remaining self.new ≡ lines_left R.remaining self.old }
    {
        self.held.next = from;
        let line = Vec::from_slice(*self.bytes.allocator(), &self.bytes[from..to])?;
        self.held.next = to + 1;
        Ok(line)
    }
}

impl<R: io::Read + Drop> Iterator for Lines<R> {
    ghost use Rattle.std.specs.Option.{option_transpose};
    ghost use Rattle.input.specs.Lines.{FindsNext};

    type Item = io::Result<Line>;

    ghost next_gives = { λ before found after. FindsNext R.remaining before (option_transpose found) after };

    fn next(&mut self) -> Option<io::Result<Line>> {
        self.next_line().transpose()
    }
}

#[cfg(test)]
mod tests {
    use super::*;
    use std::test::Fail;

    // A reader of some bytes: it gives a few at a time and is interrupted before each time, and fails behind them or ends.
    #[derive(Drop)]
    struct Feed<'a> {
        rest: &'a [u8],
        most: usize,
        fails: bool,
        is_interrupted: bool,
    }

    fn give(rest: &[u8], most: usize, fails: bool) -> Feed<'_> {
        Feed {
            rest,
            most,
            fails,
            is_interrupted: false,
        }
    }

    impl io::Read for Feed<'_> {
        fn read(&mut self, buf: &mut [u8]) -> io::Result<usize> {
            self.is_interrupted = !self.is_interrupted;
            if self.is_interrupted {
                return Err(io::Error::from(io::ErrorKind::Interrupted));
            }
            if self.rest.is_empty() & self.fails {
                return Err(io::Error::from_raw_os_error(5));
            }
            let count = self.most.min(buf.len()).min(self.rest.len());
            buf[..count].copy_from_slice(&self.rest[..count]);
            self.rest = &self.rest[count..];
            Ok(count)
        }
    }

    #[test]
    fn a_book_is_read_in_pieces(rt: HostRuntime) -> Result<(), Fail> {
        let mut held = Vec::new(rt.alloc());
        read_into(&mut give(b"abcdefg", 3, false), 8, &mut held)?;
        assert_eq!(rt; held.as_slice(), b"abcdefg".as_slice());
        held.clear();
        let mut from = give(b"ABCDEFGHIJ", 3, true);
        read_into(&mut from, 8, &mut held)?;
        assert_eq!(rt; held.as_slice(), b"ABCDEFGH".as_slice());
        assert_eq!(rt; from.rest, b"IJ".as_slice());
        Ok(())
    }

    #[test]
    fn a_failure_after_some_bytes_is_told(rt: HostRuntime) {
        let mut held = Vec::new(rt.alloc());
        let Err(error) = read_book_into(&mut give(b"abc", 2, true), &mut held) else {
            assert!(rt; false, "it was read");
            return;
        };
        assert_eq!(rt; error.raw_os_error(), Some(5));
        assert_eq!(rt; held.as_slice(), b"abc".as_slice());
    }

    #[test]
    fn lines_come_in_order(rt: HostRuntime) -> Result<(), Fail> {
        let text = b"ab\n\n1234567\n12345678\n123456789012\nc\nd";
        let mut lines = Lines::with_room(rt.alloc(), 8, give(text, 5, false));
        for word in [b"ab".as_slice(), b"", b"1234567"] {
            let line = Vec::from_slice(rt.alloc(), word)?;
            assert_eq!(rt; lines.next_line()?, Some(Line::Whole(line)));
        }
        assert_eq!(rt; lines.next_line()?, Some(Line::Long));
        assert_eq!(rt; lines.next_line()?, Some(Line::Long));
        let line = Vec::from_slice(rt.alloc(), b"c")?;
        assert_eq!(rt; lines.next_line()?, Some(Line::Whole(line)));
        assert_eq!(rt; lines.next_line()?, Some(Line::Half));
        assert_eq!(rt; lines.next_line()?, None);
        Ok(())
    }

    #[test]
    fn a_failure_within_a_line_is_told(rt: HostRuntime) -> Result<(), Fail> {
        let mut lines = Lines::new(rt.alloc(), give(b"a\nbc", 3, true));
        let line = Vec::from_slice(rt.alloc(), b"a")?;
        assert_eq!(rt; lines.next_line()?, Some(Line::Whole(line)));
        for _ in 0..2 {
            let Err(error) = lines.next_line() else {
                assert!(rt; false, "a line was found");
                return Ok(());
            };
            assert_eq!(rt; error.raw_os_error(), Some(5));
        }
        assert_eq!(rt;
            &lines.bytes[lines.held.next..lines.held.filled],
            b"bc".as_slice()
        );
        Ok(())
    }

    // The input ends within a line that is too long; none is handed out.
    #[test]
    fn lines_are_gone_through(rt: HostRuntime) -> Result<(), Fail> {
        let mut found = Vec::new(rt.alloc());
        for line in Lines::with_room(rt.alloc(), 4, give(b"123\n1234567", 3, false)).take(9) {
            found.push(line?)?;
        }
        let line = Vec::from_slice(rt.alloc(), b"123")?;
        assert_eq!(rt; found, vec![in rt.alloc(); Line::Whole(line), Line::Half]?);
        Ok(())
    }

    #[test]
    fn a_book_is_read_into_lent_bytes(rt: HostRuntime) -> Result<(), Fail> {
        let mut held = [0u8; 8];
        assert_eq!(rt; read_book(&mut give(b"abcdefg", 3, false), &mut held)?, 7);
        assert_eq!(rt; held.as_slice(), b"abcdefg\0".as_slice());
        let mut from = give(b"ABCDEFGHIJ", 3, true);
        assert_eq!(rt; read_book(&mut from, &mut held)?, 8);
        assert_eq!(rt; held.as_slice(), b"ABCDEFGH".as_slice());
        assert_eq!(rt; from.rest, b"IJ".as_slice());
        Ok(())
    }

    #[test]
    fn what_came_before_a_failure_is_lent(rt: HostRuntime) {
        let mut held = [0u8; 8];
        let Err(error) = read_book(&mut give(b"abc", 2, true), &mut held) else {
            assert!(rt; false, "it was read");
            return;
        };
        assert_eq!(rt; error.raw_os_error(), Some(5));
        assert_eq!(rt; held.as_slice(), b"abc\0\0\0\0\0".as_slice());
    }

    #[test]
    fn lines_come_in_order_in_lent_bytes(rt: HostRuntime) -> Result<(), Fail> {
        let text = b"ab\n\n1234567\n12345678\n123456789012\nc\nd";
        let mut from = give(text, 5, false);
        let mut bytes = [0u8; 8];
        let mut held = start();
        let mut line = next_line(&mut from, &mut bytes, &mut held)?;
        assert_eq!(rt; line, Some(Found::Whole { from: 0, to: 2 }));
        assert_eq!(rt; &bytes[..2], b"ab".as_slice());
        line = next_line(&mut from, &mut bytes, &mut held)?;
        assert_eq!(rt; line, Some(Found::Whole { from: 3, to: 3 }));
        line = next_line(&mut from, &mut bytes, &mut held)?;
        assert_eq!(rt; line, Some(Found::Whole { from: 0, to: 7 }));
        assert_eq!(rt; &bytes[..7], b"1234567".as_slice());
        line = next_line(&mut from, &mut bytes, &mut held)?;
        assert_eq!(rt; line, Some(Found::Long));
        line = next_line(&mut from, &mut bytes, &mut held)?;
        assert_eq!(rt; line, Some(Found::Long));
        line = next_line(&mut from, &mut bytes, &mut held)?;
        assert_eq!(rt; line, Some(Found::Whole { from: 0, to: 1 }));
        assert_eq!(rt; &bytes[..1], b"c".as_slice());
        line = next_line(&mut from, &mut bytes, &mut held)?;
        assert_eq!(rt; line, Some(Found::Half));
        line = next_line(&mut from, &mut bytes, &mut held)?;
        assert_eq!(rt; line, None);
        Ok(())
    }

    #[test]
    fn what_is_held_in_lent_bytes_is_let_go_after_a_failure(rt: HostRuntime) -> Result<(), Fail> {
        let mut from = give(b"a\nbc", 3, true);
        let mut bytes = [0u8; 8];
        let mut held = start();
        let line = next_line(&mut from, &mut bytes, &mut held)?;
        assert_eq!(rt; line, Some(Found::Whole { from: 0, to: 1 }));
        let Err(error) = next_line(&mut from, &mut bytes, &mut held) else {
            assert!(rt; false, "a line was found");
            return Ok(());
        };
        assert_eq!(rt; error.raw_os_error(), Some(5));
        assert_eq!(rt; held, start());
        Ok(())
    }

    #[test]
    fn files_are_read_into_lent_bytes(rt: HostRuntime) -> Result<(), Fail> {
        let mut held = [7u8; 4];
        assert_eq!(rt; read_file(&rt, b"/dev/null", &mut held)?, 0);
        assert_eq!(rt; held.as_slice(), [7, 7, 7, 7].as_slice());
        assert_eq!(rt; read_file(&rt, b"/dev/zero", &mut held)?, 4);
        assert_eq!(rt; held.as_slice(), [0, 0, 0, 0].as_slice());
        let Err(error) = read_file(&rt, b"/dev/\xff", &mut held) else {
            assert!(rt; false, "it was read");
            return Ok(());
        };
        assert!(rt; error.kind() == io::ErrorKind::InvalidFilename);
        Ok(())
    }

    // The kind of the failure of a file that cannot be read.
    fn failure(rt: &HostRuntime, path: &[u8]) -> Option<io::ErrorKind> {
        let mut held = Vec::new(rt.alloc());
        let read = read_file_into(rt, path, 8, &mut held);
        Some(read.err()?.kind())
    }

    #[test]
    fn files_are_read_by_their_names(rt: HostRuntime) -> Result<(), Fail> {
        let mut held = Vec::from_slice(rt.alloc(), &[7])?;
        read_file_into(&rt, b"/dev/null", 4, &mut held)?;
        assert_eq!(rt; held.as_slice(), [7].as_slice());
        read_file_into(&rt, b"/dev/zero", 4, &mut held)?;
        assert_eq!(rt; held.as_slice(), [7, 0, 0, 0, 0].as_slice());
        assert!(rt; failure(&rt, b"/") == Some(io::ErrorKind::IsADirectory));
        assert!(rt; failure(&rt, b"") == Some(io::ErrorKind::NotFound));
        assert!(rt; failure(&rt, b"/no/such/file") == Some(io::ErrorKind::NotFound));
        assert!(rt; failure(&rt, b"/dev/\xff") == Some(io::ErrorKind::InvalidFilename));
        Ok(())
    }
}
