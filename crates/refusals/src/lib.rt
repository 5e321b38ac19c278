// Why a call refuses, whatever it is asked of: one type for all calls, and the number by which callers in C know it.
#![tactic(auto)]

ghost use Rattle.std.specs.Prelude.{◌≡◌};
ghost use Rattle.units.specs.Units.{record_index};
ghost use Rattle.refusals.specs.Refusals.{number_of, line_of, position_of, position_at, record_of};

use std::error::Error;
use std::fmt;
use units::RecordIndex;

// Where a number of a sheet stands: its month, 1–12, and its place in the month, 1–24, as the documents count them; zeros for
// none.
#[derive(Clone, Copy, Debug, PartialEq, Eq)]
pub struct Position {
    pub month: u32,
    pub place: u32,
}

pub const NOWHERE: Position = Position { month: 0, place: 0 };

impl Position {
    // The position of a number by its month and its place in the month, both counted from 0, as a program counts them.
    pub fn at(month: u8, place: u8) -> Position
        ensures { result ≡ position_at month place }
    {
        Position {
            month: u32::from(month) + 1,
            place: u32::from(place) + 1,
        }
    }
}

// What a call objects to. What it objects to in one place names the place.
#[derive(Clone, Copy, Debug, PartialEq, Eq)]
pub enum Refusal {
    // The book's length is not a multiple of 80 from 160 to 64,000.
    BookLength,
    // The book is damaged: this record is faulty, and none before it.
    FaultyRecord(RecordIndex),
    // The book has no room for one more record.
    BookFull,
    // The user number is 0, or a user has it already.
    NumberTaken,
    // A detail of the enrolment is out of its range.
    DetailOutOfRange,
    // No user has the number.
    UnknownUser,
    // There is no such day, or no such option.
    NoSuchDayOrOption,
    // The day is outside the election's window, or the user's open year is the last one.
    OutsideWindow,
    // The year takes no advance, or the run is none, is not due in that year, or was made for it already.
    RunNotOpen,
    // The rate or an estimate is above its limit.
    OrderOutOfRange,
    // The sheet's length, its header or one of its zero words is wrong; of the operator's text, a length.
    SheetForm,
    // The sheet's year is not the user's open year, or is above the last that can be closed.
    YearNotOpen,
    // A number of the sheet is above its limit: the one at the position.
    AboveLimit(Position),
    // A domestic user withdrew more in a month than the monthly method starts from.
    DomesticExcess,
    // The user's open year is charged already, or is above the last that can be closed.
    ChargeNotOpen,
    // This line of the operator's text, 1–13, is not of its shape or month, is missing, or stands behind the twelfth.
    WrongLine(u32),
    // A single reading has energy in a band that it does not have, at the position.
    UnusedBand(Position),
    // The month is not 1–12, or the band is none of the injected reading.
    NoSuchField,
    // The loss factor is above 200 thousandths.
    FactorAboveLimit,
    // A buffer of the archive is not of a sheet's length.
    BufferLength,
}

impl Refusal {
    // The refusal's number in the documents and in C; never 0, which an accepted call answers there.
    pub fn number(self) -> u32
        ensures { result ≡ number_of self }
    {
        match self {
            Refusal::BookLength => 1,
            Refusal::FaultyRecord(_) => 2,
            Refusal::BookFull => 3,
            Refusal::NumberTaken => 4,
            Refusal::DetailOutOfRange => 5,
            Refusal::UnknownUser => 6,
            Refusal::NoSuchDayOrOption => 7,
            Refusal::OutsideWindow => 8,
            Refusal::RunNotOpen => 9,
            Refusal::OrderOutOfRange => 10,
            Refusal::SheetForm => 11,
            Refusal::YearNotOpen => 12,
            Refusal::AboveLimit(_) => 13,
            Refusal::DomesticExcess => 14,
            Refusal::ChargeNotOpen => 16,
            Refusal::WrongLine(_) => 17,
            Refusal::UnusedBand(_) => 19,
            Refusal::NoSuchField => 23,
            Refusal::FactorAboveLimit => 26,
            Refusal::BufferLength => 27,
        }
    }

    // Where the number of a sheet stands that is refused; zeros after another refusal.
    pub fn position(self) -> Position
        ensures { result ≡ position_of self }
    {
        match self {
            Refusal::AboveLimit(position) | Refusal::UnusedBand(position) => position,
            _ => NOWHERE,
        }
    }

    // Which line of the operator's text is refused; 0 after another refusal.
    pub fn line(self) -> u32
        ensures { result ≡ line_of self }
    {
        match self {
            Refusal::WrongLine(line) => line,
            _ => 0,
        }
    }

    // Which record is faulty; 0 after another refusal.
    pub fn faulty_record(self) -> RecordIndex
        ensures { result ≡ record_index (record_of self) }
    {
        match self {
            Refusal::FaultyRecord(index) => index,
            _ => RecordIndex(0),
        }
    }
}

// What is refused, in words.
impl fmt::Display for Refusal {
    fn fmt<W: fmt::Write>(&self, f: &mut fmt::Formatter<W>) -> fmt::Result {
        match self {
            Refusal::BookLength => f.write_str("the length is not that of a book"),
            Refusal::FaultyRecord(index) => write!(f, "record {} is faulty", index.0),
            Refusal::BookFull => f.write_str("the book is full"),
            Refusal::NumberTaken => f.write_str("the user number is 0 or taken"),
            Refusal::DetailOutOfRange => f.write_str("a detail is out of its range"),
            Refusal::UnknownUser => f.write_str("no user has the number"),
            Refusal::NoSuchDayOrOption => f.write_str("there is no such day or option"),
            Refusal::OutsideWindow => f.write_str("the day is outside the election's window"),
            Refusal::RunNotOpen => f.write_str("the run is not open"),
            Refusal::OrderOutOfRange => f.write_str("the rate or an estimate is above its limit"),
            Refusal::SheetForm => f.write_str("the form of the sheet is wrong"),
            Refusal::YearNotOpen => f.write_str("the sheet's year is not open"),
            Refusal::AboveLimit(position) => write!(
                f,
                "month {}, place {}: above the limit",
                position.month, position.place
            ),
            Refusal::DomesticExcess => f.write_str("a domestic user withdrew too much in a month"),
            Refusal::ChargeNotOpen => f.write_str("the open year cannot be charged"),
            Refusal::WrongLine(line) => write!(f, "line {line} of the text is wrong"),
            Refusal::UnusedBand(position) => write!(
                f,
                "month {}, place {}: a band that a single reading does not have",
                position.month, position.place
            ),
            Refusal::NoSuchField => f.write_str("the reading has no such month or band"),
            Refusal::FactorAboveLimit => f.write_str("the loss factor is above its limit"),
            Refusal::BufferLength => f.write_str("a buffer has another length than a sheet"),
        }
    }
}

impl Error for Refusal {}
