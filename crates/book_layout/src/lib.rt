// The book's records: where each record and each field stands (document 01, "Book"). A byte past the end of a record or of
// the book reads as 0, so that every string of bytes is an ordinary input.
#![tactic(auto)]

ghost use Rattle.std.specs.Prelude.{◌≡◌, ◌+◌, ◌*◌, ◌<◌, ◌≤◌, min, length};
ghost use Rattle.units.specs.Limits.{record_length};
ghost use Rattle.codec.specs.Bytes.{stored};
ghost use Rattle.book_layout.specs.Fields.{record_at, put_record, bytes, get};
ghost use Rattle.book_layout.specs.Fields.{all_zero, unnamed_of_head};

use codec::Number;
use units::{RECORD_LENGTH, RecordIndex};

pub mod kind;
pub mod place;

/// The bytes of a whole record.
pub type Record = [u8; RECORD_LENGTH];

// By `as`: no `From` leads from 32 bits to `usize`.
fn start_of(index: RecordIndex) -> usize
    ensures { result ≡ record_length * index.0 }
{
    RECORD_LENGTH * (index.0 as usize)
}

/// The bytes of the record at an index: none past the end of the book.
pub fn record<'a>(book: &'a [u8], index: RecordIndex) -> &'a [u8]
    ensures { result.now ≡ record_at book.now index.0 }
{
    let start = start_of(index);
    let from = start.min(book.len());
    let to = (start + RECORD_LENGTH).min(book.len());
    &book[from..to]
}

/// A record that the book has whole, by its number. Its length is known, so that no read of it has to look for its end.
// That it is whole is asked at a place in any bytes: `UsedBook` and `User` carry it where the book is known.
#[tactic(auto, unfolding(crate::specs::Fields::record_at, codec::specs::Bytes::part))]
pub fn whole_record<'a>(book: &'a [u8], index: usize) -> &'a Record
    requires { record_length * index + record_length ≤ length book.now }
    ensures { result.now ≡ record_at book.now index }
{
    let start = RECORD_LENGTH * index;
    <&Record>::try_from(&book[start..start + RECORD_LENGTH]).unwrap()
}

/// The same, by its index.
pub fn whole<'a>(book: &'a [u8], index: RecordIndex) -> &'a Record
    requires { record_length * index.0 + record_length ≤ length book.now }
    ensures { result.now ≡ record_at book.now index.0 }
{
    whole_record(book, index.0 as usize)
}

/// The image goes to its record's place.
// Asked as in `whole_record`: after the first of a call's records is written no view of the book holds.
#[tactic(auto, unfolding(crate::specs::Fields::put_record, codec::specs::Bytes::stored))]
pub fn store(book: &mut [u8], index: RecordIndex, image: Record)
    requires { record_length * index.0 + record_length ≤ length book.old }
    ensures { book.new ≡ put_record index.0 image book.old }
{
    let start = start_of(index);
    book[start..start + RECORD_LENGTH].copy_from_slice(&image);
}

/// The head's bytes that no field names are zero.
pub fn head_rest_zero(r: &[u8]) -> bool
    ensures { result ≡ all_zero unnamed_of_head r.now }
{
    codec::zeros(r, 8, 72)
}

/// The number in a field of a record, as wide as its type.
// A field is known by its place in a record, so that the two are given side by side.
#[tactic(auto, unfolding(crate::specs::Fields::get))]
pub fn field<T: Number>(r: &[u8], at: usize) -> T
    requires { at < record_length }
    ensures { T.value result ≡ get (bytes at T.WIDTH) r.now }
{
    codec::read(r, at)
}
