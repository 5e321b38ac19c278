// What the kind byte of a record says (document 01, "Book"): "kind 1" of a user, "2 advance, 3 closing" of an entry.
ghost use Rattle.std.specs.Prelude.{◌≡◌, eqb};
ghost use Rattle.book_layout.specs.Fields.{get, kind_field, all_zero};
ghost use Rattle.book_layout.specs.Kinds.{kind_number, kind_named, unnamed_in};

use crate::place;

/// What a record is.
#[derive(Clone, Copy, Debug, PartialEq, Eq)]
pub enum Kind {
    User,
    Advance,
    Closing,
}

impl From<Kind> for u8 {
    ghost from_gives = { λ kind number. number ≡ kind_number kind };

    fn from(kind: Kind) -> u8 {
        match kind {
            Kind::User => 1,
            Kind::Advance => 2,
            Kind::Closing => 3,
        }
    }
}

impl Kind {
    /// The kind of a record; none where its number is no kind's.
    #[tactic(auto, unfolding(crate::specs::Fields::get, crate::specs::Kinds::kind_named))]
    pub fn of(r: &[u8]) -> Option<Kind>
        ensures { result ≡ kind_named (get kind_field r.now) }
    {
        match codec::read::<u8>(r, place::KIND) {
            1 => Some(Kind::User),
            2 => Some(Kind::Advance),
            3 => Some(Kind::Closing),
            _ => None,
        }
    }

    /// Whether a record is of this kind.
    #[tactic(auto, unfolding(crate::specs::Fields::get))]
    pub fn is_of(self, r: &[u8]) -> bool
        ensures { result ≡ eqb (get kind_field r.now) (kind_number self) }
    {
        codec::read::<u8>(r, place::KIND) == u8::from(self)
    }

    /// Whether the bytes that no field of a record of this kind names are zero.
    #[tactic(auto, unfolding(crate::specs::Fields::all_zero))]
    pub fn rest_is_zero(self, r: &[u8]) -> bool
        ensures { result ≡ all_zero (unnamed_in self) r.now }
    {
        match self {
            Kind::User => codec::zeros(r, 29, 3) & codec::zeros(r, 72, 8),
            Kind::Advance => codec::zeros(r, 16, 48) & codec::zeros(r, 78, 2),
            Kind::Closing => codec::zeros(r, 76, 4),
        }
    }
}
