// Words and numbers of the contract with the user that the rules and the page format share, and why a call is turned down. specs/Terms.antt has the same for the
// definitions; every proof that meets both fails where they differ.
#![tactic(auto)]

ghost use Rattle.std.specs.Prelude.{◌≡◌};
ghost use Rattle.terms.specs.Refusals.{number_of};

pub const MAX_RADIO: u16 = 4095;

pub const MAX_ON: usize = 512;

pub const PAGES: usize = 128;

pub const PAGE_ENTRIES: usize = 32;

pub const NO_PAGE: u16 = 65535;

pub const NO_CELL: u16 = 65535;

// "A place is east and north, each 0 to 65,535 metres."
#[derive(Clone, Copy, Debug, PartialEq, Eq)]
pub struct Place {
    pub east: u16,
    pub north: u16,
}

// What an entry has of its radio, and what its latest report told.
#[derive(Clone, Copy, Debug, PartialEq, Eq)]
pub struct Fix {
    pub place: Place,
    pub minute: u32,
}

// Why a call is turned down.
#[derive(Clone, Copy, Debug, PartialEq, Eq)]
pub enum Refusal {
    // "The page buffer isn't 41,984 bytes."
    WrongSize,
    // "The store isn't sound."
    Unsound,
    // "Fewer than 4 bytes are at hand, or the length is below 4 or above what is at hand."
    NotAtHand,
    // "The kind isn't 1 to 4."
    UnknownKind,
    // "The length isn't the one for its kind."
    WrongLength,
    // "A radio is 0 or above 4,095."
    NoRadio,
    // "A range has west above east or south above north."
    Reversed,
    // "A sign-on names a radio that is on."
    OnAlready,
    // "A report or sign-off names a radio that isn't on."
    NotOn,
    // "A sign-on comes while 512 are on."
    NoRoom,
    // "The answer buffer has fewer than 6 × n bytes for n radios found", or the file does not fit.
    ShortBuffer,
    // "place is (0,0) in kind 1 or 2"
    NoFix,
    // "a minute below the store's highest"
    TooEarly,
    // "a watch number above 15, or clearing one not set"
    NoWatch,
    // "a line that isn't four fields of plain digits in range .., or a wrong header"
    BadLine,
}

impl Refusal {
    // The number under which it is answered.
    pub fn number(self) -> u16
        ensures { result ≡ number_of self }
    {
        match self {
            Refusal::WrongSize => 1,
            Refusal::Unsound => 2,
            Refusal::NotAtHand => 3,
            Refusal::UnknownKind => 4,
            Refusal::WrongLength => 5,
            Refusal::NoRadio => 6,
            Refusal::Reversed => 7,
            Refusal::OnAlready => 8,
            Refusal::NotOn => 9,
            Refusal::NoRoom => 10,
            Refusal::ShortBuffer => 11,
            Refusal::NoFix => 12,
            Refusal::TooEarly => 13,
            Refusal::NoWatch => 14,
            Refusal::BadLine => 15,
        }
    }
}
