// A record's bytes: what they ask, or why they are turned down. No byte past the slice is read.
#![tactic(auto)]

ghost use Rattle.std.specs.Prelude.{◌≡◌, ◌≤◌, length, Some};
ghost use Rattle.terms.specs.Values.{fix_of, place_of};
ghost use Rattle.rules.specs.Records.{length_field, kind_field, length_of, radio_field, place_field, minute_field, fix_field, rect_field, request_of, not_at_hand, no_radio, no_fix, too_early, reversed, on_already, not_on, no_room, refusal};
ghost use Rattle.desk.specs.Views.{radios_of, rect_of};
ghost use Rattle.desk.specs.Held.{on_with};
ghost use Rattle.waiting.specs.On.{GoodOn};
ghost use Rattle.records.specs.Kinds.{kind_number, Decodes};
ghost use Rattle.records.specs.Asked.{head_bytes, radio_end, place_end, rect_end, Whole, on_in, asks, asked_in, asked_of, checked};

use desk::{Desk, Rectangle};
use terms::{Fix, MAX_RADIO, Place, Refusal};

// The length and the kind.
pub const HEAD_BYTES: usize = 4;

// The minute, which every record ends with.
const MINUTE_BYTES: usize = 4;

// What a record asks.
#[derive(Clone, Copy, Debug, PartialEq, Eq)]
pub enum Kind {
    SignOn,
    Report,
    SignOff,
    Range,
}

// What is asked: of a radio, or of a rectangle, at a minute.
#[derive(Clone, Copy)]
pub enum Asked {
    SignOn { radio: u16, fix: Fix },
    Report { radio: u16, fix: Fix },
    SignOff { radio: u16, minute: u32 },
    Range { area: Rectangle, minute: u32 },
}

// ---- the record table

impl Kind {
    // "Kind 1 sign-on", "Kind 2 report", "Kind 3 sign-off", "Kind 4 range"
    pub fn number(self) -> u16
        ensures { result ≡ kind_number self }
    {
        match self {
            Kind::SignOn => 1,
            Kind::Report => 2,
            Kind::SignOff => 3,
            Kind::Range => 4,
        }
    }

    // "the four kinds as four cases with the length stated in each"
    fn length(self) -> u16
        ensures { length_of (kind_number self) ≡ Some result }
    {
        match self {
            Kind::SignOn => 14,
            Kind::Report => 14,
            Kind::SignOff => 10,
            Kind::Range => 16,
        }
    }
}

impl TryFrom<u16> for Kind {
    type Error = Refusal;

    ghost try_from_gives = { Decodes };

    // 4: "The kind isn't 1 to 4.", "and none for any other kind"
    fn try_from(number: u16) -> Result<Kind, Refusal> {
        match number {
            1 => Ok(Kind::SignOn),
            2 => Ok(Kind::Report),
            3 => Ok(Kind::SignOff),
            4 => Ok(Kind::Range),
            _ => Err(Refusal::UnknownKind),
        }
    }
}

// ---- the head

// "its length in bytes"
#[tactic(auto, unfolding(rules::specs::Records::length_field))]
fn length_field(bytes: &[u8]) -> u16
    requires { head_bytes ≤ length bytes.now }
    ensures { result ≡ length_field bytes.now }
{
    fields::read(bytes, 0)
}

// "its kind"
#[tactic(auto, unfolding(rules::specs::Records::kind_field))]
fn kind_field(bytes: &[u8]) -> u16
    requires { head_bytes ≤ length bytes.now }
    ensures { result ≡ kind_field bytes.now }
{
    fields::read(bytes, 2)
}

// 3: "Fewer than 4 bytes are at hand, or the length is below 4 or above what is at hand."
fn not_at_hand(bytes: &[u8]) -> bool
    ensures { result ≡ not_at_hand bytes.now }
{
    if bytes.len() < HEAD_BYTES {
        return true;
    }
    let stated = length_field(bytes) as usize;
    stated < HEAD_BYTES || bytes.len() < stated
}

// ---- a record that passes checks 3 to 5

// The bytes of a record that has the length of its kind, all at hand.
#[derive(Clone, Copy)]
struct Record<'a> {
    bytes: &'a [u8],
    kind: Kind,
    ghost of_kind: { kind_field bytes.now ≡ kind_number kind },
    ghost whole: { Whole bytes.now },
}

#[tactic(auto, unfolding(rules::specs::Records::radio_field, rules::specs::Records::place_field, rules::specs::Records::rect_field, rules::specs::Records::fix_field, rules::specs::Records::minute_field))]
impl<'a> Record<'a> {
    // "radio", which every body but a range's begins with
    fn radio(&self) -> u16
        ensures { result ≡ radio_field self.now.bytes.now }
    {
        fields::read(self.bytes, 4)
    }

    // "radio, east, north"
    fn place(&self) -> Place
        requires { place_end ≤ length self.now.bytes.now }
        ensures { place_of result ≡ place_field self.now.bytes.now }
    {
        Place {
            east: fields::read(self.bytes, 6),
            north: fields::read(self.bytes, 8),
        }
    }

    // "west, east, south, north"
    fn rectangle(&self) -> Rectangle
        requires { rect_end ≤ length self.now.bytes.now }
        ensures { rect_of result ≡ rect_field self.now.bytes.now }
    {
        Rectangle {
            west: fields::read(self.bytes, 4),
            east: fields::read(self.bytes, 6),
            south: fields::read(self.bytes, 8),
            north: fields::read(self.bytes, 10),
        }
    }

    // "Every record ends with a 32-bit minute"
    fn minute(&self) -> u32
        ensures { result ≡ minute_field self.now.bytes.now }
    {
        let end = length_field(self.bytes) as usize;
        fields::read_wide(self.bytes, end - MINUTE_BYTES)
    }

    // What a sign-on or a report tells of its radio.
    fn fix(&self) -> Fix
        requires { place_end ≤ length self.now.bytes.now }
        ensures { fix_of result ≡ fix_field self.now.bytes.now }
    {
        Fix {
            place: self.place(),
            minute: self.minute(),
        }
    }

    // 6: "A radio is 0 or above 4,095."
    fn no_radio(&self) -> bool
        ensures { result ≡ no_radio self.now.bytes.now }
    {
        match self.kind {
            Kind::SignOn | Kind::Report | Kind::SignOff => {
                let radio = self.radio();
                radio == 0 || MAX_RADIO < radio
            }
            Kind::Range => false,
        }
    }

    // 12: "place is (0,0) in kind 1 or 2"
    fn no_fix(&self) -> bool
        ensures { result ≡ no_fix self.now.bytes.now }
    {
        match self.kind {
            Kind::SignOn | Kind::Report => {
                let place = self.place();
                place.east == 0 && place.north == 0
            }
            Kind::SignOff | Kind::Range => false,
        }
    }

    // 13: "a minute below the store's highest, for all four kinds"
    fn too_early(&self, highest: u32) -> bool
        ensures { result ≡ too_early highest self.now.bytes.now }
    {
        self.minute() < highest
    }

    // 7: "A range has west above east or south above north."
    fn reversed(&self) -> bool
        ensures { result ≡ reversed self.now.bytes.now }
    {
        match self.kind {
            Kind::Range => {
                let area = self.rectangle();
                area.east < area.west || area.north < area.south
            }
            Kind::SignOn | Kind::Report | Kind::SignOff => false,
        }
    }

    // 8: "A sign-on names a radio that is on."
    fn on_already(&self, radios: &[u16; Desk::MAX_ON], n: usize) -> bool
        requires { GoodOn (on_with n radios.now) }
        ensures { result ≡ on_already (on_in (on_with n radios.now)) self.now.bytes.now }
    {
        match self.kind {
            Kind::SignOn => waiting::is_on(radios, n, self.radio()),
            Kind::Report | Kind::SignOff | Kind::Range => false,
        }
    }

    // 9: "A report or sign-off names a radio that isn't on."
    fn not_on(&self, radios: &[u16; Desk::MAX_ON], n: usize) -> bool
        requires { GoodOn (on_with n radios.now) }
        ensures { result ≡ not_on (on_in (on_with n radios.now)) self.now.bytes.now }
    {
        match self.kind {
            Kind::Report | Kind::SignOff => !waiting::is_on(radios, n, self.radio()),
            Kind::SignOn | Kind::Range => false,
        }
    }

    // 10: "A sign-on comes while 512 are on."
    fn no_room(&self, n: usize) -> bool
        ensures { result ≡ no_room n self.now.bytes.now }
    {
        match self.kind {
            Kind::SignOn => Desk::MAX_ON <= n,
            Kind::Report | Kind::SignOff | Kind::Range => false,
        }
    }

    // What it asks.
    fn asked(&self) -> Asked
        ensures { asked_in result ≡ request_of self.now.bytes.now }
    {
        match self.kind {
            Kind::SignOn => Asked::SignOn {
                radio: self.radio(),
                fix: self.fix(),
            },
            Kind::Report => Asked::Report {
                radio: self.radio(),
                fix: self.fix(),
            },
            Kind::SignOff => Asked::SignOff {
                radio: self.radio(),
                minute: self.minute(),
            },
            Kind::Range => Asked::Range {
                area: self.rectangle(),
                minute: self.minute(),
            },
        }
    }
}

// ---- the checks

// What the bytes at hand ask, or the first check that fails.
pub fn asked_by(
    bytes: &[u8],
    highest: u32,
    radios: &[u16; Desk::MAX_ON],
    n: usize,
) -> Result<Asked, Refusal>
    requires { GoodOn (on_with n radios.now) }
    ensures { asked_of result
        ≡ checked (refusal highest (on_in (on_with n radios.now)) (length (radios_of (on_with n radios.now))) bytes.now)
        (request_of bytes.now) }
{
    if not_at_hand(bytes) {
        return Err(Refusal::NotAtHand);
    }
    let kind = Kind::try_from(kind_field(bytes))?;
    if length_field(bytes) != kind.length() {
        return Err(Refusal::WrongLength);
    }
    let record = Record { bytes, kind };
    if record.no_radio() {
        return Err(Refusal::NoRadio);
    }
    if record.no_fix() {
        return Err(Refusal::NoFix);
    }
    if record.too_early(highest) {
        return Err(Refusal::TooEarly);
    }
    if record.reversed() {
        return Err(Refusal::Reversed);
    }
    if record.on_already(radios, n) {
        return Err(Refusal::OnAlready);
    }
    if record.not_on(radios, n) {
        return Err(Refusal::NotOn);
    }
    if record.no_room(n) {
        return Err(Refusal::NoRoom);
    }
    Ok(record.asked())
}
