// The watches: the rectangle of each, and a bit for each radio.
#![tactic(auto)]

ghost use Rattle.std.specs.Prelude.{List, ◌≡◌, ℕ, ◌+◌, ◌*◌, ◌≤◌, ◌<◌, length, Option, option_map};
ghost use Rattle.terms.specs.Terms.{Place as RulesPlace, max_radio};
ghost use Rattle.terms.specs.Values.{place_of};
ghost use Rattle.lists.specs.Bits.{bits, bit};
ghost use Rattle.lists.specs.Tests.{one_if, is_some};
ghost use Rattle.rules.specs.Plain.{put_at};
ghost use Rattle.rules.specs.Watches.{max_watches, Watch as RulesWatch, is_member};
ghost use Rattle.desk.specs.Layout.{area_of, watches_of};
ghost use Rattle.desk.specs.Views.{area_in, watch_in, member_in, rect_of};
ghost use Rattle.watches.specs.Watches.{with_area, with_member, AfterUpdate};

use desk::{Desk, Rectangle, Watch};
use terms::Place;

// How many bits a number of the array has.
const WORD_BITS: u16 = 16;

// ---- a bit of a number

// Whether bit i is set.
#[tactic(auto, using(lists::proofs::BitsLaws::bit_is))]
pub fn is_set(number: u16, i: u16) -> bool
    requires { i < 16 }
    ensures { result ≡ bit number i }
{
    (number >> i) % 2 == 1
}

// The number with bit i set or not, all others as they were.
fn put_bit(number: u16, i: u16, set: bool) -> u16
    requires { i < 16 }
    ensures { result ≡ bits 16 (put_at i «set» (bit number)) }
{
    let was = is_set(number, i);
    if was == set {
        return number;
    }
    if set {
        number + (1 << i)
    } else {
        number - (1 << i)
    }
}

// One bit more, below those that are there.
pub fn with_bit(test: bool, higher: u16) -> u16
    requires { higher < 32768 }
    ensures { result ≡ one_if test + 2 * higher }
{
    2 * higher + u16::from(test)
}

// ---- a watch

// The edges of a watch; those of one that is not set are 0, and take in nothing.
pub fn area_of(watch: &Watch) -> Rectangle
    ensures { rect_of result ≡ area_in watch.now }
{
    Rectangle {
        west: watch.west,
        east: watch.east,
        south: watch.south,
        north: watch.north,
    }
}

// Whether the watch is set.
#[tactic(auto, using(crate::proofs::AreaLaws::mark_tells))]
pub fn is_watched(watch: &Watch) -> bool
    ensures { result ≡ is_some (watch_in watch.now) }
{
    watch.set != 0
}

// The watch is set, and has this rectangle; its members stay as they are.
pub fn put_area(watch: &mut Watch, area: Rectangle)
    ensures { watch.new ≡ with_area (rect_of area) watch.old }
{
    watch.set = 1;
    watch.west = area.west;
    watch.east = area.east;
    watch.south = area.south;
    watch.north = area.north;
}

// Whether the radio is a member of the watch.
#[tactic(auto, unfolding(desk::specs::Views::member_in))]
pub fn is_member(watch: &Watch, radio: u16) -> bool
    requires { radio ≤ max_radio }
    ensures { result ≡ member_in watch.now radio }
{
    is_set(
        watch.members[(radio / WORD_BITS) as usize],
        radio % WORD_BITS,
    )
}

// The radio is a member of the watch, or is none.
#[tactic(auto, unfolding(crate::specs::Watches::with_member))]
pub fn put_member(watch: &mut Watch, radio: u16, member: bool)
    requires { radio ≤ max_radio }
    ensures { watch.new ≡ with_member radio member watch.old }
{
    let number = &mut watch.members[(radio / WORD_BITS) as usize];
    *number = put_bit(*number, radio % WORD_BITS, member);
}

// ---- a record's radio

// The watches that gained, and that lost, a radio.
#[derive(Clone, Copy, Debug, PartialEq, Eq)]
pub struct Moved {
    pub gained: u16,
    pub lost: u16,
}

// Whether the watch takes in a place; none takes in a radio that has none.
fn takes_in(watch: &Watch, place: Option<Place>) -> bool
    ensures { (x : RulesWatch) → area_in watch.now ≡ area_of x → result ≡ is_member x (option_map place_of place) }
{
    match place {
        Some(place) => rectangles::is_covered(area_of(watch), place.east, place.north),
        None => false,
    }
}

// "every accepted sign-on, report or sign-off brings them up to date": the radio has this place, or none where it is on no longer.
pub fn update(watches: &mut [Watch; Desk::MAX_WATCHES], radio: u16, place: Option<Place>) -> Moved
    requires { radio ≤ max_radio }
    ensures { (places : ℕ → Option RulesPlace) (l : List RulesWatch) → length l ≡ max_watches → watches.old ≡ watches_of places l
        → AfterUpdate places l radio (option_map place_of place) watches.new result }
{
    let mut gained = 0;
    let mut lost = 0;
    for w in (0..Desk::MAX_WATCHES).rev() {
        let was = is_member(&watches[w], radio);
        let is = takes_in(&watches[w], place);
        put_member(&mut watches[w], radio, is);
        gained = with_bit(is & !was, gained);
        lost = with_bit(was & !is, lost);
    }
    Moved { gained, lost }
}
