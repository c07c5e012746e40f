// The rectangle of a range or a watch: what it takes in.
#![tactic(auto)]

ghost use Rattle.std.specs.Prelude.{◌≡◌};
ghost use Rattle.rules.specs.Grid.{takes_in, covers, is_reversed};
ghost use Rattle.desk.specs.Views.{rect_of};

use desk::{Desk, Rectangle};

// Whether two edges take in a coordinate: the low edge is inside, the high one outside, but at the last metre it takes in that line. No branch: which radios
// are found follows no pattern.
pub fn takes_in(low: u16, high: u16, x: u16) -> bool
    ensures { result ≡ takes_in (record { low = low; high = high }) x }
{
    (low <= x) & ((x < high) | (high == Desk::LAST_METRE))
}

// Whether the rectangle takes in the place.
pub fn is_covered(area: Rectangle, east: u16, north: u16) -> bool
    ensures { result ≡ covers (rect_of area) (record { east = east; north = north }) }
{
    takes_in(area.west, area.east, east) & takes_in(area.south, area.north, north)
}

// "west above east or south above north"
pub fn is_reversed(area: Rectangle) -> bool
    ensures { result ≡ is_reversed (rect_of area) }
{
    (area.east < area.west) | (area.north < area.south)
}
