// Which memory cell is due to be flushed: how many wait in that of a place, and the fullest of all.
#![tactic(auto)]

ghost use Rattle.std.specs.Prelude.{cond, ◌≡◌, ◌<◌, ◌≤◌, ltb, length, option_map, Some};
ghost use Rattle.terms.specs.Values.{place_of};
ghost use Rattle.lists.specs.Parts.{tab};
ghost use Rattle.lists.specs.Sums.{concat};
ghost use Rattle.lists.specs.Tests.{best};
ghost use Rattle.rules.specs.Limits.{full_memory, max_cuts};
ghost use Rattle.rules.specs.Grid.{within, inside, box_of, boxes};
ghost use Rattle.rules.specs.WellFormed.{InSquare};
ghost use Rattle.rules.specs.Carry.{waiting_in, most_of, box_to_flush};
ghost use Rattle.desk.specs.Held.{waiting_with};
ghost use Rattle.desk.specs.Views.{cuts_in, cuts_by};
ghost use Rattle.waiting.specs.Waiting.{reports_of};
ghost use Rattle.boxes.specs.Boxes.{box_in, max_stripes, Crowd};
ghost use Rattle.box_due.specs.Due.{span_in, bounded_by, Reaches, Leads, fuller_of, box_row};

use boxes::{BOXES, BoxAt, EASTS, FULL_MEMORY, NORTHS, STRIPES};
use desk::{CutList, Desk};
use terms::Place;

// ---- how far a stripe reaches

// A stripe from its least to its greatest coordinate.
#[derive(Clone, Copy)]
struct Reach {
    low: u16,
    high: u16,
}

// A cut more bounds the stripe of x: one up to x from below, one past x from above, at the metre before it.
fn bounded(reach: Reach, cut: u16, x: u16) -> Reach
    ensures { span_in result ≡ bounded_by cut x (span_in reach) }
{
    if x < cut {
        return Reach {
            low: reach.low,
            high: reach.high.min(cut - 1),
        };
    }
    Reach {
        low: reach.low.max(cut),
        high: reach.high,
    }
}

// How far the stripe of a coordinate reaches.
fn reach_of(cuts: CutList, x: u16) -> Reach
    requires { cuts.n ≤ max_cuts }
    ensures { Reaches (cuts_in cuts) x (span_in result) }
{
    let mut reach = Reach {
        low: 0,
        high: Desk::LAST_METRE,
    };
    for &cut in &cuts.at[..cuts.n as usize] {
        reach = bounded(reach, cut, x);
    }
    reach
}

// Whether it reaches to y. No branch, so that several reports are tried at once.
fn reaches_to(reach: Reach, y: u16) -> bool
    ensures { result ≡ within (span_in reach) y }
{
    (reach.low <= y) & (y <= reach.high)
}

// Whether a place lies within the reach of both stripes. It lies in the square, for its fields have 16 bits.
fn lies_within(easts: Reach, norths: Reach, east: u16, north: u16) -> bool
    ensures { (result ≡ inside (record { easts = span_in easts; norths = span_in norths }) (record { east = east; north = north }))
        × InSquare (record { east = east; north = north }) }
{
    reaches_to(easts, east) & reaches_to(norths, north)
}

// How many wait in the memory cell of a place. The columns of places are read, and no other. A count of 16 bits, as wide as the places, and by index, so that eight
// reports are counted at once.
fn waiting_at(
    easts: CutList,
    norths: CutList,
    waiting: &[u16; Desk::WAITING_WORDS],
    n: u16,
    place: Place,
) -> u16
    requires { (n ≤ full_memory) × (easts.n ≤ max_cuts) × (norths.n ≤ max_cuts) }
    ensures { result ≡ waiting_in (cuts_by easts norths) (reports_of (waiting_with n waiting.now))
        (box_of (cuts_by easts norths) (place_of place)) }
{
    let east_reach = reach_of(easts, place.east);
    let north_reach = reach_of(norths, place.north);
    let mut found: u16 = 0;
    for i in 0..n as usize {
        let here = lies_within(
            east_reach,
            north_reach,
            waiting[EASTS + i],
            waiting[NORTHS + i],
        );
        found += u16::from(here);
    }
    found
}

// ---- how many wait in each

// How many wait in each memory cell: each report counts in its own.
fn crowd_of(
    easts: CutList,
    norths: CutList,
    waiting: &[u16; Desk::WAITING_WORDS],
    n: u16,
) -> [u8; BOXES]
    requires { (n ≤ full_memory) × (easts.n ≤ max_cuts) × (norths.n ≤ max_cuts) }
    ensures { Crowd (cuts_by easts norths) (reports_of (waiting_with n waiting.now)) result }
{
    let at = boxes::boxes_of(easts, norths, waiting);
    let mut crowd = [0u8; BOXES];
    for i in 0..n as usize {
        let k = boxes::box_index(at.easts[i], at.norths[i]);
        crowd[k] += 1;
    }
    crowd
}

// ---- the memory cell to flush

// The fullest memory cell so far, and how many wait in it.
#[derive(Drop)]
struct Leader {
    at: BoxAt,
    has: u8,
}

// Of the leader and a memory cell the one with more waiting, the leader where as many wait.
fn fuller(leader: Leader, m: BoxAt, has: u8) -> Leader
    ensures { result ≡ cond (ltb leader.has has) (record { at = m; has = has }) leader }
{
    if leader.has < has {
        return Leader { at: m, has };
    }
    leader
}

// The fullest of the leader and a row of memory cells.
fn fullest_in_row(crowd: &[u8; BOXES], columns: usize, north: usize, leader: Leader) -> Leader
    requires { (columns ≤ max_stripes) × (north < max_stripes) × Leads crowd.now leader }
    ensures { Leads crowd.now result × (box_in result.at ≡ best (fuller_of crowd.now) (box_in leader.at) (box_row columns north)) }
{
    let mut most = leader;
    for east in 0..columns {
        let k = STRIPES * north + east;
        most = fuller(most, BoxAt { east, north }, crowd[k]);
    }
    most
}

// The fullest of so many rows, from the south on.
fn fullest_in_rows(crowd: &[u8; BOXES], columns: usize, rows: usize) -> BoxAt
    requires { (columns ≤ max_stripes) × (rows ≤ max_stripes) }
    ensures { box_in result ≡ best (fuller_of crowd.now) (record { east = 0; north = 0 }) (concat (tab rows (box_row columns))) }
{
    let mut most = Leader {
        at: BoxAt { east: 0, north: 0 },
        has: crowd[0],
    };
    for north in 0..rows {
        most = fullest_in_row(crowd, columns, north, most);
    }
    most.at
}

// "the memory cell with most waiting; ties go to the southern, then the western"
fn fullest(easts: CutList, norths: CutList, waiting: &[u16; Desk::WAITING_WORDS], n: u16) -> BoxAt
    requires { (n ≤ full_memory) × (easts.n ≤ max_cuts) × (norths.n ≤ max_cuts) }
    ensures { Some (box_in result) ≡ most_of (waiting_in (cuts_by easts norths) (reports_of (waiting_with n waiting.now)))
        (boxes (cuts_by easts norths)) }
{
    let crowd = crowd_of(easts, norths, waiting, n);
    fullest_in_rows(&crowd, easts.n as usize + 1, norths.n as usize + 1)
}

// "if the memory cell of that place has 8 waiting, flush it. If 128 still wait in all, flush the memory cell with most waiting"
pub fn box_due(
    easts: CutList,
    norths: CutList,
    waiting: &[u16; Desk::WAITING_WORDS],
    n: u16,
    place: Place,
) -> Option<BoxAt>
    requires { (n ≤ full_memory) × (easts.n ≤ max_cuts) × (norths.n ≤ max_cuts) }
    ensures { option_map box_in result
        ≡ box_to_flush (cuts_by easts norths) (waiting_in (cuts_by easts norths) (reports_of (waiting_with n waiting.now)))
        (length (reports_of (waiting_with n waiting.now))) (place_of place) }
{
    let waits = waiting_at(easts, norths, waiting, n, place);
    if Desk::FULL_BOX <= waits as usize {
        return Some(boxes::box_of(easts, norths, place));
    }
    if (n as usize) < FULL_MEMORY {
        return None;
    }
    Some(fullest(easts, norths, waiting, n))
}
