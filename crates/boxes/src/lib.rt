// Memory cells: that of a place, those of all waiting reports at once, and a table with a number for each.
#![tactic(auto)]

ghost use Rattle.std.specs.Prelude.{◌≡◌, ℕ, ◌+◌, ◌<◌, ◌≤◌, leb, length, get_or};
ghost use Rattle.terms.specs.Values.{place_of};
ghost use Rattle.lists.specs.Tests.{one_if};
ghost use Rattle.rules.specs.Limits.{full_memory, max_cuts};
ghost use Rattle.rules.specs.Grid.{stripe, box_of};
ghost use Rattle.desk.specs.Views.{every_report, cuts_in, cuts_by};
ghost use Rattle.boxes.specs.Boxes.{box_in, Passing, Striped, Boxed, max_stripes, table_size, box_at};

use desk::{CutList, Desk};
use terms::Place;

// "If 128 still wait in all": one more than may wait between two calls.
pub const FULL_MEMORY: usize = Desk::MAX_WAITING + 1;

// ---- memory cells

// "A memory cell is one stripe-by-stripe box of the cuts": its stripes, counted from 0.
#[derive(Clone, Copy)]
pub struct BoxAt {
    pub east: usize,
    pub north: usize,
}

// The stripe of a coordinate: "a cut at c puts coordinates below c on the low side".
pub fn stripe_of(cuts: CutList, x: u16) -> usize
    requires { cuts.n ≤ max_cuts }
    ensures { result ≡ stripe (cuts_in cuts) x }
{
    let mut passed = 0;
    for &cut in &cuts.at[..cuts.n as usize] {
        passed += usize::from(cut <= x);
    }
    passed
}

// The memory cell of a place.
pub fn box_of(easts: CutList, norths: CutList, place: Place) -> BoxAt
    requires { (easts.n ≤ max_cuts) × (norths.n ≤ max_cuts) }
    ensures { box_in result ≡ box_of (cuts_by easts norths) (place_of place) }
{
    BoxAt {
        east: stripe_of(easts, place.east),
        north: stripe_of(norths, place.north),
    }
}

// ---- the memory cells of all waiting reports

// Where the array of those that wait has the column of all easts, and where that of all norths.
pub const EASTS: usize = Desk::WAITING_SLOTS;

pub const NORTHS: usize = 2 * Desk::WAITING_SLOTS;

// The memory cell of each slot: its stripes, counted from 0.
#[derive(Drop)]
pub struct Stripes {
    pub easts: [u16; FULL_MEMORY],
    pub norths: [u16; FULL_MEMORY],
}

// The stripe of x by one cut more.
fn further(stripe: u16, cut: u16, x: u16) -> u16
    requires { stripe ≤ max_cuts }
    ensures { result ≡ stripe + one_if (leb cut x) }
{
    if cut <= x { stripe + 1 } else { stripe }
}

// The stripe of every coordinate of a column by one cut more. It never leaves early, so that many coordinates are compared at a time; by index, since nothing is
// proved of what `iter_mut().zip(..)` writes.
fn pass_cut(
    cut: u16,
    waiting: &[u16; Desk::WAITING_WORDS],
    column: usize,
    stripes: &mut [u16; FULL_MEMORY],
)
    requires { (column + full_memory ≤ length waiting.now) × ((i : ℕ) → i < full_memory → get_or stripes.old i 0 ≤ max_cuts) }
    ensures { Passing cut waiting.now column stripes.old full_memory stripes.new }
{
    for i in 0..FULL_MEMORY {
        stripes[i] = further(stripes[i], cut, waiting[column + i]);
    }
}

// The stripe of every coordinate of a column, cut by cut.
fn stripes_of(
    cuts: CutList,
    waiting: &[u16; Desk::WAITING_WORDS],
    column: usize,
) -> [u16; FULL_MEMORY]
    requires { (cuts.n ≤ max_cuts) × (column + full_memory ≤ length waiting.now) }
    ensures { Striped (cuts_in cuts) waiting.now column result }
{
    let mut stripes = [0u16; FULL_MEMORY];
    for &cut in &cuts.at[..cuts.n as usize] {
        pass_cut(cut, waiting, column, &mut stripes);
    }
    stripes
}

// The memory cells of all slots at once: the columns of places are read, and no other.
pub fn boxes_of(easts: CutList, norths: CutList, waiting: &[u16; Desk::WAITING_WORDS]) -> Stripes
    requires { (easts.n ≤ max_cuts) × (norths.n ≤ max_cuts) }
    ensures { Boxed (cuts_by easts norths) (every_report waiting.now) result }
{
    Stripes {
        easts: stripes_of(easts, waiting, EASTS),
        norths: stripes_of(norths, waiting, NORTHS),
    }
}

// ---- tables with a number for each memory cell

// The stripes of a direction are at most so many.
pub const STRIPES: usize = Desk::MAX_CUTS + 1;

// A table has a number for each memory cell.
pub const BOXES: usize = STRIPES * STRIPES;

// The place of a memory cell in a table.
pub fn box_index(east: u16, north: u16) -> usize
    requires { (east < max_stripes) × (north < max_stripes) }
    ensures { (result ≡ box_at (record { east = east; north = north })) × (result < table_size) }
{
    STRIPES * north as usize + east as usize
}
