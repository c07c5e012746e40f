// The directory and the cuts as the desk holds them: in their order, unused slots zero. The directory's array is lent, with the number of cells beside it; the
// cuts go by value.
#![tactic(auto)]

ghost use Rattle.std.specs.Prelude.{[], ◌∷◌, ◌++◌, ◌≡◌, ◌+◌, ◌-◌, ◌<◌, ◌≤◌};
ghost use Rattle.terms.specs.Values.{place_of};
ghost use Rattle.lists.specs.Parts.{insert_at, remove_at};
ghost use Rattle.rules.specs.Limits.{max_cells, max_cuts};
ghost use Rattle.rules.specs.Grid.{within, inside, stripe_low, corner_of};
ghost use Rattle.rules.specs.Flush.{add_cut};
ghost use Rattle.desk.specs.Held.{directory_in};
ghost use Rattle.desk.specs.Layout.{cut_list_of};
ghost use Rattle.desk.specs.Views.{cuts_in, cuts_by, slots_in, directory_with, edges_of};
ghost use Rattle.boxes.specs.Boxes.{box_in};
ghost use Rattle.directory.specs.Directory.{WholeDirectory, slot_at, Numbered, used_numbers, unused_of};
ghost use Rattle.directory.specs.Cuts.{WholeCuts, CutReady};

use boxes::BoxAt;
use desk::{CutList, Desk, Slot};
use terms::Place;

// ---- the cell of a place

// Whether a coordinate lies between two edges, "both inside".
fn spans(low: u16, high: u16, x: u16) -> bool
    ensures { result ≡ within (record { low = low; high = high }) x }
{
    low <= x && x <= high
}

// Whether a place lies in a cell.
fn holds(slot: Slot, place: Place) -> bool
    ensures { result ≡ inside (edges_of slot) (place_of place) }
{
    spans(slot.west, slot.east, place.east) && spans(slot.south, slot.north, place.north)
}

// Where the cell of a place stands; its number and its edges are in the slot there.
pub fn cell_at(cells: &[Slot], place: Place) -> Option<usize>
    ensures { result ≡ slot_at cells.now (place_of place) }
{
    cells.iter().position(|&slot| holds(slot, place))
}

// ---- the round

// Without the cell at `at`; those after it stand one place nearer, and the last slot is unused, so there is one cell less.
pub fn take_out(cells: &mut [Slot; Desk::MAX_CELLS], n: u16, at: usize)
    requires { WholeDirectory (directory_in n cells.old) × (at < n) × (n ≤ max_cells) }
    ensures { directory_in (n - 1) cells.new ≡ directory_with (remove_at (slots_in (directory_in n cells.old)) at) }
{
    let count = n as usize;
    cells.copy_within(at + 1..count, at);
    cells[count - 1] = Slot::UNUSED;
}

// With a cell that "goes last in the round", so there is one cell more.
pub fn put_last(cells: &mut [Slot; Desk::MAX_CELLS], n: u16, slot: Slot)
    requires { WholeDirectory (directory_in n cells.old) × (n < max_cells) }
    ensures { directory_in (n + 1) cells.new ≡ directory_with (slots_in (directory_in n cells.old) ++ (slot ∷ [])) }
{
    cells[n as usize] = slot;
}

// ---- numbers

// Which numbers the cells have: each marks its own.
fn used_numbers(cells: &[Slot]) -> [bool; Desk::MAX_CELLS]
    requires { Numbered cells.now }
    ensures { result ≡ used_numbers cells.now }
{
    let mut used = [false; Desk::MAX_CELLS];
    for cell in cells {
        used[cell.number as usize] = true;
    }
    used
}

// "the smallest unused number"
pub fn unused_number(cells: &[Slot]) -> u16
    requires { Numbered cells.now }
    ensures { result ≡ unused_of cells.now }
{
    let used = used_numbers(cells);
    for (k, &taken) in used.iter().enumerate() {
        if !taken {
            return k as u16;
        }
    }
    0
}

// ---- cuts

// The least coordinate of a stripe.
fn stripe_low(cuts: CutList, i: usize) -> u16
    requires { (cuts.n ≤ max_cuts) × (i ≤ cuts.n) }
    ensures { result ≡ stripe_low (cuts_in cuts) i }
{
    if i == 0 { 0 } else { cuts.at[i - 1] }
}

// The south-west corner of m.
pub fn corner_of(easts: CutList, norths: CutList, m: BoxAt) -> Place
    requires { (easts.n ≤ max_cuts) × (norths.n ≤ max_cuts) × (m.east ≤ easts.n) × (m.north ≤ norths.n) }
    ensures { place_of result ≡ corner_of (cuts_by easts norths) (box_in m) }
{
    Place {
        east: stripe_low(easts, m.east),
        north: stripe_low(norths, m.north),
    }
}

// A cut at `place`; what stood there and after it stands one place further on.
fn cut_opened(cuts: CutList, place: usize, at: u16) -> CutList
    requires { WholeCuts cuts × (place ≤ cuts.n) × (cuts.n < max_cuts) }
    ensures { result ≡ cut_list_of (insert_at (cuts_in cuts) place at) }
{
    let mut opened = cuts;
    opened.at.copy_within(place..cuts.n as usize, place + 1);
    opened.at[place] = at;
    opened.n += 1;
    opened
}

// With a cut at `at`: one that is there already, so that a stripe begins with it, is not made again.
pub fn with_cut(cuts: CutList, at: u16) -> CutList
    requires { CutReady cuts at }
    ensures { result ≡ cut_list_of (add_cut at (cuts_in cuts)) }
{
    let stripe = boxes::stripe_of(cuts, at);
    if stripe_low(cuts, stripe) == at {
        return cuts;
    }
    cut_opened(cuts, stripe, at)
}
