// The test of soundness as far as it looks at the cuts of one direction or at the directory's numbers alone. They may be in any condition: a count is tested
// before a slot is looked at.
#![tactic(auto)]

ghost use Rattle.std.specs.Prelude.{◌≡◌, ◌+◌, eqb, leb, ltb, length, take};
ghost use Rattle.lists.specs.Tests.{both, all};
ghost use Rattle.desk.specs.Held.{directory_in};
ghost use Rattle.sound_clauses.specs.Loops.{rises_to};
ghost use Rattle.sound_directory.specs.Views.{slot_numbers};
ghost use Rattle.sound_directory.specs.Sound.{row_sound, cuts_sound, is_unused_cell, names_test, directory_sound};

use desk::{CutList, Desk, Slot};

// What a number of 16 bits counts in each of the four places of one of 64, but in the first.
const SECOND: u64 = 65_536;

const THIRD: u64 = 4_294_967_296;

const FOURTH: u64 = 281_474_976_710_656;

// ---- numbers in slots

// Whether x is above the last, and at most `top`. No branch, so that many are tested at a time.
pub fn goes_on(last: u16, x: u16, top: u16) -> bool
    ensures { result ≡ both (ltb last x) (leb x top) }
{
    (last < x) & (x <= top)
}

// Whether the numbers rise, from above 0 to at most `top`. It never leaves early, so that many numbers are looked at at a time.
pub fn rises(numbers: &[u16], top: u16) -> bool
    ensures { result ≡ rises_to top 0 numbers.now }
{
    let mut so = true;
    let mut last: u16 = 0;
    for &x in numbers {
        so = so & goes_on(last, x, top);
        last = x;
    }
    so
}

// Whether each slot is as an unused one. It never leaves early, so that many are looked at at a time.
pub fn is_unused<T: Copy + PartialEq>(slots: &[T], unused: T) -> bool
    ensures { result ≡ all (λ x. T.eq x unused) slots.now }
{
    let mut so = true;
    for slot in slots {
        so = so & (*slot == unused);
    }
    so
}

// Whether the first n rise, from above 0 to at most `top`, and are all that the slots hold.
pub fn row_sound(slots: &[u16], n: usize, top: u16) -> bool
    ensures { result ≡ row_sound top (length slots.now) n slots.now }
{
    if slots.len() < n {
        return false;
    }
    if !is_unused(&slots[n..], 0) {
        return false;
    }
    rises(&slots[..n], top)
}

// Four numbers as one, which is 0 just if each of them is. Each has its place by one product: so the compiler reads numbers that stand side by side at once.
pub fn joined(first: u16, second: u16, third: u16, fourth: u16) -> u64
    ensures { eqb result 0 ≡ eqb (first + second + third + fourth) 0 }
{
    u64::from(first)
        + SECOND * u64::from(second)
        + THIRD * u64::from(third)
        + FOURTH * u64::from(fourth)
}

// ---- cuts

// Whether the cuts of one direction are sound.
pub fn cuts_sound(c: CutList) -> bool
    ensures { result ≡ cuts_sound c }
{
    row_sound(&c.at, c.n as usize, Desk::LAST_METRE)
}

// ---- the directory

// Whether the cells have numbers from 0 to 63, each once: each marks its own.
fn names_sound(cells: &[Slot]) -> bool
    ensures { result ≡ names_test (slot_numbers cells.now) }
{
    let mut marks = [false; Desk::MAX_CELLS];
    for cell in cells {
        let k = cell.number as usize;
        if Desk::MAX_CELLS <= k {
            return false;
        }
        if marks[k] {
            return false;
        }
        marks[k] = true;
    }
    true
}

// Whether each cell is as an unused one. It never leaves early, and reads a cell as two numbers: to compare each of its six takes several times as long.
fn cells_unused(cells: &[Slot]) -> bool
    ensures { result ≡ all is_unused_cell cells.now }
{
    let mut fronts: u64 = 0;
    let mut backs: u64 = 0;
    for &cell in cells {
        fronts = fronts | joined(cell.number, cell.west, cell.east, cell.south);
        backs = backs | joined(cell.north, cell.first, 0, 0);
    }
    (fronts == 0) & (backs == 0)
}

// Whether the directory is sound, but for edges and pages.
pub fn directory_sound(cells: &[Slot; Desk::MAX_CELLS], n: usize) -> bool
    ensures { result ≡ directory_sound (directory_in n cells.now) }
{
    if Desk::MAX_CELLS < n {
        return false;
    }
    if !cells_unused(&cells[n..]) {
        return false;
    }
    names_sound(&cells[..n])
}
