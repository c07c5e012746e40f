// What a split makes of a cell: the entries on each side of the cut, and the directory's slots of the two cells.
#![tactic(auto)]

ghost use Rattle.std.specs.Prelude.{not, ◌≡◌, ◌≤◌, length};
ghost use Rattle.terms.specs.Terms.{max_on};
ghost use Rattle.lists.specs.Sums.{filter};
ghost use Rattle.entries.specs.Entries.{row_of, rows_of};
ghost use Rattle.rules.specs.Cut.{low_side};
ghost use Rattle.cut.specs.Choice.{cut_of};
ghost use Rattle.split.specs.Split.{low_slot, high_slot};

use cut::{Axis, Cut};
use desk::Slot;
use entries::{Entry, Table};

// ---- the entries of the sides

// "coordinates below c on the low side"
fn is_low(e: Entry, cut: Cut) -> bool
    ensures { result ≡ low_side (cut_of cut) (row_of e) }
{
    match cut.axis {
        Axis::Eastward => e.east < cut.at,
        Axis::Northward => e.north < cut.at,
    }
}

// The entries on the low side of the cut are all that is in `low` then, those on its other side all that is in `high`.
pub fn parted(entries: &[Entry], cut: Cut, low: &mut Table, high: &mut Table)
    requires { length entries.now ≤ max_on }
    ensures low { low.new ≡ filter (low_side (cut_of cut)) (rows_of entries.now) }
    ensures high { high.new ≡ filter (λ e. not (low_side (cut_of cut) e)) (rows_of entries.now) }
    ensures few { (length low.new ≤ length entries.now) × (length high.new ≤ length entries.now) }
{
    low.clear();
    high.clear();
    for &entry in entries {
        if is_low(entry, cut) {
            low.push(entry);
        } else {
            high.push(entry);
        }
    }
}

// ---- the two cells in the directory

// "The low side keeps d's number": its edges end before the cut.
#[tactic(auto, unfolding(crate::specs::Split::low_slot))]
pub fn low_slot(d: Slot, cut: Cut, first: u16) -> Slot
    requires { 1 ≤ cut.at }
    ensures { result ≡ low_slot (cut_of cut) d first }
{
    match cut.axis {
        Axis::Eastward => Slot {
            east: cut.at - 1,
            first,
            ..d
        },
        Axis::Northward => Slot {
            north: cut.at - 1,
            first,
            ..d
        },
    }
}

// "the other takes the smallest unused number", as handed in: its edges begin at the cut.
#[tactic(auto, unfolding(crate::specs::Split::high_slot))]
pub fn high_slot(d: Slot, cut: Cut, number: u16, first: u16) -> Slot
    ensures { result ≡ high_slot (cut_of cut) d number first }
{
    match cut.axis {
        Axis::Eastward => Slot {
            number,
            west: cut.at,
            first,
            ..d
        },
        Axis::Northward => Slot {
            number,
            south: cut.at,
            first,
            ..d
        },
    }
}
