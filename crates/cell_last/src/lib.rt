// A cell goes to the end of the round, with the pages that its entries need.
#![tactic(auto)]

ghost use Rattle.std.specs.Prelude.{◌≡◌, ◌++◌};
ghost use Rattle.page.specs.Buffer.{pages_of};
ghost use Rattle.desk.specs.Held.{grid_in};
ghost use Rattle.desk.specs.Laid.{LaidGrid};
ghost use Rattle.cell_last.specs.Frames.{with_count};
ghost use Rattle.cell_last.specs.Settling.{HandFits, BeforeSettle, BeforeLast, moved_last};

use desk::{Desk, Frame, Slot};
use entries::Table;
use page::Chain;

// The frame with another number of cells and another front of the free chain.
pub fn with_cells(frame: Frame, n: u16, free: u16) -> Frame
    ensures { result ≡ with_count n free frame }
{
    Frame {
        cells: n,
        free,
        ..frame
    }
}

// d, whose slot is taken out of the round, with the entries of a table: on the pages that they need, and last. The frame still counts d.
pub fn hand_last(
    pages: &mut [u8],
    frame: Frame,
    cells: &mut [Slot; Desk::MAX_CELLS],
    d: Slot,
    chain: Chain,
    table: &Table,
) -> Frame
    requires { HandFits chain × BeforeLast frame cells.old d (pages_of chain) table.now pages.old }
    ensures { (x : BeforeLast frame cells.old d (pages_of chain) table.now pages.old)
        → LaidGrid (moved_last x.settles.store (x.settles.before ++ x.settles.after) x.settles.cell)
        (grid_in result cells.new) pages.new }
{
    let settled = settle::settle(pages, chain, frame.free, d.number, table.as_slice());
    let moved = Slot {
        first: settled.first,
        ..d
    };
    directory::put_last(cells, frame.cells - 1, moved);
    with_cells(frame, frame.cells, settled.free)
}

// The cell at place `at` with the entries of a table: on the pages that they need, and last in the round.
pub fn settled_last(
    pages: &mut [u8],
    frame: Frame,
    cells: &mut [Slot; Desk::MAX_CELLS],
    at: usize,
    chain: Chain,
    table: &Table,
) -> Frame
    requires { HandFits chain × BeforeSettle (grid_in frame cells.old) at (pages_of chain) table.now pages.old }
    ensures { (x : BeforeSettle (grid_in frame cells.old) at (pages_of chain) table.now pages.old)
        → LaidGrid (moved_last x.store (x.before ++ x.after) x.cell) (grid_in result cells.new) pages.new }
{
    let d = cells[at];
    directory::take_out(cells, frame.cells, at);
    hand_last(pages, frame, cells, d, chain, table)
}
