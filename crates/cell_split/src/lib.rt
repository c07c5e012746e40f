// A cell is split: its two sides go on pages, and the cut among those of its direction.
#![tactic(auto)]

ghost use Rattle.std.specs.Prelude.{◌≡◌, [], ◌∷◌, ◌++◌, ◌+◌, ◌<◌, ◌≤◌, get_or};
ghost use Rattle.lists.specs.Parts.{remove_at};
ghost use Rattle.page.specs.Buffer.{pages_of};
ghost use Rattle.rules.specs.Limits.{max_cells};
ghost use Rattle.rules.specs.Flush.{split_at};
ghost use Rattle.desk.specs.Held.{directory_in, grid_in};
ghost use Rattle.desk.specs.Layout.{no_slot};
ghost use Rattle.desk.specs.Views.{slots_in, directory_with};
ghost use Rattle.desk.specs.Laid.{LaidGrid};
ghost use Rattle.cut.specs.Choice.{cut_of};
ghost use Rattle.directory.specs.Directory.{WholeDirectory, unused_of};
ghost use Rattle.split.specs.Split.{low_slot, high_slot};
ghost use Rattle.cell_last.specs.Settling.{HandFits};
ghost use Rattle.cell_split.specs.Splitting.{Cuttable, cut_frame, BeforeSplit, AfterSides};

use cut::{Axis, Cut};
use desk::{Desk, Frame, Slot};
use entries::Table;
use page::{Chain, ChainEnd};
use terms::PAGES;

// Where the two sides' chains begin, and the front of the free chain then.
#[derive(Drop)]
struct Sides {
    low: u16,
    high: u16,
    free: u16,
}

// d's two sides in its place: the low side last but one, the other last, so there is one cell more.
fn split_cells(
    cells: &mut [Slot; Desk::MAX_CELLS],
    n: u16,
    at: usize,
    cut: Cut,
    number: u16,
    low_first: u16,
    high_first: u16,
)
    requires { WholeDirectory (directory_in n cells.old) × (at < n) × (n < max_cells) × (1 ≤ cut.at) }
    ensures { directory_in (n + 1) cells.new ≡ directory_with (
        (remove_at (slots_in (directory_in n cells.old)) at
        ++ (low_slot (cut_of cut) (get_or (slots_in (directory_in n cells.old)) at no_slot) low_first ∷ []))
        ++ (high_slot (cut_of cut) (get_or (slots_in (directory_in n cells.old)) at no_slot) number high_first ∷ [])) }
{
    let d = cells[at];
    directory::take_out(cells, n, at);
    let low = split::low_slot(d, cut, low_first);
    directory::put_last(cells, n - 1, low);
    let high = split::high_slot(d, cut, number, high_first);
    directory::put_last(cells, n, high);
}

// The frame of a split: the cut is among those of its direction.
#[tactic(auto, unfolding(crate::specs::Splitting::cut_frame))]
fn cut_frame(frame: Frame, cut: Cut) -> Frame
    requires { Cuttable frame (cut_of cut) }
    ensures { result ≡ cut_frame frame (cut_of cut) }
{
    match cut.axis {
        Axis::Eastward => Frame {
            easts: directory::with_cut(frame.easts, cut.at),
            ..frame
        },
        Axis::Northward => Frame {
            norths: directory::with_cut(frame.norths, cut.at),
            ..frame
        },
    }
}

// The two sides' entries on pages: "in a split d's chain is settled before the new cell takes".
fn settle_sides(
    pages: &mut [u8],
    frame: Frame,
    cells: &[Slot; Desk::MAX_CELLS],
    at: usize,
    chain: Chain,
    table: &Table,
    cut: Cut,
    number: u16,
) -> Sides
    requires { HandFits chain × (number ≡ unused_of (slots_in (directory_in frame.cells cells.now)))
        × BeforeSplit (grid_in frame cells.now) at (pages_of chain) table.now (cut_of cut) pages.old }
    ensures { (x : BeforeSplit (grid_in frame cells.now) at (pages_of chain) table.now (cut_of cut) pages.old)
        → AfterSides x.midway.flushed (cut_of cut) result pages.new }
{
    let mut low_side = Table::new();
    let mut high_side = Table::new();
    split::parted(table.as_slice(), cut, &mut low_side, &mut high_side);
    let low = settle::settle(
        pages,
        chain,
        frame.free,
        cells[at].number,
        low_side.as_slice(),
    );
    let none = Chain {
        end: ChainEnd::Ended,
        n: 0,
        pages: [0; PAGES],
    };
    let high = settle::settle(pages, none, low.free, number, high_side.as_slice());
    Sides {
        low: low.first,
        high: high.first,
        free: high.free,
    }
}

// "The low side keeps d's number; the other takes the smallest unused number and goes last in the round."
pub fn split(
    pages: &mut [u8],
    frame: Frame,
    cells: &mut [Slot; Desk::MAX_CELLS],
    at: usize,
    chain: Chain,
    table: &Table,
    cut: Cut,
) -> Frame
    requires { HandFits chain × BeforeSplit (grid_in frame cells.old) at (pages_of chain) table.now (cut_of cut) pages.old }
    ensures { (x : BeforeSplit (grid_in frame cells.old) at (pages_of chain) table.now (cut_of cut) pages.old)
        → LaidGrid (split_at (cut_of cut) x.midway.flushed) (grid_in result cells.new) pages.new }
{
    let n = frame.cells;
    let number = directory::unused_number(&cells[..n as usize]);
    let sides = settle_sides(pages, frame, cells, at, chain, table, cut, number);
    split_cells(cells, n, at, cut, number, sides.low, sides.high);
    let moved = cell_last::with_cells(frame, n + 1, sides.free);
    cut_frame(moved, cut)
}
