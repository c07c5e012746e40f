// What follows the own effect of a sign-on or report, before the tally counts it: the memory cell that is due is flushed, if one is.
#![tactic(auto)]

ghost use Rattle.std.specs.Prelude.{◌≡◌, ◌≤◌};
ghost use Rattle.terms.specs.Values.{place_of};
ghost use Rattle.rules.specs.Limits.{max_cells};
ghost use Rattle.rules.specs.Grid.{corner_of};
ghost use Rattle.rules.specs.Flush.{flushed_into, flush};
ghost use Rattle.rules.specs.Carry.{after_report};
ghost use Rattle.desk.specs.Held.{directory_in, waiting_with};
ghost use Rattle.desk.specs.Laid.{LaidWaiting};
ghost use Rattle.desk.specs.Views.{cuts_by, slots_in};
ghost use Rattle.boxes.specs.Boxes.{box_in};
ghost use Rattle.directory.specs.Directory.{slot_at};
ghost use Rattle.cell_last.specs.Settling.{desk_grid, desk_memo};
ghost use Rattle.tally.specs.Tally.{InHand, MemoChanged};
ghost use Rattle.flush.specs.Flush.{FewCuts, BoxOf, desk_waiting, FlushChanged, BeforeFlush, BeforeEnter};

use boxes::BoxAt;
use desk::{Desk, Frame, Slot};
use entries::Table;
use page::Chain;
use terms::Place;

// Where the cell of m stands in the round.
fn home_of(frame: Frame, cells: &[Slot; Desk::MAX_CELLS], m: BoxAt) -> Option<usize>
    requires { FewCuts frame.easts frame.norths × BoxOf frame.easts frame.norths m × (frame.cells ≤ max_cells) }
    ensures { result ≡ slot_at (slots_in (directory_in frame.cells cells.now)) (corner_of (cuts_by frame.easts frame.norths) (box_in m)) }
{
    let corner = directory::corner_of(frame.easts, frame.norths, m);
    directory::cell_at(&cells[..frame.cells as usize], corner)
}

// "sweep d. For each waiting report of m ..": d, at place `at` of the round, with the reports. The table then has its entries; the answer is its old pages.
fn entered(
    desk: &mut Desk,
    pages: &[u8],
    at: usize,
    taken: &[u16; Desk::WAITING_WORDS],
    n: u16,
    m: BoxAt,
    table: &mut Table,
) -> Chain
    requires { BeforeEnter desk.old.cells at (waiting_with n taken.now) (desk_memo desk.old) (box_in m) pages.now }
    ensures kept { MemoChanged desk.old desk.new }
    ensures at_hand { (x : BeforeEnter desk.old.cells at (waiting_with n taken.now) (desk_memo desk.old) (box_in m) pages.now)
        → InHand (flushed_into (box_in m) x.store x.cell).cell (flushed_into (box_in m) x.store x.cell).store.memo result table.new
        (desk_memo desk.new) }
{
    let chain = tally::swept_at(desk, pages, at, table);
    let lines = enter::enter_all(taken, n, table, &mut desk.memo, desk.parts.lines);
    desk.parts.lines = lines;
    chain
}

// "Flush memory cell m": its reports wait no longer; they go into the cell in which it lies, which is then grown, split or joined.
pub fn flush(desk: &mut Desk, pages: &mut [u8], m: BoxAt)
    requires { BeforeFlush (desk_grid desk.old) (desk_waiting desk.old) (desk_memo desk.old) pages.old
        × BoxOf desk.old.parts.frame.easts desk.old.parts.frame.norths m }
    ensures kept { FlushChanged desk.old desk.new }
    ensures laid { (x : BeforeFlush (desk_grid desk.old) (desk_waiting desk.old) (desk_memo desk.old) pages.old)
        → LaidWaiting (flush (box_in m) x.store) (desk_grid desk.new) (desk_waiting desk.new) (desk_memo desk.new) pages.new }
{
    let frame = desk.parts.frame;
    let Some(at) = home_of(frame, &desk.cells, m) else {
        // not reached: each memory cell of a store lies in a cell
        return;
    };
    let mut taken = [0u16; Desk::WAITING_WORDS];
    let waits = desk.parts.waiting;
    let sides = box_reports::parted(
        frame.easts,
        frame.norths,
        &mut desk.waiting,
        waits,
        m,
        &mut taken,
    );
    desk.parts.waiting = sides.left;
    let mut table = Table::new();
    let chain = entered(desk, pages, at, &taken, sides.gone, m, &mut table);
    reshape::reshape(desk, pages, at, chain, &mut table);
}

// "After sign-on or report": the memory cell that is due is flushed, if one is.
pub fn after_report(desk: &mut Desk, pages: &mut [u8], place: Place)
    requires { BeforeFlush (desk_grid desk.old) (desk_waiting desk.old) (desk_memo desk.old) pages.old }
    ensures kept { FlushChanged desk.old desk.new }
    ensures laid { (x : BeforeFlush (desk_grid desk.old) (desk_waiting desk.old) (desk_memo desk.old) pages.old)
        → LaidWaiting (after_report (place_of place) x.store) (desk_grid desk.new) (desk_waiting desk.new) (desk_memo desk.new)
        pages.new }
{
    let frame = desk.parts.frame;
    let Some(m) = box_due::box_due(
        frame.easts,
        frame.norths,
        &desk.waiting,
        desk.parts.waiting,
        place,
    ) else {
        return;
    };
    flush(desk, pages, m);
}
