// The tally counts each accepted sign-on, report and sign-off, and at the 16th the cell at the front of the round is swept and goes last.
#![tactic(auto)]

ghost use Rattle.std.specs.Prelude.{◌≡◌};
ghost use Rattle.rules.specs.Sweep.{swept, swept_memo, sweep_front};
ghost use Rattle.desk.specs.Laid.{LaidMemo};
ghost use Rattle.cell_last.specs.Settling.{desk_grid, desk_memo};
ghost use Rattle.tally.specs.Tally.{BeforeSweepAt, InHand, MemoChanged, BeforeTally, BeforeSweep, RoundChanged, AfterTally};

use desk::Desk;
use entries::Table;
use page::Chain;

// "Sweep a cell": the one at place `at` of the round. Of the desk only the memo changes. The table then has the cell's entries; the answer is its old pages.
pub fn swept_at(desk: &mut Desk, pages: &[u8], at: usize, table: &mut Table) -> Chain
    requires { BeforeSweepAt desk.old.cells at (desk_memo desk.old) pages.now }
    ensures kept { MemoChanged desk.old desk.new }
    ensures at_hand { (x : BeforeSweepAt desk.old.cells at (desk_memo desk.old) pages.now)
        → InHand (swept x.store.memo x.cell) (swept_memo x.store.memo x.cell.entries) result table.new (desk_memo desk.new) }
{
    let chain = page_chain::read_chain(pages, desk.cells[at].first);
    let lines = sweep::sweep_chain(pages, chain, &mut desk.memo, desk.parts.lines, table);
    desk.parts.lines = lines;
    chain
}

// ---- the tally

// "sweep the cell at the front of the round, move it to the end, set c to 0"
fn sweep_front(desk: &mut Desk, pages: &mut [u8])
    requires { BeforeSweep (desk_grid desk.old) (desk_memo desk.old) pages.old }
    ensures kept { RoundChanged desk.old desk.new }
    ensures reset { desk.new.parts.tally ≡ 0 }
    ensures laid { (x : BeforeSweep (desk_grid desk.old) (desk_memo desk.old) pages.old)
        → LaidMemo (sweep_front x.store.cells x.store) (desk_grid desk.new) (desk_memo desk.new) pages.new }
{
    let mut table = Table::new();
    let chain = swept_at(desk, pages, 0, &mut table);
    let frame = desk.parts.frame;
    desk.parts.frame = cell_last::settled_last(pages, frame, &mut desk.cells, 0, chain, &table);
    desk.parts.tally = 0;
}

// "Each accepted sign-on, report or sign-off adds 1 to c. At 16, sweep the cell at the front of the round, move it to the end, set c to 0."
pub fn tick(desk: &mut Desk, pages: &mut [u8])
    requires { BeforeTally (desk_grid desk.old) (desk_memo desk.old) desk.old.parts.tally pages.old }
    ensures kept { RoundChanged desk.old desk.new }
    ensures counted { (x : BeforeTally (desk_grid desk.old) (desk_memo desk.old) desk.old.parts.tally pages.old)
        → AfterTally x.store (desk_grid desk.new) (desk_memo desk.new) desk.new.parts.tally pages.new }
{
    let c = desk.parts.tally + 1;
    if c < Desk::SWEEP_EVERY {
        desk.parts.tally = c;
        return;
    }
    sweep_front(desk, pages);
}
