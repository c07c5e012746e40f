// A cell is joined with a neighbour: this is swept, and all entries go on the pages of the one that survives.
#![tactic(auto)]

ghost use Rattle.std.specs.Prelude.{◌≡◌, [], ◌∷◌, ◌++◌, ◌<◌, ◌≤◌};
ghost use Rattle.lists.specs.Parts.{remove_at};
ghost use Rattle.page.specs.Buffer.{pages_of};
ghost use Rattle.rules.specs.Limits.{max_cells};
ghost use Rattle.rules.specs.Flush.{joined_with};
ghost use Rattle.desk.specs.Laid.{LaidMemo};
ghost use Rattle.desk.specs.Views.{slots_in, directory_with};
ghost use Rattle.desk.specs.Held.{directory_in};
ghost use Rattle.directory.specs.Directory.{WholeDirectory};
ghost use Rattle.join.specs.Join.{joined_slot};
ghost use Rattle.cell_last.specs.Settling.{HandFits, desk_grid, desk_memo, CellsChanged};
ghost use Rattle.cell_join.specs.Joining.{BeforeJoinPages, AfterJoinPages, BeforeJoin};

use desk::{Desk, Slot};
use entries::Table;
use page::Chain;
use settle::Settled;

// d's number is the smaller: all entries go on its pages, and the neighbour's are given up.
fn join_onto_d(
    pages: &mut [u8],
    free: u16,
    d: Slot,
    chain: Chain,
    m: Slot,
    other: Chain,
    table: &Table,
) -> Settled
    requires { HandFits chain × HandFits other × (d.number < m.number)
        × BeforeJoinPages free d (pages_of chain) m (pages_of other) table.now pages.old }
    ensures { (x : BeforeJoinPages free d (pages_of chain) m (pages_of other) table.now pages.old)
        → AfterJoinPages x.flushed x.neighbour result pages.new }
{
    let settled = settle::settle(pages, chain, free, d.number, table.as_slice());
    let front = settle::give_up(pages, other, settled.free, 0);
    Settled {
        first: settled.first,
        free: front,
    }
}

// The neighbour's is: d's pages are given up, and all entries go on the neighbour's.
fn join_onto_m(
    pages: &mut [u8],
    free: u16,
    d: Slot,
    chain: Chain,
    m: Slot,
    other: Chain,
    table: &Table,
) -> Settled
    requires { HandFits chain × HandFits other × (m.number ≤ d.number)
        × BeforeJoinPages free d (pages_of chain) m (pages_of other) table.now pages.old }
    ensures { (x : BeforeJoinPages free d (pages_of chain) m (pages_of other) table.now pages.old)
        → AfterJoinPages x.flushed x.neighbour result pages.new }
{
    let front = settle::give_up(pages, chain, free, 0);
    settle::settle(pages, other, front, m.number, table.as_slice())
}

// "The smaller number survives .. pages of the other are freed."
fn join_pages(
    pages: &mut [u8],
    free: u16,
    d: Slot,
    chain: Chain,
    m: Slot,
    other: Chain,
    table: &Table,
) -> Settled
    requires { HandFits chain × HandFits other
        × BeforeJoinPages free d (pages_of chain) m (pages_of other) table.now pages.old }
    ensures { (x : BeforeJoinPages free d (pages_of chain) m (pages_of other) table.now pages.old)
        → AfterJoinPages x.flushed x.neighbour result pages.new }
{
    if d.number < m.number {
        return join_onto_d(pages, free, d, chain, m, other, table);
    }
    join_onto_m(pages, free, d, chain, m, other, table)
}

// The others without the neighbour at place k, and the joined cell last: as many as before.
fn joined_cells(rest: &mut [Slot; Desk::MAX_CELLS], n: u16, k: usize, d: Slot, m: Slot, first: u16)
    requires { WholeDirectory (directory_in n rest.old) × (k < n) × (n ≤ max_cells) }
    ensures { directory_in n rest.new
        ≡ directory_with (remove_at (slots_in (directory_in n rest.old)) k ++ (joined_slot d m first ∷ [])) }
{
    directory::take_out(rest, n, k);
    let joined = join::joined_slot(d, m, first);
    directory::put_last(rest, n - 1, joined);
}

// "sweep that cell and join it": d's slot is taken out of the round, and the neighbour stands at place k of the others. The frame still counts d.
pub fn join(desk: &mut Desk, pages: &mut [u8], d: Slot, k: usize, chain: Chain, table: &mut Table)
    requires { HandFits chain
        × BeforeJoin desk.old.parts.frame desk.old.cells d k (pages_of chain) table.old (desk_memo desk.old) pages.old }
    ensures kept { CellsChanged desk.old desk.new }
    ensures laid { (x : BeforeJoin desk.old.parts.frame desk.old.cells d k (pages_of chain) table.old (desk_memo desk.old) pages.old)
        → LaidMemo (joined_with x.midway.flushed x.neighbour) (desk_grid desk.new) (desk_memo desk.new) pages.new }
{
    let frame = desk.parts.frame;
    let m = desk.cells[k];
    let other = page_chain::read_chain(pages, m.first);
    let mut stays = Table::new();
    let lines = sweep::sweep_chain(pages, other, &mut desk.memo, desk.parts.lines, &mut stays);
    join::merge(&stays, table);
    let ends = join_pages(pages, frame.free, d, chain, m, other, table);
    let n = frame.cells - 1;
    joined_cells(&mut desk.cells, n, k, d, m, ends.first);
    desk.parts.frame = cell_last::with_cells(frame, n, ends.free);
    desk.parts.lines = lines;
}
