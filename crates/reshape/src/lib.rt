// What follows once the reports of a flush are in d: it is split, or joined with a neighbour, or its chain takes or gives up pages; and it goes to the end of
// the round.
#![tactic(auto)]

ghost use Rattle.std.specs.Prelude.{◌<◌, ◌≤◌, length};
ghost use Rattle.terms.specs.Terms.{page_entries};
ghost use Rattle.page.specs.Buffer.{pages_of};
ghost use Rattle.rules.specs.Flush.{reshaped};
ghost use Rattle.desk.specs.Laid.{LaidMemo};
ghost use Rattle.cell_last.specs.Settling.{HandFits, desk_grid, desk_memo, CellsChanged, BeforeReshape};

use desk::Desk;
use entries::Table;
use page::Chain;
use terms::PAGE_ENTRIES;

// ---- split, joined or left

// "when d has more than 32 entries": split, if there are "fewer than 64 cells" and a cut is found; else "d grows its chain".
fn split_or_grown(desk: &mut Desk, pages: &mut [u8], at: usize, chain: Chain, table: &Table)
    requires { HandFits chain × (page_entries < length table.now)
        × BeforeReshape (desk_grid desk.old) at (pages_of chain) table.now (desk_memo desk.old) pages.old }
    ensures kept { CellsChanged desk.old desk.new }
    ensures laid { (x : BeforeReshape (desk_grid desk.old) at (pages_of chain) table.now (desk_memo desk.old) pages.old)
        → LaidMemo (reshaped x.flushed) (desk_grid desk.new) (desk_memo desk.new) pages.new }
{
    let frame = desk.parts.frame;
    if Desk::MAX_CELLS <= frame.cells as usize {
        desk.parts.frame = cell_last::settled_last(pages, frame, &mut desk.cells, at, chain, table);
        return;
    }
    let d = desk.cells[at];
    let Some(cut) = cut::chosen_cut(frame.easts, frame.norths, d, table.as_slice()) else {
        desk.parts.frame = cell_last::settled_last(pages, frame, &mut desk.cells, at, chain, table);
        return;
    };
    desk.parts.frame = cell_split::split(pages, frame, &mut desk.cells, at, chain, table, cut);
}

// "after a flush that left d at most 32 entries": joined, if a cell beside it may be. d is taken out of the round first, so that the others are looked through.
fn joined_or_grown(desk: &mut Desk, pages: &mut [u8], at: usize, chain: Chain, table: &mut Table)
    requires { HandFits chain × (length table.old ≤ page_entries)
        × BeforeReshape (desk_grid desk.old) at (pages_of chain) table.old (desk_memo desk.old) pages.old }
    ensures kept { CellsChanged desk.old desk.new }
    ensures laid { (x : BeforeReshape (desk_grid desk.old) at (pages_of chain) table.old (desk_memo desk.old) pages.old)
        → LaidMemo (reshaped x.flushed) (desk_grid desk.new) (desk_memo desk.new) pages.new }
{
    let frame = desk.parts.frame;
    let d = desk.cells[at];
    directory::take_out(&mut desk.cells, frame.cells, at);
    let others = frame.cells - 1;
    let Some(k) = join::find_neighbour(pages, &desk.cells[..others as usize], d, table.len()) else {
        desk.parts.frame = cell_last::hand_last(pages, frame, &mut desk.cells, d, chain, table);
        return;
    };
    cell_join::join(desk, pages, d, k, chain, table);
}

// d, with the reports in it, is split, joined, or keeps to itself; it goes to the end of the round with the pages that it needs.
pub fn reshape(desk: &mut Desk, pages: &mut [u8], at: usize, chain: Chain, table: &mut Table)
    requires { HandFits chain
        × BeforeReshape (desk_grid desk.old) at (pages_of chain) table.old (desk_memo desk.old) pages.old }
    ensures kept { CellsChanged desk.old desk.new }
    ensures laid { (x : BeforeReshape (desk_grid desk.old) at (pages_of chain) table.old (desk_memo desk.old) pages.old)
        → LaidMemo (reshaped x.flushed) (desk_grid desk.new) (desk_memo desk.new) pages.new }
{
    if PAGE_ENTRIES < table.len() {
        split_or_grown(desk, pages, at, chain, table);
        return;
    }
    joined_or_grown(desk, pages, at, chain, table);
}
