// The test of soundness as far as it looks at cuts and directory alone: with what each of them says by itself, the edges of each cell, and that the cells tile
// the area. They may be in any condition: a count is tested before a slot is looked at.
#![tactic(auto)]

ghost use Rattle.std.specs.Prelude.{true, ◌≡◌, [], ◌∷◌, ◌+◌, ◌*◌, ◌<◌, ◌≤◌, min, length};
ghost use Rattle.lists.specs.Tests.{both, all};
ghost use Rattle.rules.specs.Limits.{max_cells, max_cuts};
ghost use Rattle.desk.specs.Held.{directory_in};
ghost use Rattle.desk.specs.Views.{cuts_by, edges_of as rect_of};
ghost use Rattle.sound_clauses.specs.Grid.{edges_test, tile_test};
ghost use Rattle.boxes.specs.Boxes.{max_stripes, table_size};
ghost use Rattle.sound_directory.specs.Sound.{cuts_sound};
ghost use Rattle.sound_grid.specs.Sound.{several, Raised, RaisedIf, in_row, in_stripes, holders, row_once, rows_once, grid_sound};
ghost use Rattle.sound_grid.specs.Views.{rects_of};

use boxes::{BOXES, STRIPES};
use desk::{CutList, Desk, Slot};
use sound_edges::extent_of;

const ONCE: u8 = 1;

const SEVERAL: u8 = 2;

// ---- tiling

// One more, where 2 stands for any number above 1.
fn one_more(x: u8) -> u8
    ensures { result ≡ min (x + 1) several }
{
    if x < SEVERAL { x + 1 } else { SEVERAL }
}

// In a row of memory cells those from stripe `west` to `east` are held by one more.
fn mark_row(table: &mut [u8; BOXES], row: usize, west: usize, east: usize)
    requires { (row < max_stripes) × (east < max_stripes) }
    ensures { Raised table.old table.new (in_row west east row) }
{
    for i in west..east + 1 {
        let k = STRIPES * row + i;
        table[k] = one_more(table[k]);
    }
}

// So are the memory cells of a rectangle of stripes.
fn mark_cell(table: &mut [u8; BOXES], west: usize, east: usize, south: usize, north: usize)
    requires { (east < max_stripes) × (north < max_stripes) }
    ensures { Raised table.old table.new (in_stripes west east south north) }
{
    for j in south..north + 1 {
        mark_row(table, j, west, east);
    }
}

// So are the memory cells of a cell, if it is a rectangle of whole ones.
fn mark_slot(easts: CutList, norths: CutList, x: Slot, table: &mut [u8; BOXES]) -> bool
    requires { (cuts_sound easts ≡ true) × (cuts_sound norths ≡ true) }
    ensures { (result ≡ edges_test (cuts_by easts norths) (rect_of x))
        × RaisedIf result table.old table.new (holders (cuts_by easts norths) (rect_of x ∷ [])) }
{
    let east_cuts = &easts.at[..easts.n as usize];
    let Some((west, east)) = extent_of(east_cuts, x.west, x.east) else {
        return false;
    };
    let north_cuts = &norths.at[..norths.n as usize];
    let Some((south, north)) = extent_of(north_cuts, x.south, x.north) else {
        return false;
    };
    mark_cell(table, west, east, south, north);
    true
}

// So are those of all cells, if each is such a rectangle.
fn mark_cells(easts: CutList, norths: CutList, cells: &[Slot], table: &mut [u8; BOXES]) -> bool
    requires { (cuts_sound easts ≡ true) × (cuts_sound norths ≡ true) }
    ensures { (result ≡ all (edges_test (cuts_by easts norths)) (rects_of cells.now))
        × RaisedIf result table.old table.new (holders (cuts_by easts norths) (rects_of cells.now)) }
{
    for &cell in cells {
        if !mark_slot(easts, norths, cell, table) {
            return false;
        }
    }
    true
}

// Whether each memory cell of a row is held once.
fn row_once(table: &[u8; BOXES], columns: usize, row: usize) -> bool
    requires { (columns ≤ max_stripes) × (row < max_stripes) }
    ensures { result ≡ row_once table.now columns row }
{
    for i in 0..columns {
        if table[STRIPES * row + i] != ONCE {
            return false;
        }
    }
    true
}

// Whether each memory cell is.
fn rows_once(table: &[u8; BOXES], columns: usize, rows: usize) -> bool
    requires { (columns ≤ max_stripes) × (rows ≤ max_stripes) }
    ensures { result ≡ rows_once table.now columns rows }
{
    for j in 0..rows {
        if !row_once(table, columns, j) {
            return false;
        }
    }
    true
}

// Whether each cell is a rectangle of whole memory cells, and the cells tile the square: on cuts that rise.
fn cells_sound(easts: CutList, norths: CutList, cells: &[Slot]) -> bool
    requires { (cuts_sound easts ≡ true) × (cuts_sound norths ≡ true) }
    ensures { result
        ≡ both (all (edges_test (cuts_by easts norths)) (rects_of cells.now)) (tile_test (cuts_by easts norths) (rects_of cells.now)) }
{
    let mut table = [0u8; BOXES];
    if !mark_cells(easts, norths, cells, &mut table) {
        return false;
    }
    rows_once(&table, easts.n as usize + 1, norths.n as usize + 1)
}

// ---- the grid

// Whether cuts and directory are sound, but for pages.
pub fn grid_sound(
    easts: CutList,
    norths: CutList,
    cells: &[Slot; Desk::MAX_CELLS],
    n: usize,
) -> bool
    ensures test { result ≡ grid_sound easts norths (directory_in n cells.now) }
    ensures shape { (length easts.at ≡ max_cuts) × (length norths.at ≡ max_cuts) × (length cells.now ≡ max_cells) }
{
    if !sound_directory::cuts_sound(easts) {
        return false;
    }
    if !sound_directory::cuts_sound(norths) {
        return false;
    }
    if !sound_directory::directory_sound(cells, n) {
        return false;
    }
    cells_sound(easts, norths, &cells[..n])
}
