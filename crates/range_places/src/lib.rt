// A place for each radio in a table by radio: that of its entry that isn't stale, as far as cells that a rectangle touches have it, over it a waiting report's,
// each as far as it lies in the rectangle and is not too old. Neither desk nor pages are altered.
#![tactic(auto)]

ghost use Rattle.std.specs.Prelude.{◌≡◌, ◌≤◌, option_map, List, [], ◌++◌, Some};
ghost use Rattle.terms.specs.Terms.{Fix, fix_at, max_radio};
ghost use Rattle.terms.specs.Values.{place_of};
ghost use Rattle.lists.specs.Rows.{Row, UpTo};
ghost use Rattle.lists.specs.Tests.{Each};
ghost use Rattle.page.specs.Buffer.{entries_from};
ghost use Rattle.rules.specs.Limits.{full_memory};
ghost use Rattle.desk.specs.Views.{slots_in, edges_of, rect_of};
ghost use Rattle.desk.specs.Held.{desk_ledger, ledger_grid, ledger_waiting, ledger_memo, waiting_with};
ghost use Rattle.memo.specs.Memo.{lines_of};
ghost use Rattle.memo_index.specs.Index.{Named, judged};
ghost use Rattle.waiting.specs.Waiting.{reports_of};
ghost use Rattle.range_places.specs.Places.{no_places, places_in, seen, over, entries_over, reports_over, meets, touches, slot_over, places_of, Readable, sought, sought_of};
ghost use Rattle.range_places.specs.Told.{entries_told, none_told, more_told};

use desk::{Desk, Line, Rectangle, Slot};
use entries::Entry;
use memo_index::{NO_LINE, RADIOS};
use terms::Place;
use walk::Keeper;

// ---- rectangles

// Whether a range's edges and a cell's have a coordinate in common: the cell begins in the range, or the range in the cell.
fn is_meeting(low: u16, high: u16, cell_low: u16, cell_high: u16) -> bool
    ensures { result ≡ meets (record { low = low; high = high }) (record { low = cell_low; high = cell_high }) }
{
    rectangles::takes_in(low, high, cell_low)
        | ((cell_low <= low) & (low <= cell_high) & rectangles::takes_in(low, high, low))
}

// Whether the rectangle touches the cell.
fn is_touched(area: Rectangle, cell: Slot) -> bool
    ensures { result ≡ touches (rect_of area) (edges_of cell) }
{
    is_meeting(area.west, area.east, cell.west, cell.east)
        & is_meeting(area.south, area.north, cell.south, cell.north)
}

// ---- what is looked for

// "A range leaves out a radio whose minute is more than 720 before the range's own; exactly 720 stays in."
const KEPT_MINUTES: u32 = 720;

// The rectangle, and the earliest minute that is listed.
#[derive(Clone, Copy)]
pub struct Search {
    pub area: Rectangle,
    pub since: u32,
}

impl Search {
    // The earliest minute is found once, by a difference that does not go below 0, so that no sum goes round.
    pub fn of(area: Rectangle, minute: u32) -> Search
        ensures { sought_of result ≡ sought (rect_of area) minute }
    {
        Search {
            area,
            since: minute.saturating_sub(KEPT_MINUTES),
        }
    }

    // A place, if the range lists a radio that has it since this minute.
    fn seen(self, place: Place, minute: u32) -> Option<Place>
        ensures { option_map place_of result ≡ seen (sought_of self) (Some (fix_at place.east place.north minute)) }
    {
        if rectangles::is_covered(self.area, place.east, place.north) & (self.since <= minute) {
            Some(place)
        } else {
            None
        }
    }
}

// ---- a table by radio

// A search, and the memo's lines by which entries are judged.
#[derive(Clone, Copy)]
struct Looking<'a> {
    search: Search,
    memo: &'a [Line; Desk::LINE_SLOTS],
    lines: &'a [u16; RADIOS],
    ghost named: { Named memo.now lines.now },
}

// An entry's place is its radio's, or none if it is not looked for, whatever the radio had. A stale entry is passed over: then every radio keeps what it has.
impl<'a> Keeper for Looking<'a> {
    type Table = [Option<Place>; RADIOS];

    ghost tells = { λ k s l t. entries_told (judged k.memo.now k.lines.now) (sought_of k.search) s l t };

    fn tell(&self, entry: Entry, table: &mut [Option<Place>; RADIOS]) {
        if memo_index::is_stale(entry, self.memo, self.lines) {
            return;
        }
        let place = Place {
            east: entry.east,
            north: entry.north,
        };
        table[entry.radio as usize] = self.search.seen(place, entry.minute);
    }

    ghost none = { λ k s. none_told (judged k.memo.now k.lines.now) (sought_of k.search) s };

    ghost more = { λ k s t u a b. more_told (judged k.memo.now k.lines.now) (sought_of k.search) s t u a b };
}

// Only the pages of cells that the rectangle touches.
fn hold_cells(pages: &[u8], looking: &Looking, cells: &[Slot], table: &mut [Option<Place>; RADIOS])
    requires { Each (λ s. UpTo max_radio (entries_from pages.now s.first)) cells.now }
    ensures { places_in table.new
        ≡ over (slot_over (judged looking.now.memo.now looking.now.lines.now) pages.now (sought_of looking.now.search)) cells.now
        (places_in table.old) }
{
    for cell in cells {
        if is_touched(looking.search.area, *cell) {
            walk::tell_cell(pages, cell.first, looking, table);
        }
    }
}

// "a waiting report's before a stored one's"
fn hold_reports(
    search: Search,
    waiting: &[u16; Desk::WAITING_WORDS],
    n: u16,
    table: &mut [Option<Place>; RADIOS],
)
    requires { (n ≤ full_memory) × UpTo max_radio (reports_of (waiting_with n waiting.now)) }
    ensures { places_in table.new
        ≡ reports_over (sought_of search) (reports_of (waiting_with n waiting.now)) (places_in table.old) }
{
    // A report is read out of six columns, by its place.
    for i in 0..n as usize {
        let report = desk::report_at(waiting, i);
        let place = Place {
            east: report.east,
            north: report.north,
        };
        let minute = fields::wide_of(report.low, report.high);
        table[report.radio as usize] = search.seen(place, minute);
    }
}

// Where the memo's lines stand is written first, for each entry is judged by its radio's line where it is met. Over the entries lie the waiting reports.
pub fn hold_all(pages: &[u8], search: Search, desk: &Desk, table: &mut [Option<Place>; RADIOS])
    requires { (places_in table.old ≡ no_places)
        × Readable pages.now (ledger_grid (desk_ledger desk.now)).cells (ledger_waiting (desk_ledger desk.now)) (ledger_memo (desk_ledger desk.now)) }
    ensures { places_in table.new
        ≡ places_of pages.now (sought_of search) (slots_in (ledger_grid (desk_ledger desk.now)).cells)
        (lines_of (ledger_memo (desk_ledger desk.now))) (reports_of (ledger_waiting (desk_ledger desk.now))) }
{
    let mut lines = [NO_LINE; RADIOS];
    let memo = &desk.memo;
    memo_index::index_lines(memo, desk.parts.lines, &mut lines);
    let looking = Looking {
        search,
        memo,
        lines: &lines,
    };
    let cells = &desk.cells[..desk.parts.frame.cells as usize];
    hold_cells(pages, &looking, cells, table);
    hold_reports(search, &desk.waiting, desk.parts.waiting, table);
}
