// The latest place of each radio on, in a table by radio, of a sound ledger. No entry is judged: a radio without a memo line has one entry, and that of a
// radio with a line, which isn't stale, has the line's place. So the lines' places lie over the entries', and the waiting reports' over these.
#![tactic(auto)]

ghost use Rattle.std.specs.Prelude.{List, true, ◌≡◌, ℕ, ◌≤◌, Some};
ghost use Rattle.terms.specs.Terms.{max_radio};
ghost use Rattle.terms.specs.Values.{place_of};
ghost use Rattle.lists.specs.Rows.{UpTo};
ghost use Rattle.lists.specs.Tests.{Each};
ghost use Rattle.page.specs.Buffer.{entries_from};
ghost use Rattle.rules.specs.Limits.{full_memory};
ghost use Rattle.rules.specs.Carry.{is_on};
ghost use Rattle.rules.specs.Plain.{put_at};
ghost use Rattle.rules.specs.Watches.{latest_place};
ghost use Rattle.desk.specs.Held.{desk_ledger, ledger_grid, ledger_waiting, ledger_memo, waiting_with};
ghost use Rattle.desk.specs.Sound.{SoundLedger};
ghost use Rattle.waiting.specs.Waiting.{reports_of};
ghost use Rattle.range_places.specs.Places.{over, slot_over, reports_over, Readable};
ghost use Rattle.latest_places.specs.Latest.{anywhere, unjudged, places_by, place_by, lines_over, LinesUpTo};
ghost use Rattle.latest_places.specs.Told.{entries_told, none_told, more_told};

use desk::{Desk, Line, Slot};
use entries::Entry;
use memo_index::RADIOS;
use terms::Place;
use walk::Keeper;

// A place for each radio, as two columns: those that read it copy a column for the radios on alone.
#[derive(Drop)]
pub struct Columns {
    pub easts: [u16; RADIOS],
    pub norths: [u16; RADIOS],
}

// The radio has this place, whatever it had; every other keeps what it has.
fn hold(table: &mut Columns, radio: u16, place: Place)
    requires { radio ≤ max_radio }
    ensures { places_by table.new.easts table.new.norths
        ≡ put_at radio (Some (place_of place)) (places_by table.old.easts table.old.norths) }
{
    table.easts[radio as usize] = place.east;
    table.norths[radio as usize] = place.north;
}

// Every entry is held.
#[derive(Clone, Copy)]
struct Every {}

impl Keeper for Every {
    type Table = Columns;

    ghost tells = { λ k s l t. entries_told s l t };

    fn tell(&self, entry: Entry, table: &mut Columns) {
        let place = Place {
            east: entry.east,
            north: entry.north,
        };
        hold(table, entry.radio, place);
    }

    ghost none = { λ k s. none_told s };

    ghost more = { λ k s t u a b. more_told s t u a b };
}

fn hold_cells(pages: &[u8], cells: &[Slot], table: &mut Columns)
    requires { Each (λ s. UpTo max_radio (entries_from pages.now s.first)) cells.now }
    ensures { places_by table.new.easts table.new.norths
        ≡ over (slot_over unjudged pages.now anywhere) cells.now (places_by table.old.easts table.old.norths) }
{
    for cell in cells {
        walk::tell_cell(pages, cell.first, &Every {}, table);
    }
}

// What a line without a place writes is never asked for: such a radio is off, or has a report that waits.
fn hold_lines(lines: &[Line], table: &mut Columns)
    requires { LinesUpTo max_radio lines.now }
    ensures { places_by table.new.easts table.new.norths
        ≡ lines_over lines.now (places_by table.old.easts table.old.norths) }
{
    for line in lines {
        let place = Place {
            east: line.east,
            north: line.north,
        };
        hold(table, line.radio, place);
    }
}

// "a waiting report's before a stored one's"
fn hold_reports(waiting: &[u16; Desk::WAITING_WORDS], n: u16, table: &mut Columns)
    requires { (n ≤ full_memory) × UpTo max_radio (reports_of (waiting_with n waiting.now)) }
    ensures { places_by table.new.easts table.new.norths
        ≡ reports_over anywhere (reports_of (waiting_with n waiting.now)) (places_by table.old.easts table.old.norths) }
{
    // A report is read out of six columns, by its place.
    for i in 0..n as usize {
        let report = desk::report_at(waiting, i);
        let place = Place {
            east: report.east,
            north: report.north,
        };
        hold(table, report.radio, place);
    }
}

// Each radio on has its latest place in the table, whoever is on; what the others have says nothing.
pub fn hold_latest(pages: &[u8], desk: &Desk, table: &mut Columns)
    requires { Readable pages.now (ledger_grid (desk_ledger desk.now)).cells (ledger_waiting (desk_ledger desk.now)) (ledger_memo (desk_ledger desk.now)) }
    ensures { (on : List ℕ) (s : SoundLedger (record (desk_ledger desk.now) { on = on }) pages.now)
        → (r : ℕ) → is_on s.store r ≡ true → latest_place s.store r ≡ Some (place_by table.new.easts table.new.norths r) }
{
    hold_cells(pages, &desk.cells[..desk.parts.frame.cells as usize], table);
    hold_lines(&desk.memo[..desk.parts.lines as usize], table);
    hold_reports(&desk.waiting, desk.parts.waiting, table);
}
