// What the latest report of each radio on told, place and minute, beside the radios on: for writing all of them into a file. Neither desk nor pages are altered. A
// table by radio says where each radio on stands, so there are no more fixes than there may be radios on.
#![tactic(auto)]

ghost use Rattle.std.specs.Prelude.{List, [], ◌++◌, ◌≡◌, ◌≤◌, map, length};
ghost use Rattle.terms.specs.Terms.{max_radio, max_on};
ghost use Rattle.terms.specs.Values.{fix_of};
ghost use Rattle.lists.specs.Rows.{Rising, UpTo};
ghost use Rattle.lists.specs.Tests.{Each};
ghost use Rattle.page.specs.Buffer.{entries_from};
ghost use Rattle.rules.specs.Limits.{full_memory};
ghost use Rattle.desk.specs.Views.{slots_in, radio_row};
ghost use Rattle.desk.specs.Held.{desk_ledger, ledger_grid, ledger_waiting, ledger_memo, waiting_with};
ghost use Rattle.desk.specs.Sound.{SoundLedger};
ghost use Rattle.memo.specs.Memo.{lines_of};
ghost use Rattle.memo_index.specs.Index.{Blank, Named, judged};
ghost use Rattle.waiting.specs.Waiting.{reports_of};
ghost use Rattle.range_places.specs.Places.{over, Readable};
ghost use Rattle.latest_fixes.specs.Fixes.{Seats, SeatsOf, seat_in, fixes_in, retold, slot_told, reports_told, fixes_of, FixesOn};
ghost use Rattle.latest_fixes.specs.Told.{Told, none_told, more_told};

use desk::{Desk, Line, Slot};
use entries::Entry;
use memo_index::{NO_LINE, RADIOS};
use terms::{Fix, Place};
use walk::Keeper;

// ---- where the radios on stand

// Where a radio stands among those on counts from 1: a number for none keeps the table at two bytes a radio, where an Option would take four.
const NO_SEAT: u16 = 0;

// Each radio on writes where it stands.
fn seat_all(radios: &[u16], seats: &mut [u16; RADIOS])
    requires { (length radios.now ≤ max_on) × Rising 0 (map radio_row radios.now) × UpTo max_radio (map radio_row radios.now) × Blank seats.old }
    ensures { SeatsOf radios.now seats.new }
{
    for i in 0..radios.len() {
        seats[radios[i] as usize] = i as u16 + 1;
    }
}

// Where a radio stands, if it is on.
fn seat_of(seats: &[u16; RADIOS], radio: u16) -> Option<usize>
    requires { radio ≤ max_radio }
    ensures { result ≡ seat_in seats.now radio }
{
    let seat = seats[radio as usize];
    if seat == NO_SEAT {
        None
    } else {
        Some(seat as usize - 1)
    }
}

// ---- a fix for each

// The radio has this fix, whatever it had; every other keeps what it has. A radio that is not on is passed over.
fn hold(seats: &[u16; RADIOS], radio: u16, fix: Fix, fixes: &mut [Fix; Desk::MAX_ON])
    requires { (radio ≤ max_radio) × Seats seats.now }
    ensures { fixes_in fixes.new ≡ retold seats.now radio (fix_of fix) (fixes_in fixes.old) }
{
    if let Some(at) = seat_of(seats, radio) {
        fixes[at] = fix;
    }
}

// Where the radios on stand, and the memo's lines by which entries are judged.
#[derive(Clone, Copy)]
struct Telling<'a> {
    seats: &'a [u16; RADIOS],
    memo: &'a [Line; Desk::LINE_SLOTS],
    lines: &'a [u16; RADIOS],
    ghost seated: { Seats seats.now },
    ghost named: { Named memo.now lines.now },
}

// What an entry has. A stale entry is passed over: then every radio keeps what it has.
impl<'a> Keeper for Telling<'a> {
    type Table = [Fix; Desk::MAX_ON];

    ghost tells = { λ k s l t. Told k.seats.now (judged k.memo.now k.lines.now) s l t };

    fn tell(&self, entry: Entry, fixes: &mut [Fix; Desk::MAX_ON]) {
        if memo_index::is_stale(entry, self.memo, self.lines) {
            return;
        }
        let fix = Fix {
            place: Place {
                east: entry.east,
                north: entry.north,
            },
            minute: entry.minute,
        };
        hold(self.seats, entry.radio, fix, fixes);
    }

    ghost none = { λ k s. none_told k.seats.now (judged k.memo.now k.lines.now) s };

    ghost more = { λ k s t u a b. more_told k.seats.now (judged k.memo.now k.lines.now) s t u a b };
}

fn hold_cells(pages: &[u8], telling: &Telling, cells: &[Slot], fixes: &mut [Fix; Desk::MAX_ON])
    requires { Each (λ s. UpTo max_radio (entries_from pages.now s.first)) cells.now }
    ensures { fixes_in fixes.new
        ≡ over (slot_told telling.now.seats.now (judged telling.now.memo.now telling.now.lines.now) pages.now) cells.now (fixes_in fixes.old) }
{
    for cell in cells {
        walk::tell_cell(pages, cell.first, telling, fixes);
    }
}

// "a waiting report's before a stored one's"
fn hold_reports(
    seats: &[u16; RADIOS],
    waiting: &[u16; Desk::WAITING_WORDS],
    n: u16,
    fixes: &mut [Fix; Desk::MAX_ON],
)
    requires { Seats seats.now × (n ≤ full_memory) × UpTo max_radio (reports_of (waiting_with n waiting.now)) }
    ensures { fixes_in fixes.new ≡ reports_told seats.now (reports_of (waiting_with n waiting.now)) (fixes_in fixes.old) }
{
    // A report is read out of six columns, by its place.
    for i in 0..n as usize {
        let report = desk::report_at(waiting, i);
        let fix = Fix {
            place: Place {
                east: report.east,
                north: report.north,
            },
            minute: fields::wide_of(report.low, report.high),
        };
        hold(seats, report.radio, fix, fixes);
    }
}

// Where the memo's lines stand is written first, for each entry is judged by its radio's line where it is met. Over the entries lie the waiting reports.
fn hold_all(pages: &[u8], desk: &Desk, seats: &[u16; RADIOS], fixes: &mut [Fix; Desk::MAX_ON])
    requires { Seats seats.now
        × Readable pages.now (ledger_grid (desk_ledger desk.now)).cells (ledger_waiting (desk_ledger desk.now)) (ledger_memo (desk_ledger desk.now)) }
    ensures { fixes_in fixes.new
        ≡ fixes_of pages.now seats.now (slots_in (ledger_grid (desk_ledger desk.now)).cells)
        (lines_of (ledger_memo (desk_ledger desk.now))) (reports_of (ledger_waiting (desk_ledger desk.now))) (fixes_in fixes.old) }
{
    let mut lines = [NO_LINE; RADIOS];
    memo_index::index_lines(&desk.memo, desk.parts.lines, &mut lines);
    let telling = Telling {
        seats,
        memo: &desk.memo,
        lines: &lines,
    };
    let cells = &desk.cells[..desk.parts.frame.cells as usize];
    hold_cells(pages, &telling, cells, fixes);
    hold_reports(seats, &desk.waiting, desk.parts.waiting, fixes);
}

// "all radios on": of each what its latest report told, whatever its age.
pub fn fixes_on(pages: &[u8], desk: &Desk, fixes: &mut [Fix; Desk::MAX_ON])
    requires { SoundLedger (desk_ledger desk.now) pages.now }
    ensures { (s : SoundLedger (desk_ledger desk.now) pages.now) → FixesOn s.store desk.now.parts.on desk.now.on fixes.new }
{
    let radios = &desk.on[..desk.parts.on as usize];
    let mut seats = [NO_SEAT; RADIOS];
    seat_all(radios, &mut seats);
    hold_all(pages, desk, &seats, fixes);
}
