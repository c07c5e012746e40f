// Range: the list of those radios on whose place, as a table by radio has it, lies in a rectangle. Neither desk nor pages are altered.
#![tactic(auto)]

ghost use Rattle.std.specs.Prelude.{[], ◌∷◌, ◌≡◌, ◌+◌, ◌*◌, ◌≤◌, length, take};
ghost use Rattle.terms.specs.Terms.{max_radio, max_on};
ghost use Rattle.terms.specs.Values.{place_of};
ghost use Rattle.lists.specs.Parts.{put};
ghost use Rattle.lists.specs.Rows.{UpTo};
ghost use Rattle.lists.specs.Sums.{filter};
ghost use Rattle.rules.specs.Carry.{list_bytes, bytes_of};
ghost use Rattle.rules.specs.Told.{told_list};
ghost use Rattle.desk.specs.Held.{desk_ledger, ledger_grid, ledger_waiting, ledger_memo, ledger_on, on_with};
ghost use Rattle.desk.specs.Views.{radio_row, radios_of, rect_of};
ghost use Rattle.memo_index.specs.Index.{table_size};
ghost use Rattle.range_places.specs.Places.{sought, Readable};
ghost use Rattle.range.specs.Range.{is_marked, row_at, rows_at, found_in};

use desk::{Answer, Desk, Rectangle};
use memo_index::RADIOS;
use range_places::Search;
use terms::{Place, Refusal};

const LIST_BYTES: usize = 6;

// Written for no radio: one that is found has a place.
const NOWHERE: Place = Place { east: 0, north: 0 };

// ---- the list

// Those of the radios on that have a place in the table: a radio is put after those kept, and kept where it has one. No branch: which are found follows no
// pattern.
fn found_on(
    table: &[Option<Place>; RADIOS],
    radios: &[u16; Desk::MAX_ON],
    n: u16,
    found: &mut [u16; Desk::MAX_ON],
) -> u16
    requires { (length table.now ≡ table_size) × (n ≤ max_on) × UpTo max_radio (radios_of (on_with n radios.now)) }
    ensures { (radios_of (on_with result found.new) ≡ filter (is_marked table.now) (radios_of (on_with n radios.now)))
        × (length found.new ≡ max_on) × (result ≤ max_on) }
{
    let mut kept: usize = 0;
    for i in 0..n as usize {
        let radio = radios[i];
        found[kept] = radio;
        kept += lists::one_if(table[radio as usize].is_some());
    }
    kept as u16
}

// "radio, east, north": a radio with its place.
fn write_row(buffer: &mut [u8], at: usize, radio: u16, place: Place)
    requires { at + list_bytes ≤ length buffer.old }
    ensures { buffer.new ≡ put buffer.old at (bytes_of (record { key = radio; val = place_of place } ∷ [])) }
{
    fields::write(buffer, at, radio);
    fields::write(buffer, at + 2, place.east);
    fields::write(buffer, at + 4, place.north);
}

// "6 × n bytes .. at the buffer's start"
fn write_rows(
    buffer: &mut [u8],
    table: &[Option<Place>; RADIOS],
    found: &[u16; Desk::MAX_ON],
    n: u16,
)
    requires { (length table.now ≡ table_size) × (n ≤ max_on) × UpTo max_radio (radios_of (on_with n found.now))
        × (list_bytes * n ≤ length buffer.old) }
    ensures { buffer.new ≡ put buffer.old 0 (bytes_of (rows_at table.now (radios_of (on_with n found.now)))) }
{
    for i in 0..n as usize {
        let radio = found[i];
        let place = table[radio as usize].unwrap_or(NOWHERE);
        write_row(buffer, LIST_BYTES * i, radio, place);
    }
}

// "Range finds the radios on whose latest place, a waiting report's before a stored one's, lies in the rectangle, by rising number.": how many it found, or number
// 11, "The answer buffer has fewer than 6 × n bytes for n radios found."
pub fn list(pages: &[u8], area: Rectangle, minute: u32, desk: &Desk, buffer: &mut [u8]) -> Answer
    requires { Readable pages.now (ledger_grid (desk_ledger desk.now)).cells (ledger_waiting (desk_ledger desk.now)) (ledger_memo (desk_ledger desk.now))
        × (desk.now.parts.on ≤ max_on) × UpTo max_radio (radios_of (ledger_on (desk_ledger desk.now))) }
    ensures told { record { number = result.number; count = result.count; buffer = buffer.new }
        ≡ told_list (found_in pages.now (sought (rect_of area) minute) (ledger_grid (desk_ledger desk.now)).cells
        (ledger_waiting (desk_ledger desk.now)) (ledger_memo (desk_ledger desk.now)) (ledger_on (desk_ledger desk.now)))
        buffer.old }
    ensures no_watch { (result.gained ≡ 0) × (result.lost ≡ 0) }
{
    let mut table = [None; RADIOS];
    let search = Search::of(area, minute);
    range_places::hold_all(pages, search, desk, &mut table);
    let mut found = [0u16; Desk::MAX_ON];
    let n = found_on(&table, &desk.on, desk.parts.on, &mut found);
    if buffer.len() < LIST_BYTES * n as usize {
        return desk::counted(Refusal::ShortBuffer.number(), n as u64);
    }
    write_rows(buffer, &table, &found, n);
    desk::counted(0, n as u64)
}
