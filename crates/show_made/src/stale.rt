// Many stale entries: "for every k below the number of cells the stale entries in cells at place k and later, plus all waiting, are at most 16 × (63 − k) + c +
// 127."
ghost use Rattle.std.specs.Prelude.{◌≡◌, ◌<◌, ◌≤◌, length};
ghost use Rattle.page.specs.Buffer.{buffer_bytes};

use super::small;
use super::small::{CUT, LAST};
use desk::{Desk, Line};
use entries::Entry;
use page::PageKind;
use std::array;
use terms::{NO_PAGE, PAGE_ENTRIES};

// The full cell has all the stale entries, on 36 pages; the empty one has none.
const STALE_PAGES: usize = 36;

// Radios off, from 1 to n, with a stale entry each.
fn stale_memo(n: usize) -> [Line; Desk::LINE_SLOTS] {
    array::from_fn(|i| {
        if i < n {
            Line::new(i as u16 + 1, 1, None)
        } else {
            Line::UNUSED
        }
    })
}

// The entries of the radios from `first` on.
fn stale_entries(first: usize) -> [Entry; PAGE_ENTRIES]
    requires { first ≤ 1152 }
{
    array::from_fn(|i| stale_entry((first + i) as u16))
}

fn stale_entry(radio: u16) -> Entry {
    Entry {
        radio,
        east: 1,
        north: 1,
        minute: 0,
    }
}

// The pages of the full cell but for the last are full.
fn write_full(buffer: &mut [u8])
    requires { length buffer.old ≡ buffer_bytes }
    ensures { length buffer.new ≡ buffer_bytes }
{
    for p in 0..STALE_PAGES - 1 {
        let kind = match p {
            0 => PageKind::First,
            _ => PageKind::Further,
        };
        let entries = stale_entries(PAGE_ENTRIES * p + 1);
        page_write::write_page(buffer, p, kind.number(), (p + 1) as u16, 0, &entries);
    }
}

// All pages but the last of the full cell.
pub fn write_stale(buffer: &mut [u8])
    requires { length buffer.old ≡ buffer_bytes }
    ensures { length buffer.new ≡ buffer_bytes }
{
    write_full(buffer);
    small::link(buffer, STALE_PAGES, 126);
    small::write_none(buffer, 127, 1);
}

// The last page has the rest of n.
pub fn write_rest(buffer: &mut [u8], n: usize)
    requires { (length buffer.old ≡ buffer_bytes) × (1120 < n) × (n ≤ 1151) }
    ensures { length buffer.new ≡ buffer_bytes }
{
    let full = PAGE_ENTRIES * (STALE_PAGES - 1);
    let entries = stale_entries(full + 1);
    let (rest, _) = entries.split_at(n - full);
    page_write::write_page(
        buffer,
        STALE_PAGES - 1,
        PageKind::Further.number(),
        NO_PAGE,
        0,
        rest,
    );
}

// n stale entries in the full cell, at this place of the round, 0 or 1.
pub fn stale_desk(n: usize, place: usize, c: u16) -> Desk
    requires { n ≤ 1151 }
{
    let full = small::stripe(0, 0, CUT - 1, 0);
    let empty = small::stripe(1, CUT, LAST, 127);
    let (front, other) = if place == 0 {
        (full, empty)
    } else {
        (empty, full)
    };
    let mut desk = Desk::fresh();
    desk.parts.frame.easts = small::cuts(1, CUT, 0);
    desk.parts.frame.cells = 2;
    desk.parts.frame.free = STALE_PAGES as u16;
    desk.cells[0] = front;
    desk.cells[1] = other;
    desk.memo = stale_memo(n);
    desk.parts.lines = n as u16;
    desk.parts.tally = c;
    desk
}
