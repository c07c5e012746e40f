// The store that is damaged: one east cut, a low cell (0) and a high cell (1). The low cell's 34 entries are on pages 3 and 5, the high cell's three on page 0.
// Radio 10 moved from the high to the low cell and radio 7 signed off, so that each has a stale entry in the high cell and a memo line. Radios 20 and 400 wait,
// 400 since its sign-on. The highest minute is that of the high cell's entries and of radio 400's report.
ghost use Rattle.std.specs.Prelude.{◌≡◌, ◌<◌, ◌≤◌, length};
ghost use Rattle.terms.specs.Terms.{pages};
ghost use Rattle.page.specs.Buffer.{buffer_bytes};

use desk::{CutList, Desk, Frame, Line, Parts, Report, Slot};
use entries::Entry;
use page::PageKind;
use std::array;
use terms::{NO_PAGE, PAGE_ENTRIES, PAGES, Place};

pub const CUT: u16 = 32768;

pub const LAST: u16 = Desk::LAST_METRE;

pub const LOW_FIRST: usize = 3;

pub const LOW_FURTHER: usize = 5;

pub const HIGH_FIRST: usize = 0;

pub const FREE_FRONT: u16 = 1;

pub const LOW_ENTRIES: usize = 34;

// More than a half has, so that both halves of a minute count.
pub const HIGHEST: u32 = 70000;

// ---- the desk

pub fn cuts(n: u16, a: u16, b: u16) -> CutList {
    let mut at = [0; Desk::MAX_CUTS];
    at[0] = a;
    at[1] = b;
    CutList { n, at }
}

// A cell from the south to the north edge of the square.
pub fn stripe(number: u16, west: u16, east: u16, first: u16) -> Slot {
    Slot {
        number,
        west,
        east,
        south: 0,
        north: LAST,
        first,
    }
}

// A report told at minute 0.
pub fn report(radio: u16, east: u16, north: u16, new: u16) -> Report {
    Report {
        radio,
        east,
        north,
        new,
        low: 0,
        high: 0,
    }
}

// The same report, told at this minute.
pub fn told_at(report: Report, minute: u32) -> Report {
    Report {
        low: fields::low_half(minute),
        high: fields::high_half(minute),
        ..report
    }
}

pub fn line_7() -> Line {
    Line::new(7, 1, None)
}

pub fn line_10() -> Line {
    Line::new(
        10,
        1,
        Some(Place {
            east: 100,
            north: 200,
        }),
    )
}

// Radio 5, the radios of the first entries of the low cell, and radio 400.
pub fn radios_on(entries: usize) -> [u16; Desk::MAX_ON]
    requires { entries ≤ 34 }
{
    let mut radios = [0; Desk::MAX_ON];
    radios[0] = 5;
    for i in 1..=entries {
        radios[i] = (10 * i) as u16;
    }
    radios[entries + 1] = 400;
    radios
}

pub fn small_desk() -> Desk {
    let mut desk = Desk::fresh();
    desk.parts = Parts {
        frame: Frame {
            easts: cuts(1, CUT, 0),
            norths: cuts(0, 0, 0),
            cells: 2,
            free: FREE_FRONT,
        },
        waiting: 2,
        lines: 2,
        on: LOW_ENTRIES as u16 + 2,
        tally: 3,
        highest: HIGHEST,
    };
    desk.cells[0] = stripe(0, 0, CUT - 1, LOW_FIRST as u16);
    desk.cells[1] = stripe(1, CUT, LAST, HIGH_FIRST as u16);
    desk::put_report(&mut desk.waiting, 0, told_at(report(20, 50, 60, 0), 60000));
    desk::put_report(
        &mut desk.waiting,
        1,
        told_at(report(400, 40000, 500, 1), HIGHEST),
    );
    desk.memo[0] = line_7();
    desk.memo[1] = line_10();
    desk.on = radios_on(LOW_ENTRIES);
    desk
}

// ---- the pages

// The i-th entry of the low cell.
fn low_entry(i: usize) -> Entry
    requires { i < 34 }
{
    Entry {
        radio: (10 * (i + 1)) as u16,
        east: (100 + i) as u16,
        north: (200 + i) as u16,
        minute: (69000 + i) as u32,
    }
}

// An entry of the high cell.
fn high_entry(radio: u16) -> Entry {
    Entry {
        radio,
        east: 40000,
        north: radio,
        minute: HIGHEST,
    }
}

// The low cell's entries, so many on each of its pages.
pub fn write_low(buffer: &mut [u8], first: usize, further: usize)
    requires { (length buffer.old ≡ buffer_bytes) × (first ≤ 32) × (further ≤ 2) }
    ensures { length buffer.new ≡ buffer_bytes }
{
    let entries: [Entry; LOW_ENTRIES] = array::from_fn(low_entry);
    let (on_first, others) = entries.split_at(first);
    let (on_further, _) = others.split_at(further);
    page_write::write_page(
        buffer,
        LOW_FIRST,
        PageKind::First.number(),
        LOW_FURTHER as u16,
        0,
        on_first,
    );
    page_write::write_page(
        buffer,
        LOW_FURTHER,
        PageKind::Further.number(),
        NO_PAGE,
        0,
        on_further,
    );
}

// The high cell's three entries, or with radio 7 twice.
pub fn write_high(buffer: &mut [u8], twice: bool)
    requires { length buffer.old ≡ buffer_bytes }
    ensures { length buffer.new ≡ buffer_bytes }
{
    let three = [5, 7, 10].map(high_entry);
    let four = [5, 7, 7, 10].map(high_entry);
    let entries = if twice { &four[..] } else { &three[..] };
    page_write::write_page(
        buffer,
        HIGH_FIRST,
        PageKind::First.number(),
        NO_PAGE,
        1,
        entries,
    );
}

// Page p is the one page of a cell without entries.
pub fn write_none(buffer: &mut [u8], p: usize, cell: u16)
    requires { (length buffer.old ≡ buffer_bytes) × (p < pages) }
    ensures { length buffer.new ≡ buffer_bytes }
{
    page_write::write_page(buffer, p, PageKind::First.number(), NO_PAGE, cell, &[]);
}

// The pages from a to b are free in that order.
pub fn link(buffer: &mut [u8], a: usize, b: usize)
    requires { (length buffer.old ≡ buffer_bytes) × (a ≤ b) × (b < pages) }
    ensures { length buffer.new ≡ buffer_bytes }
{
    for p in a..b {
        page_write::free_page(buffer, p, (p + 1) as u16);
    }
    page_write::free_page(buffer, b, NO_PAGE);
}

// The free chain, by rising page.
fn write_free(buffer: &mut [u8])
    requires { length buffer.old ≡ buffer_bytes }
    ensures { length buffer.new ≡ buffer_bytes }
{
    let mut front = NO_PAGE;
    for p in (0..PAGES).rev() {
        if ![LOW_FIRST, LOW_FURTHER, HIGH_FIRST].contains(&p) {
            page_write::free_page(buffer, p, front);
            front = p as u16;
        }
    }
}

pub fn write_pages(buffer: &mut [u8])
    requires { length buffer.old ≡ buffer_bytes }
    ensures { length buffer.new ≡ buffer_bytes }
{
    write_free(buffer);
    write_low(buffer, PAGE_ENTRIES, 2);
    write_high(buffer, false);
}
