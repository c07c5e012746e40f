// The test of one page by itself, on any bytes whatever: a page of a cell's chain, or a free page.
#![tactic(auto)]

ghost use Rattle.std.specs.Prelude.{◌≡◌, ◌≤◌, length};
ghost use Rattle.terms.specs.Terms.{page_entries, no_cell};
ghost use Rattle.lists.specs.Parts.{tab};
ghost use Rattle.lists.specs.Tests.{all};
ghost use Rattle.entries.specs.Entries.{row_of};
ghost use Rattle.page.specs.Page.{page_bytes, kind_free, next, entry_at, entries};
ghost use Rattle.rules.specs.Grid.{within};
ghost use Rattle.sound_page.specs.PageTest.{is_page, full_or_last, starts_above, last_radio, inside_of, belongs, page_ok};

use desk::Slot;
use entries::Entry;
use page::{HEAD_BYTES, PageKind};
use terms::{NO_CELL, NO_PAGE, PAGE_ENTRIES};

// The page is laid out, and of this kind and cell.
fn is_page(page: &[u8], kind: u16, cell: u16) -> bool
    requires { length page.now ≡ page_bytes }
    ensures { result ≡ is_page kind cell page.now }
{
    if !page_layout::laid_out(page) {
        return false;
    }
    let h = page::read_header(page);
    if h.kind != kind {
        return false;
    }
    h.cell == cell
}

// A free page: no entries, so that all bytes past the header are zero. `is_page` says the same of it; here every bound is known beforehand.
pub fn is_free(page: &[u8]) -> bool
    requires { length page.now ≡ page_bytes }
    ensures { result ≡ is_page kind_free no_cell page.now }
{
    let h = page::read_header(page);
    if h.used as usize != HEAD_BYTES {
        return false;
    }
    if h.kind != PageKind::Free.number() {
        return false;
    }
    if h.cell != NO_CELL {
        return false;
    }
    page_layout::top_from(page, HEAD_BYTES) == 0
}

// "every page but the last full"
fn full_or_last(page: &[u8]) -> bool
    requires { length page.now ≡ page_bytes }
    ensures { result ≡ full_or_last page.now }
{
    let h = page::read_header(page);
    if h.next == NO_PAGE {
        return true;
    }
    page::entry_count(page) == PAGE_ENTRIES
}

// The first of n radios, if any, is above `low`.
fn starts_above(page: &[u8], n: usize, low: u16) -> bool
    requires { (length page.now ≡ page_bytes) × (n ≤ page_entries) }
    ensures { result ≡ starts_above low (tab n (entry_at page.now)) }
{
    if n == 0 {
        return true;
    }
    let e = page::read_entry(page, 0);
    low < e.radio
}

// The last radio of the page, `low` for none.
pub fn last_radio(page: &[u8], low: u16) -> u16
    requires { length page.now ≡ page_bytes }
    ensures { result ≡ last_radio low (entries page.now) }
{
    let n = page::entry_count(page);
    if n == 0 {
        return low;
    }
    let e = page::read_entry(page, n - 1);
    e.radio
}

// A coordinate lies between two edges. No branch, for which way it would go changes from entry to entry.
fn is_between(low: u16, high: u16, x: u16) -> bool
    ensures { result ≡ within (record { low = low; high = high }) x }
{
    (low <= x) & (x <= high)
}

// The entry's place lies in the cell's rectangle.
fn is_inside(e: Entry, s: Slot) -> bool
    ensures { result ≡ inside_of s (row_of e) }
{
    is_between(s.west, s.east, e.east) & is_between(s.south, s.north, e.north)
}

// The entry lies there, and is not above the highest minute.
fn belongs(e: Entry, s: Slot, highest: u32) -> bool
    ensures { result ≡ belongs highest s (row_of e) }
{
    is_inside(e, s) & (e.minute <= highest)
}

// The first n entries lie in the cell's rectangle, and none is above the highest minute.
fn all_belong(page: &[u8], n: usize, s: Slot, highest: u32) -> bool
    requires { (length page.now ≡ page_bytes) × (n ≤ page_entries) }
    ensures { result ≡ all (belongs highest s) (tab n (entry_at page.now)) }
{
    // By the place of an entry of ten bytes: chunks of the page were slower.
    for i in 0..n {
        let e = page::read_entry(page, i);
        if !belongs(e, s, highest) {
            return false;
        }
    }
    true
}

// A page of the cell's chain, of this kind; the last radio before it is `low`.
pub fn page_ok(page: &[u8], s: Slot, highest: u32, kind: u16, low: u16) -> bool
    requires { length page.now ≡ page_bytes }
    ensures { result ≡ page_ok highest s kind low page.now }
{
    if !is_page(page, kind, s.number) {
        return false;
    }
    if !full_or_last(page) {
        return false;
    }
    let n = page::entry_count(page);
    if !starts_above(page, n, low) {
        return false;
    }
    all_belong(page, n, s, highest)
}

pub fn next_of(page: &[u8]) -> usize
    requires { length page.now ≡ page_bytes }
    ensures { result ≡ next page.now }
{
    let h = page::read_header(page);
    h.next as usize
}
