// Pages: their bytes in the lent buffer, read.
#![tactic(auto)]

ghost use Rattle.std.specs.Prelude.{true, ◌≡◌, ◌+◌, ◌*◌, ◌<◌, ◌≤◌, length};
ghost use Rattle.terms.specs.Terms.{pages, page_entries};
ghost use Rattle.entries.specs.Entries.{row_of};
ghost use Rattle.page.specs.Page.{page_bytes, head_bytes, entry_bytes, room_of, used, kind, next, cell, count, entry_at};
ghost use Rattle.page.specs.Buffer.{page_at, there};

use entries::Entry;
use terms::{PAGE_ENTRIES, PAGES};

pub const PAGE_BYTES: usize = 328;

pub const BUFFER_BYTES: usize = PAGE_BYTES * PAGES;

pub const HEAD_BYTES: usize = 8;

pub const ENTRY_BYTES: usize = 10;

// What a page is: free, the first of a cell's chain, or a further one.
#[derive(Clone, Copy, Debug, PartialEq, Eq)]
pub enum PageKind {
    Free,
    First,
    Further,
}

impl PageKind {
    ghost use Rattle.page.specs.Page.{number_of, kind_numbered};

    // The number that a page has for it.
    pub fn number(self) -> u16
        ensures { result ≡ number_of self }
    {
        match self {
            PageKind::Free => 1,
            PageKind::First => 2,
            PageKind::Further => 3,
        }
    }

    // The kind that a page's number says, if it is one of theirs.
    pub fn numbered(number: u16) -> Option<PageKind>
        ensures { result ≡ kind_numbered number }
    {
        match number {
            1 => Some(PageKind::Free),
            2 => Some(PageKind::First),
            3 => Some(PageKind::Further),
            _ => None,
        }
    }
}

// The four fields at a page's front, in any condition.
#[derive(Clone, Copy, Debug)]
pub struct Header {
    pub used: u16,
    pub kind: u16,
    pub next: u16,
    pub cell: u16,
}

// ---- reading

// Page p of the buffer.
pub fn page_at(buffer: &[u8], p: usize) -> &[u8]
    requires { (p < pages) × (page_bytes * p + page_bytes ≤ length buffer.now) }
    ensures { (result.now ≡ page_at buffer.now p) × (length result.now ≡ page_bytes) }
{
    let start = PAGE_BYTES * p;
    &buffer[start..start + PAGE_BYTES]
}

// The four fields at a page's front.
pub fn read_header(page: &[u8]) -> Header
    requires { head_bytes ≤ length page.now }
    ensures { result ≡ record {
      used = used page.now;
      kind = kind page.now;
      next = next page.now;
      cell = cell page.now;
    } }
{
    Header {
        used: fields::read(page, 0),
        kind: fields::read(page, 2),
        next: fields::read(page, 4),
        cell: fields::read(page, 6),
    }
}

// How many entries the used bytes make room for.
pub fn room(used: u16) -> usize
    ensures { result ≡ room_of used }
{
    ((used as usize).saturating_sub(HEAD_BYTES) / ENTRY_BYTES).min(PAGE_ENTRIES)
}

pub fn entry_count(page: &[u8]) -> usize
    requires { head_bytes ≤ length page.now }
    ensures { (result ≡ count page.now) × (result ≤ page_entries) }
{
    room(fields::read(page, 0))
}

// The entry at i.
pub fn read_entry(page: &[u8], i: usize) -> Entry
    requires { (i < page_entries) × (head_bytes + entry_bytes * i + entry_bytes ≤ length page.now) }
    ensures { row_of result ≡ entry_at page.now i }
{
    let at = HEAD_BYTES + ENTRY_BYTES * i;
    Entry {
        radio: fields::read(page, at),
        east: fields::read(page, at + 2),
        north: fields::read(page, at + 4),
        minute: fields::read_wide(page, at + 6),
    }
}

// ---- chains

// How a chain ends: at none, past its bound, or at a page that is not there.
#[derive(Clone, Copy, Debug, PartialEq, Eq)]
pub enum ChainEnd {
    Ended,
    PastBound,
    NotThere(u16),
}

// The first n of `pages`, in the chain's order.
#[derive(Clone, Copy)]
pub struct Chain {
    pub end: ChainEnd,
    pub n: usize,
    pub pages: [u16; PAGES],
}

// Whether p is one of the pages, and the buffer reaches to its end.
pub fn is_there(buffer: &[u8], p: u16) -> bool
    ensures { result ≡ there buffer.now p }
{
    let at = p as usize;
    at < PAGES && PAGE_BYTES * at + PAGE_BYTES <= buffer.len()
}

// The page that follows page p.
pub fn next_page(buffer: &[u8], p: u16) -> u16
    requires { there buffer.now p ≡ true }
    ensures { result ≡ next (page_at buffer.now p) }
{
    fields::read(page_at(buffer, p as usize), 4)
}
