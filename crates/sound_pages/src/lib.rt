// The test of soundness, its part that looks at pages, chains and the directory: on any bytes and any directory whatever.
#![tactic(auto)]

ghost use Rattle.std.specs.Prelude.{true, ◌≡◌, ◌*◌, ◌≤◌, ◌<◌, length, take};
ghost use Rattle.terms.specs.Terms.{no_page};
ghost use Rattle.lists.specs.Tests.{both, all};
ghost use Rattle.page.specs.Buffer.{buffer_bytes};
ghost use Rattle.rules.specs.Limits.{max_cells};
ghost use Rattle.desk.specs.Held.{directory_in};
ghost use Rattle.sound_pages.specs.PagesSound.{PagesSound};
ghost use Rattle.sound_pages.specs.Walks.{no_marks, unmarked, slot_test, slots_test, free_test, front_test, after_run, left_by};

use desk::{Desk, Slot};
use page::{PAGE_BYTES, PageKind};
use terms::{NO_PAGE, PAGES};

// ---- marks

// One of the pages, and not met before. The marks are lent, for each page would get a copy of them.
fn is_unmarked(marks: &[bool; PAGES], p: usize) -> bool
    ensures { result ≡ unmarked marks.now p }
{
    p < PAGES && !marks[p]
}

// Every page is marked.
fn all_marked(marks: &[bool; PAGES]) -> bool
    ensures { result ≡ all (λ x. x) marks.now }
{
    *marks == [true; PAGES]
}

// ---- the walks
// Each answers whether it passes. The marks are lent, for each cell would get a copy of them.

// The chain of a cell, by next page; each page is marked.
fn walk_chain(pages: &[u8], s: Slot, highest: u32, marks: &mut [bool; PAGES]) -> bool
    requires { length pages.now ≡ buffer_bytes }
    ensures { record { ok = result; marks = marks.new } ≡ slot_test highest pages.now marks.old s }
{
    let mut p = s.first as usize;
    let mut kind = PageKind::First;
    let mut low: u16 = 0;
    for _met in 0..PAGES {
        if !is_unmarked(marks, p) {
            return false;
        }
        let page = page::page_at(pages, p);
        if !sound_page::page_ok(page, s, highest, kind.number(), low) {
            return false;
        }
        marks[p] = true;
        p = sound_page::next_of(page);
        if p == NO_PAGE as usize {
            return true;
        }
        kind = PageKind::Further;
        low = sound_page::last_radio(page, low);
    }
    false
}

// A run of the free chain: pages one behind the other, as most of it lies. Where the next one lies is then known before the field that names it is read.
// Its answer is the page where the chain goes on elsewhere, with how many pages the walk may still meet; or none, at a page that fails.
fn walk_run(
    pages: &[u8],
    marks: &mut [bool; PAGES],
    first: usize,
    fuel: usize,
) -> Option<(usize, usize)>
    requires { (length pages.now ≡ buffer_bytes) × (0 < fuel) × (first ≡ no_page → ⊥) }
    ensures { (after_run pages.now marks.new result ≡ free_test fuel pages.now marks.old first)
        × (left_by result < fuel) }
{
    let mut p = first;
    for left in (0..fuel).rev() {
        if !is_unmarked(marks, p) {
            return None;
        }
        let page = page::page_at(pages, p);
        if !sound_page::is_free(page) {
            return None;
        }
        marks[p] = true;
        p += 1;
        let next = sound_page::next_of(page);
        if next != p {
            return Some((next, left));
        }
    }
    Some((p, 0))
}

// The free chain from its front.
fn walk_free(pages: &[u8], marks: &mut [bool; PAGES], front: u16) -> bool
    requires { length pages.now ≡ buffer_bytes }
    ensures { record { ok = result; marks = marks.new } ≡ front_test pages.now marks.old front }
{
    let mut p = front as usize;
    let mut fuel = PAGES;
    // A `while`, for a run may meet any number of pages.
    while 0 < fuel {
        if p == NO_PAGE as usize {
            return true;
        }
        let Some((next, left)) = walk_run(pages, marks, p, fuel) else {
            return false;
        };
        p = next;
        fuel = left;
    }
    p == NO_PAGE as usize
}

// The chains of the directory's cells, one after the other.
fn walk_slots(pages: &[u8], cells: &[Slot], highest: u32, marks: &mut [bool; PAGES]) -> bool
    requires { length pages.now ≡ buffer_bytes }
    ensures { record { ok = result; marks = marks.new } ≡ slots_test highest pages.now marks.old cells.now }
{
    for &slot in cells {
        if !walk_chain(pages, slot, highest, marks) {
            return false;
        }
    }
    true
}

// Pages, chains and directory are those of some cells and a free chain.
pub fn pages_sound(
    pages: &[u8],
    cells: &[Slot; Desk::MAX_CELLS],
    n: usize,
    free: u16,
    highest: u32,
) -> bool
    ensures { (result ≡ true → PagesSound highest pages.now (directory_in n cells.now) free)
        × (PagesSound highest pages.now (directory_in n cells.now) free → result ≡ true) }
{
    if pages.len() != PAGE_BYTES * PAGES {
        return false;
    }
    if Desk::MAX_CELLS < n {
        return false;
    }
    let mut marks = [false; PAGES];
    if !walk_slots(pages, &cells[..n], highest, &mut marks) {
        return false;
    }
    if !walk_free(pages, &mut marks, free) {
        return false;
    }
    all_marked(&marks)
}
