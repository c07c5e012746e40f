// Sweep a cell: its pages are read one after the other, and each entry is judged by the memo's line at its radio's rank. Entries and lines both rise by radio,
// so that both are walked at once and no line is looked for anew. What stays goes straight to the table that is lent, and at the end each line that has lost an
// entry is lowered. No page is written.
#![tactic(auto)]

ghost use Rattle.std.specs.Prelude.{true, ◌≡◌, ◌≤◌, length};
ghost use Rattle.terms.specs.Terms.{max_on};
ghost use Rattle.lists.specs.Rows.{Rising, rank};
ghost use Rattle.entries.specs.Entries.{row_of};
ghost use Rattle.page.specs.Page.{entries};
ghost use Rattle.page.specs.Buffer.{page_at, there, pages_of, entries_on};
ghost use Rattle.rules.specs.Sweep.{stale, swept_entries, swept_memo};
ghost use Rattle.desk.specs.Layout.{memo_of};
ghost use Rattle.desk.specs.Held.{memo_in};
ghost use Rattle.memo.specs.Memo.{lines_of, GoodMemo};
ghost use Rattle.sweep.specs.Sweep.{rows_in, GoodLines, ReadableChain, state_of, begun, walked, Ready};

use desk::{Desk, Line};
use entries::{Entry, Table};
use memo_sweep::PLACES;
use page::Chain;
use terms::Place;

// ---- lines

// How many lines are of radios below `radio`, where the first `start` are known to be.
fn rank_from(lines: &[Line], start: usize, radio: u16) -> usize
    requires { Rising 0 (rows_in lines.now) × (start ≤ rank radio (rows_in lines.now)) }
    ensures { (result ≡ rank radio (rows_in lines.now)) × (result ≤ length lines.now) }
{
    for at in start..lines.len() {
        if radio <= lines[at].radio {
            return at;
        }
    }
    lines.len()
}

// Whether an entry is stale: the line at its radio's rank is its radio's, and has "another place or none".
fn is_stale(lines: &[Line], at: usize, entry: Entry) -> bool
    requires { Rising 0 (rows_in lines.now) × (at ≡ rank entry.radio (rows_in lines.now)) }
    ensures { result ≡ stale (rows_in lines.now) (row_of entry) }
{
    let Some(line) = lines.get(at) else {
        return false;
    };
    let place = Place {
        east: entry.east,
        north: entry.north,
    };
    line.radio == entry.radio && memo::is_elsewhere(*line, place)
}

// ---- entries

// The entries of page p, where the lines before `from` are of radios below: each goes behind those that stay, unless it is stale. The answer is how many lines
// are of radios below the last one's.
fn sweep_page(
    pages: &[u8],
    p: u16,
    lines: &[Line],
    from: usize,
    table: &mut Table,
    marks: &mut [bool; PLACES],
) -> usize
    requires { (there pages.now p ≡ true) × GoodLines lines.now
        × Ready (rows_in lines.now) (state_of from table.old marks.old) (entries (page_at pages.now p)) }
    ensures { state_of result table.new marks.new
        ≡ walked (rows_in lines.now) (state_of from table.old marks.old) (entries (page_at pages.now p)) }
{
    let page = page::page_at(pages, p as usize);
    let mut at = from;
    // By the place of an entry of ten bytes in its page.
    for i in 0..page::entry_count(page) {
        let entry = page::read_entry(page, i);
        at = rank_from(lines, at, entry.radio);
        let stale = is_stale(lines, at, entry);
        marks[at] = stale;
        if !stale {
            table.push(entry);
        }
    }
    at
}

// The entries on the pages of a chain.
fn sweep_pages(
    pages: &[u8],
    chain: Chain,
    lines: &[Line],
    table: &mut Table,
    marks: &mut [bool; PLACES],
)
    requires { ReadableChain pages.now chain × GoodLines lines.now
        × (length (swept_entries (rows_in lines.now) (entries_on pages.now (pages_of chain))) ≤ max_on) }
    ensures { (table.new ≡ swept_entries (rows_in lines.now) (entries_on pages.now (pages_of chain)))
        × (marks.new ≡ (walked (rows_in lines.now) (begun marks.old) (entries_on pages.now (pages_of chain))).marks) }
{
    table.clear();
    let mut at = 0;
    for &p in &chain.pages[..chain.n] {
        at = sweep_page(pages, p, lines, at, table, marks);
    }
}

// ---- a chain

// "remove each entry whose radio has a memo line with another place or none; lower the missed count by 1; drop the line at 0": the entries on the pages of a
// chain. What stays is what the table then has; the answer is how many lines the memo then has.
pub fn sweep_chain(
    pages: &[u8],
    chain: Chain,
    memo: &mut [Line; Desk::LINE_SLOTS],
    lines: u16,
    table: &mut Table,
) -> u16
    requires { ReadableChain pages.now chain × GoodMemo (memo_in lines memo.old)
        × (length (swept_entries (lines_of (memo_in lines memo.old)) (entries_on pages.now (pages_of chain))) ≤ max_on) }
    ensures { (table.new ≡ swept_entries (lines_of (memo_in lines memo.old)) (entries_on pages.now (pages_of chain)))
        × (memo_in result memo.new
        ≡ memo_of (swept_memo (lines_of (memo_in lines memo.old)) (entries_on pages.now (pages_of chain)))) }
{
    let mut marks = [false; PLACES];
    sweep_pages(pages, chain, &memo[..lines as usize], table, &mut marks);
    memo_sweep::lowered(memo, lines, &marks)
}
