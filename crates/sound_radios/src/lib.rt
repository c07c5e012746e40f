// The test of soundness as far as it judges entries: by memo, marks and who is on, and the round's inequality; and unmarked reports, by who is on. Desk and
// pages have passed the tests of their own.
#![tactic(auto)]

ghost use Rattle.std.specs.Prelude.{true, ◌≡◌, ◌+◌, ◌-◌, ◌*◌, ◌<◌, ◌≤◌, take};
ghost use Rattle.rules.specs.Limits.{max_cells, full_memory, sweep_every};
ghost use Rattle.desk.specs.Views.{radios_of};
ghost use Rattle.desk.specs.Held.{desk_ledger, ledger_grid, ledger_waiting, ledger_memo, ledger_on};
ghost use Rattle.memo.specs.Memo.{lines_of};
ghost use Rattle.sound_clauses.specs.Round.{bound_test};
ghost use Rattle.sound_pages.specs.PagesSound.{PagesSound};
ghost use Rattle.waiting.specs.Waiting.{reports_of};
ghost use Rattle.sound_desk.specs.Sound.{desk_sound, Shaped};
ghost use Rattle.sound_entries.specs.Entries.{rows_read};
ghost use Rattle.sound_radios.specs.Entries.{entries_test};

use desk::Desk;
use memo_index::{NO_LINE, RADIOS};
use sound_balance::{SETTLED, all_settled, lines_due, on_due, tally_new};
use sound_entries::tally_cells;

// "16 × (63 − k) + c + 127"
fn bound_at(k: usize, c: u16) -> usize
    requires { k < max_cells }
    ensures { result ≡ sweep_every * (max_cells - 1 - k) + c + (full_memory - 1) }
{
    Desk::SWEEP_EVERY as usize * (Desk::MAX_CELLS - 1 - k) + c as usize + Desk::MAX_WAITING
}

// "for every k below the number of cells the stale entries in cells at place k and later, plus all waiting, are at most" that.
fn bound_ok(counts: &[u16; Desk::MAX_CELLS], n: usize, waiting: usize, c: u16) -> bool
    requires { (n ≤ max_cells) × (waiting ≤ full_memory) }
    ensures { result ≡ bound_test (take n counts.now) waiting c }
{
    let mut sum = waiting;
    for i in (0..n).rev() {
        sum = sum + counts[i] as usize;
        if bound_at(i, c) < sum {
            return false;
        }
    }
    true
}

// Whether unmarked reports belong to radios on, the entries are those that memo, marks and who is on call for, and no more stale ones wait for the cleaner than
// may.
pub fn radios_sound(desk: &Desk, pages: &[u8]) -> bool
    requires { Shaped (desk_ledger desk.now) × (desk_sound (desk_ledger desk.now) ≡ true)
        × PagesSound desk.now.parts.highest pages.now (ledger_grid (desk_ledger desk.now)).cells desk.now.parts.frame.free }
    ensures { result
        ≡ entries_test (lines_of (ledger_memo (desk_ledger desk.now))) (reports_of (ledger_waiting (desk_ledger desk.now)))
        (radios_of (ledger_on (desk_ledger desk.now))) desk.now.parts.tally (rows_read pages.now (ledger_grid (desk_ledger desk.now)).cells) }
{
    let parts = desk.parts;
    let n = parts.frame.cells as usize;
    let waits = parts.waiting as usize;
    let mut balance = [SETTLED; RADIOS];
    let mut lines = [NO_LINE; RADIOS];
    on_due(&desk.on, parts.on as usize, &mut balance);
    lines_due(&desk.memo, parts.lines, &mut balance, &mut lines);
    if !tally_new(&desk.waiting, waits, &mut balance) {
        return false;
    }
    let counts = tally_cells(pages, &desk.cells, n, &desk.memo, &lines, &mut balance);
    if !all_settled(&balance) {
        return false;
    }
    bound_ok(&counts, n, waits, parts.tally)
}
