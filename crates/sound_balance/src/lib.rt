// What is due and what is found of each radio, in one table by radio: what is due is taken off a radio's number, and what is found is added. Each must come to
// 0 again.
#![tactic(auto)]

ghost use Rattle.std.specs.Prelude.{◌≡◌, ◌-◌, ◌*◌, ◌%◌, ◌≤◌, min, not, ◌==◌};
ghost use Rattle.terms.specs.Terms.{max_radio, max_on};
ghost use Rattle.lists.specs.Rows.{Rising, UpTo};
ghost use Rattle.lists.specs.Tests.{either, all};
ghost use Rattle.rules.specs.Limits.{full_memory};
ghost use Rattle.rules.specs.Sweep.{stale};
ghost use Rattle.desk.specs.Layout.{line_slots};
ghost use Rattle.desk.specs.Views.{radios_of};
ghost use Rattle.desk.specs.Held.{waiting_with, memo_in, on_with};
ghost use Rattle.memo.specs.Memo.{lines_of};
ghost use Rattle.memo_index.specs.Index.{Blank, Named, judged};
ghost use Rattle.waiting.specs.Waiting.{reports_of};
ghost use Rattle.sound_balance.specs.Tables.{field_end, half, added, written, all_settled, mark_new, belongs_by, missed_off, one_off};

use desk::{Desk, Line};
use memo_index::{RADIOS, place_from_one, radio_index};

// What counts in the high half of a number by radio.
pub const HALF: u16 = 256;

// The mark of a report that is not new, in the desk's fields, which C sees.
const UNMARKED: u16 = 0;

// A number by radio where what is due is found, and no more.
pub const SETTLED: u16 = 0;

// A settled number with 1 taken off, in 16 bits.
const ONE_OFF: u16 = u16::wrapping_sub(SETTLED, 1);

// Numbers by radio go round in 16 bits, at either end: what is due is taken off before what is found is added.

// ---- what is due

// Each radio on takes 1 off. Its number is settled before, so 1 off is written and nothing read.
pub fn on_due(radios: &[u16; Desk::MAX_ON], n: usize, balance: &mut [u16; RADIOS])
    requires { (n ≤ max_on) × UpTo max_radio (radios_of (on_with n radios.now)) }
    ensures { balance.new ≡ written one_off balance.old (radios_of (on_with n radios.now)) }
{
    for i in 0..n {
        balance[radio_index(radios[i])] = ONE_OFF;
    }
}

// A line's missed count, taken off in the high half: as much of it as a half holds, which is more than a radio can have stale entries.
fn missed_off(x: Line) -> u16
    ensures { result ≡ (field_end - half * min x.missed (half - 1)) % field_end }
{
    SETTLED.wrapping_sub(HALF * x.missed.min(HALF - 1))
}

// Each line takes its missed count off, and writes where it stands, as `memo_index::index_lines` does: one pass for both.
pub fn lines_due(
    memo: &[Line; Desk::LINE_SLOTS],
    n: u16,
    balance: &mut [u16; RADIOS],
    lines: &mut [u16; RADIOS],
)
    requires { (n ≤ line_slots) × Rising 0 (lines_of (memo_in n memo.now)) × UpTo max_radio (lines_of (memo_in n memo.now))
        × Blank lines.old }
    ensures { (balance.new ≡ added missed_off balance.old (lines_of (memo_in n memo.now)))
        × Named memo.now lines.new
        × (judged memo.now lines.new ≡ stale (lines_of (memo_in n memo.now))) }
{
    for i in 0..n as usize {
        let x = memo[i];
        let k = radio_index(x.radio);
        balance[k] = balance[k].wrapping_add(missed_off(x));
        lines[k] = place_from_one(i);
    }
}

// ---- what is found

// Whether a report is marked new, or of a radio on: its number has then 1 taken off, and the low half is not 0.
fn belongs(new: u16, number: u16) -> bool
    ensures { result ≡ either (not (new == 0)) (not (number % half == 0)) }
{
    (new != UNMARKED) | (number % HALF != 0)
}

// Each waiting report marked new adds 1 to its radio's low half; whether each unmarked one belongs to a radio on. One loop does both: a radio waits once, so
// what others add does not change its number.
pub fn tally_new(
    waiting: &[u16; Desk::WAITING_WORDS],
    n: usize,
    balance: &mut [u16; RADIOS],
) -> bool
    requires { (n ≤ full_memory) × Rising 0 (reports_of (waiting_with n waiting.now))
        × UpTo max_radio (reports_of (waiting_with n waiting.now)) }
    ensures { (balance.new ≡ added mark_new balance.old (reports_of (waiting_with n waiting.now)))
        × (result ≡ all (belongs_by balance.old) (reports_of (waiting_with n waiting.now))) }
{
    let mut so = true;
    for i in 0..n {
        let x = desk::report_at(waiting, i);
        let k = radio_index(x.radio);
        let before = balance[k];
        so = so & belongs(x.new, before);
        balance[k] = before.wrapping_add(u16::from(x.new != UNMARKED));
    }
    so
}

// ---- the verdict

// Whether each number is settled. It never leaves early, so that many numbers are compared at a time.
pub fn all_settled(balance: &[u16; RADIOS]) -> bool
    ensures { result ≡ all_settled balance.now }
{
    let mut so = true;
    for &number in balance {
        so = so & (number == SETTLED);
    }
    so
}
