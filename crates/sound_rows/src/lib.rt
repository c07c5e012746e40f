// The test of soundness as far as it looks at radios on, at waiting reports or at memo lines, each by itself. They may be in any condition: a count is tested
// before a slot is looked at.
#![tactic(auto)]

ghost use Rattle.std.specs.Prelude.{◌≡◌, ◌*◌, ◌<◌, ◌≤◌, eqb, length};
ghost use Rattle.lists.specs.Parts.{part};
ghost use Rattle.lists.specs.Tests.{all};
ghost use Rattle.rules.specs.Limits.{full_memory};
ghost use Rattle.desk.specs.Layout.{report_fields, line_slots};
ghost use Rattle.desk.specs.Held.{waiting_with, memo_in, on_with};
ghost use Rattle.desk.specs.Views.{every_report};
ghost use Rattle.sound_clauses.specs.Loops.{all_to};
ghost use Rattle.sound_directory.specs.Sound.{weighs, number};
ghost use Rattle.sound_rows.specs.Sound.{on_sound, report_weight, is_mark, is_dated, reports_test, waiting_sound, line_test, lines_test, is_unused_line, memo_sound};

use desk::{Desk, Line};
use sound_directory::{goes_on, is_unused, joined, rises, row_sound};

// The columns of the waiting reports' array, by their places in the desk, which C sees.
const RADIOS: usize = 0;

const EASTS: usize = 1;

const NORTHS: usize = 2;

const MARKS: usize = 3;

const LOWS: usize = 4;

const HIGHS: usize = 5;

// The marks in the desk's fields, which C sees: any number may stand there.
const MARKED: u16 = 1;

const UNMARKED: u16 = 0;

// ---- who is on

// Whether the radios on are sound.
pub fn on_sound(radios: &[u16; Desk::MAX_ON], n: usize) -> bool
    ensures { result ≡ on_sound (on_with n radios.now) }
{
    row_sound(radios, n, terms::MAX_RADIO)
}

// ---- waiting reports

// A column of the waiting reports' array: one field of every slot.
fn column(waiting: &[u16; Desk::WAITING_WORDS], k: usize) -> &[u16]
    requires { k < report_fields }
    ensures { (result.now ≡ part waiting.now (full_memory * k) full_memory) × (length result.now ≡ full_memory) }
{
    let start = Desk::WAITING_SLOTS * k;
    let end = start + Desk::WAITING_SLOTS;
    &waiting[start..end]
}

// Whether each slot from n on is zero in a column.
fn column_clear(waiting: &[u16; Desk::WAITING_WORDS], k: usize, n: usize) -> bool
    requires { (k < report_fields) × (n ≤ full_memory) }
    ensures { result ≡ eqb (weighs number n (part waiting.now (full_memory * k) full_memory)) 0 }
{
    is_unused(&column(waiting, k)[n..], 0)
}

// Whether each slot from n on is zero, column after column.
fn reports_clear(waiting: &[u16; Desk::WAITING_WORDS], n: usize) -> bool
    requires { n ≤ full_memory }
    ensures { result ≡ eqb (weighs report_weight n (every_report waiting.now)) 0 }
{
    if !column_clear(waiting, RADIOS, n) {
        return false;
    }
    if !column_clear(waiting, EASTS, n) {
        return false;
    }
    if !column_clear(waiting, NORTHS, n) {
        return false;
    }
    if !column_clear(waiting, MARKS, n) {
        return false;
    }
    if !column_clear(waiting, LOWS, n) {
        return false;
    }
    column_clear(waiting, HIGHS, n)
}

// Whether each is 1 or 0. It never leaves early, so that many marks are looked at at a time.
fn are_marks(marks: &[u16]) -> bool
    ensures { result ≡ all is_mark marks.now }
{
    let mut so = true;
    for &mark in marks {
        so = so & (mark <= MARKED);
    }
    so
}

// Whether none of the first n minutes, in halves, is above the highest. It never leaves early, so that many are looked at at a time.
fn are_dated(lows: &[u16], highs: &[u16], n: usize, highest: u32) -> bool
    requires { (n ≤ length lows.now) × (n ≤ length highs.now) }
    ensures { result ≡ all_to n (is_dated highest lows.now highs.now) }
{
    let mut so = true;
    // Two columns side by side, by index, so that many are looked at at a time.
    for i in 0..n {
        so = so & (fields::wide_of(lows[i], highs[i]) <= highest);
    }
    so
}

// Whether the radios of the first n rise, each is marked, and none is above the highest minute; their places are some, and their minutes' lower halves are such,
// for fields have 16 bits.
fn reports_ok(waiting: &[u16; Desk::WAITING_WORDS], n: usize, highest: u32) -> bool
    requires { n < full_memory }
    ensures { result ≡ reports_test highest (waiting_with n waiting.now) }
{
    if !rises(&column(waiting, RADIOS)[..n], terms::MAX_RADIO) {
        return false;
    }
    if !are_marks(&column(waiting, MARKS)[..n]) {
        return false;
    }
    are_dated(column(waiting, LOWS), column(waiting, HIGHS), n, highest)
}

// Whether the waiting reports are sound: the slots past them are zero, their radios rise, each is marked, and none is above the highest minute.
pub fn waiting_sound(waiting: &[u16; Desk::WAITING_WORDS], n: usize, highest: u32) -> bool
    ensures { result ≡ waiting_sound highest (waiting_with n waiting.now) }
{
    if Desk::MAX_WAITING < n {
        return false;
    }
    if !reports_clear(waiting, n) {
        return false;
    }
    reports_ok(waiting, n, highest)
}

// ---- the memo

// Whether a line has missed 1 or more, and is marked 1, or 0 with the place zero; a place is one, for its fields have 16 bits.
fn line_ok(x: Line) -> bool
    ensures { result ≡ line_test x }
{
    if x.missed == 0 {
        return false;
    }
    match x.placed {
        MARKED => true,
        UNMARKED => x.east == 0 && x.north == 0,
        _ => false,
    }
}

// Whether the lines' radios rise and each line is one.
fn lines_ok(lines: &[Line]) -> bool
    ensures { result ≡ lines_test lines.now }
{
    let mut last: u16 = 0;
    for &line in lines {
        if !goes_on(last, line.radio, terms::MAX_RADIO) {
            return false;
        }
        if !line_ok(line) {
            return false;
        }
        last = line.radio;
    }
    true
}

// Whether each line is as an unused one. It never leaves early, and reads a line as two numbers: to compare each of its five takes several times as long.
fn lines_unused(lines: &[Line]) -> bool
    ensures { result ≡ all is_unused_line lines.now }
{
    let mut fronts: u64 = 0;
    let mut norths: u16 = 0;
    for &line in lines {
        fronts = fronts | joined(line.radio, line.missed, line.placed, line.east);
        norths = norths | line.north;
    }
    (fronts == 0) & (norths == 0)
}

// Whether the memo is sound: its unused lines are as unused ones, its lines' radios rise and each line is one.
pub fn memo_sound(lines: &[Line; Desk::LINE_SLOTS], n: u16) -> bool
    ensures test { result ≡ memo_sound (memo_in n lines.now) }
    ensures shape { length lines.now ≡ line_slots }
{
    let n = n as usize;
    if Desk::LINE_SLOTS < n {
        return false;
    }
    if !lines_unused(&lines[n..]) {
        return false;
    }
    lines_ok(&lines[..n])
}
