// Lines lowered: each line of the memo whose radio has lost a stale entry has one miss less, and goes at 0.
#![tactic(auto)]

ghost use Rattle.std.specs.Prelude.{true, ◌≡◌, ◌≤◌, length};
ghost use Rattle.desk.specs.Layout.{memo_of};
ghost use Rattle.desk.specs.Held.{memo_in};
ghost use Rattle.memo.specs.Memo.{row_of, lines_of, Plain, GoodMemo};
ghost use Rattle.memo_sweep.specs.Lowering.{lower_if, line_left, lower_where, mark_of, Unmarked, MovedUp};

use desk::{Desk, Line};

// A number for each line, and one for the place past the last.
pub const PLACES: usize = Desk::LINE_SLOTS + 1;

// "lower the missed count by 1; drop the line at 0": what is left of a line, if it stays.
fn lowered_line(line: Line, mark: bool) -> Option<Line>
    requires { Plain line }
    ensures { result ≡ line_left line.radio (lower_if mark (row_of line).val) }
{
    if !mark {
        return Some(line);
    }
    if line.missed <= 1 {
        return None;
    }
    Some(Line {
        missed: line.missed - 1,
        ..line
    })
}

// Whether none is marked. It never leaves early, so that many marks are looked at at a time.
fn none_marked(marks: &[bool]) -> bool
    ensures { (result ≡ true → Unmarked marks.now (length marks.now)) × (Unmarked marks.now (length marks.now) → result ≡ true) }
{
    let mut so = true;
    for &mark in marks {
        so = so & !mark;
    }
    so
}

// A place before which none is marked: that of the first mark, or the end.
fn first_marked(marks: &[bool]) -> usize
    ensures { (result ≤ length marks.now) × Unmarked marks.now result }
{
    marks.iter().position(|&mark| mark).unwrap_or(marks.len())
}

// Each marked line from `first` on has one miss less; those that stay move towards the front, over those that go. How many stay in all.
fn moved_up(
    lines: &mut [Line; Desk::LINE_SLOTS],
    n: u16,
    marks: &[bool; PLACES],
    first: usize,
) -> usize
    requires { GoodMemo (memo_in n lines.old) × (first ≤ n) × Unmarked marks.now first }
    ensures { MovedUp (lower_where (mark_of marks.now (lines_of (memo_in n lines.old))) (lines_of (memo_in n lines.old)))
        n result lines.old lines.new
        × (result ≤ n) }
{
    let mut k = first;
    for i in first..n as usize {
        let Some(line) = lowered_line(lines[i], marks[i]) else {
            continue;
        };
        lines[k] = line;
        k += 1;
    }
    k
}

// Each marked line has one miss less, and goes at 0, in the memo's own array: the lines before the first marked one are not touched. Where none is marked the
// memo is as it was: many cells have no stale entry.
pub fn lowered(lines: &mut [Line; Desk::LINE_SLOTS], n: u16, marks: &[bool; PLACES]) -> u16
    requires { GoodMemo (memo_in n lines.old) }
    ensures { memo_in result lines.new
        ≡ memo_of (lower_where (mark_of marks.now (lines_of (memo_in n lines.old))) (lines_of (memo_in n lines.old))) }
{
    let marked = &marks[..n as usize];
    if none_marked(marked) {
        return n;
    }
    let first = first_marked(marked);
    let k = moved_up(lines, n, marks, first);
    lines[k..n as usize].fill(Line::UNUSED);
    k as u16
}
