// Enter the waiting reports of a memory cell: each goes into the swept cell's table, and the memo takes its place, with a miss more where an older entry lies
// elsewhere.
#![tactic(auto)]

ghost use Rattle.std.specs.Prelude.{[], ◌∷◌, ◌≡◌, ◌≤◌, None};
ghost use Rattle.lists.specs.Rows.{find};
ghost use Rattle.lists.specs.Words.{wide};
ghost use Rattle.rules.specs.Limits.{full_memory};
ghost use Rattle.desk.specs.Held.{waiting_with};
ghost use Rattle.waiting.specs.Waiting.{row_of, reports_of};
ghost use Rattle.enter.specs.Enter.{held_in, Enterable, Entered};

use desk::{Desk, Line, Report};
use entries::{Entry, Table};
use terms::Place;

// A report as an entry.
fn entry_of(report: Report) -> Entry
    ensures { result ≡ record { radio = report.radio; east = report.east; north = report.north; minute = wide report.low report.high } }
{
    Entry {
        radio: report.radio,
        east: report.east,
        north: report.north,
        minute: fields::wide_of(report.low, report.high),
    }
}

// The place that a report tells.
fn place_of(report: Report) -> Place
    ensures { result ≡ record { east = report.east; north = report.north } }
{
    Place {
        east: report.east,
        north: report.north,
    }
}

// d has no entry of the radio: "add the entry, and, if not marked new, add 1 to the missed count (made as 1 if absent); any memo line takes the new place". The
// answer is how many lines there are then.
fn added(table: &mut Table, memo: &mut [Line; Desk::LINE_SLOTS], lines: u16, report: Report) -> u16
    requires { Enterable (held_in table.old lines memo.old) (row_of report ∷ []) × (find table.old report.radio ≡ None) }
    ensures { Entered (held_in table.old lines memo.old) (row_of report ∷ []) (held_in table.new result memo.new) }
{
    let place = place_of(report);
    table.insert(entry_of(report));
    if report.new == 0 {
        return memo::raised(memo, lines, report.radio, Some(place));
    }
    memo::placed(memo, lines, report.radio, place);
    lines
}

// One report: "if d has an entry of that radio, it and any memo line take the new place; else add the entry". The answer is how many lines there are then.
fn enter_report(
    table: &mut Table,
    memo: &mut [Line; Desk::LINE_SLOTS],
    lines: u16,
    report: Report,
) -> u16
    requires { Enterable (held_in table.old lines memo.old) (row_of report ∷ []) }
    ensures { Entered (held_in table.old lines memo.old) (row_of report ∷ []) (held_in table.new result memo.new) }
{
    let Ok(at) = table.search(report.radio) else {
        return added(table, memo, lines, report);
    };
    let place = place_of(report);
    table.replace(at, entry_of(report));
    memo::placed(memo, lines, report.radio, place);
    lines
}

// "For each waiting report of m": these, by rising radio. The answer is how many lines there are then.
pub fn enter_all(
    reports: &[u16; Desk::WAITING_WORDS],
    gone: u16,
    table: &mut Table,
    memo: &mut [Line; Desk::LINE_SLOTS],
    lines: u16,
) -> u16
    requires { (gone ≤ full_memory) × Enterable (held_in table.old lines memo.old) (reports_of (waiting_with gone reports.now)) }
    ensures { Entered (held_in table.old lines memo.old) (reports_of (waiting_with gone reports.now))
        (held_in table.new result memo.new) }
{
    let mut lines = lines;
    // A report is read out of six columns, by its place.
    for i in 0..gone as usize {
        lines = enter_report(table, memo, lines, desk::report_at(reports, i));
    }
    lines
}
