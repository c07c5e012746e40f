// The waiting reports of a memory cell apart from the others: they go into an array of their own, and the others close up in theirs.
#![tactic(auto)]

ghost use Rattle.std.specs.Prelude.{not, ◌≡◌, ◌-◌, ◌*◌, ◌≤◌, eqb, replicate};
ghost use Rattle.lists.specs.Parts.{put};
ghost use Rattle.lists.specs.Sums.{filter};
ghost use Rattle.lists.specs.Tests.{both};
ghost use Rattle.rules.specs.Limits.{full_memory, max_cuts};
ghost use Rattle.rules.specs.Flush.{in_box};
ghost use Rattle.desk.specs.Held.{waiting_with};
ghost use Rattle.desk.specs.Layout.{no_report, report_fields, waiting_of};
ghost use Rattle.desk.specs.Views.{every_report, cuts_by};
ghost use Rattle.waiting.specs.Waiting.{reports_of, WholeWaiting};
ghost use Rattle.boxes.specs.Boxes.{box_in};
ghost use Rattle.box_reports.specs.Parting.{waits_in, Parting};

use boxes::BoxAt;
use desk::{CutList, Desk, Report};

// How many reports have gone, and how many still wait.
#[derive(Drop)]
pub struct Sides {
    pub gone: u16,
    pub left: u16,
}

// Whether a report with these stripes waits in m.
fn in_box(m: BoxAt, east: u16, north: u16) -> bool
    ensures { result ≡ both (eqb east m.east) (eqb north m.north) }
{
    (east as usize == m.east) & (north as usize == m.north)
}

// The reports of m go, one after the other, and the others move up over them. How many go. Few go, so there is a branch, and one write.
fn moved_apart(
    easts: CutList,
    norths: CutList,
    waiting: &mut [u16; Desk::WAITING_WORDS],
    n: u16,
    m: BoxAt,
    taken: &mut [u16; Desk::WAITING_WORDS],
) -> usize
    requires { (n ≤ full_memory) × (taken.old ≡ replicate (report_fields * full_memory) 0) × (easts.n ≤ max_cuts) × (norths.n ≤ max_cuts) }
    ensures { Parting (waits_in (cuts_by easts norths) (box_in m)) (every_report waiting.old) n result (every_report waiting.new)
        (every_report taken.new)
        × (result ≤ n) }
{
    let at = boxes::boxes_of(easts, norths, waiting);
    let mut gone = 0;
    for i in 0..n as usize {
        let report = desk::report_at(waiting, i);
        let goes = in_box(m, at.easts[i], at.norths[i]);
        if goes {
            desk::put_report(taken, gone, report);
            gone += 1;
            continue;
        }
        desk::put_report(waiting, i - gone, report);
    }
    gone
}

// The slots from k up to n are unused.
fn blanked(waiting: &mut [u16; Desk::WAITING_WORDS], k: usize, n: usize)
    requires { (k ≤ n) × (n ≤ full_memory) }
    ensures { every_report waiting.new ≡ put (every_report waiting.old) k (replicate (n - k) no_report) }
{
    for i in k..n {
        desk::put_report(waiting, i, Report::UNUSED);
    }
}

// "each waiting report of m" goes into `taken`, which is blank; "The reports of m wait no longer": the others do.
pub fn parted(
    easts: CutList,
    norths: CutList,
    waiting: &mut [u16; Desk::WAITING_WORDS],
    n: u16,
    m: BoxAt,
    taken: &mut [u16; Desk::WAITING_WORDS],
) -> Sides
    requires { (n ≤ full_memory) × WholeWaiting (waiting_with n waiting.old) × (taken.old ≡ replicate (report_fields * full_memory) 0) × (easts.n ≤ max_cuts)
        × (norths.n ≤ max_cuts) }
    ensures { (waiting_with result.gone taken.new
        ≡ waiting_of (filter (in_box (cuts_by easts norths) (box_in m)) (reports_of (waiting_with n waiting.old))))
        × (waiting_with result.left waiting.new
        ≡ waiting_of (filter (λ w. not (in_box (cuts_by easts norths) (box_in m) w)) (reports_of (waiting_with n waiting.old))))
        × (result.gone ≤ full_memory) × (result.left ≤ full_memory) }
{
    let all = n as usize;
    let gone = moved_apart(easts, norths, waiting, n, m, taken);
    let left = all - gone;
    blanked(waiting, left, all);
    Sides {
        gone: gone as u16,
        left: left as u16,
    }
}
