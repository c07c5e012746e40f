// A record's own effect on what a lent desk holds, before any flush: what waits, who is on, and the memo.
#![tactic(auto)]

ghost use Rattle.std.specs.Prelude.{true, cond, ◌≡◌, None, Some};
ghost use Rattle.terms.specs.Values.{fix_of};
ghost use Rattle.lists.specs.Rows.{find, alter, insert};
ghost use Rattle.rules.specs.Flush.{raised};
ghost use Rattle.rules.specs.Carry.{was_new};
ghost use Rattle.desk.specs.Held.{desk_ledger, ledger_waiting, ledger_memo, ledger_on};
ghost use Rattle.desk.specs.Layout.{waiting_of, memo_of, on_of};
ghost use Rattle.desk.specs.Views.{radios_of};
ghost use Rattle.memo.specs.Memo.{lines_of, RoomyMemo, MissFits};
ghost use Rattle.waiting.specs.Waiting.{reports_of, GoodWaiting, RoomyWaiting};
ghost use Rattle.waiting.specs.On.{GoodOn, RoomyOn};

use desk::Desk;
use terms::Fix;

// "Sign-on puts a report marked new among the waiting.", and its radio is on.
pub fn signed_on(desk: &mut Desk, radio: u16, fix: Fix)
    requires { RoomyWaiting (ledger_waiting (desk_ledger desk.old)) × RoomyOn (ledger_on (desk_ledger desk.old)) }
    ensures kept { desk.new ≡ record desk.old {
      parts = record desk.old.parts { waiting = desk.new.parts.waiting; on = desk.new.parts.on };
      waiting = desk.new.waiting;
      on = desk.new.on;
    } }
    ensures waits { ledger_waiting (desk_ledger desk.new)
        ≡ waiting_of (insert radio (record { fix = fix_of fix; new = true }) (reports_of (ledger_waiting (desk_ledger desk.old)))) }
    ensures is_on { ledger_on (desk_ledger desk.new) ≡ on_of (insert radio tt (radios_of (ledger_on (desk_ledger desk.old)))) }
{
    desk.parts.waiting = waiting::put_new(&mut desk.waiting, desk.parts.waiting, radio, fix);
    desk.parts.on = waiting::signed_on(&mut desk.on, desk.parts.on, radio);
}

// "Report replaces a waiting report of that radio, keeping its mark new; otherwise it waits unmarked."
pub fn reported(desk: &mut Desk, radio: u16, fix: Fix)
    requires { RoomyWaiting (ledger_waiting (desk_ledger desk.old)) }
    ensures kept { desk.new ≡ record desk.old {
      parts = record desk.old.parts { waiting = desk.new.parts.waiting };
      waiting = desk.new.waiting;
    } }
    ensures waits { ledger_waiting (desk_ledger desk.new)
        ≡ waiting_of (alter (λ w. Some (record { fix = fix_of fix; new = was_new w })) radio
        (reports_of (ledger_waiting (desk_ledger desk.old)))) }
{
    desk.parts.waiting = waiting::put_report(&mut desk.waiting, desk.parts.waiting, radio, fix);
}

// Whether a report of `radio` waits and is marked new.
fn waits_new(desk: &Desk, radio: u16) -> bool
    requires { GoodWaiting (ledger_waiting (desk_ledger desk.now)) }
    ensures { result ≡ was_new (find (reports_of (ledger_waiting (desk_ledger desk.now))) radio) }
{
    match waiting::find_report(&desk.waiting, desk.parts.waiting, radio) {
        Some(report) => report.new != 0,
        None => false,
    }
}

// "If the discarded one was not marked new, or none waited, the memo's missed count for the radio grows by 1 (made as 1 if absent) and its place becomes none."
fn missed(desk: &mut Desk, radio: u16)
    requires { GoodWaiting (ledger_waiting (desk_ledger desk.old)) × RoomyMemo (ledger_memo (desk_ledger desk.old))
        × MissFits radio (ledger_memo (desk_ledger desk.old)) }
    ensures kept { desk.new ≡ record desk.old {
      parts = record desk.old.parts { lines = desk.new.parts.lines };
      memo = desk.new.memo;
    } }
    ensures counted { ledger_memo (desk_ledger desk.new)
        ≡ memo_of
        (cond (was_new (find (reports_of (ledger_waiting (desk_ledger desk.old))) radio))
        (lines_of (ledger_memo (desk_ledger desk.old)))
        (alter (raised None) radio (lines_of (ledger_memo (desk_ledger desk.old))))) }
{
    if waits_new(desk, radio) {
        return;
    }
    desk.parts.lines = memo::raised(&mut desk.memo, desk.parts.lines, radio, None);
}

// "Sign-off discards a waiting report", the memo counts what is missed, and the radio is on no longer. What is missed is told by the report that waits, so it
// is counted first.
pub fn signed_off(desk: &mut Desk, radio: u16)
    requires { GoodWaiting (ledger_waiting (desk_ledger desk.old)) × RoomyMemo (ledger_memo (desk_ledger desk.old))
        × MissFits radio (ledger_memo (desk_ledger desk.old)) × GoodOn (ledger_on (desk_ledger desk.old)) }
    ensures kept { desk.new ≡ record desk.old {
      parts = record desk.old.parts { waiting = desk.new.parts.waiting; lines = desk.new.parts.lines; on = desk.new.parts.on };
      waiting = desk.new.waiting;
      memo = desk.new.memo;
      on = desk.new.on;
    } }
    ensures waits { ledger_waiting (desk_ledger desk.new)
        ≡ waiting_of (alter (λ _. None) radio (reports_of (ledger_waiting (desk_ledger desk.old)))) }
    ensures counted { ledger_memo (desk_ledger desk.new)
        ≡ memo_of
        (cond (was_new (find (reports_of (ledger_waiting (desk_ledger desk.old))) radio))
        (lines_of (ledger_memo (desk_ledger desk.old)))
        (alter (raised None) radio (lines_of (ledger_memo (desk_ledger desk.old))))) }
    ensures is_off { ledger_on (desk_ledger desk.new) ≡ on_of (alter (λ _. None) radio (radios_of (ledger_on (desk_ledger desk.old)))) }
{
    missed(desk, radio);
    desk.parts.waiting = waiting::discarded(&mut desk.waiting, desk.parts.waiting, radio);
    desk.parts.on = waiting::signed_off(&mut desk.on, desk.parts.on, radio);
}
