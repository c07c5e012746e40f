// A sign-on, a report and a sign-off on a sound store: its own effect, and what follows. Desk and pages are lent.
#![tactic(auto)]

ghost use Rattle.std.specs.Prelude.{◌≡◌};
ghost use Rattle.terms.specs.Values.{fix_of, place_of};
ghost use Rattle.rules.specs.Sweep.{tick};
ghost use Rattle.rules.specs.Records.{sign_on, report, sign_off};
ghost use Rattle.rules.specs.Carry.{after_report};
ghost use Rattle.desk.specs.Held.{desk_ledger};
ghost use Rattle.desk.specs.Laid.{LaidLedger};
ghost use Rattle.effects.specs.Effects.{BeforeFlushLedger, BeforeTallyLedger, BeforeSignOn, BeforeReport, BeforeSignOff, AfterRequest};

use desk::Desk;
use terms::{Fix, Place};

// ---- what follows a record's own effect

// The record is counted.
fn ticked(desk: &mut Desk, pages: &mut [u8])
    requires { BeforeTallyLedger (desk_ledger desk.old) pages.old }
    ensures watches { desk.new.watches ≡ desk.old.watches }
    ensures on { desk.new.on ≡ desk.old.on }
    ensures laid { (x : BeforeTallyLedger (desk_ledger desk.old) pages.old)
        → LaidLedger (tick x.before.store) (desk_ledger desk.new) pages.new }
{
    tally::tick(desk, pages);
}

// "After sign-on or report": the memory cell that is due is flushed, and the record is counted.
fn followed(desk: &mut Desk, pages: &mut [u8], place: Place)
    requires { BeforeFlushLedger (desk_ledger desk.old) (place_of place) pages.old }
    ensures watches { desk.new.watches ≡ desk.old.watches }
    ensures on { desk.new.on ≡ desk.old.on }
    ensures laid { (x : BeforeFlushLedger (desk_ledger desk.old) (place_of place) pages.old)
        → LaidLedger (tick (after_report (place_of place) x.before.store)) (desk_ledger desk.new) pages.new }
{
    flush::after_report(desk, pages, place);
    ticked(desk, pages);
}

// ---- the records

// "Sign-on puts a report marked new among the waiting."
pub fn sign_on(desk: &mut Desk, pages: &mut [u8], radio: u16, fix: Fix)
    requires { BeforeSignOn (desk_ledger desk.old) radio (fix_of fix) pages.old }
    ensures watches { desk.new.watches ≡ desk.old.watches }
    ensures done { (x : BeforeSignOn (desk_ledger desk.old) radio (fix_of fix) pages.old)
        → AfterRequest x.sound.store (sign_on radio (fix_of fix)) (desk_ledger desk.new) pages.new }
{
    own_effect::signed_on(desk, radio, fix);
    desk.parts.highest = fix.minute;
    followed(desk, pages, fix.place);
}

// "Report replaces a waiting report of that radio, keeping its mark new; otherwise it waits unmarked."
pub fn reported(desk: &mut Desk, pages: &mut [u8], radio: u16, fix: Fix)
    requires { BeforeReport (desk_ledger desk.old) radio (fix_of fix) pages.old }
    ensures watches { desk.new.watches ≡ desk.old.watches }
    ensures on { desk.new.on ≡ desk.old.on }
    ensures done { (x : BeforeReport (desk_ledger desk.old) radio (fix_of fix) pages.old)
        → AfterRequest x.sound.store (report radio (fix_of fix)) (desk_ledger desk.new) pages.new }
{
    own_effect::reported(desk, radio, fix);
    desk.parts.highest = fix.minute;
    followed(desk, pages, fix.place);
}

// "Sign-off discards a waiting report."
pub fn sign_off(desk: &mut Desk, pages: &mut [u8], radio: u16, minute: u32)
    requires { BeforeSignOff (desk_ledger desk.old) radio minute pages.old }
    ensures watches { desk.new.watches ≡ desk.old.watches }
    ensures done { (x : BeforeSignOff (desk_ledger desk.old) radio minute pages.old)
        → AfterRequest x.sound.store (sign_off radio minute) (desk_ledger desk.new) pages.new }
{
    own_effect::signed_off(desk, radio);
    desk.parts.highest = minute;
    ticked(desk, pages);
}
