// The test of soundness as far as it looks at the watches. The ledger has passed the tests of its own.
#![tactic(auto)]

ghost use Rattle.std.specs.Prelude.{true, false, ◌≡◌, ℕ, ◌<◌, length, get_or, replicate};
ghost use Rattle.rules.specs.Grid.{is_reversed};
ghost use Rattle.rules.specs.Watches.{max_watches};
ghost use Rattle.desk.specs.Layout.{unset_watch, no_watch};
ghost use Rattle.desk.specs.Held.{desk_ledger};
ghost use Rattle.desk.specs.Sound.{SoundLedger};
ghost use Rattle.desk.specs.Views.{area_in};
ghost use Rattle.sound_watches.specs.Sound.{WatchesSound};

use desk::{Desk, Watch};

// Whether no watch is reversed.
fn are_right(watches: &[Watch; Desk::MAX_WATCHES]) -> bool
    ensures right { (result ≡ true → (w : ℕ) → w < max_watches → is_reversed (area_in (get_or watches.now w no_watch)) ≡ false)
        × (((w : ℕ) → w < max_watches → is_reversed (area_in (get_or watches.now w no_watch)) ≡ false) → result ≡ true) }
    ensures long { length watches.now ≡ max_watches }
{
    for watch in watches {
        if rectangles::is_reversed(watches::area_of(watch)) {
            return false;
        }
    }
    true
}

// Whether all of the watch is zero. No branch, so that many numbers are looked at at a time.
fn is_unset(watch: &Watch) -> bool
    ensures { result ≡ true → watch.now ≡ unset_watch }
{
    (watch.set == 0)
        & (watch.west == 0)
        & (watch.east == 0)
        & (watch.south == 0)
        & (watch.north == 0)
        & sound_directory::is_unused(&watch.members, 0)
}

// Whether no watch is set, and none has a trace of one.
fn are_unset(watches: &[Watch; Desk::MAX_WATCHES]) -> bool
    ensures { result ≡ true → watches.now ≡ replicate max_watches unset_watch }
{
    for watch in watches {
        if !is_unset(watch) {
            return false;
        }
    }
    true
}

// Whether the watches are those that their rectangles and the latest places call for, and none is reversed. With no watch set, it looks at the unset slots alone.
pub fn watches_sound(desk: &Desk, pages: &[u8]) -> bool
    requires { SoundLedger (desk_ledger desk.now) pages.now }
    ensures { (s : SoundLedger (desk_ledger desk.now) pages.now)
        → (result ≡ true → WatchesSound s.store desk.now.watches) × (WatchesSound s.store desk.now.watches → result ≡ true) }
{
    if are_unset(&desk.watches) {
        return true;
    }
    if !are_right(&desk.watches) {
        return false;
    }
    let mut laid = [Watch::UNSET; Desk::MAX_WATCHES];
    watch_members::lay_out(desk, pages, &mut laid);
    desk.watches == laid
}
