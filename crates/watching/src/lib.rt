// Setting and clearing a watch on a store in any condition: the calls that aren't records. The watches alone are altered, and the pages are only read.
#![tactic(auto)]

ghost use Rattle.std.specs.Prelude.{List, [], ◌≡◌, ℕ};
ghost use Rattle.std.specs.Result.{IfOk, IfErr};
ghost use Rattle.terms.specs.Refusals.{number_of};
ghost use Rattle.rules.specs.Calls.{sets, clears, set_refusal, clear_refusal};
ghost use Rattle.desk.specs.Call.{handed, left, CarriedOut, Answers};
ghost use Rattle.desk.specs.Sound.{Sound};
ghost use Rattle.desk.specs.Views.{rect_of, watches_in};
ghost use Rattle.watching.specs.Watching.{Passes};

use desk::{Answer, Desk, Rectangle, Watch};
use page::BUFFER_BYTES;
use terms::Refusal;

// ---- setting

// Which watch is set: not "a watch number above 15", "with number 7 following for the rectangle".
#[tactic(auto, using(crate::proofs::WatchingLaws::above_fifteen, crate::proofs::WatchingLaws::set_reversed, crate::proofs::WatchingLaws::set_passes))]
fn settable(watch: u16, area: Rectangle) -> Result<usize, Refusal>
    ensures passed { IfOk result (Passes watch (set_refusal watch (rect_of area))) }
    ensures refused { IfErr result (λ refusal. number_of refusal ≡ set_refusal watch (rect_of area)) }
{
    let w = watch as usize;
    if Desk::MAX_WATCHES <= w {
        return Err(Refusal::NoWatch);
    }
    if rectangles::is_reversed(area) {
        return Err(Refusal::Reversed);
    }
    Ok(w)
}

// On a sound store. The watch has this rectangle and the members that it must have: "setting again meaning replaced".
fn set_sound(desk: &mut Desk, pages: &[u8], watch: u16, area: Rectangle) -> Answer
    requires { Sound desk.old pages.now }
    ensures { (s : Sound desk.old pages.now)
        → CarriedOut (handed desk.old pages.now (sets watch (rect_of area)) []) s (left result desk.new pages.now []) }
{
    let w = match settable(watch, area) {
        Ok(w) => w,
        Err(refusal) => return Answer::refused(refusal),
    };
    watches::put_area(&mut desk.watches[w], area);
    let mut laid = [Watch::UNSET; Desk::MAX_WATCHES];
    watch_members::lay_out(desk, pages, &mut laid);
    desk.watches = laid;
    desk::numbered(0)
}

// A watch is set, or the call is turned down with every byte kept.
pub fn set(desk: &mut Desk, pages: &[u8], watch: u16, area: Rectangle) -> Answer
    ensures { Answers
        (handed desk.old pages.now (sets watch (rect_of area)) [])
        (left result desk.new pages.now []) }
{
    if pages.len() != BUFFER_BYTES {
        return Answer::refused(Refusal::WrongSize);
    }
    if !sound::sound(desk, pages) {
        return Answer::refused(Refusal::Unsound);
    }
    set_sound(desk, pages, watch, area)
}

// ---- clearing

// Which watch is cleared: not "a watch number above 15, or clearing one not set".
#[tactic(auto, using(crate::proofs::WatchingLaws::clear_above, crate::proofs::WatchingLaws::clear_passes, crate::proofs::WatchingLaws::clear_unset))]
fn clearable(watches: &[Watch; Desk::MAX_WATCHES], watch: u16) -> Result<usize, Refusal>
    ensures passed { IfOk result (Passes watch (clear_refusal watch (watches_in watches.now))) }
    ensures refused { IfErr result (λ refusal. number_of refusal ≡ clear_refusal watch (watches_in watches.now)) }
{
    let w = watch as usize;
    if w < Desk::MAX_WATCHES && watches::is_watched(&watches[w]) {
        Ok(w)
    } else {
        Err(Refusal::NoWatch)
    }
}

// On a sound store, of which the watches alone are looked at.
fn clear_sound(desk: &mut Desk, watch: u16) -> Answer
    ensures { (b : List ℕ) (s : Sound desk.old b)
        → CarriedOut (handed desk.old b (clears watch) []) s (left result desk.new b []) }
{
    let w = match clearable(&desk.watches, watch) {
        Ok(w) => w,
        Err(refusal) => return Answer::refused(refusal),
    };
    desk.watches[w] = Watch::UNSET;
    desk::numbered(0)
}

// A watch is cleared, or the call is turned down with every byte kept.
pub fn clear(desk: &mut Desk, pages: &[u8], watch: u16) -> Answer
    ensures { Answers
        (handed desk.old pages.now (clears watch) [])
        (left result desk.new pages.now []) }
{
    if pages.len() != BUFFER_BYTES {
        return Answer::refused(Refusal::WrongSize);
    }
    if !sound::sound(desk, pages) {
        return Answer::refused(Refusal::Unsound);
    }
    clear_sound(desk, watch)
}
