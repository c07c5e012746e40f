// The members of each watch, found anew from the latest places of a sound ledger: the watches are laid out once more, from their rectangles alone.
// The test of soundness compares, and a watch that is set takes what is laid out.
#![tactic(auto)]

ghost use Rattle.std.specs.Prelude.{◌≡◌, ℕ, ◌+◌, ◌*◌, ◌<◌, ◌≤◌, false, List, length, set, slice_index, Option, None};
ghost use Rattle.terms.specs.Terms.{Place, max_radio, max_on};
ghost use Rattle.lists.specs.Bits.{bits};
ghost use Rattle.lists.specs.Rows.{UpTo};
ghost use Rattle.lists.specs.Tests.{one_if};
ghost use Rattle.rules.specs.Grid.{takes_in, covers};
ghost use Rattle.rules.specs.Plain.{put_at};
ghost use Rattle.rules.specs.Watches.{max_watches, Watch as RulesWatch, watch_at, is_member, latest_place};
ghost use Rattle.desk.specs.Layout.{watch_of, watches_of};
ghost use Rattle.desk.specs.Held.{on_with, desk_ledger};
ghost use Rattle.desk.specs.Sound.{SoundLedger};
ghost use Rattle.desk.specs.Views.{radios_of, rect_of, watch_in, watches_in};
ghost use Rattle.watch_members.specs.Members.{nowhere, OnColumn, place_at, PlacesOn, Numbers, taken_in, voids, Reaches, OnceOn, OnlyOn};

use desk::{Desk, Rectangle, Watch};
use latest_places::Columns;
use memo_index::RADIOS;

// ---- where the radios on are

// A column of the table by radio, for the radios on alone and in their order.
fn column_on(
    column: &[u16; RADIOS],
    radios: &[u16; Desk::MAX_ON],
    n: u16,
    dense: &mut [u16; Desk::MAX_ON],
)
    requires { (n ≤ max_on) × UpTo max_radio (radios_of (on_with n radios.now)) }
    ensures { OnColumn column.now radios.now n dense.new }
{
    for i in 0..n as usize {
        dense[i] = column[radios[i] as usize];
    }
}

// The latest place of each radio on.
fn places_on(
    desk: &Desk,
    pages: &[u8],
    easts: &mut [u16; Desk::MAX_ON],
    norths: &mut [u16; Desk::MAX_ON],
)
    requires { SoundLedger (desk_ledger desk.now) pages.now }
    ensures { (s : SoundLedger (desk_ledger desk.now) pages.now)
        → PlacesOn (latest_place s.store) desk.now.on desk.now.parts.on easts.new norths.new }
{
    let mut all = Columns {
        easts: [0; RADIOS],
        norths: [0; RADIOS],
    };
    latest_places::hold_latest(pages, desk, &mut all);
    column_on(&all.easts, &desk.on, desk.parts.on, easts);
    column_on(&all.norths, &desk.on, desk.parts.on, norths);
}

// ---- which watches take each in

// Places are two columns, and all arrays have the length that may be on, of which the first n are used: speed tried. An array of places takes four times as long,
// slices of n a tenth longer.

// Whether two edges take in nothing.
#[tactic(auto, using(crate::proofs::ReachLaws::void_told))]
fn is_void(low: u16, high: u16) -> bool
    ensures { result ≡ voids (record { low = low; high = high }) }
{
    (high <= low) & (high != Desk::LAST_METRE)
}

// How far above the low edge the last coordinate lies that two edges take in.
#[tactic(auto, using(crate::proofs::ReachLaws::reach_last, crate::proofs::ReachLaws::reach_inner, crate::proofs::ReachLaws::void_order))]
fn reach_of(low: u16, high: u16) -> u16
    requires { voids (record { low = low; high = high }) ≡ false }
    ensures { Reaches (record { low = low; high = high }) result }
{
    if high == Desk::LAST_METRE {
        return high - low;
    }
    high - low - 1
}

// Whether a coordinate lies so far above the low edge or less. What lies below the edge comes, round the end of 16 bits, to more: one comparison does for two.
fn is_reached(low: u16, reach: u16, x: u16) -> bool
    ensures { (high : ℕ) → Reaches (record { low = low; high = high }) reach → result ≡ takes_in (record { low = low; high = high }) x }
{
    std::num::wrapping_sub_u16(x, low) <= reach
}

// A watch that takes in nothing: each radio's number grows by a bit that is not set.
fn shift_none(n: usize, numbers: &mut [u16; Desk::MAX_ON])
    requires { (n ≤ max_on) × ((i : ℕ) → i < n → slice_index numbers.old i < 32768) }
    ensures { Numbers (λ i. 2 * slice_index numbers.old i) n numbers.new }
{
    for i in 0..n {
        numbers[i] *= 2;
    }
}

// A watch that takes in something: each radio's number grows by a bit. No branch, so that many radios are looked at at a time.
fn shift_reached(
    area: Rectangle,
    across: u16,
    up: u16,
    easts: &[u16; Desk::MAX_ON],
    norths: &[u16; Desk::MAX_ON],
    n: usize,
    numbers: &mut [u16; Desk::MAX_ON],
)
    requires { (n ≤ max_on) × ((i : ℕ) → i < n → slice_index numbers.old i < 32768)
        × Reaches (rect_of area).easts across × Reaches (rect_of area).norths up }
    ensures { Numbers (λ i. one_if (covers (rect_of area) (place_at easts.now norths.now i)) + 2 * slice_index numbers.old i) n
        numbers.new }
{
    for i in 0..n {
        let in_easts = is_reached(area.west, across, easts[i]);
        let in_norths = is_reached(area.south, up, norths[i]);
        numbers[i] = watches::with_bit(in_easts & in_norths, numbers[i]);
    }
}

// One watch more, below those that are there.
fn shift_in(
    area: Rectangle,
    easts: &[u16; Desk::MAX_ON],
    norths: &[u16; Desk::MAX_ON],
    n: usize,
    numbers: &mut [u16; Desk::MAX_ON],
)
    requires { (n ≤ max_on) × ((i : ℕ) → i < n → slice_index numbers.old i < 32768) }
    ensures { Numbers (λ i. one_if (covers (rect_of area) (place_at easts.now norths.now i)) + 2 * slice_index numbers.old i) n
        numbers.new }
{
    if is_void(area.west, area.east) {
        shift_none(n, numbers);
        return;
    }
    if is_void(area.south, area.north) {
        shift_none(n, numbers);
        return;
    }
    let across = reach_of(area.west, area.east);
    let up = reach_of(area.south, area.north);
    shift_reached(area, across, up, easts, norths, n, numbers);
}

// Each radio's number: bit w is set exactly if watch w takes in its place.
fn number_each(
    watches: &[Watch; Desk::MAX_WATCHES],
    easts: &[u16; Desk::MAX_ON],
    norths: &[u16; Desk::MAX_ON],
    n: usize,
    numbers: &mut [u16; Desk::MAX_ON],
)
    requires { (n ≤ max_on) × Numbers (λ i. 0) n numbers.old }
    ensures { Numbers (λ i. taken_in watches.now (place_at easts.now norths.now i)) n numbers.new }
{
    for w in (0..Desk::MAX_WATCHES).rev() {
        let area = watches::area_of(&watches[w]);
        shift_in(area, easts, norths, n, numbers);
    }
}

// ---- the watches laid out

// The rectangle of a watch that is set, and no member.
#[tactic(auto, using(crate::proofs::AreasLaws::bare_set, crate::proofs::AreasLaws::bare_unset))]
fn bare(watch: &Watch) -> Watch
    ensures { result ≡ watch_of nowhere (watch_in watch.now) }
{
    let mut bare = Watch::UNSET;
    if watches::is_watched(watch) {
        watches::put_area(&mut bare, watches::area_of(watch));
    }
    bare
}

fn lay_areas(watches: &[Watch; Desk::MAX_WATCHES], laid: &mut [Watch; Desk::MAX_WATCHES])
    ensures laid { laid.new ≡ watches_of nowhere (watches_in watches.now) }
    ensures long { length watches.now ≡ max_watches }
{
    for w in 0..Desk::MAX_WATCHES {
        laid[w] = bare(&watches[w]);
    }
}

// The radio is a member of the watches whose bits are set.
fn lay_radio(watches: &mut [Watch; Desk::MAX_WATCHES], radio: u16, number: u16)
    requires { radio ≤ max_radio }
    ensures { (places : ℕ → Option Place) (p : Option Place) (l : List RulesWatch) → length l ≡ max_watches → watches.old ≡ watches_of places l
        → places radio ≡ None → number ≡ bits max_watches (λ w. is_member (watch_at l w) p) → watches.new ≡ watches_of (put_at radio p places) l }
{
    for w in 0..Desk::MAX_WATCHES {
        if watches::is_set(number, w as u16) {
            watches::put_member(&mut watches[w], radio, true);
        }
    }
}

fn lay_members(
    watches: &mut [Watch; Desk::MAX_WATCHES],
    radios: &[u16; Desk::MAX_ON],
    n: usize,
    numbers: &[u16; Desk::MAX_ON],
)
    requires { (n ≤ max_on) × OnceOn n radios.now }
    ensures { (places : ℕ → Option Place) (l : List RulesWatch) → length l ≡ max_watches → watches.old ≡ watches_of nowhere l
        → OnlyOn places n radios.now → Numbers (λ i. bits max_watches (λ w. is_member (watch_at l w) (places (slice_index radios.now i)))) n
        numbers.now
        → watches.new ≡ watches_of places l }
{
    for i in 0..n {
        let number = numbers[i];
        if number != 0 {
            lay_radio(watches, radios[i], number);
        }
    }
}

// The watches' rectangles with the members that they must have.
pub fn lay_out(desk: &Desk, pages: &[u8], laid: &mut [Watch; Desk::MAX_WATCHES])
    requires { SoundLedger (desk_ledger desk.now) pages.now }
    ensures { (s : SoundLedger (desk_ledger desk.now) pages.now)
        → laid.new ≡ watches_of (latest_place s.store) (watches_in desk.now.watches) }
{
    let mut easts = [0u16; Desk::MAX_ON];
    let mut norths = [0u16; Desk::MAX_ON];
    let mut numbers = [0u16; Desk::MAX_ON];
    let n = desk.parts.on as usize;
    lay_areas(&desk.watches, laid);
    places_on(desk, pages, &mut easts, &mut norths);
    number_each(laid, &easts, &norths, n, &mut numbers);
    lay_members(laid, &desk.on, n, &numbers);
}
