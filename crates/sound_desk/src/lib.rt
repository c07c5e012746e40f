// The test of soundness as far as it looks at the desk alone: with what each of its parts says by itself, how many wait in a memory cell. The desk may be in
// any condition: a count is tested before a slot is looked at.
#![tactic(auto)]

ghost use Rattle.std.specs.Prelude.{true, ◌≡◌, ◌≤◌};
ghost use Rattle.rules.specs.Limits.{max_cuts, full_memory};
ghost use Rattle.desk.specs.Held.{waiting_with, desk_ledger, ledger_waiting, ledger_on};
ghost use Rattle.sound_desk.specs.Sound.{few_sound, radios_sound, desk_sound, Shaped};

use boxes::BOXES;
use desk::{CutList, Desk};
use sound_grid::grid_sound;

const MOST_IN_BOX: usize = Desk::FULL_BOX - 1;

// ---- fewer than 8 a memory cell

// Whether fewer than 8 wait in each memory cell: each report counts in its own.
fn few_sound(
    easts: CutList,
    norths: CutList,
    waiting: &[u16; Desk::WAITING_WORDS],
    n: usize,
) -> bool
    requires { (easts.n ≤ max_cuts) × (norths.n ≤ max_cuts) × (n ≤ full_memory) }
    ensures { result ≡ few_sound easts norths (waiting_with n waiting.now) }
{
    let at = boxes::boxes_of(easts, norths, waiting);
    let mut crowd: [usize; BOXES] = [0; BOXES];
    for i in 0..n {
        let k = boxes::box_index(at.easts[i], at.norths[i]);
        let others = crowd[k];
        if MOST_IN_BOX <= others {
            return false;
        }
        crowd[k] = others + 1;
    }
    true
}

// ---- the desk

// Whether waiting reports and radios on are sound, but for entries and for each other.
fn radios_sound(desk: &Desk) -> bool
    requires { (desk.now.parts.frame.easts.n ≤ max_cuts) × (desk.now.parts.frame.norths.n ≤ max_cuts) }
    ensures { result
        ≡ radios_sound desk.now.parts.highest desk.now.parts.frame.easts desk.now.parts.frame.norths
        (ledger_waiting (desk_ledger desk.now)) (ledger_on (desk_ledger desk.now)) }
{
    let parts = desk.parts;
    let n = parts.waiting as usize;
    if !sound_rows::waiting_sound(&desk.waiting, n, parts.highest) {
        return false;
    }
    if !sound_rows::on_sound(&desk.on, parts.on as usize) {
        return false;
    }
    few_sound(parts.frame.easts, parts.frame.norths, &desk.waiting, n)
}

// Whether a desk in any condition is sound, as far as that shows without the pages.
pub fn desk_sound(desk: &Desk) -> bool
    ensures test { result ≡ desk_sound (desk_ledger desk.now) }
    ensures shape { result ≡ true → Shaped (desk_ledger desk.now) }
{
    let parts = desk.parts;
    let frame = parts.frame;
    if !grid_sound(frame.easts, frame.norths, &desk.cells, frame.cells as usize) {
        return false;
    }
    if !radios_sound(desk) {
        return false;
    }
    if !sound_rows::memo_sound(&desk.memo, parts.lines) {
        return false;
    }
    parts.tally < Desk::SWEEP_EVERY
}
