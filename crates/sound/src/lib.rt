// The test of number 2: whether desk and pages are those of a sound store.
#![tactic(auto)]

ghost use Rattle.std.specs.Prelude.{true, ◌≡◌};
ghost use Rattle.desk.specs.Held.{desk_ledger};
ghost use Rattle.desk.specs.Sound.{SoundLedger, Sound};

use desk::Desk;

// Whether a desk's ledger and pages, in any condition, are those of a sound store. First the ledger, for it is the smallest; what reads the pages may then rely
// on it.
fn ledger_sound(desk: &Desk, pages: &[u8]) -> bool
    ensures { (result ≡ true → SoundLedger (desk_ledger desk.now) pages.now)
        × (SoundLedger (desk_ledger desk.now) pages.now → result ≡ true) }
{
    if !sound_desk::desk_sound(desk) {
        return false;
    }
    let parts = desk.parts;
    if !sound_pages::pages_sound(
        pages,
        &desk.cells,
        parts.frame.cells as usize,
        parts.frame.free,
        parts.highest,
    ) {
        return false;
    }
    sound_radios::radios_sound(desk, pages)
}

// Whether desk and pages, in any condition, are those of a sound store. The watches come last: what they must be follows from the rest.
pub fn sound(desk: &Desk, pages: &[u8]) -> bool
    ensures { (result ≡ true → Sound desk.now pages.now) × (Sound desk.now pages.now → result ≡ true) }
{
    if !ledger_sound(desk, pages) {
        return false;
    }
    sound_watches::watches_sound(desk, pages)
}
