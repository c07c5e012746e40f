// Writing all radios on into a file, from a store in any condition. Desk and pages are only read.
#![tactic(auto)]

ghost use Rattle.std.specs.Prelude.{◌≤◌, length};
ghost use Rattle.terms.specs.Terms.{max_on};
ghost use Rattle.csv_grammar.specs.Csv.{file_of};
ghost use Rattle.csv_text.specs.Text.{rows_in};
ghost use Rattle.rules.specs.Calls.{writes};
ghost use Rattle.rules.specs.Everyone.{everyone};
ghost use Rattle.desk.specs.Call.{handed, left, Answers};
ghost use Rattle.desk.specs.Held.{desk_ledger};
ghost use Rattle.desk.specs.Sound.{SoundLedger};
ghost use Rattle.spreadsheet_write.specs.Write.{Wrote};

use desk::{Answer, Desk};
use page::BUFFER_BYTES;
use terms::{Fix, Place, Refusal};

// What stands beside a radio until its fix is found.
const NO_FIX: Fix = Fix {
    place: Place { east: 0, north: 0 },
    minute: 0,
};

// The file of these rows at the buffer's start, and nothing behind it; or the buffer is too short, and every byte is kept.
fn write_rows(radios: &[u16], fixes: &[Fix], buffer: &mut [u8]) -> Answer
    requires { (length radios.now ≤ max_on) × (length radios.now ≤ length fixes.now) }
    ensures { Wrote (file_of (rows_in (length radios.now) radios.now fixes.now)) buffer.old result buffer.new }
{
    let bytes = csv_text::file_length(radios, fixes);
    if buffer.len() < bytes {
        return desk::counted(Refusal::ShortBuffer.number(), bytes as u64);
    }
    csv_text::put_file(radios, fixes, buffer);
    desk::counted(0, bytes as u64)
}

// "Write all radios on", on a sound store.
fn write_sound(desk: &Desk, pages: &[u8], buffer: &mut [u8]) -> Answer
    requires { SoundLedger (desk_ledger desk.now) pages.now }
    ensures { (s : SoundLedger (desk_ledger desk.now) pages.now) → Wrote (file_of (everyone s.store)) buffer.old result buffer.new }
{
    let mut fixes = [NO_FIX; Desk::MAX_ON];
    latest_fixes::fixes_on(pages, desk, &mut fixes);
    write_rows(&desk.on[..desk.parts.on as usize], &fixes, buffer)
}

// The file, or the call is turned down with every byte kept.
pub fn write_lent(desk: &Desk, pages: &[u8], buffer: &mut [u8]) -> Answer
    ensures { Answers (handed desk.now pages.now writes buffer.old) (left result desk.now pages.now buffer.new) }
{
    if pages.len() != BUFFER_BYTES {
        return Answer::refused(Refusal::WrongSize);
    }
    if !sound::sound(desk, pages) {
        return Answer::refused(Refusal::Unsound);
    }
    write_sound(desk, pages, buffer)
}
