// A record on a store in any condition: carried out, or turned down. Desk, pages and answer buffer are lent.
#![tactic(auto)]

ghost use Rattle.std.specs.Prelude.{◌≡◌};
ghost use Rattle.rules.specs.Calls.{hands};
ghost use Rattle.desk.specs.Call.{handed, left, CarriedOut, Answers};
ghost use Rattle.desk.specs.Sound.{Sound};

use desk::{Answer, Desk};
use page::BUFFER_BYTES;
use records::Asked;
use terms::Refusal;
use watches::Moved;

// Number 0: "An accepted record carries number 0 and, for a range, n, else 0.", and the watches that gained or lost its radio.
fn accepted(moved: Moved) -> Answer
    ensures { result ≡ record { number = 0; count = 0; gained = moved.gained; lost = moved.lost } }
{
    Answer {
        number: 0,
        gained: moved.gained,
        lost: moved.lost,
        count: 0,
    }
}

// One record on a sound store: carried out, or turned down under 3 to 13. The watches follow an accepted sign-on, report or sign-off.
pub fn carry_sound(desk: &mut Desk, pages: &mut [u8], bytes: &[u8], buffer: &mut [u8]) -> Answer
    requires { Sound desk.old pages.old }
    ensures { (s : Sound desk.old pages.old)
        → CarriedOut (handed desk.old pages.old (hands bytes.now) buffer.old) s
        (left result desk.new pages.new buffer.new) }
{
    match records::asked_by(bytes, desk.parts.highest, &desk.on, desk.parts.on as usize) {
        Err(refusal) => Answer::refused(refusal),
        Ok(Asked::SignOn { radio, fix }) => {
            effects::sign_on(desk, pages, radio, fix);
            accepted(watches::update(&mut desk.watches, radio, Some(fix.place)))
        }
        Ok(Asked::Report { radio, fix }) => {
            effects::reported(desk, pages, radio, fix);
            accepted(watches::update(&mut desk.watches, radio, Some(fix.place)))
        }
        Ok(Asked::SignOff { radio, minute }) => {
            effects::sign_off(desk, pages, radio, minute);
            accepted(watches::update(&mut desk.watches, radio, None))
        }
        Ok(Asked::Range { area, minute }) => range::list(pages, area, minute, desk, buffer),
    }
}

// One record, well formed or not, with a store in any condition: carried out, or turned down under one of thirteen numbers with every byte kept.
pub fn carry(desk: &mut Desk, pages: &mut [u8], bytes: &[u8], buffer: &mut [u8]) -> Answer
    ensures { Answers
        (handed desk.old pages.old (hands bytes.now) buffer.old)
        (left result desk.new pages.new buffer.new) }
{
    if pages.len() != BUFFER_BYTES {
        return Answer::refused(Refusal::WrongSize);
    }
    if !sound::sound(desk, pages) {
        return Answer::refused(Refusal::Unsound);
    }
    carry_sound(desk, pages, bytes, buffer)
}
