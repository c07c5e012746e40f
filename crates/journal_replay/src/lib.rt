// A whole journal carried from a fresh store, with all its answers.
#![tactic(auto)]

ghost use Rattle.std.specs.Prelude.{cond, false, ◌++◌, ◌≡◌, ◌+◌, ◌≤◌, ◌<◌, eqb, length, drop};
ghost use Rattle.terms.specs.Terms.{field_bytes, max_on};
ghost use Rattle.lists.specs.Parts.{put};
ghost use Rattle.lists.specs.Words.{le};
ghost use Rattle.rules.specs.Records.{length_field, not_at_hand};
ghost use Rattle.rules.specs.Store.{fresh};
ghost use Rattle.rules.specs.Watches.{fresh_watched};
ghost use Rattle.desk.specs.Layout.{desk_of, pages_of};
ghost use Rattle.journal_replay.specs.Replay.{answer_bytes, listed_bytes, Running, Replays, handed, replayed};

use desk::{Answer, Desk};
use terms::Refusal;

pub const ANSWER_BYTES: usize = 4;

const LIST_BYTES: usize = 6;

// How many of the journal's bytes are read, and how many of the answers' are written.
#[derive(Clone, Copy, Debug, PartialEq, Eq)]
pub struct Run {
    pub read: usize,
    pub written: usize,
}

// Number and count at `at`, and every other byte is kept. A record counts radios on, so that its count fits a field.
fn write_answer(out: &mut [u8], at: usize, answer: Answer)
    requires { (at + answer_bytes ≤ length out.old) × (answer.count ≤ max_on) }
    ensures { out.new ≡ put out.old at (le field_bytes answer.number ++ le field_bytes answer.count) }
{
    fields::write(out, at, answer.number);
    fields::write(out, at + 2, answer.count as u16);
}

#[tactic(auto, unfolding(crate::specs::Replay::listed_bytes))]
fn listed_bytes(answer: Answer) -> usize
    requires { answer.count ≤ max_on }
    ensures { result ≡ listed_bytes answer.number answer.count }
{
    if answer.number != 0 {
        return 0;
    }
    LIST_BYTES * answer.count as usize
}

// Where the next record stands, or the journal's end after number 3.
pub fn next_record(journal: &[u8], at: usize, number: u16) -> usize
    requires { (at ≤ length journal.now) × ((number ≡ 3 → ⊥) → not_at_hand (drop at journal.now) ≡ false) }
    ensures { result ≡ cond (eqb number 3) (length journal.now) (at + length_field (drop at journal.now)) }
{
    if number == Refusal::NotAtHand.number() {
        return journal.len();
    }
    at + fields::read(&journal[at..], 0) as usize
}

// The next record is carried, and its answer stands after those before.
fn step(run: Run, desk: &mut Desk, pages: &mut [u8], journal: &[u8], out: &mut [u8]) -> Run
    requires { Running journal.now desk.old pages.old run.read out.old run.written
        × (run.read < length journal.now) × (run.written + answer_bytes ≤ length out.old) }
    ensures { Running journal.now desk.new pages.new result.read out.new result.written
        × (run.read < result.read) × (run.written ≤ result.written)
        × (drop result.written out.new ≡ drop result.written out.old) }
{
    let Run { read, written } = run;
    let room = written + ANSWER_BYTES;
    let answer = carry::carry(desk, pages, &journal[read..], &mut out[room..]);
    write_answer(out, written, answer);
    Run {
        read: next_record(journal, read, answer.number),
        written: room + listed_bytes(answer),
    }
}

// The whole journal, on a fresh store, as long as there is room for an answer.
fn carry_all(desk: &mut Desk, pages: &mut [u8], journal: &[u8], out: &mut [u8]) -> Run
    requires { (desk.old ≡ desk_of fresh_watched) × (pages.old ≡ pages_of fresh) }
    ensures { Running journal.now desk.new pages.new result.read out.new result.written
        × (result.written + answer_bytes ≤ length out.old → result.read ≡ length journal.now)
        × (drop result.written out.new ≡ drop result.written out.old) }
{
    let mut run = Run {
        read: 0,
        written: 0,
    };
    // no `for`: a record's bytes say where the next one stands
    while run.read < journal.len() {
        if out.len() - run.written < ANSWER_BYTES {
            return run;
        }
        run = step(run, desk, pages, journal, out);
    }
    run
}

// A fresh store, and the journal carried on it: the answers stand at the front of `out`, and every other byte of it is kept.
pub fn replay(
    desk: &mut Desk,
    pages: &mut [u8],
    journal: &[u8],
    out: &mut [u8],
) -> Result<Run, Refusal>
    ensures { Replays journal.now (handed desk.old pages.old out.old) (replayed result desk.new pages.new out.new) }
{
    if fresh::begin(desk, pages).number != 0 {
        return Err(Refusal::WrongSize);
    }
    Ok(carry_all(desk, pages, journal, out))
}
