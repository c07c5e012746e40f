// The journal printer: carries the records of its input, one after the other, and prints what each is answered.
#![tactic(auto)]

ghost use Rattle.std.specs.Prelude.{false, ◌≡◌, ℕ, ◌+◌, ◌*◌, ◌≤◌, ◌<◌, List, Option, length, drop, OnOk};
ghost use Rattle.std.specs.Io.KnownBytes.{Appends};
ghost use Rattle.lists.specs.Words.{Bytes};
ghost use Rattle.rules.specs.Calls.{hands};
ghost use Rattle.rules.specs.Plain.{Plain};
ghost use Rattle.rules.specs.Records.{not_at_hand};
ghost use Rattle.desk.specs.Call.{handed, left, Answers};
ghost use Rattle.desk.specs.Layout.{fresh_pages};
ghost use Rattle.demands.specs.Trace.{fresh_desk, Trace};
ghost use Rattle.journal_replay.specs.Replay.{left_by};
ghost use Rattle.journal_input.specs.Input.{at_hand, window_bytes, InWindow};
ghost use Rattle.journal_printer.specs.Printer.{list_room, after_turn, answer_text, asks_list, entries_text, entry_text, Going, holds, Ran, stage_of, Turned, Turns};

use desk::{Answer, Desk};
use journal_input::{Hand, LEAST_BYTES};
use records::Kind;
use std::io::{Read, Write};
use std::{fmt, io};
use terms::Refusal;

// "Its answer buffer takes 512 radios."
pub const LIST_BYTES: usize = ENTRY_BYTES * Desk::MAX_ON;

const ENTRY_BYTES: usize = 6;

// Why a run ended.
#[derive(Clone, Copy, PartialEq, Eq, Debug)]
pub enum Ending {
    InputEnded,
    NumberThree,
    CountEnded,
}

impl fmt::Display for Ending {
    fn fmt<W: fmt::Write>(&self, f: &mut fmt::Formatter<W>) -> fmt::Result {
        match self {
            Ending::InputEnded => write!(f, "the input has ended"),
            Ending::NumberThree => write!(f, "the last record is not at hand"),
            Ending::CountEnded => write!(f, "records are counted up to 18446744073709551614"),
        }
    }
}

// What kept a run from its end.
#[derive(Debug, Drop)]
pub enum Failure {
    Read(io::Error),
    Write(io::Error),
}

impl fmt::Display for Failure {
    fn fmt<W: fmt::Write>(&self, f: &mut fmt::Formatter<W>) -> fmt::Result {
        match self {
            Failure::Read(_) => write!(f, "the input cannot be read"),
            Failure::Write(_) => write!(f, "the output cannot be written"),
        }
    }
}

// Record after record of the input, from a fresh store, until one is the last. The count ends too, after record 2^64 - 2: that the loop ends is
// proved, and the input may not.
pub fn print_journal<R: Read, W: Write>(
    reader: &mut R,
    out: &mut W,
    desk: &mut Desk,
    pages: &mut [u8],
    window: &mut [u8],
    list: &mut [u8],
) -> Result<Ending, Failure>
    requires { (desk.old ≡ fresh_desk) × (pages.old ≡ fresh_pages) × (window_bytes ≤ length window.old) × (length list.old ≡ list_room) }
    ensures { Ran (stage_of result) (R.remaining reader.old) (R.remaining reader.new)
        (W.contents out.old) (W.contents out.new) desk.new pages.new }
{
    let mut hand = Hand { at: 0, end: 0 };
    for i in 1..u64::MAX {
        if let Some(ending) = turn(reader, out, desk, pages, window, &mut hand, list, i)? {
            return Ok(ending);
        }
    }
    Ok(Ending::CountEnded)
}

// What is read comes after what is at hand. One call is then handed all of it, its answer is printed as record i's, and the hand goes on by the record; or
// nothing is at hand, and nothing is printed. So the calls are the records of what was read; Demands 2 and 3 speak of them.
fn turn<R: Read, W: Write>(
    reader: &mut R,
    out: &mut W,
    desk: &mut Desk,
    pages: &mut [u8],
    window: &mut [u8],
    hand: &mut Hand,
    list: &mut [u8],
    i: u64,
) -> Result<Option<Ending>, Failure>
    requires store { (plain : Plain) × Trace desk.old pages.old plain }
    requires inside { InWindow hand.old window.old }
    ensures inside { InWindow hand.new window.new }
    ensures step { Turns
        (holds desk.old pages.old (at_hand window.old hand.old) list.old)
        (after_turn result)
        (holds desk.new pages.new (at_hand window.new hand.new) list.new) }
    ensures turned { (known held : Option (List ℕ))
        → Going i known (R.remaining reader.old) held (W.contents out.old)
        desk.old pages.old (at_hand window.old hand.old)
        → Turned result i known (R.remaining reader.new) held (W.contents out.new)
        desk.new pages.new (at_hand window.new hand.new) }
{
    journal_input::record_at_hand(reader, window, hand).map_err(Failure::Read)?;
    let bytes = &window[hand.at..hand.end];
    if bytes.is_empty() {
        return Ok(Some(Ending::InputEnded));
    }
    let answer = call(desk, pages, bytes, list);
    let written = print_answer(out, i, is_range(bytes), answer, list);
    hand.at += taken(bytes, answer.number);
    written.map_err(Failure::Write)?;
    if answer.number == Refusal::NotAtHand.number() {
        return Ok(Some(Ending::NumberThree));
    }
    Ok(None)
}

// A call is handed the bytes; they are a record, or it answers 3.
fn call(desk: &mut Desk, pages: &mut [u8], bytes: &[u8], list: &mut [u8]) -> Answer
    requires { (plain : Plain) × Trace desk.old pages.old plain }
    ensures answers { Answers
        (handed desk.old pages.old (hands bytes.now) list.old)
        (left result desk.new pages.new list.new) }
    ensures small { Bytes bytes.now }
    ensures record { (result.number ≡ 3 → ⊥) → not_at_hand bytes.now ≡ false }
{
    carry::carry(desk, pages, bytes, list)
}

// How many of the bytes at hand a call's record took.
fn taken(bytes: &[u8], number: u16) -> usize
    requires some { 0 < length bytes.now }
    requires record { (number ≡ 3 → ⊥) → not_at_hand bytes.now ≡ false }
    ensures rest { drop result bytes.now ≡ left_by bytes.now number }
    ensures within { result ≤ length bytes.now }
{
    journal_replay::next_record(bytes, 0, number)
}

// ---- printing

#[tactic(auto, unfolding(rules::specs::Records::kind_field))]
fn is_range(bytes: &[u8]) -> bool
    ensures { result ≡ asks_list bytes.now }
{
    bytes.len() >= LEAST_BYTES && fields::read(bytes, 2) == Kind::Range.number()
}

fn print_answer<W: Write>(
    out: &mut W,
    i: u64,
    range: bool,
    answer: Answer,
    list: &[u8],
) -> io::Result<()>
    ensures { OnOk result (Appends (W.contents out.old) (W.contents out.new)
        (answer_text i range answer.number answer.count list.now)) }
{
    let number = answer.number;
    if number != 0 {
        return writeln!(out, "{i} refused {number}");
    }
    if !range {
        return writeln!(out, "{i} ok");
    }
    let count = answer.count;
    writeln!(out, "{i} found {count}")?;
    print_entries(out, list, (count as usize).min(list.len() / ENTRY_BYTES))
}

fn print_entries<W: Write>(out: &mut W, list: &[u8], n: usize) -> io::Result<()>
    requires { 6 * n ≤ length list.now }
    ensures { OnOk result (Appends (W.contents out.old) (W.contents out.new) (entries_text list.now n)) }
{
    for i in 0..n {
        print_entry(out, list, ENTRY_BYTES * i)?;
    }
    Ok(())
}

fn print_entry<W: Write>(out: &mut W, list: &[u8], at: usize) -> io::Result<()>
    requires { at + 6 ≤ length list.now }
    ensures { OnOk result (Appends (W.contents out.old) (W.contents out.new) (entry_text list.now at)) }
{
    let radio = fields::read(list, at);
    let east = fields::read(list, at + 2);
    let north = fields::read(list, at + 4);
    writeln!(out, "{radio} {east} {north}")
}
