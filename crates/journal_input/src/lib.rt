// The input as the journal printer reads it: a window over a reader, what of the window is at hand, and what the last read said of the input.
#![tactic(auto)]

ghost use Rattle.std.specs.Prelude.{◌≡◌, ◌+◌, ◌≤◌, ◌<◌, length, take, IfOk, OnErr};
ghost use Rattle.std.specs.Io.KnownBytes.{IsAtEnd};
ghost use Rattle.rules.specs.Records.{length_field};
ghost use Rattle.journal_input.specs.Input.{window_bytes, at_hand, InWindow, Brings, WholeRecord};

use std::io;
use std::io::Read;

// A record's length is below this, so a record that a full window has not whole is not there at all.
pub const WINDOW_BYTES: usize = 65536;

// A record's length and kind.
pub const LEAST_BYTES: usize = 4;

// What is at hand of the input: the window's bytes from `at` up to `end`.
#[derive(Clone, Copy)]
pub struct Hand {
    pub at: usize,
    pub end: usize,
}

// What the last read said of the input: more may come, or it has ended. That it cannot be read is an `Err`. No `Option`: there is nothing to hand out beside it.
#[derive(Clone, Copy, Debug, PartialEq, Eq)]
pub enum Source {
    Open,
    Ended,
}

// The window's next record is at hand, or all that is left of the input, or a read has failed; what was at hand is kept, after an `Err` too.
pub fn record_at_hand<R: Read>(
    reader: &mut R,
    window: &mut [u8],
    hand: &mut Hand,
) -> io::Result<Source>
    requires { InWindow hand.old window.old }
    ensures inside { InWindow hand.new window.new }
    ensures brings { Brings (R.remaining reader.old) (R.remaining reader.new)
        (at_hand window.old hand.old) (at_hand window.new hand.new) }
    ensures whole { IfOk result (λ source. source ≡ Source.Open → WholeRecord (at_hand window.new hand.new)) }
    ensures ended { IfOk result (λ source. source ≡ Source.Ended → IsAtEnd (R.remaining reader.new)) }
{
    if filled(reader, window, hand, LEAST_BYTES)? == Source::Ended {
        return Ok(Source::Ended);
    }
    let length = record_length(&window[hand.at..hand.end]);
    filled(reader, window, hand, length)
}

// The length that a record's bytes name.
#[tactic(auto, unfolding(rules::specs::Records::length_field))]
fn record_length(bytes: &[u8]) -> usize
    requires { 4 ≤ length bytes.now }
    ensures value { result ≡ length_field bytes.now }
    ensures small { result < window_bytes }
{
    fields::read(bytes, 0) as usize
}

// So many bytes are at hand, unless the input has ended or cannot be read; what was at hand is kept.
fn filled<R: Read>(
    reader: &mut R,
    window: &mut [u8],
    hand: &mut Hand,
    need: usize,
) -> io::Result<Source>
    requires inside { InWindow hand.old window.old }
    requires need { need < window_bytes }
    ensures inside { InWindow hand.new window.new }
    ensures brings { Brings (R.remaining reader.old) (R.remaining reader.new)
        (at_hand window.old hand.old) (at_hand window.new hand.new) }
    ensures enough { IfOk result (λ source. source ≡ Source.Open → need ≤ length (at_hand window.new hand.new)) }
    ensures ended { IfOk result (λ source. source ≡ Source.Ended → IsAtEnd (R.remaining reader.new)) }
{
    let n = hand.end - hand.at;
    if need <= n {
        return Ok(Source::Open);
    }
    window.copy_within(hand.at..hand.end, 0);
    hand.at = 0;
    hand.end = n;
    read_up_to(reader, window, &mut hand.end, need)
}

// Reads on from `end` until there are `need` bytes, or the input has ended or cannot be read.
fn read_up_to<R: Read>(
    reader: &mut R,
    window: &mut [u8],
    end: &mut usize,
    need: usize,
) -> io::Result<Source>
    requires start { end.old ≤ length window.old }
    requires room { need ≤ length window.old }
    ensures low { end.old ≤ end.new }
    ensures high { end.new ≤ length window.old }
    ensures brings { Brings (R.remaining reader.old) (R.remaining reader.new)
        (take end.old window.old) (take end.new window.new) }
    ensures enough { IfOk result (λ source. source ≡ Source.Open → need ≤ end.new) }
    ensures ended { IfOk result (λ source. source ≡ Source.Ended → IsAtEnd (R.remaining reader.new)) }
{
    // no `for`: a read says how many bytes it brings
    while *end < need {
        let n = read_more(reader, window, *end)?;
        if n == 0 {
            return Ok(Source::Ended);
        }
        *end += n;
    }
    Ok(Source::Open)
}

// One read into the window from `end` on, where there is room for a byte, so that 0 is the input's end.
fn read_more<R: Read>(reader: &mut R, window: &mut [u8], end: usize) -> io::Result<usize>
    requires { end < length window.old }
    ensures kept { take end window.new ≡ take end window.old }
    ensures within { IfOk result (λ n. end + n ≤ length window.old) }
    ensures ok { IfOk result (λ n. Brings (R.remaining reader.old) (R.remaining reader.new)
        (take end window.old) (take (end + n) window.new)) }
    ensures ended { IfOk result (λ n. n ≡ 0 → IsAtEnd (R.remaining reader.new)) }
    ensures err { OnErr result (Brings (R.remaining reader.old) (R.remaining reader.new)
        (take end window.old) (take end window.new)) }
{
    reader.read(&mut window[end..])
}
