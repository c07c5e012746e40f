// A spreadsheet's file written: numbers, lines and the whole file in a lent buffer, and how many bytes they take.
#![tactic(auto)]

ghost use Rattle.std.specs.Prelude.{[], ◌∷◌, ◌++◌, ◌≡◌, ◌+◌, ◌%◌, ◌≤◌, length};
ghost use Rattle.terms.specs.Terms.{max_on};
ghost use Rattle.terms.specs.Values.{fix_of};
ghost use Rattle.lists.specs.Parts.{put};
ghost use Rattle.csv_grammar.specs.Csv.{decimal, digit_zero, comma, carriage_return, line_feed, header_line, line_of, file_of};
ghost use Rattle.csv_text.specs.Text.{rows_in};

use terms::Fix;

const HEADER_BYTES: usize = 25;

// three commas, CR and LF
const LINE_MARKS: usize = 5;

// ---- a number

// How many digits n has. Comparisons, no division: one is asked for each field of each line before it is written.
pub fn digits_of(n: u32) -> usize
    ensures { result ≡ length (decimal n) }
{
    match n {
        0..=9 => 1,
        10..=99 => 2,
        100..=999 => 3,
        1_000..=9_999 => 4,
        10_000..=99_999 => 5,
        100_000..=999_999 => 6,
        1_000_000..=9_999_999 => 7,
        10_000_000..=99_999_999 => 8,
        100_000_000..=999_999_999 => 9,
        _ => 10,
    }
}

// The lowest digit of n.
fn digit(n: u32) -> u8
    ensures { result ≡ digit_zero + n % 10 }
{
    b'0' + (n % 10) as u8
}

// n at `at`, from its last digit to its first; answers the place behind it.
pub fn put_number(buffer: &mut [u8], at: usize, n: u32) -> usize
    requires { at + length (decimal n) ≤ length buffer.old }
    ensures { (buffer.new ≡ put buffer.old at (decimal n)) × (result ≡ at + length (decimal n)) }
{
    let end = at + digits_of(n);
    let mut left = n;
    for i in (at..end).rev() {
        buffer[i] = digit(left);
        left /= 10;
    }
    end
}

// ---- a line

// n and the comma behind it.
fn put_field(buffer: &mut [u8], at: usize, n: u32) -> usize
    requires { at + length (decimal n) + 1 ≤ length buffer.old }
    ensures { (buffer.new ≡ put buffer.old at (decimal n ++ (comma ∷ []))) × (result ≡ at + length (decimal n) + 1) }
{
    let behind = put_number(buffer, at, n);
    buffer[behind] = b',';
    behind + 1
}

// The end of a line.
fn put_end(buffer: &mut [u8], at: usize) -> usize
    requires { at + 2 ≤ length buffer.old }
    ensures { (buffer.new ≡ put buffer.old at (carriage_return ∷ line_feed ∷ [])) × (result ≡ at + 2) }
{
    buffer[at..at + 2].copy_from_slice(b"\r\n");
    at + 2
}

// A radio's line at `at`; answers the place behind it.
pub fn put_line(buffer: &mut [u8], at: usize, radio: u16, fix: Fix) -> usize
    requires { at + length (line_of (record { key = radio; val = fix_of fix })) ≤ length buffer.old }
    ensures { (buffer.new ≡ put buffer.old at (line_of (record { key = radio; val = fix_of fix })))
        × (result ≡ at + length (line_of (record { key = radio; val = fix_of fix }))) }
{
    let second = put_field(buffer, at, radio as u32);
    let third = put_field(buffer, second, fix.place.east as u32);
    let fourth = put_field(buffer, third, fix.place.north as u32);
    let end = put_number(buffer, fourth, fix.minute);
    put_end(buffer, end)
}

// How many bytes a radio's line takes: its digits, and what stands between and behind them.
fn line_length(radio: u16, fix: Fix) -> usize
    ensures { result ≡ length (line_of (record { key = radio; val = fix_of fix })) }
{
    digits_of(radio as u32)
        + digits_of(fix.place.east as u32)
        + digits_of(fix.place.north as u32)
        + digits_of(fix.minute)
        + LINE_MARKS
}

// ---- the header

// "the header radio,east,north,minute" at the buffer's start; answers the place behind it.
pub fn put_header(buffer: &mut [u8]) -> usize
    requires { length header_line ≤ length buffer.old }
    ensures { (buffer.new ≡ put buffer.old 0 header_line) × (result ≡ length header_line) }
{
    buffer[..HEADER_BYTES].copy_from_slice(b"radio,east,north,minute\r\n");
    HEADER_BYTES
}

// ---- the whole file, of the radios and what the latest report of each told

// How many bytes the file takes.
pub fn file_length(radios: &[u16], fixes: &[Fix]) -> usize
    requires { (length radios.now ≤ max_on) × (length radios.now ≤ length fixes.now) }
    ensures { result ≡ length (file_of (rows_in (length radios.now) radios.now fixes.now)) }
{
    let mut total = HEADER_BYTES;
    for (i, &radio) in radios.iter().enumerate() {
        total += line_length(radio, fixes[i]);
    }
    total
}

// The file at the buffer's start, and nothing behind it.
pub fn put_file(radios: &[u16], fixes: &[Fix], buffer: &mut [u8])
    requires { (length radios.now ≤ length fixes.now)
        × (length (file_of (rows_in (length radios.now) radios.now fixes.now)) ≤ length buffer.old) }
    ensures { buffer.new ≡ put buffer.old 0 (file_of (rows_in (length radios.now) radios.now fixes.now)) }
{
    let mut at = put_header(buffer);
    for (i, &radio) in radios.iter().enumerate() {
        at = put_line(buffer, at, radio, fixes[i]);
    }
}
