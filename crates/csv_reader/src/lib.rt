// A spreadsheet's file, read: its header, and its lines of four fields, which a reader over the file hands out one at a time.
#![tactic(auto)]

ghost use Rattle.std.specs.Prelude.{◌≡◌, ◌*◌, ◌+◌, ◌-◌, ◌≤◌, length, drop};
ghost use Rattle.csv_grammar.specs.Csv.{digit_zero, after_byte, after_bytes, after_line, after_name, after_header, plain_number, quoted_number, number, line};
ghost use Rattle.csv_reader.specs.Reading.{Ends, after_quoted, after_column, above, held, held_option, DigitsRead, Valued, HandsOut, place_behind, inner_value, last_value, line_from, Tells};

// The ends of the fields' ranges, and the least number above them all.
const MAX_RADIO: u64 = 4_095;

const MAX_METRE: u64 = 65_535;

const MAX_MINUTE: u64 = 4_294_967_295;

const ABOVE: u64 = 4_294_967_296;

// ---- where what stands at a place ends: the place behind it, if it is there

fn byte_end(file: &[u8], at: usize, byte: u8) -> Option<usize>
    ensures { Ends file.now at (after_byte byte (drop at file.now)) result }
{
    if *file.get(at)? != byte {
        return None;
    }
    Some(at + 1)
}

fn bytes_end(file: &[u8], at: usize, bytes: &[u8]) -> Option<usize>
    requires { at ≤ length file.now }
    ensures { Ends file.now at (after_bytes bytes.now (drop at file.now)) result }
{
    if !file[at..].starts_with(bytes) {
        return None;
    }
    Some(at + bytes.len())
}

// A line's end. The file's end is one too.
fn line_end(file: &[u8], at: usize) -> Option<usize>
    requires { at ≤ length file.now }
    ensures { Ends file.now at (after_line (drop at file.now)) result }
{
    if at == file.len() {
        return Some(at);
    }
    bytes_end(file, at, b"\r\n")
}

// ---- the header

fn quoted_end(file: &[u8], at: usize, name: &[u8]) -> Option<usize>
    ensures { Ends file.now at (after_quoted name.now (drop at file.now)) result }
{
    let inner = byte_end(file, at, b'"')?;
    let behind = bytes_end(file, inner, name)?;
    byte_end(file, behind, b'"')
}

// A name, in quotes or not.
fn name_end(file: &[u8], at: usize, name: &[u8]) -> Option<usize>
    requires { at ≤ length file.now }
    ensures { Ends file.now at (after_name name.now (drop at file.now)) result }
{
    bytes_end(file, at, name).or_else(|| quoted_end(file, at, name))
}

// A name and the comma behind it.
fn column_end(file: &[u8], at: usize, name: &[u8]) -> Option<usize>
    requires { at ≤ length file.now }
    ensures { Ends file.now at (after_column name.now (drop at file.now)) result }
{
    let behind = name_end(file, at, name)?;
    byte_end(file, behind, b',')
}

// The place behind the header.
pub fn header_end(file: &[u8]) -> Option<usize>
    ensures { Ends file.now 0 (after_header file.now) result }
{
    let east = column_end(file, 0, b"radio")?;
    let north = column_end(file, east, b"east")?;
    let minute = column_end(file, north, b"north")?;
    let end = name_end(file, minute, b"minute")?;
    line_end(file, end)
}

// ---- numbers

// A number, and the place behind it.
#[derive(Clone, Copy, Debug, PartialEq, Eq)]
pub struct Value {
    pub number: u64,
    pub next: usize,
}

// The number with one digit more. One above every field's range is held as the least such, so any number of digits can be read.
fn with_digit(v: u64, digit: u8) -> u64
    requires { (v ≤ above) × (digit_zero ≤ digit) }
    ensures { result ≡ held (v * 10 + (digit - digit_zero)) }
{
    (v * 10 + u64::from(digit - b'0')).min(ABOVE)
}

// The digits from a place on, of which there may be none.
fn digits_at(file: &[u8], from: usize) -> Value
    requires { from ≤ length file.now }
    ensures { DigitsRead file.now from result }
{
    let mut number: u64 = 0;
    for (i, &b) in file[from..].iter().enumerate() {
        if !b.is_ascii_digit() {
            return Value {
                number,
                next: from + i,
            };
        }
        number = with_digit(number, b);
    }
    Value {
        number,
        next: file.len(),
    }
}

fn plain_number(file: &[u8], at: usize) -> Option<Value>
    ensures { Valued file.now at (held_option (plain_number (drop at file.now))) result }
{
    if !file.get(at)?.is_ascii_digit() {
        return None;
    }
    Some(digits_at(file, at))
}

fn quoted_number(file: &[u8], at: usize) -> Option<Value>
    ensures { Valued file.now at (held_option (quoted_number (drop at file.now))) result }
{
    let inner = byte_end(file, at, b'"')?;
    let value = plain_number(file, inner)?;
    let next = byte_end(file, value.next, b'"')?;
    Some(Value {
        number: value.number,
        next,
    })
}

// A number, in quotes or not.
fn number_at(file: &[u8], at: usize) -> Option<Value>
    ensures { Valued file.now at (held_option (number (drop at file.now))) result }
{
    plain_number(file, at).or_else(|| quoted_number(file, at))
}

// ---- fields

// A field: its number, and the place behind the comma or the line's end that stands behind it.
#[derive(Clone, Copy, Debug, PartialEq, Eq)]
pub enum Field {
    Inner(Value),
    Last(Value),
}

fn field_at(file: &[u8], at: usize) -> Option<Field>
    ensures { HandsOut file.now at result }
{
    let Value { number, next: end } = number_at(file, at)?;
    let field = match byte_end(file, end, b',') {
        Some(next) => Field::Inner(Value { number, next }),
        None => Field::Last(Value {
            number,
            next: line_end(file, end)?,
        }),
    };
    Some(field)
}

// The place behind a field that was found at a place, which is that place where none was.
fn place_behind(f: Option<Field>, at: usize) -> usize
    ensures { result ≡ place_behind f at }
{
    match f {
        Some(Field::Inner(value)) => value.next,
        Some(Field::Last(value)) => value.next,
        None => at,
    }
}

// A reader over the file: the slice that it is lent, and the place that it stands at.
#[derive(Clone, Copy)]
pub struct Reader<'a> {
    pub file: &'a [u8],
    pub at: usize,
}

impl<'a> Reader<'a> {
    pub fn new(file: &'a [u8], at: usize) -> Reader<'a>
        ensures { (result.file ≡ file.entry) × (result.at ≡ at) }
    {
        Reader { file, at }
    }

    // The field that the reader stands at.
    pub fn next(self) -> Option<Field>
        ensures { HandsOut self.entry.file.now self.entry.at result }
    {
        field_at(self.file, self.at)
    }

    // The reader, moved on behind that field.
    pub fn behind(self, f: Option<Field>) -> Reader<'a>
        ensures { (result.file ≡ self.entry.file) × (result.at ≡ place_behind f self.entry.at) }
    {
        let at = place_behind(f, self.at);
        Reader {
            file: self.file,
            at,
        }
    }
}

// ---- lines

// What a line of four fields in range tells, and the place of the next line.
#[derive(Clone, Copy, Debug, PartialEq, Eq)]
pub struct Line {
    pub radio: u16,
    pub east: u16,
    pub north: u16,
    pub minute: u32,
    pub next: usize,
}

// A field in range that has a comma behind it.
fn inner_value(f: Option<Field>, least: u64, most: u64) -> Option<Value>
    ensures { result ≡ inner_value least most f }
{
    match f? {
        Field::Inner(value) if least <= value.number && value.number <= most => Some(value),
        _ => None,
    }
}

// A field in range that has the line's end behind it.
fn last_value(f: Option<Field>, most: u64) -> Option<Value>
    ensures { result ≡ last_value most f }
{
    match f? {
        Field::Last(value) if value.number <= most => Some(value),
        _ => None,
    }
}

// The line that four fields make.
fn line_of(
    first: Option<Field>,
    second: Option<Field>,
    third: Option<Field>,
    fourth: Option<Field>,
) -> Option<Line>
    ensures { result ≡ line_from first second third fourth }
{
    let radio = inner_value(first, 1, MAX_RADIO)?;
    let east = inner_value(second, 0, MAX_METRE)?;
    let north = inner_value(third, 0, MAX_METRE)?;
    let minute = last_value(fourth, MAX_MINUTE)?;
    Some(Line {
        radio: radio.number as u16,
        east: east.number as u16,
        north: north.number as u16,
        minute: minute.number as u32,
        next: minute.next,
    })
}

// The line at a place: a reader hands out its fields one after the other.
pub fn line_at(file: &[u8], at: usize) -> Option<Line>
    ensures { Tells file.now at (line (drop at file.now)) result }
{
    let first = Reader::new(file, at);
    let radio = first.next();
    let second = first.behind(radio);
    let east = second.next();
    let third = second.behind(east);
    let north = third.next();
    let fourth = third.behind(north);
    let minute = fourth.next();
    line_of(radio, east, north, minute)
}
