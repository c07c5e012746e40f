// A field: sixteen bits in a slice of bytes, the lower byte first. A wide field: thirty-two bits, as two fields, the lower one first.
#![tactic(auto)]

ghost use Rattle.std.specs.Prelude.{◌≡◌, ◌+◌, ◌*◌, ◌≤◌, length};
ghost use Rattle.lists.specs.Parts.{put};
ghost use Rattle.lists.specs.Words.{le, word, wide, low_half, high_half};
ghost use Rattle.terms.specs.Terms.{field_bytes, minute_bytes};

// The field at `at`.
pub fn read(s: &[u8], at: usize) -> u16
    requires { at + field_bytes ≤ length s.now }
    ensures { result ≡ word field_bytes s.now at }
{
    u16::from_le_bytes([s[at], s[at + 1]])
}

// The field at `at` is v, and every other byte is kept.
pub fn write(s: &mut [u8], at: usize, v: u16)
    requires { at + field_bytes ≤ length s.old }
    ensures { s.new ≡ put s.old at (le field_bytes v) }
{
    s[at..at + 2].copy_from_slice(&v.to_le_bytes());
}

// ---- thirty-two bits, as arrays of numbers and pages hold a minute

pub fn wide_of(low: u16, high: u16) -> u32
    ensures { result ≡ wide low high }
{
    u32::from(low) + 65536 * u32::from(high)
}

pub fn low_half(v: u32) -> u16
    ensures { result ≡ low_half v }
{
    (v % 65536) as u16
}

pub fn high_half(v: u32) -> u16
    ensures { result ≡ high_half v }
{
    (v / 65536) as u16
}

// The wide field at `at`.
pub fn read_wide(s: &[u8], at: usize) -> u32
    requires { at + minute_bytes ≤ length s.now }
    ensures { result ≡ word minute_bytes s.now at }
{
    u32::from_le_bytes([s[at], s[at + 1], s[at + 2], s[at + 3]])
}

// The wide field at `at` is v, and every other byte is kept.
pub fn write_wide(s: &mut [u8], at: usize, v: u32)
    requires { at + minute_bytes ≤ length s.old }
    ensures { s.new ≡ put s.old at (le minute_bytes v) }
{
    s[at..at + 4].copy_from_slice(&v.to_le_bytes());
}
