// Big-endian fields of a slice, read. A byte behind the end reads as 0; the accessors named `inside` are for a slice that has the bytes, and look at no end.
#![tactic(auto)]

ghost use Rattle.std.specs.Prelude.{◌≡◌, ◌+◌, ◌-◌, ◌≤◌, ◌<◌, leb, length, get_or, take, drop};
ghost use Rattle.fields.specs.Field.{field};
ghost use Rattle.fields.specs.Part.{PartOf};

// The byte at an index. No `get`: the C library's code for 32 bits cannot hand out an `Option` of a reference.
pub fn byte(s: &[u8], at: usize) -> u8
    ensures { result ≡ get_or s.now at 0 }
{
    if at < s.len() {
        return s[at];
    }
    0
}

// ---- of a slice that has the bytes

// Asks: an index that the slice has; whoever reads has looked at its length.
pub fn inside(s: &[u8], at: usize) -> u8
    requires { at < length s.now }
    ensures { result ≡ get_or s.now at 0 }
{
    s[at]
}

// Asks: a slice that has the two bytes; whoever reads has looked at its length.
#[tactic(auto, unfolding(crate::specs::Field::field))]
pub fn inside2(s: &[u8], at: usize) -> u16
    requires { at + 2 ≤ length s.now }
    ensures { result ≡ field 2 s.now at }
{
    u16::from_be_bytes([s[at], s[at + 1]])
}

// Asks: a slice that has the four bytes; whoever reads has looked at its length.
#[tactic(auto, unfolding(crate::specs::Field::field))]
pub fn inside4(s: &[u8], at: usize) -> u32
    requires { at + 4 ≤ length s.now }
    ensures { result ≡ field 4 s.now at }
{
    u32::from_be_bytes([s[at], s[at + 1], s[at + 2], s[at + 3]])
}

// ---- of any slice

// Whether the slice has two bytes at an index. The index is looked at last, so that a search, which reads in a loop, looks at the length once.
fn has2(s: &[u8], at: usize) -> bool
    ensures { result ≡ leb (at + 2) (length s.now) }
{
    if s.len() < 2 {
        return false;
    }
    at <= s.len() - 2
}

// The two bytes at an index.
#[tactic(auto, unfolding(crate::specs::Field::field))]
pub fn get2(s: &[u8], at: usize) -> u16
    ensures { result ≡ field 2 s.now at }
{
    if has2(s, at) {
        return inside2(s, at);
    }
    // the last byte lies behind the end, and so in the wider fields
    byte(s, at) as u16 * 256
}

// The three bytes at an index.
#[tactic(auto, unfolding(crate::specs::Field::field))]
pub fn get3(s: &[u8], at: usize) -> u32
    ensures { result ≡ field 3 s.now at }
{
    if 3 <= s.len().saturating_sub(at) {
        return u32::from_be_bytes([0, s[at], s[at + 1], s[at + 2]]);
    }
    get2(s, at) as u32 * 256
}

// The four bytes at an index.
#[tactic(auto, unfolding(crate::specs::Field::field))]
pub fn get4(s: &[u8], at: usize) -> u32
    ensures { result ≡ field 4 s.now at }
{
    if 4 <= s.len().saturating_sub(at) {
        return inside4(s, at);
    }
    get3(s, at) * 256
}

// The part of count bytes from an index on, as far as the slice has them; the empty part at its end where it has none.
pub fn part(s: &[u8], at: usize, count: usize) -> &[u8]
    ensures { PartOf s.entry at (take count (drop at s.now)) result }
{
    if s.len() <= at {
        let end = s.len();
        return &s[end..end];
    }
    if s.len() - at <= count {
        return &s[at..];
    }
    let end = at + count;
    &s[at..end]
}
