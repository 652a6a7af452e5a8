// The listing of a response, as text in lent memory.
#![tactic(auto)]

ghost use Rattle.std.specs.Prelude.{◌≡◌, [], ◌∷◌, ◌<◌};
ghost use Rattle.base.specs.Lists.{flat};
ghost use Rattle.lent.specs.Wrote.{Wrote};
ghost use Rattle.text.specs.Response.{return_limit};
ghost use Rattle.text.specs.Reading.{number_at, flags_at, length_at, reading};
ghost use Rattle.reading.specs.Places.{descs};
ghost use Rattle.listing.specs.Digits.{hex4, decimal};
ghost use Rattle.listing.specs.Digits.{digit as Digits·digit};
ghost use Rattle.listing.specs.Listing.{marks, first_line, line_of, desc_line, ending_line, refused_line, listing};
ghost use Rattle.listing.specs.Listing.{mark as Listing·mark};

use refusal::Refusal;
use text::{Feature, Flags, Header, Profile};

// No listing is longer: a first line of 17 bytes, 16,381 lines of 15, and `cut`.
pub const LONGEST: usize = 245736;

// ---- numbers

// Asks: a digit below 16; each is a remainder.
fn digit(d: u8) -> u8
    requires { d < 16 }
    ensures { result ≡ Digits·digit d }
{
    if d < 10 {
        return b'0' + d;
    }
    b'A' - 10 + d
}

// Asks: a digit below 16; each is a remainder.
fn put_digit(out: &mut [u8], at: usize, d: u8) -> usize
    requires { d < 16 }
    ensures { Wrote out.old at (Digits·digit d ∷ []) result out.new }
{
    lent::put(out, at, digit(d))
}

fn put_hex4(out: &mut [u8], at: usize, n: u16) -> usize
    ensures { Wrote out.old at (hex4 n) result out.new }
{
    let a = put_digit(out, at, (n / 4096 % 16) as u8);
    let b = put_digit(out, a, (n / 256 % 16) as u8);
    let c = put_digit(out, b, (n / 16 % 16) as u8);
    put_digit(out, c, (n % 16) as u8)
}

fn put_decimal(out: &mut [u8], at: usize, n: usize) -> usize
    ensures { Wrote out.old at (decimal n) result out.new }
{
    if n < 10 {
        return put_digit(out, at, n as u8);
    }
    let a = put_decimal(out, at, n / 10);
    put_digit(out, a, (n % 10) as u8)
}

// ---- lines

// The letter where a flag is set, else `-`.
fn mark(letter: u8, set: bool) -> u8
    ensures { result ≡ Listing·mark letter set }
{
    if set {
        return letter;
    }
    b'-'
}

fn put_marks(out: &mut [u8], at: usize, flags: Flags) -> usize
    ensures { Wrote out.old at (marks flags.0) result out.new }
{
    let a = lent::put(out, at, mark(b'P', flags.persistent()));
    lent::put(out, a, mark(b'C', flags.current()))
}

fn put_first(out: &mut [u8], profile: Profile, received: usize, count: u32) -> usize
    ensures { Wrote out.old 0 (first_line profile.0 received count) result out.new }
{
    let a = put_hex4(out, 0, profile.0);
    let b = lent::put(out, a, b' ');
    let c = put_decimal(out, b, received);
    let d = lent::put(out, c, b' ');
    let e = put_decimal(out, d, count as usize);
    lent::put(out, e, b'\n')
}

fn put_line(out: &mut [u8], at: usize, feature: Feature, flags: Flags, len: u8) -> usize
    ensures { Wrote out.old at (line_of feature.0 flags.0 len) result out.new }
{
    let a = put_hex4(out, at, feature.0);
    let b = lent::put(out, a, b' ');
    let c = put_marks(out, b, flags);
    let d = lent::put(out, c, b' ');
    let e = put_decimal(out, d, flags.version() as usize);
    let f = lent::put(out, e, b' ');
    let g = put_decimal(out, f, len as usize);
    lent::put(out, g, b'\n')
}

// The line of the descriptor at a place.
fn put_line_at(out: &mut [u8], at: usize, s: &[u8], place: usize) -> usize
    ensures { Wrote out.old at (line_of (number_at s.now place) (flags_at s.now place) (length_at s.now place)) result out.new }
{
    let feature = reading::number_at(s, place);
    let flags = reading::flags_at(s, place);
    let len = reading::length_at(s, place);
    put_line(out, at, feature, flags, len)
}

// The lines of the whole descriptors, which stand from behind the header to the end of the reading.
// Asks: the end that the reading of this response gave.
fn put_lines(out: &mut [u8], at: usize, s: &[u8], end: usize) -> usize
    requires { end ≡ (reading return_limit 0 0 s.now).end }
    ensures { Wrote out.old at (flat desc_line (descs s.now)) result out.new }
{
    let mut next = at;
    let mut place = Header::LENGTH;
    while place < end {
        next = put_line_at(out, next, s, place);
        place = reading::next_at(s, place);
    }
    next
}

fn put_last(out: &mut [u8], at: usize, complete: bool) -> usize
    ensures { Wrote out.old at (ending_line complete) result out.new }
{
    if complete {
        return at;
    }
    lent::copy(out, at, b"cut\n")
}

fn put_refused(out: &mut [u8], refusal: Refusal) -> usize
    ensures { Wrote out.old 0 (refused_line refusal.number) result out.new }
{
    let a = lent::copy(out, 0, b"refused ");
    let b = put_decimal(out, a, refusal.number as usize);
    lent::put(out, b, b'\n')
}

// ---- the listing

// The listing of the bytes received, read as a response to RT 0 from 0.
pub fn list(s: &[u8], out: &mut [u8]) -> usize
    ensures { Wrote out.old 0 (listing s.now) result out.new }
{
    let reading = reading::read(0, Feature(0), s);
    let refusal = reading.refusal;
    if refusal.number != 0 {
        return put_refused(out, refusal);
    }
    let a = put_first(out, reading.profile, s.len(), reading.count);
    let b = put_lines(out, a, s, reading.end);
    put_last(out, b, reading.complete)
}
