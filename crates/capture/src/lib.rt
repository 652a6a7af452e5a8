// A captured response to RT 0 from 0: whether a drive sheet can describe its drive and give it back, and how many features that drive has.
#![tactic(auto)]

ghost use Rattle.std.specs.Prelude.{◌≡◌, ◌≤◌, ◌<◌, length};
ghost use Rattle.text.specs.Response.{header_length, return_limit};
ghost use Rattle.reading.specs.inner.Between.{from};
ghost use Rattle.reading.specs.Places.{descs};
ghost use Rattle.reading.specs.Completed.{completed};
ghost use Rattle.reading.specs.Judged.{odd_in};
ghost use Rattle.capture.specs.Capture.{own_rule, flags_faults, sheet_rule, capture_fault, capture_of};

use refusal::Refusal;
use text::{Header, Profile, Reading};

// What the check answers: all 0 but the refusal where there is one. The features are those behind feature 0.
#[derive(Clone, Copy)]
pub struct Capture {
    pub refusal: Refusal,
    pub features: u16,
}

// ---- what is refused of a complete response, whose descriptors stand behind the header

// 41: not what a box of ours sends.
fn own_fault(s: &[u8]) -> Refusal
    ensures { result ≡ own_rule s.now (from s.now header_length) }
{
    if s.len() <= Header::LENGTH {
        return refusal::NOT_OWN;
    }
    let first = reading::number_at(s, Header::LENGTH);
    if first.0 != 0 {
        return refusal::NOT_OWN;
    }
    if reading::flags_at(s, Header::LENGTH).0 != 3 {
        return refusal::NOT_OWN;
    }
    if fields::get2(s, 4) != 0 {
        return refusal::NOT_OWN;
    }
    let current = profiles::current(reading::body_at(s, Header::LENGTH));
    let stated = Profile(fields::get2(s, 6));
    if stated.0 != current.0 {
        return refusal::NOT_OWN;
    }
    refusal::ACCEPTED
}

// 5 and 44 at each descriptor from a byte on, the first of which is entry 1 of the contents.
// Asks: a response of at most 65,534 bytes, which 14 has shown before, so that a place is a sixteen-bit number.
fn flags_fault(s: &[u8], first: usize) -> Refusal
    requires { length s.now ≤ return_limit }
    ensures { result ≡ flags_faults 1 (from s.now first) }
{
    let mut at = first;
    let mut place: u16 = 1;
    while at < s.len() {
        let flags = reading::flags_at(s, at);
        let rule = sheet::flags_rule(flags);
        let fault = rule.placed(place);
        if fault.number != 0 {
            return fault;
        }
        at = reading::next_at(s, at);
        place += 1;
    }
    refusal::ACCEPTED
}

// 3 at each profile, then 5 and 44. The flags are walked over only where some are odd.
// Asks: a response with a descriptor, which 41 has shown before, and of at most 65,534 bytes, which 14 has, and how many have odd flags.
fn sheet_fault(s: &[u8], odd: u32) -> Refusal
    requires { (header_length < length s.now) × (length s.now ≤ return_limit) × (odd ≡ odd_in (from s.now header_length)) }
    ensures { result ≡ sheet_rule (from s.now header_length) }
{
    let fault = profiles::fault(reading::body_at(s, Header::LENGTH));
    if fault.number != 0 {
        return fault;
    }
    if odd == 0 {
        return refusal::ACCEPTED;
    }
    flags_fault(s, reading::next_at(s, Header::LENGTH))
}

// The first refusal of a response that was read.
// Asks: the reading of this response, and how many descriptors have odd flags.
fn capture_fault(read: Reading, odd: u32, s: &[u8]) -> Refusal
    requires { (read ≡ completed s.now) × (odd ≡ odd_in (descs s.now)) }
    ensures { result ≡ capture_fault s.now }
{
    let refused = read.refusal;
    if refused.number != 0 {
        return refused;
    }
    let own = own_fault(s);
    if own.number != 0 {
        return own;
    }
    sheet_fault(s, odd)
}

// The check of a captured response to RT 0 from 0.
pub fn check(s: &[u8]) -> Capture
    ensures { result ≡ capture_of s.now }
{
    let judged = reading::judge(s);
    let read = judged.reading;
    let fault = capture_fault(read, judged.odd, s);
    if fault.number != 0 {
        return Capture {
            refusal: fault,
            features: 0,
        };
    }
    Capture {
        refusal: refusal::ACCEPTED,
        features: (read.count - 1) as u16,
    }
}
