// The driver reads a response.
#![tactic(auto)]

ghost use Rattle.std.specs.Prelude.{◌≡◌, not, ◌&&◌, ◌+◌, ◌≤◌, ltb, leb, eqb, length, drop};
ghost use Rattle.fields.specs.Part.{PartOf};
ghost use Rattle.refusal.specs.First.{◌if◌else◌};
ghost use Rattle.text.specs.Flags.{current};
ghost use Rattle.text.specs.Response.{header_length, return_limit};
ghost use Rattle.text.specs.Reading.{header_rule, head_rule, number_at, flags_at, length_at, desc_at, walk, reading};
ghost use Rattle.reading.specs.Places.{descs, reported, next_at};
ghost use Rattle.reading.specs.Scan.{scanned};
ghost use Rattle.reading.specs.Stop.{standing, stopped};
ghost use Rattle.reading.specs.Judged.{odd_flags, judged};
ghost use Rattle.reading.specs.inner.Tally.{refusal, head_at, tally, walk_judged, scan_judged};
ghost use Rattle.reading.specs.inner.Spot.{spot_from, spot_in};
ghost use Rattle.reading.specs.Completed.{complete_fault, completed};
ghost use Rattle.reading.specs.Held.{place_in, HeldIn, HeldOf};

use refusal::Refusal;
use text::{Feature, Flags, Header, Profile, Reading};

// A reading, and the number of its last whole descriptor.
#[derive(Clone, Copy)]
pub struct Scanned {
    pub reading: Reading,
    pub last: Feature,
}

// Where a reading stops: the place of the first descriptor that is at fault or not whole, and the feature that stands there.
#[derive(Clone, Copy)]
pub struct Stop {
    pub at: usize,
    pub feature: Feature,
}

// The reading of a response to RT 0 from 0 that has to be complete, and how many of its whole descriptors have odd flags.
#[derive(Clone, Copy)]
pub struct Judged {
    pub reading: Reading,
    pub odd: u32,
}

// The header bytes of a descriptor, judged: a refusal, or its number and Additional Length.
#[derive(Clone, Copy)]
enum Head {
    Refused(Refusal),
    Stands { number: Feature, len: u8 },
}

// The walk over the descriptors: a refusal and the place of the descriptor, or how many are whole, the place behind the last and its number.
#[derive(Clone, Copy)]
enum Walk {
    Refused {
        fault: Refusal,
        at: usize,
    },
    Whole {
        count: u32,
        end: usize,
        last: Feature,
    },
}

// A walk, and how many of the whole descriptors have such flags.
#[derive(Clone, Copy)]
struct WalkJudged {
    walk: Walk,
    odd: u32,
}

// A scan, and the same.
#[derive(Clone, Copy)]
struct ScanJudged {
    scan: Scanned,
    odd: u32,
}

// Where the descriptor of a feature stands, or would stand, and how many bytes it has: 0 where the response does not have it whole.
#[derive(Clone, Copy)]
struct Spot {
    place: usize,
    size: usize,
}

// That of a response that is refused.
const NO_SPOT: Spot = Spot {
    place: Header::LENGTH,
    size: 0,
};

// ---- the header bytes of a descriptor at a place that has them, with no look at the end of s

// Asks: a place that has four bytes; whoever walks over the descriptors has looked.
pub fn number_in(s: &[u8], at: usize) -> Feature
    requires { at + 4 ≤ length s.now }
    ensures { result.0 ≡ number_at s.now at }
{
    Feature(fields::inside2(s, at))
}

// Asks: the same.
pub fn flags_in(s: &[u8], at: usize) -> Flags
    requires { at + 4 ≤ length s.now }
    ensures { result.0 ≡ flags_at s.now at }
{
    Flags(fields::inside(s, at + 2))
}

// Additional Length.
// Asks: the same.
pub fn length_in(s: &[u8], at: usize) -> u8
    requires { at + 4 ≤ length s.now }
    ensures { result ≡ length_at s.now at }
{
    fields::inside(s, at + 3)
}

// ---- a descriptor at a place; behind the end of s there is an empty one whose fields are 0

// Whether the four header bytes at a place were received. Each accessor looks first, so that where several read one descriptor one look serves them all.
fn headed(s: &[u8], at: usize) -> bool
    ensures { result ≡ leb (at + 4) (length s.now) }
{
    if s.len() < 4 {
        return false;
    }
    if s.len() - 4 < at {
        return false;
    }
    true
}

pub fn number_at(s: &[u8], at: usize) -> Feature
    ensures { result.0 ≡ number_at s.now at }
{
    if headed(s, at) {
        return number_in(s, at);
    }
    Feature(fields::get2(s, at))
}

pub fn flags_at(s: &[u8], at: usize) -> Flags
    ensures { result.0 ≡ flags_at s.now at }
{
    if headed(s, at) {
        return flags_in(s, at);
    }
    if s.len() <= at {
        return Flags(0);
    }
    Flags(fields::byte(s, at + 2))
}

// Additional Length.
pub fn length_at(s: &[u8], at: usize) -> u8
    ensures { result ≡ length_at s.now at }
{
    if headed(s, at) {
        return length_in(s, at);
    }
    if s.len() <= at {
        return 0;
    }
    fields::byte(s, at + 3)
}

// The place behind the descriptor, which is the place of the next one.
pub fn next_at(s: &[u8], at: usize) -> usize
    ensures { result ≡ next_at s.now at }
{
    if s.len() <= at {
        return at;
    }
    at + 4 + length_at(s, at) as usize
}

// The body, as far as it was received.
pub fn body_at(s: &[u8], at: usize) -> &[u8]
    ensures { PartOf s.entry (at + 4) (desc_at s.now at).body result }
{
    if s.len() <= at {
        return fields::part(s, at, 0);
    }
    fields::part(s, at + 4, length_at(s, at) as usize)
}

// ---- the rules, on numbers

fn header_rule(limit: usize, rt: u8, received: usize, stated: u32) -> Refusal
    ensures { result ≡ header_rule limit rt received stated }
{
    if rt > 2 {
        return refusal::READING_RT_BAD;
    }
    if received < Header::LENGTH {
        return refusal::RECEIVED_BAD;
    }
    if received > Header::RETURN_LIMIT {
        return refusal::RECEIVED_BAD;
    }
    if stated < 4 {
        return refusal::STATED_BAD;
    }
    if stated % 4 != 0 {
        return refusal::STATED_BAD;
    }
    if stated as usize + 4 < received {
        return refusal::RECEIVED_MORE;
    }
    if limit < received {
        return refusal::RECEIVED_MORE;
    }
    refusal::ACCEPTED
}

// RT 2: not the feature that was asked for.
fn other_feature(rt: u8, sfn: Feature, number: Feature) -> bool
    ensures { result ≡ (eqb rt 2 && not (eqb number.0 sfn.0)) }
{
    if rt != 2 {
        return false;
    }
    number.0 != sfn.0
}

// RT 1: a feature that is not current.
fn not_current(rt: u8, flags: Flags) -> bool
    ensures { result ≡ (eqb rt 1 && not (eqb (current flags.0) 1)) }
{
    if rt != 1 {
        return false;
    }
    !flags.current()
}

// The lowest number that may stand, lo, is a bound and not a feature number: behind FFFFh it is 65,536.
// Asks: a place inside the longest response, which 14 has shown before.
fn head_rule(
    rt: u8,
    sfn: Feature,
    end: usize,
    lo: u32,
    at: usize,
    number: Feature,
    flags: Flags,
    len: u8,
) -> Refusal
    requires { at ≤ return_limit }
    ensures { result ≡ head_rule rt sfn.0 end lo at number.0 flags.0 len }
{
    if len % 4 != 0 {
        return refusal::ADDITIONAL_BAD;
    }
    if (number.0 as u32) < lo {
        return refusal::FEATURE_BAD;
    }
    if other_feature(rt, sfn, number) {
        return refusal::FEATURE_BAD;
    }
    if not_current(rt, flags) {
        return refusal::NOT_CURRENT;
    }
    if end < at + 4 + len as usize {
        return refusal::ENDS_BEYOND;
    }
    refusal::ACCEPTED
}

// ---- the walk

// The header bytes at a place, judged. The walk waits for Additional Length alone, and reads it from the bytes from the fourth on, at the place itself.
// Asks: the response from its fourth byte on, and a place that has four bytes in a response no longer than 14 lets through; the walk has looked.
fn head_at(rt: u8, sfn: Feature, end: usize, s: &[u8], lengths: &[u8], lo: u32, at: usize) -> Head
    requires { (lengths.now ≡ drop 3 s.now) × (at + 4 ≤ length s.now) × (length s.now ≤ return_limit) }
    ensures { result ≡ head_at rt sfn.0 end s.now lo at }
{
    let number = Feature(fields::inside2(s, at));
    let flags = Flags(fields::inside(s, at + 2));
    let len = fields::inside(lengths, at);
    let fault = head_rule(rt, sfn, end, lo, at, number, flags, len);
    if fault.number != 0 {
        return Head::Refused(fault);
    }
    Head::Stands { number, len }
}

// The walk over the descriptors of a response that ends at end, from sfn on.
// Asks: as many bytes as 14 lets through, which has been shown before.
fn walk_over(rt: u8, sfn: Feature, end: usize, s: &[u8]) -> Walk
    requires { (header_length ≤ length s.now) × (length s.now ≤ return_limit) }
    ensures { result ≡ tally 0 header_length 0 (walk (length s.now) rt sfn.0 end s.now sfn.0 header_length) }
{
    let lengths = &s[3..];
    let mut at = Header::LENGTH;
    let mut lo = sfn.0 as u32;
    let mut count: u32 = 0;
    let mut last = Feature(0);
    while at + 4 <= s.len() {
        match head_at(rt, sfn, end, s, lengths, lo, at) {
            Head::Refused(fault) => {
                return Walk::Refused { fault, at };
            }
            Head::Stands { number, len } => {
                let next = at + 4 + len as usize;
                if s.len() < next {
                    return Walk::Whole {
                        count,
                        end: at,
                        last,
                    };
                }
                at = next;
                lo = number.0 as u32 + 1;
                count += 1;
                last = number;
            }
        }
    }
    Walk::Whole {
        count,
        end: at,
        last,
    }
}

// ---- the reading

// A refusal, all else 0.
fn refusing(fault: Refusal) -> Scanned
    ensures { result ≡ refusal fault }
{
    Scanned {
        reading: Reading {
            refusal: fault,
            profile: Profile(0),
            data_length: 0,
            count: 0,
            end: 0,
            complete: false,
        },
        last: Feature(0),
    }
}

// The reading of a response to RT rt from sfn that may have at most limit bytes, and the number of its last whole descriptor.
pub fn scan(limit: usize, rt: u8, sfn: Feature, s: &[u8]) -> Scanned
    ensures { result ≡ scanned limit rt sfn.0 s.now }
{
    let stated = fields::get4(s, 0);
    let fault = header_rule(limit, rt, s.len(), stated);
    if fault.number != 0 {
        return refusing(fault);
    }
    let end = stated as usize + 4;
    match walk_over(rt, sfn, end, &s[..]) {
        Walk::Refused { fault, at } => refusing(fault),
        Walk::Whole {
            count,
            end: behind,
            last,
        } => Scanned {
            reading: Reading {
                refusal: refusal::ACCEPTED,
                profile: Profile(fields::get2(s, 6)),
                data_length: stated,
                count,
                end: behind,
                complete: s.len() == end,
            },
            last,
        },
    }
}

// The reading of a response to RT rt from sfn.
pub fn read(rt: u8, sfn: Feature, s: &[u8]) -> Reading
    ensures { result ≡ reading return_limit rt sfn.0 s.now }
{
    let scan = scan(Header::RETURN_LIMIT, rt, sfn, s);
    scan.reading
}

// The reading of a response to RT 0 from 0 that has to be complete: one that is cut is refused.
pub fn complete(s: &[u8]) -> Reading
    ensures { result ≡ completed s.now }
{
    let reading = read(0, Feature(0), s);
    let fault = reading.refusal;
    if fault.number != 0 {
        return reading;
    }
    if !reading.complete {
        let cut = refusing(refusal::RESPONSE_CUT);
        return cut.reading;
    }
    reading
}

// The walk over the descriptors of a response to RT 0 from 0 that ends at end: the number of its refusal, 0 if there is none.
// Asks: as many bytes as 14 lets through, which has been shown before.
fn walk_number(end: usize, s: &[u8]) -> u8
    requires { (header_length ≤ length s.now) × (length s.now ≤ return_limit) }
    ensures { result ≡ (walk (length s.now) 0 0 end s.now 0 header_length).fault.number }
{
    let lengths = &s[3..];
    let mut at = Header::LENGTH;
    let mut lo: u32 = 0;
    while at + 4 <= s.len() {
        match head_at(0, Feature(0), end, s, lengths, lo, at) {
            Head::Refused(fault) => {
                return fault.number;
            }
            Head::Stands { number, len } => {
                at = at + 4 + len as usize;
                let above = number.0 as u32 + 1;
                lo = above;
            }
        }
    }
    0
}

// The number that `complete` refuses a response by, 0 if it does not: for who needs no more of it, since it comes in a register.
pub fn complete_number(s: &[u8]) -> u8
    ensures { result ≡ (complete_fault s.now).number }
{
    let stated = fields::get4(s, 0);
    let fault = header_rule(Header::RETURN_LIMIT, 0, s.len(), stated);
    if fault.number != 0 {
        return fault.number;
    }
    let full = stated as usize + 4;
    let number = walk_number(full, &s[..]);
    if number != 0 {
        return number;
    }
    if s.len() != full {
        let cut = refusal::RESPONSE_CUT;
        return cut.number;
    }
    0
}

// ---- where it stops

// The walk has come to a place; a feature stands there if its four header bytes were received.
fn standing(s: &[u8], at: usize) -> Stop
    ensures { result ≡ standing s.now at }
{
    if headed(s, at) {
        return Stop {
            at,
            feature: number_at(s, at),
        };
    }
    Stop {
        at,
        feature: Feature(0),
    }
}

// Where the reading of a response to RT rt from sfn that may have at most limit bytes stops; 0 and 0 where its header is refused.
pub fn stops(limit: usize, rt: u8, sfn: Feature, s: &[u8]) -> Stop
    ensures { result ≡ stopped limit rt sfn.0 s.now }
{
    let stated = fields::get4(s, 0);
    let fault = header_rule(limit, rt, s.len(), stated);
    if fault.number != 0 {
        return Stop {
            at: 0,
            feature: Feature(0),
        };
    }
    match walk_over(rt, sfn, stated as usize + 4, s) {
        Walk::Refused { fault, at } => standing(s, at),
        Walk::Whole { count, end, last } => standing(s, end),
    }
}

// ---- a complete response, whose descriptors stand one behind the other from behind the header on

// Whether a feature is reported: they ascend, so the first that is not below it tells.
// Asks: a response that is accepted and complete, which the reading's numbers and 29 have shown before.
pub fn reports(f: Feature, s: &[u8]) -> bool
    requires { (complete_fault s.now).number ≡ 0 }
    ensures { result ≡ reported f.0 (descs s.now) }
{
    let mut at = Header::LENGTH;
    while at + 4 <= s.len() {
        let number = number_at(s, at);
        if f.0 <= number.0 {
            return number.0 == f.0;
        }
        at = next_at(s, at);
    }
    false
}

// ---- the flags, on the same walk

// 1 for odd flags, else 0.
fn odd(flags: Flags) -> u32
    ensures { (result ≡ odd_flags flags.0) × (result ≤ 1) }
{
    if flags.odd() {
        return 1;
    }
    0
}

// The walk over the descriptors of a response to RT 0 from 0 that ends at end.
// Asks: as many bytes as 14 lets through, which has been shown before.
fn walk_judging(end: usize, s: &[u8]) -> WalkJudged
    requires { (header_length ≤ length s.now) × (length s.now ≤ return_limit) }
    ensures { result ≡ walk_judged (walk (length s.now) 0 0 end s.now 0 header_length) }
{
    let lengths = &s[3..];
    let mut at = Header::LENGTH;
    let mut lo: u32 = 0;
    let mut count: u32 = 0;
    let mut last = Feature(0);
    let mut odds: u32 = 0;
    while at + 4 <= s.len() {
        let one = odd(Flags(fields::inside(s, at + 2)));
        match head_at(0, Feature(0), end, s, lengths, lo, at) {
            Head::Refused(fault) => {
                return WalkJudged {
                    walk: Walk::Refused { fault, at },
                    odd: odds,
                };
            }
            Head::Stands { number, len } => {
                let behind = at + 4 + len as usize;
                if s.len() < behind {
                    return WalkJudged {
                        walk: Walk::Whole {
                            count,
                            end: at,
                            last,
                        },
                        odd: odds,
                    };
                }
                at = behind;
                last = number;
                lo = last.0 as u32 + 1;
                count += 1;
                odds += one;
            }
        }
    }
    WalkJudged {
        walk: Walk::Whole {
            count,
            end: at,
            last,
        },
        odd: odds,
    }
}

// The scan of a response to RT 0 from 0.
fn scan_judging(s: &[u8]) -> ScanJudged
    ensures { result ≡ scan_judged s.now }
{
    let stated = fields::get4(s, 0);
    let fault = header_rule(Header::RETURN_LIMIT, 0, s.len(), stated);
    if fault.number != 0 {
        let refused = refusing(fault);
        return ScanJudged {
            scan: refused,
            odd: 0,
        };
    }
    let full = stated as usize + 4;
    let judged = walk_judging(full, s);
    let walk = judged.walk;
    match walk {
        Walk::Refused { fault, at } => {
            let refused = refusing(fault);
            ScanJudged {
                scan: refused,
                odd: 0,
            }
        }
        Walk::Whole { count, end, last } => ScanJudged {
            scan: Scanned {
                reading: Reading {
                    refusal: refusal::ACCEPTED,
                    profile: Profile(fields::get2(s, 6)),
                    data_length: stated,
                    count,
                    end,
                    complete: s.len() == full,
                },
                last,
            },
            odd: judged.odd,
        },
    }
}

// What `complete` gives, and how many of the whole descriptors have odd flags: a sheet's check of them need not walk again where none has.
pub fn judge(s: &[u8]) -> Judged
    ensures { result ≡ judged s.now }
{
    let judged = scan_judging(s);
    let scan = judged.scan;
    let reading = scan.reading;
    let fault = reading.refusal;
    if fault.number != 0 {
        return Judged {
            reading: reading,
            odd: judged.odd,
        };
    }
    let complete = reading.complete;
    if !complete {
        let fault = refusal::RESPONSE_CUT;
        let cut = refusing(fault);
        let refused = cut.reading;
        return Judged {
            reading: refused,
            odd: judged.odd,
        };
    }
    Judged {
        reading: reading,
        odd: judged.odd,
    }
}

// ---- fresh or kept

// Where a feature's descriptor stands, or would stand, with one more descriptor behind the place so far: behind that one, if it is of a lower feature.
fn place_behind(feature: Feature, number: Feature, place: usize, behind: usize) -> usize
    ensures { result ≡ (behind if ltb number.0 feature.0 else place) }
{
    if number.0 < feature.0 {
        return behind;
    }
    place
}

// How many bytes it has there: as many as that one, if it is the feature's.
fn size_with(feature: Feature, number: Feature, size: usize, own: usize) -> usize
    ensures { result ≡ (own if eqb number.0 feature.0 else size) }
{
    if number.0 == feature.0 {
        return own;
    }
    size
}

// The walk over the descriptors of a response to RT 0 from 0 that ends at end: where that of a feature stands.
// Asks: as many bytes as 14 lets through, which has been shown before.
fn walk_finding(feature: Feature, end: usize, s: &[u8]) -> Spot
    requires { (header_length ≤ length s.now) × (length s.now ≤ return_limit) }
    ensures { result ≡ spot_from feature.0 header_length 0 (walk (length s.now) 0 0 end s.now 0 header_length) }
{
    let lengths = &s[3..];
    let mut at = Header::LENGTH;
    let mut lo: u32 = 0;
    let mut place = Header::LENGTH;
    let mut size: usize = 0;
    while at + 4 <= s.len() {
        match head_at(0, Feature(0), end, s, lengths, lo, at) {
            Head::Refused(_) => {
                return NO_SPOT;
            }
            Head::Stands { number, len } => {
                let after = at + 4 + len as usize;
                if s.len() < after {
                    return Spot { place, size };
                }
                place = place_behind(feature, number, place, after);
                size = size_with(feature, number, size, 4 + len as usize);
                at = after;
                let above = number.0 as u32 + 1;
                lo = above;
            }
        }
    }
    Spot { place, size }
}

// Where the descriptor of a feature stands in a response to RT 0 from 0.
fn spot_of(feature: Feature, s: &[u8]) -> Spot
    ensures { result ≡ spot_in feature.0 s.now }
{
    let stated = fields::get4(s, 0);
    let fault = header_rule(Header::RETURN_LIMIT, 0, s.len(), stated);
    if fault.number != 0 {
        return NO_SPOT;
    }
    walk_finding(feature, stated as usize + 4, &s[..])
}

// Where a feature's descriptor stands in a response to RT 0 from 0: behind the whole descriptors of lower features, and so where it would stand if it is not there.
pub fn place_of(feature: Feature, s: &[u8]) -> usize
    ensures { result ≡ place_in feature.0 s.now }
{
    let spot = spot_of(feature, s);
    spot.place
}

// The descriptor of a feature as a part of a response to RT 0 from 0, empty where the response is refused or does not have it whole.
fn held_in(feature: Feature, s: &[u8]) -> &[u8]
    ensures { HeldIn feature.0 s.entry result }
{
    let spot = spot_of(feature, s);
    fields::part(s, spot.place, spot.size)
}

// The descriptor of a feature, its header bytes and body, as a part of the fresh response if whole there, else of the kept one, else empty. Both are
// responses to RT 0 from 0.
pub fn held<'a>(feature: Feature, fresh: &'a [u8], kept: &'a [u8]) -> &'a [u8]
    ensures { HeldOf feature.0 fresh.entry kept.entry result }
{
    let part = held_in(feature, fresh);
    if part.len() != 0 {
        return part;
    }
    held_in(feature, kept)
}
