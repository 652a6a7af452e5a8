// The check of a drive sheet, and the search for an entry.
#![tactic(auto)]

ghost use Rattle.std.specs.Prelude.{◌≡◌, ◌-◌, ◌<◌, ltb, eqb};
ghost use Rattle.layout.specs.declared.Layout.TheVariants.{Columns};
ghost use Rattle.layout.specs.Layout.{stored, profiles};
ghost use Rattle.layout.specs.inner.Room.{Room};
ghost use Rattle.sheet.specs.Check.{end_before_entry, flags_rule, entry_rule, entries_verdict, counted, verdict};
ghost use Rattle.sheet.specs.inner.Glance.{every, sound, sound_at, following, glanced};
ghost use Rattle.sheet.specs.inner.Search.{half, closing, first_from, next_from};

use layout::{Layout, Nth};
use refusal::Refusal;
use text::{Feature, Flags};

// ---- the rules, on numbers

// 5 and 44 of a flags byte.
pub fn flags_rule(flags: Flags) -> Refusal
    ensures { result ≡ flags_rule flags.0 }
{
    flags.fault(refusal::FLAGS_BAD, refusal::PERSISTENT_UNCURRENT)
}

fn entry_rule(
    number: Feature,
    before: Feature,
    flags: Flags,
    len: u8,
    offset: u32,
    end: usize,
) -> Refusal
    ensures { result ≡ entry_rule number.0 before.0 flags.0 len offset end }
{
    if number.0 == 0 {
        return refusal::ORDER_BAD;
    }
    if number.0 <= before.0 {
        return refusal::ORDER_BAD;
    }
    let fault = flags_rule(flags);
    if fault.number != 0 {
        return fault;
    }
    if len % 4 != 0 {
        return refusal::LENGTH_BAD;
    }
    if offset as usize != end {
        return refusal::OFFSET_BAD;
    }
    refusal::ACCEPTED
}

// ---- the rules, at each entry

// Where the body before that of entry i ends.
pub fn end_before(lay: Layout, s: &[u8], i: u16) -> usize
    ensures { result ≡ end_before_entry (stored lay s.now) i }
{
    let view = &s[..];
    if i == 0 {
        return layout::bodies_at(view);
    }
    layout::offset_at(lay, view, i - 1) as usize + layout::length_at(lay, view, i - 1) as usize
}

// The first refusal of the entries and of what stands behind the last body. Each entry is read once; what it leaves for the next one is carried along.
// Asks: a sheet of n features that has its contents; the check has looked at its length.
fn entries_fault(lay: Layout, s: &[u8], n: u16) -> Refusal
    requires { Room s.now n }
    ensures { result ≡ entries_verdict (stored lay s.now) n }
{
    let mut i: u16 = 0;
    let mut before = Feature(0);
    let mut end = layout::bodies_at(s);
    while i < n {
        let e = layout::entry_in(s, Nth { lay, n, i });
        let rule = entry_rule(e.number, before, e.flags, e.length, e.offset, end);
        let fault = rule.placed(i + 1);
        if fault.number != 0 {
            return fault;
        }
        i += 1;
        before = e.number;
        end = e.offset as usize + e.length as usize;
    }
    if s.len() != end {
        return refusal::SHEET_LONG;
    }
    refusal::ACCEPTED
}

// ---- the same at a glance, of a sheet in columns: each look goes over all entries, with no branch that a field decides

// Whether nothing is refused of flags and body length.
fn sound(flags: Flags, len: u8) -> bool
    ensures { result ≡ sound flags.0 len }
{
    let fault = flags_rule(flags);
    if fault.number != 0 {
        return false;
    }
    len % 4 == 0
}

// Whether nothing is refused of any flags and body length: two columns of bytes, which go by vectors.
// Asks: the same as `entries_fault`.
fn all_sound(s: &[u8], n: u16) -> bool
    requires { Room s.now n }
    ensures { result ≡ every (sound_at (stored Columns s.now)) n }
{
    let mut i: u16 = 0;
    let mut fine = true;
    while i < n {
        let e = layout::entry_in(
            s,
            Nth {
                lay: Layout::Columns,
                n,
                i,
            },
        );
        fine = fine & sound(e.flags, e.length);
        i += 1;
    }
    fine
}

// 1 for a feature number that is not above the one before.
fn late(number: Feature, before: Feature) -> u32
    ensures { (eqb result 0 ≡ ltb before.0 number.0) × (result < 2) }
{
    if number.0 <= before.0 {
        return 1;
    }
    0
}

// Whether nothing is refused of any feature number and offset, and the sheet ends with the last body. What is odd is counted, or gathered bit by bit.
// Asks: the same as `entries_fault`.
fn all_follow(s: &[u8], n: u16) -> bool
    requires { Room s.now n }
    ensures { result ≡ following (stored Columns s.now) n }
{
    let mut i: u16 = 0;
    let mut lates: u32 = 0;
    let mut apart: usize = 0;
    let mut last = Feature(0);
    let mut end = layout::bodies_at(s);
    while i < n {
        let e = layout::entry_in(
            s,
            Nth {
                lay: Layout::Columns,
                n,
                i,
            },
        );
        lates += late(e.number, last);
        apart |= e.offset as usize ^ end;
        i += 1;
        last = e.number;
        end = e.offset as usize + e.length as usize;
    }
    (s.len() == end) & (lates == 0) & (apart == 0)
}

// Whether a glance shows that the entries are accepted. It does not pay for few of them, nor in rows.
// Asks: the same as `entries_fault`.
fn accepted_at_a_glance(lay: Layout, s: &[u8], n: u16) -> bool
    requires { Room s.now n }
    ensures { result ≡ glanced (stored lay s.now) n }
{
    if n < 32 {
        return false;
    }
    match lay {
        Layout::Rows => false,
        Layout::Columns => {
            if !all_sound(s, n) {
                return false;
            }
            all_follow(s, n)
        }
    }
}

// The same as `entries_fault`, at a glance where that will do.
// Asks: the same as `entries_fault`.
fn contents_fault(lay: Layout, s: &[u8], n: u16) -> Refusal
    requires { Room s.now n }
    ensures { result ≡ entries_verdict (stored lay s.now) n }
{
    if accepted_at_a_glance(lay, s, n) {
        return refusal::ACCEPTED;
    }
    entries_fault(lay, s, n)
}

// ---- the check

// The check of a sheet that has room for n entries and p profiles.
// Asks: a sheet of n features and p profiles that has its contents; the check has looked at its length.
fn counted_fault(lay: Layout, s: &[u8], n: u16, p: u16) -> Refusal
    requires { Room s.now n × (p ≡ profiles s.now) }
    ensures { result ≡ counted (stored lay s.now) n p }
{
    if 63 < p {
        return refusal::PROFILES_MANY;
    }
    let profiles = profiles::fault(layout::profiles_part(s));
    if profiles.number != 0 {
        return profiles;
    }
    contents_fault(lay, s, n)
}

// The first refusal of a drive sheet, number 0 where it is accepted.
pub fn check(lay: Layout, s: &[u8]) -> Refusal
    ensures { result ≡ verdict (stored lay s.now) }
{
    let view = &s[..];
    if view.len() < 4 {
        return refusal::SHEET_SHORT;
    }
    if view.len() < layout::bodies_at(view) {
        return refusal::SHEET_SHORT;
    }
    counted_fault(
        lay,
        view,
        layout::feature_count(view),
        layout::profile_count(view),
    )
}

// ---- the search for an entry

// Both ends are words, of which the compiler leaves branches: a processor foretells them where starts repeat or ascend, and no look waits for the one before.
#[derive(Clone, Copy)]
struct Range {
    low: usize,
    high: usize,
}

// The half of a range where the first entry numbered sfn or more is.
// Asks: a range that is not empty, and indices; the bisection stops at an empty one.
fn halved(lay: Layout, s: &[u8], sfn: Feature, low: usize, high: usize) -> Range
    requires { (low < high) × (high < 65536) }
    ensures { result ≡ half (stored lay s.now) sfn.0 low high }
{
    let middle = low + (high - low) / 2;
    let feature = layout::feature_at(lay, s, middle as u16);
    if feature.0 < sfn.0 {
        return Range {
            low: middle + 1,
            high: high,
        };
    }
    Range {
        low: low,
        high: middle,
    }
}

// The first entry of a range numbered sfn or more, the range's end if there is none: by bisection, so that an accepted sheet's entries are not walked.
fn closed(lay: Layout, s: &[u8], sfn: Feature, from: u16, to: u16) -> u16
    ensures { result ≡ closing (to - from) (stored lay s.now) sfn.0 from to }
{
    let mut low = from as usize;
    let mut high = to as usize;
    while low < high {
        let half = halved(lay, s, sfn, low, high);
        low = half.low;
        high = half.high;
    }
    low as u16
}

// The first of n entries numbered sfn or more, n if there is none.
pub fn first_from(lay: Layout, s: &[u8], n: u16, sfn: Feature) -> u16
    ensures { result ≡ first_from (stored lay s.now) n sfn.0 }
{
    // no number is below 0
    if sfn.0 == 0 {
        return 0;
    }
    closed(lay, s, sfn, 0, n)
}

// The same on from an entry, for who goes on from where it has got to: the next eight one by one, and bisection behind them.
pub fn next_from(lay: Layout, s: &[u8], n: u16, sfn: Feature, from: u16) -> u16
    ensures { result ≡ next_from (stored lay s.now) n sfn.0 from }
{
    let mut i = from;
    let mut left: u8 = 8;
    while left > 0 {
        if n <= i {
            return i;
        }
        let feature = layout::feature_at(lay, s, i);
        if sfn.0 <= feature.0 {
            return i;
        }
        i += 1;
        left -= 1;
    }
    closed(lay, s, sfn, i, n)
}
