// A list of profiles as bytes, four each: a sheet's profile part and the body of feature 0 are such a list.
#![tactic(auto)]

ghost use Rattle.std.specs.Prelude.{◌≡◌, ◌||◌, ◌+◌, ◌-◌, ◌*◌, ◌/◌, ◌%◌, ◌≤◌, ◌<◌, min, length, get_or};
ghost use Rattle.text.specs.Response.{current_profile};
ghost use Rattle.profiles.specs.Profiles.{profiles_of, lists, record_rule, record_fault, records_fault, stopped};
ghost use Rattle.profiles.specs.inner.Within.{Within};

use refusal::Refusal;
use text::Profile;

// 3 of a record's number; `before` says whether a record before it has it.
fn rule(number: Profile, before: bool) -> Refusal
    ensures { result ≡ record_rule number.0 before 0 0 }
{
    if number.0 == 0 {
        return refusal::PROFILE_BAD;
    }
    if before {
        return refusal::PROFILE_BAD;
    }
    refusal::ACCEPTED
}

// Whether one of the first n records has this number.
// Asks: no more records than the list has; the walk stops at its end.
fn listed(b: &[u8], number: Profile, n: usize) -> bool
    requires { n ≤ length b.now / 4 }
    ensures { result ≡ lists number.0 b.now 0 n }
{
    let mut i = 0;
    while i < n {
        if fields::inside2(b, 4 * i) == number.0 {
            return true;
        }
        i += 1;
    }
    false
}

// Two bytes as a number, the first the lowest: so they stand in memory, and one load has them, or those of several records.
// Asks: bytes that the list has; the walks stop at its end.
fn two(b: &[u8], at: usize) -> u16
    requires { at + 2 ≤ length b.now }
    ensures { (result % 256 ≡ get_or b.now at 0) × (result / 256 ≡ get_or b.now (at + 1) 0) }
{
    fields::inside(b, at) as u16 + fields::inside(b, at + 1) as u16 * 256
}

fn either(a: bool, b: bool) -> bool
    ensures { result ≡ (a || b) }
{
    if a {
        return true;
    }
    b
}

// The same of a number as `two` has it, with no way out at a record: for one that is most likely new, a walk to the end without a branch is quicker.
// Asks: the same as `listed`.
fn seen(b: &[u8], wanted: u16, n: usize) -> bool
    requires { n ≤ length b.now / 4 }
    ensures { result ≡ lists (wanted % 256 * 256 + wanted / 256) b.now 0 n }
{
    let mut found = false;
    let mut i = 0;
    while i < n {
        found = either(found, two(b, 4 * i) == wanted);
        i += 1;
    }
    found
}

// The place of record i, counted from 1. It is a sixteen-bit number and stops at the highest.
fn place_of(i: usize) -> u16
    ensures { result ≡ min (i + 1) 65535 }
{
    if i < 65535 {
        return (i + 1) as u16;
    }
    65535
}

// A number outside of those before it is new, and is looked for nowhere.
// Asks: an index inside the list, and the lowest and highest number before it; the walk stops at its end.
fn record_fault(b: &[u8], i: usize, low: Profile, high: Profile) -> Refusal
    requires { (i < length b.now / 4) × Within low.0 high.0 b.now i }
    ensures { result ≡ stopped (record_fault b.now i) }
{
    let number = Profile(fields::inside2(b, 4 * i));
    // the byte with CurrentP and the last one
    if 1 < two(b, 4 * i + 2) {
        return refusal::PROFILE_BAD.placed(place_of(i));
    }
    if high.0 < number.0 {
        return refusal::ACCEPTED;
    }
    if number.0 < low.0 {
        let fault = rule(number, false);
        return fault.placed(place_of(i));
    }
    let before = seen(b, two(b, 4 * i), i);
    let fault = rule(number, before);
    fault.placed(place_of(i))
}

fn lower(a: Profile, b: Profile) -> Profile
    ensures { result.0 ≡ min a.0 b.0 }
{
    if a.0 < b.0 {
        return a;
    }
    b
}

fn higher(a: Profile, b: Profile) -> Profile
    ensures { result.0 ≡ a.0 + (b.0 - a.0) }
{
    if a.0 < b.0 {
        return b;
    }
    a
}

// The first refusal of the records, which is 3 at the place of the record or none. In a list that ascends or descends no number is looked for.
pub fn fault(b: &[u8]) -> Refusal
    ensures { result ≡ stopped (records_fault b.now) }
{
    let n = b.len() / 4;
    let mut i = 0;
    let mut low = Profile(65535);
    let mut high = Profile(0);
    while i < n {
        let fault = record_fault(b, i, low, high);
        if fault.number != 0 {
            return fault;
        }
        let number = Profile(fields::inside2(b, 4 * i));
        low = lower(low, number);
        high = higher(high, number);
        i += 1;
    }
    refusal::ACCEPTED
}

// The first profile with CurrentP set, 0 if none.
pub fn current(b: &[u8]) -> Profile
    ensures { result.0 ≡ current_profile (profiles_of b.now) }
{
    let n = b.len() / 4;
    let mut i = 0;
    while i < n {
        if fields::inside(b, 4 * i + 2) % 2 == 1 {
            return Profile(fields::inside2(b, 4 * i));
        }
        i += 1;
    }
    Profile(0)
}

// Whether a record has this number.
pub fn has(b: &[u8], number: Profile) -> bool
    ensures { result ≡ lists number.0 b.now 0 (length b.now / 4) }
{
    listed(b, number, b.len() / 4)
}
