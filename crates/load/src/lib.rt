// A medium goes in: the sheet as it leaves it.
#![tactic(auto)]

ghost use Rattle.std.specs.Prelude.{◌≡◌, true, not, ◌||◌, ℕ, ◌+◌, ◌*◌, ◌/◌, ◌≤◌, ◌<◌, eqb, length, get_or};
ghost use Rattle.base.specs.Pick.{some};
ghost use Rattle.text.specs.Drive.{bit};
ghost use Rattle.lent.specs.Maker.{outcome};
ghost use Rattle.profiles.specs.Profiles.{profile_number, lists};
ghost use Rattle.layout.specs.Layout.{stored, bodies_at, profiles_behind, flags_place};
ghost use Rattle.layout.specs.inner.Room.{Room};
ghost use Rattle.sheet.specs.Check.{Accepted};
ghost use Rattle.sheet.specs.Meaning.{meaning};
ghost use Rattle.load.specs.Load.{is_in, ascends, lacks, feature_numbers, profile_numbers, flags_with, load_fault, loading};
ghost use Rattle.load.specs.inner.Beside.{Above, met, flags_met};
ghost use Rattle.load.specs.inner.Patch.{patched, sheet_patched};

use layout::{Layout, Nth};
use lent::Made;
use refusal::Refusal;
use text::{Feature, Flags, Profile};

// ---- lists of numbers

// Whether the numbers ascend, with no repeat.
fn ascends(list: &[u16]) -> bool
    ensures { result ≡ ascends list.now }
{
    let mut i = 1;
    while i < list.len() {
        if list[i] <= list[i - 1] {
            return false;
        }
        i += 1;
    }
    true
}

// Whether a profile is listed.
fn has(list: &[u16], profile: Profile) -> bool
    ensures { result ≡ is_in list.now profile.0 }
{
    let mut i = 0;
    while i < list.len() {
        if list[i] == profile.0 {
            return true;
        }
        i += 1;
    }
    false
}

// The number at an index of a list, 0 behind its end: no entry has that number.
fn number_at(list: &[u16], i: usize) -> u16
    ensures { result ≡ get_or list.now i 0 }
{
    if i < list.len() {
        return list[i];
    }
    0
}

// ---- the walk over the entries beside the list

// Behind an entry: whether it was found in the list, how many are met, and the number that comes next, 0 behind the last.
#[derive(Clone, Copy)]
struct Walk {
    found: bool,
    met: usize,
    next: u16,
}

// One entry more: the list is looked at only where its feature is met, so that a round does not wait for the one before.
// Asks: the number that comes next, and fewer met than a sheet can have entries; the walks carry both along.
fn passed(list: &[u16], met: usize, next: u16, feature: Feature) -> Walk
    requires { (next ≡ get_or list.now met 0) × (met < 65535) }
    ensures { (result.found ≡ eqb feature.0 next) × (result.met ≡ met + bit result.found) × (result.next ≡ get_or list.now result.met 0) }
{
    if feature.0 != next {
        return Walk {
            found: false,
            met,
            next,
        };
    }
    Walk {
        found: true,
        met: met + 1,
        next: number_at(list, met + 1),
    }
}

// ---- what the sheet lacks

// How many of the list the entries meet: both ascend, so that it is all of them where the sheet lacks none.
// Asks: a sheet of n features that has its contents, none of them numbered 0; it was checked.
fn met(lay: Layout, s: &[u8], n: u16, list: &[u16]) -> usize
    requires { Room s.now n × Above (stored lay s.now) n }
    ensures { result ≡ met (stored lay s.now) list.now n }
{
    let mut i: u16 = 0;
    let mut j: usize = 0;
    let mut next = number_at(list, 0);
    while i < n {
        // all are met
        if list.len() <= j {
            return j;
        }
        let e = layout::entry_in(s, Nth { lay, n, i });
        let walk = passed(list, j, next, e.number);
        j = walk.met;
        next = walk.next;
        i += 1;
    }
    j
}

// Whether a profile is listed that the records of b do not have. As these are at most 63, it is found among the first 64.
fn lacks(b: &[u8], list: &[u16]) -> bool
    ensures { result ≡ some (λ (n : ℕ). not (lists n b.now 0 (length b.now / 4))) list.now }
{
    let mut i = 0;
    while i < list.len() {
        if !profiles::has(b, Profile(list[i])) {
            return true;
        }
        i += 1;
    }
    false
}

// ---- the sheet as it is then

// A Persistent feature stays current, each other one is current exactly if it is listed; all other bits stay.
fn flags_with(flags: Flags, listed: bool) -> Flags
    ensures { result.0 ≡ flags_with listed flags.0 }
{
    let rest = flags.0 / 2 * 2;
    if flags.persistent() {
        return Flags(rest + 1);
    }
    Flags(rest + listed as u8)
}

// Sets the flags of each entry in a copy of the sheet, on a walk over the entries beside the list.
// Asks: a sheet of n features that has its contents, and room for them in the copy; the sheet was checked, and copied whole.
fn set_features(out: &mut [u8], lay: Layout, s: &[u8], n: u16, list: &[u16])
    requires { Room s.now n × (profiles_behind n ≤ length out.old) }
    ensures { out.new ≡ patched (flags_place lay n) (flags_met (stored lay s.now) list.now) n out.old }
{
    let mut i: u16 = 0;
    let mut j: usize = 0;
    let mut next = number_at(list, 0);
    while i < n {
        let e = layout::entry_in(s, Nth { lay, n, i });
        let walk = passed(list, j, next, e.number);
        layout::set_flags(out, Nth { lay, n, i }, flags_with(e.flags, walk.found));
        j = walk.met;
        next = walk.next;
        i += 1;
    }
}

// Sets the third byte of each record of b in a copy that has them from an index on.
// Asks: room for the records in the copy; the sheet was checked, and copied whole.
fn set_profiles(out: &mut [u8], at: usize, b: &[u8], list: &[u16])
    requires { at + length b.now ≤ length out.old }
    ensures { out.new ≡ patched (λ (i : ℕ). at + 4 * i + 2) (λ (i : ℕ). bit (is_in list.now (profile_number b.now i))) (length b.now / 4) out.old }
{
    let n = b.len() / 4;
    let mut i = 0;
    while i < n {
        let profile = Profile(fields::inside2(b, 4 * i));
        out[at + 4 * i + 2] = has(list, profile) as u8;
        i += 1;
    }
}

// Writes the sheet as the medium leaves it to a buffer of its length.
// Asks: a sheet that has its contents and its profiles, and a buffer as long; it was checked.
fn put_loaded(out: &mut [u8], lay: Layout, s: &[u8], features: &[u16], profiles: &[u16])
    requires { (bodies_at (stored lay s.now) ≤ length s.now) × (length out.old ≡ length s.now) }
    ensures { out.new ≡ sheet_patched features.now profiles.now (stored lay s.now) }
{
    let n = layout::feature_count(s);
    lent::place(out, 0, s, 0, s.len());
    set_features(out, lay, s, n, features);
    set_profiles(
        out,
        layout::profiles_behind(n),
        layout::profiles_part(s),
        profiles,
    );
}

// ---- loading

// Whether either list is out of order, or has a repeat.
fn unordered(features: &[u16], profiles: &[u16]) -> bool
    ensures { result ≡ (not (ascends features.now) || not (ascends profiles.now)) }
{
    if !ascends(features) {
        return true;
    }
    !ascends(profiles)
}

// Whether the sheet lacks a listed feature or a listed profile.
// Asks: an accepted sheet, and features that ascend; `fault` has looked.
fn lacking(lay: Layout, s: &[u8], features: &[u16], profiles: &[u16]) -> bool
    requires { Accepted (stored lay s.now) × (ascends features.now ≡ true) }
    ensures { result ≡ (lacks (feature_numbers (meaning (stored lay s.now))) features.now || lacks (profile_numbers (meaning (stored lay s.now))) profiles.now) }
{
    if met(lay, s, layout::feature_count(s), features) != features.len() {
        return true;
    }
    lacks(layout::profiles_part(s), profiles)
}

// The sheet's refusal, then 51 and 52.
fn fault(lay: Layout, s: &[u8], features: &[u16], profiles: &[u16]) -> Refusal
    ensures { result ≡ load_fault features.now profiles.now (stored lay s.now) }
{
    let verdict = sheet::check(lay, s);
    if verdict.number != 0 {
        return verdict;
    }
    if unordered(features, profiles) {
        return refusal::LIST_ORDER;
    }
    if lacking(lay, s, features, profiles) {
        return refusal::SHEET_LACKS;
    }
    refusal::ACCEPTED
}

// The sheet s as a medium leaves it that makes these features and these profiles current, written to a lent buffer in the layout that it has.
pub fn load(lay: Layout, s: &[u8], features: &[u16], profiles: &[u16], out: &mut [u8]) -> Made
    ensures { outcome result out.new ≡ loading features.now profiles.now (stored lay s.now) out.old }
{
    let fault = fault(lay, s, features, profiles);
    if fault.number != 0 {
        return Made::refused(fault);
    }
    let count = s.len();
    if out.len() < count {
        return Made::refused(refusal::LOADED_SHORT);
    }
    put_loaded(&mut out[..count], lay, s, features, profiles);
    Made::written(count)
}
