// Writes the sheet as a medium leaves it, in the layout that it has, to standard output. A refusal is a line on standard error, which names the listed number at fault, and
// nothing is written then. Arguments: how many features are listed; the features, and then the profiles.
ghost use Rattle.std.specs.Prelude.{◌≡◌, ◌≤◌, length};
ghost use Rattle.std.specs.Counts.{IsPrefixLen};
ghost use Rattle.refusal.specs.First.{unless};
ghost use Rattle.lent.specs.Maker.{outcome, refusing, making};
ghost use Rattle.layout.specs.Layout.{stored};
ghost use Rattle.load.specs.Load.{load_fault, loaded};

use layout::Layout;
use lent::Made;
use program_io::streams;
use program_io::streams::STDERR_FILENO;
use program_words::{sheets, words};
use refusal::Refusal;
use text::{Feature, Profile};

// The argument that says how many features are listed, and the one that is the first number of both lists.
const COUNT: usize = 8;

const FIRST: usize = 9;

// The sheet as the medium leaves it, whole where the buffer is as long as the sheet: no sheet that is taken is longer, so that 53 is never given.
fn loaded(lay: Layout, sheet: &[u8], features: &[u16], profiles: &[u16], out: &mut [u8]) -> Made
    ensures prefix_len { IsPrefixLen result.count out.new }
    ensures out_after { length sheet.now ≤ length out.old → outcome result out.new ≡ unless (load_fault features.now profiles.now (stored lay sheet.now)) (refusing out.old)
        (making (loaded features.now profiles.now (stored lay sheet.now)).bytes out.old) }
{
    load::load(lay, sheet, features, profiles, out)
}

// ---- the number at fault

// The index of the first number that is not above the one before, the list's end if there is none.
fn unordered(list: &[u16]) -> usize {
    let mut i = 1;
    while i < list.len() {
        if list[i] <= list[i - 1] {
            return i;
        }
        i += 1;
    }
    list.len()
}

// Whether the contents have an entry of this number.
fn has_feature(lay: Layout, sheet: &[u8], feature: Feature) -> bool {
    let n = layout::feature_count(sheet);
    let i = sheet::first_from(lay, sheet, n, feature);
    if n <= i {
        return false;
    }
    let there = layout::feature_at(lay, sheet, i);
    there.0 == feature.0
}

// Whether the sheet has a profile of this number, or a feature.
fn has(lay: Layout, sheet: &[u8], profile: bool, number: u16) -> bool {
    if profile {
        return profiles::has(layout::profiles_part(sheet), Profile(number));
    }
    has_feature(lay, sheet, Feature(number))
}

// The index of the first number that the sheet lacks, the list's end if there is none.
fn lacking(lay: Layout, sheet: &[u8], profile: bool, list: &[u16]) -> usize {
    let mut i = 0;
    while i < list.len() {
        if !has(lay, sheet, profile, list[i]) {
            return i;
        }
        i += 1;
    }
    i
}

fn say_error(host: HostRuntime, what: &[u8]) {
    streams::say_to(host, STDERR_FILENO, what);
}

// Says the number at an index, if there is one.
fn say_listed(host: HostRuntime, what: &[u8], list: &[u16], i: usize) -> bool {
    if list.len() <= i {
        return false;
    }
    say_error(host, what);
    words::say_hex4(host, STDERR_FILENO, list[i]);
    say_error(host, b"h");
    true
}

// The first number at fault, of the features, or else of the profiles: its index in either list.
fn say_first(
    host: HostRuntime,
    features: &[u16],
    feature: usize,
    profiles: &[u16],
    profile: usize,
) {
    if say_listed(host, b" at feature ", features, feature) {
        return;
    }
    say_listed(host, b" at profile ", profiles, profile);
}

fn say_fault(
    host: HostRuntime,
    refusal: Refusal,
    lay: Layout,
    sheet: &[u8],
    features: &[u16],
    profiles: &[u16],
) {
    if refusal.number == refusal::LIST_ORDER.number {
        say_first(
            host,
            features,
            unordered(features),
            profiles,
            unordered(profiles),
        );
        return;
    }
    let feature = lacking(lay, sheet, false, features);
    let profile = lacking(lay, sheet, true, profiles);
    say_first(host, features, feature, profiles, profile);
}

// A refusal of a list, with the number at fault, or one of the sheet, with its line.
fn say_refused(
    host: HostRuntime,
    refusal: Refusal,
    lay: Layout,
    sheet: &[u8],
    features: &[u16],
    profiles: &[u16],
) {
    if refusal.number < refusal::LIST_ORDER.number {
        sheets::say_refused(host, refusal, lay, sheet);
        return;
    }
    streams::mark_fault(host);
    say_error(host, b"refused ");
    streams::say_decimal_to(host, STDERR_FILENO, refusal.number as u64);
    say_fault(host, refusal, lay, sheet, features, profiles);
    say_error(host, b": ");
    words::say_meaning(host, STDERR_FILENO, refusal);
    say_error(host, b"\n");
}

// ---- the lists

fn load_sheet(
    host: HostRuntime,
    lay: Layout,
    sheet: &[u8],
    features: &[u16],
    profiles: &[u16],
    out: &mut [u8],
) {
    let made = loaded(lay, sheet, features, profiles, out);
    let refusal = made.refusal;
    if refusal.number != 0 {
        say_refused(host, refusal, lay, sheet, features, profiles);
        return;
    }
    let count = made.count;
    streams::say(host, &out[..count]);
}

// The numbers of both lists, as far as there is room: how many they are.
fn take_lists(host: HostRuntime, lists: &mut [u16]) -> usize
    ensures { IsPrefixLen result lists.new }
{
    let mut i = 0;
    while i < lists.len() {
        if !streams::is_there(host, i + FIRST) {
            return i;
        }
        lists[i] = streams::arg(host, i + FIRST);
        i += 1;
    }
    i
}

fn load_listed(host: HostRuntime, lay: Layout, sheet: &[u8], lists: &[u16], out: &mut [u8]) {
    let features = streams::arg(host, COUNT) as usize;
    if lists.len() < features {
        return;
    }
    load_sheet(
        host,
        lay,
        sheet,
        &lists[..features],
        &lists[features..],
        out,
    );
}

pub fn load(host: HostRuntime, lay: Layout, sheet: &[u8], lists: &mut [u16], out: &mut [u8]) {
    let listed = take_lists(host, lists);
    load_listed(host, lay, sheet, &lists[..listed], out);
}
