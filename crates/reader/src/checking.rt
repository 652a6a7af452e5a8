// Says in words what is wrong with the descriptors of a response, and whether it has what a profile requires: the one that is asked for, else each listed one that has a table. The archive
// subset, 0000h, is judged only where it is asked for. Of a response that is refused it says only why. Arguments: the profile, whether all faults are said, and whether only the profile
// is judged.
use super::{HEX, ROOM, refusing, strays};
use checks::Finding;
use needs::{Judgement, Wrong};
use program_io::streams::{STDOUT_FILENO, say};
use program_io::{asked, dumps, streams};
use program_words::words;
use refusal::Refusal;
use text::{Feature, Header, Profile};

// The argument that is the profile.
const PROFILE: usize = 8;

// The one that says whether all faults are said.
const ALL: usize = 9;

// The one that says whether only the profile is judged: its descriptors were told before.
const PROFILE_ALONE: usize = 10;

// ---- words

fn say_feature(host: HostRuntime, feature: Feature) {
    say(host, b"feature ");
    words::say_hex4(host, STDOUT_FILENO, feature.0);
}

fn say_profile(host: HostRuntime, profile: Profile) {
    say(host, b"profile ");
    words::say_hex4(host, STDOUT_FILENO, profile.0);
    if profile.0 == 0 {
        say(host, b", the archive subset");
    }
}

// ---- the descriptors

// Of 36 and 37: the first byte of a descriptor, counted from its start, that mending changes in the copy, and the highest bit that it clears there.
fn say_bit(host: HostRuntime, descriptor: &[u8], clean: &[u8]) {
    let k = strays::first_in(descriptor, clean);
    say(host, b": byte ");
    streams::say_decimal(host, k as u64);
    say(host, b" bit ");
    streams::say_decimal(host, strays::bit_in(descriptor, clean, k) as u64);
}

fn has_bit(number: u8) -> bool {
    match number {
        36..=37 => true,
        _ => false,
    }
}

// A fault of the feature whose descriptor stands at a place, or would stand there.
fn say_fault(
    host: HostRuntime,
    refusal: Refusal,
    feature: Feature,
    s: &[u8],
    clean: &[u8],
    at: usize,
) {
    streams::mark_fault(host);
    say(host, b"descriptors: ");
    streams::say_decimal(host, refusal.number as u64);
    say(host, b" in ");
    say_feature(host, feature);
    say(host, b" at byte ");
    streams::say_decimal(host, at as u64);
    say(host, b": ");
    words::say_meaning(host, STDOUT_FILENO, refusal);
    if has_bit(refusal.number) {
        say_bit(
            host,
            fields::part(s, at, s.len()),
            fields::part(clean, at, s.len()),
        );
    }
    say(host, b"\n");
}

// The first fault.
fn say_first(host: HostRuntime, finding: Finding, s: &[u8], clean: &[u8]) {
    let feature = finding.feature;
    say_fault(
        host,
        finding.refusal,
        feature,
        s,
        clean,
        reading::place_of(feature, s),
    );
}

fn reports(feature: Feature, s: &[u8]) -> bool {
    reading::held(feature, s, s).len() > 0
}

// 30 of a feature that every response has to report.
fn say_if_missing(host: HostRuntime, feature: Feature, s: &[u8], clean: &[u8]) {
    if !reports(feature, s) {
        say_fault(
            host,
            refusal::CORE_MISSING,
            feature,
            s,
            clean,
            reading::place_of(feature, s),
        );
    }
}

// The first fault of the descriptor at a place, if it has one.
fn say_if_fault(host: HostRuntime, removable: bool, s: &[u8], clean: &[u8], at: usize) {
    let fault = checks::fault_at(removable, s, at);
    if fault.number != 0 {
        say_fault(host, fault, reading::number_at(s, at), s, clean, at);
    }
}

// That of every descriptor. There are fewer than bytes.
fn say_each_fault(host: HostRuntime, removable: bool, s: &[u8], clean: &[u8]) {
    let mut at = Header::LENGTH;
    let mut i = 0;
    while i < s.len() {
        if s.len() <= at {
            return;
        }
        say_if_fault(host, removable, s, clean, at);
        at = reading::next_at(s, at);
        i += 1;
    }
}

fn say_all(host: HostRuntime, s: &[u8], clean: &[u8]) {
    say_if_missing(host, Feature(0), s, clean);
    say_if_missing(host, Feature(1), s, clean);
    say_each_fault(host, reports(Feature(3), s), s, clean);
}

fn say_faults(host: HostRuntime, finding: Finding, s: &[u8]) {
    let mut clean = [0u8; ROOM];
    strays::put_clean(s, &mut clean);
    if streams::given(host, ALL) {
        say_all(host, s, &clean);
        return;
    }
    say_first(host, finding, s, &clean);
}

fn say_descriptors(host: HostRuntime, finding: Finding, s: &[u8]) {
    if streams::given(host, PROFILE_ALONE) {
        return;
    }
    let refusal = finding.refusal;
    if refusal.number == 0 {
        say(host, b"descriptors: no fault\n");
        return;
    }
    say_faults(host, finding, s);
}

// ---- the profiles

// What is wrong with a feature.
fn say_wrong(host: HostRuntime, wrong: Wrong) {
    match wrong {
        Wrong::Absent => say(host, b" is missing\n"),
        Wrong::TooShort => say(host, b" is shorter than the profile asks\n"),
        Wrong::BitClear => say(host, b" has a bit not set that the profile asks for\n"),
        Wrong::NotCurrent => say(host, b" is not current\n"),
        Wrong::TooLong => say(host, b" is longer than the profile lets any be\n"),
    }
}

fn say_broken(host: HostRuntime, profile: Profile, feature: Feature, wrong: Wrong) {
    streams::mark_fault(host);
    say_profile(host, profile);
    say(host, b": ");
    say_feature(host, feature);
    say_wrong(host, wrong);
}

// A response of one descriptor, the longest that there is.
const ALONE: usize = Header::LENGTH + 4 + 255;

// What is wrong with the feature at a place, whatever the others have: in a response of its own, so that they are not read.
fn judged_alone(profile: Profile, feature: Feature, s: &[u8], at: usize) -> Judgement {
    let length = reading::length_at(s, at);
    let mut alone = [0u8; ALONE];
    lent::put4(&mut alone, 0, 8 + length as u32);
    lent::copy(
        &mut alone,
        Header::LENGTH,
        fields::part(s, at, reading::next_at(s, at)),
    );
    needs::check_feature(
        profile,
        feature,
        fields::part(&alone, 0, 12 + length as usize),
    )
}

// A line for a feature if it breaks a profile.
fn say_if_broken(host: HostRuntime, profile: Profile, judgement: Judgement) {
    if let Judgement::Broken(broken, wrong) = judgement {
        say_broken(host, profile, broken, wrong);
    }
}

// Whether a profile asks for a feature: then a header alone, which is a complete response, lacks it.
fn asks(profile: Profile, feature: Feature) -> bool {
    let judgement = needs::check_feature(profile, feature, b"\0\0\0\x04\0\0\0\0");
    match judgement {
        Judgement::Conforms => false,
        Judgement::Broken(_, _) => true,
        Judgement::Refused(_) => false,
    }
}

// Whether a feature stands at a place, with a body.
fn is_bodied(feature: Feature, s: &[u8], at: usize) -> bool {
    let number = reading::number_at(s, at);
    if number.0 != feature.0 {
        return false;
    }
    reading::length_at(s, at) > 0
}

// A line for a feature, which stands at a place if it is reported, if it breaks a profile. One that is not asked for breaks it only by a body that is too long: so most
// need no look at the response.
fn say_if_judged(host: HostRuntime, profile: Profile, feature: Feature, s: &[u8], at: usize) {
    if is_bodied(feature, s, at) {
        say_if_broken(host, profile, judged_alone(profile, feature, s, at));
        return;
    }
    if asks(profile, feature) {
        say_if_broken(host, profile, needs::check_feature(profile, feature, s));
    }
}

// The place behind a feature, if it stands at this one.
fn place_behind(feature: Feature, s: &[u8], at: usize) -> usize {
    let number = reading::number_at(s, at);
    if number.0 != feature.0 {
        return at;
    }
    reading::next_at(s, at)
}

// A line for each feature from one on that breaks it.
fn say_each_broken(host: HostRuntime, profile: Profile, first: Feature, s: &[u8]) {
    let mut at = reading::place_of(first, s);
    let mut number = first.0 as u32;
    while number < 65536 {
        let feature = Feature((number % 65536) as u16);
        say_if_judged(host, profile, feature, s, at);
        at = place_behind(feature, s, at);
        number += 1;
    }
}

// The lowest feature that breaks it, or where all are wanted each of them.
fn say_breaks(host: HostRuntime, profile: Profile, feature: Feature, wrong: Wrong, s: &[u8]) {
    if streams::given(host, ALL) {
        say_each_broken(host, profile, feature, s);
        return;
    }
    say_broken(host, profile, feature, wrong);
}

fn say_conforms(host: HostRuntime, profile: Profile) {
    say_profile(host, profile);
    say(host, b": conforms\n");
}

fn say_refused(host: HostRuntime, profile: Profile, refusal: Refusal) {
    streams::mark_fault(host);
    say_profile(host, profile);
    say(host, b": ");
    streams::say_decimal(host, refusal.number as u64);
    say(host, b": ");
    words::say_meaning(host, STDOUT_FILENO, refusal);
    say(host, b"\n");
}

fn say_judged(host: HostRuntime, profile: Profile, s: &[u8]) {
    let judgement = needs::check_profile(profile, s);
    match judgement {
        Judgement::Conforms => say_conforms(host, profile),
        Judgement::Broken(feature, wrong) => say_breaks(host, profile, feature, wrong, s),
        Judgement::Refused(refusal) => say_refused(host, profile, refusal),
    }
}

// Whether a profile has a table: then a header alone, which is a complete response, is judged.
fn has_table(profile: Profile) -> bool {
    let judgement = needs::check_profile(profile, b"\0\0\0\x04\0\0\0\0");
    match judgement {
        Judgement::Conforms => true,
        Judgement::Broken(_, _) => true,
        Judgement::Refused(_) => false,
    }
}

// Whether a profile in the body of a descriptor of feature 0 stands there before too.
fn is_repeated(descriptor: &[u8], at: usize) -> bool {
    let mut before: usize = 4;
    while before < descriptor.len() {
        if at <= before {
            return false;
        }
        if fields::get2(descriptor, before) == fields::get2(descriptor, at) {
            return true;
        }
        before += 4;
    }
    false
}

// A line for a listed profile if it has a table, and whether there is a line by now. No drive may list 0000h (finding 39), so it asks for no archive subset.
fn say_if_table(host: HostRuntime, profile: Profile, s: &[u8], said: bool) -> bool {
    if profile.0 == 0 {
        return said;
    }
    if !has_table(profile) {
        return said;
    }
    say_judged(host, profile, s);
    true
}

// The same of the one at a place in the body of a descriptor of feature 0, once if it is listed more than once.
fn say_if_first(host: HostRuntime, descriptor: &[u8], at: usize, s: &[u8], said: bool) -> bool {
    if is_repeated(descriptor, at) {
        return said;
    }
    say_if_table(host, Profile(fields::get2(descriptor, at)), s, said)
}

// A line for each profile there that has a table, and whether there is one.
fn say_each(host: HostRuntime, descriptor: &[u8], s: &[u8]) -> bool {
    let mut said = false;
    let mut at: usize = 4;
    while at < descriptor.len() {
        said = say_if_first(host, descriptor, at, s, said);
        at += 4;
    }
    said
}

fn say_listed(host: HostRuntime, s: &[u8]) {
    let descriptor = reading::held(Feature(0), s, s);
    if !say_each(host, descriptor, s) {
        say(host, b"no listed profile has a table\n");
    }
}

// The profiles that are asked for. A response to RT 1 leaves out what is not current, so that no profile can be judged by it.
fn say_profiles(host: HostRuntime, s: &[u8]) {
    if asked::rt(host) != 0 {
        return;
    }
    if streams::given(host, PROFILE) {
        say_judged(host, Profile(streams::arg(host, PROFILE)), s);
        return;
    }
    say_listed(host, s);
}

// ---- both

// What is refused of the response to the command that is asked for. Of RT 0 from 0 the check's own reading finds it: the response is read once.
fn asked_fault(host: HostRuntime, s: &[u8]) -> Refusal {
    if asked::plain(host) {
        return refusal::ACCEPTED;
    }
    asked::fault(host, s)
}

// What is refused of the response as a whole. Numbers from 30 on are of a feature.
fn whole_fault(host: HostRuntime, finding: Finding, s: &[u8]) -> Refusal {
    let fault = asked_fault(host, s);
    if fault.number != 0 {
        return fault;
    }
    let fault = finding.refusal;
    if fault.number < 30 {
        return fault;
    }
    refusal::ACCEPTED
}

pub fn check(host: HostRuntime, s: &[u8]) {
    let finding = checks::check_descriptors(s);
    let fault = whole_fault(host, finding, s);
    if fault.number != 0 {
        streams::mark_fault(host);
        refusing::say_asked(host, fault, s);
        dumps::hint(host, HEX, s);
        return;
    }
    say_descriptors(host, finding, s);
    say_profiles(host, s);
}
