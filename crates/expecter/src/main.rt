// Says of recorded exchanges what a driver has to make of them: a line of JSON members for each, from a reading, a sweep, a check and an import of the response. An exchange that
// starts at 0 starts a sweep, any other goes on with the one before it. Arguments: how many exchanges there are, and whether there is no room for what a sweep collects and for a
// sheet. Standard input has them (`exchanges`).
#![tactic(auto)]

use command::Command;
use lent::Made;
use needs::Judgement;
use program_io::exchanges::Exchange;
use program_io::streams::{STDOUT_FILENO, say, say_decimal};
use program_io::{exchanges, streams};
use program_words::words;
use refusal::Refusal;
use sweep::{Step, Sweep};
use text::{Feature, Profile, Reading};

// The argument that says how many exchanges there are, and the one that says whether there is no room.
const COUNT: usize = 1;

const SMALL: usize = 2;

// What a sweep may collect, and the longest sheet that a response gives.
const COLLECTED: usize = 65536;

const SHEET: usize = 131072;

// ---- members

fn say_member(host: HostRuntime, name: &[u8], number: u64) {
    say(host, b",\"");
    say(host, name);
    say(host, b"\":");
    say_decimal(host, number);
}

fn say_hex(host: HostRuntime, name: &[u8], number: u16) {
    say(host, b",\"");
    say(host, name);
    say(host, b"\":\"");
    words::say_hex4(host, STDOUT_FILENO, number);
    say(host, b"\"");
}

fn say_bool(host: HostRuntime, name: &[u8], is: bool) {
    say(host, b",\"");
    say(host, name);
    if is {
        say(host, b"\":true");
        return;
    }
    say(host, b"\":false");
}

// ---- a reading

fn say_true(host: HostRuntime, reading: Reading) {
    let profile = reading.profile;
    say_hex(host, b"profile", profile.0);
    say_member(host, b"data_length", reading.data_length as u64);
    say_member(host, b"whole", reading.count as u64);
    say_member(host, b"end", reading.end as u64);
    say_bool(host, b"complete", reading.complete);
}

// Where a reading that is refused stops.
fn say_stop(host: HostRuntime, rt: u8, sfn: Feature, response: &[u8]) {
    let stop = reading::stops(text::Header::RETURN_LIMIT, rt, sfn, response);
    let feature = stop.feature;
    say_member(host, b"at", stop.at as u64);
    say_hex(host, b"feature", feature.0);
}

fn say_reading(host: HostRuntime, rt: u8, sfn: Feature, response: &[u8]) {
    let reading = reading::read(rt, sfn, response);
    let fault = reading.refusal;
    say(host, b"\"reading\":");
    say_decimal(host, fault.number as u64);
    if fault.number != 0 {
        say_stop(host, rt, sfn, response);
        return;
    }
    say_true(host, reading);
}

// ---- a check and an import, of what answers RT 0 from 0

fn say_check(host: HostRuntime, response: &[u8]) {
    let finding = checks::check_descriptors(response);
    let fault = finding.refusal;
    let feature = finding.feature;
    say_member(host, b"check", fault.number as u64);
    say_hex(host, b"check_feature", feature.0);
}

fn needs_number(judgement: Judgement) -> u8 {
    match judgement {
        Judgement::Refused(fault) => fault.number,
        _ => 0,
    }
}

fn say_needs(host: HostRuntime, response: &[u8]) {
    let profile = Profile(fields::get2(response, 6));
    let number = needs_number(needs::check_profile(profile, response));
    say_member(host, b"needs", number as u64);
}

fn say_imported(host: HostRuntime, fault: Refusal) {
    say_member(host, b"import", fault.number as u64);
    say_member(host, b"import_place", fault.place as u64);
}

// With room for no sheet.
fn say_import_small(host: HostRuntime, response: &[u8]) {
    let mut sheet = [0u8; 1];
    let made = import::import(response, &mut sheet);
    say_imported(host, made.refusal);
}

fn import_into(response: &[u8], sheet: &mut [u8; SHEET]) -> Made {
    import::import(response, sheet)
}

fn say_import(host: HostRuntime, response: &[u8]) {
    let mut sheet = [0u8; SHEET];
    let made = import_into(response, &mut sheet);
    say_imported(host, made.refusal);
}

fn say_checks(host: HostRuntime, response: &[u8]) {
    say_check(host, response);
    say_needs(host, response);
    if streams::given(host, SMALL) {
        say_import_small(host, response);
        return;
    }
    say_import(host, response);
}

// ---- a sweep

// With room for nothing. What was collected before is of no use here, only how much.
fn take_small(sweep: Sweep, response: &[u8]) -> Step {
    let mut collected = [0u8; 1];
    sweep.take(response, &mut collected)
}

fn take_into(sweep: Sweep, response: &[u8], collected: &mut [u8; COLLECTED]) -> Step {
    sweep.take(response, collected)
}

fn take(host: HostRuntime, sweep: Sweep, response: &[u8]) -> Step {
    if streams::given(host, SMALL) {
        return take_small(sweep, response);
    }
    let mut collected = [0u8; COLLECTED];
    take_into(sweep, response, &mut collected)
}

fn begin(host: HostRuntime, rt: u8, allocation: u16, response: &[u8]) -> Step {
    let start = Sweep::start(rt, allocation);
    let fault = start.refusal;
    if fault.number != 0 {
        return start;
    }
    take(host, start.sweep, response)
}

fn step(host: HostRuntime, now: Sweep, c: Command, response: &[u8]) -> Step {
    let start = c.sfn;
    if start.0 == 0 {
        return begin(host, c.rt, c.allocation, response);
    }
    take(host, now, response)
}

// ---- the program

// Whether a command asks for RT 0 from 0.
fn is_plain(c: Command) -> bool {
    if c.rt != 0 {
        return false;
    }
    let start = c.sfn;
    start.0 == 0
}

fn expect(host: HostRuntime, now: Sweep, c: Command, response: &[u8]) -> Sweep {
    say_reading(host, c.rt, c.sfn, response);
    let next = step(host, now, c, response);
    let fault = next.refusal;
    say_member(host, b"sweep", fault.number as u64);
    if is_plain(c) {
        say_checks(host, response);
    }
    say(host, b"\n");
    next.sweep
}

// An exchange that was read: so many bytes of each buffer.
fn expect_read(
    host: HostRuntime,
    now: Sweep,
    read: Exchange,
    command: &[u8; exchanges::COMMAND],
    response: &[u8; exchanges::RESPONSE],
) -> Sweep {
    let c = Command::read(fields::part(command, 0, read.command));
    expect(host, now, c, fields::part(response, 0, read.response))
}

fn expect_next(host: HostRuntime, now: Sweep) -> Sweep {
    let mut command = [0u8; exchanges::COMMAND];
    let mut response = [0u8; exchanges::RESPONSE];
    let read = exchanges::read_next(host, &mut command, &mut response);
    expect_read(host, now, read, &command, &response)
}

fn expect_all(host: HostRuntime, count: u16, begun: Sweep) {
    let mut now = begun;
    let mut i = 0;
    while i < count {
        now = expect_next(host, now);
        i += 1;
    }
}

fn main(host: HostRuntime) {
    let none = Sweep::start(0, 0);
    expect_all(host, streams::arg(host, COUNT), none.sweep);
    streams::mark_end(host);
}
