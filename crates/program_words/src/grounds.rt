// What a refusal of a response means in words, and where it stands: the byte, and the feature there. Where a number has more than one ground, the words know the RT and the start
// of the command, the most bytes that it let through, and the response.
use super::words;
use program_io::streams;
use reading::Stop;
use refusal::Refusal;
use text::{Feature, Header};

fn say(host: HostRuntime, fd: i32, what: &[u8]) {
    streams::say_to(host, fd, what);
}

// ---- 16 and 28: how many bytes came

// More bytes than the command let through, though Data Length has them all.
fn say_over(host: HostRuntime, fd: i32, most: usize) {
    say(
        host,
        fd,
        b"more bytes were received than the command let through, ",
    );
    streams::say_decimal_to(host, fd, most as u64);
}

fn say_too_long(host: HostRuntime, fd: i32, most: usize, s: &[u8]) {
    if fields::get4(s, 0) as usize + 4 < s.len() {
        words::say_meaning(host, fd, refusal::RECEIVED_MORE);
        return;
    }
    say_over(host, fd, most);
}

fn say_cut_short(host: HostRuntime, fd: i32, most: usize) {
    say(host, fd, b"the response is cut, and has not the ");
    streams::say_decimal_to(host, fd, most as u64);
    say(host, fd, b" bytes that were asked for");
}

// ---- 18: a feature number is not one that may stand there

fn say_feature(host: HostRuntime, fd: i32, number: u16) {
    say(host, fd, b"feature ");
    words::say_hex4(host, fd, number);
}

// Of the first descriptor: what was asked for is another one, or begins above it.
fn say_first(host: HostRuntime, fd: i32, rt: u8, start: u16, number: u16) {
    say_feature(host, fd, number);
    if rt == 2 {
        say(host, fd, b" is not the one that RT 2 asked for, ");
    } else {
        say(host, fd, b" is below the start of the command, ");
    }
    words::say_hex4(host, fd, start);
}

// Of a further one with RT 2, which asks for one.
fn say_further(host: HostRuntime, fd: i32, start: u16, number: u16) {
    say_feature(host, fd, number);
    say(host, fd, b" came too, and RT 2 asks for one, ");
    words::say_hex4(host, fd, start);
}

fn say_number(host: HostRuntime, fd: i32, rt: u8, start: u16, at: usize, number: u16) {
    if at == Header::LENGTH {
        say_first(host, fd, rt, start, number);
        return;
    }
    if rt == 2 {
        say_further(host, fd, start, number);
        return;
    }
    words::say_meaning(host, fd, refusal::FEATURE_BAD);
}

fn say_order(host: HostRuntime, fd: i32, rt: u8, start: Feature, stop: Stop) {
    let number = stop.feature;
    say_number(host, fd, rt, start.0, stop.at, number.0);
}

// ---- the words

// Says what a refusal of a response means.
pub fn say_meaning(
    host: HostRuntime,
    fd: i32,
    rt: u8,
    start: Feature,
    most: usize,
    refusal: Refusal,
    s: &[u8],
) {
    let number = refusal.number;
    match number {
        16 => say_too_long(host, fd, most, s),
        18 => say_order(host, fd, rt, start, reading::stops(most, rt, start, s)),
        28 => say_cut_short(host, fd, most),
        _ => words::say_meaning(host, fd, refusal),
    }
}

// ---- where

// Whether a refusal stands where the reading stops: at the descriptor at fault, with 23 and 27 to 29 at the first one that is not whole.
fn has_place(number: u8) -> bool {
    match number {
        17..=20 => true,
        23 => true,
        27..=29 => true,
        _ => false,
    }
}

// Whether the four header bytes of a descriptor at a place were received, so that a feature stands there.
pub fn is_headed(at: usize, received: usize) -> bool {
    if received < 4 {
        return false;
    }
    at <= received - 4
}

fn say_place(host: HostRuntime, fd: i32, stop: Stop, received: usize) {
    let at = stop.at;
    let feature = stop.feature;
    say(host, fd, b" at byte ");
    streams::say_decimal_to(host, fd, at as u64);
    if is_headed(at, received) {
        say(host, fd, b", feature ");
        words::say_hex4(host, fd, feature.0);
        say(host, fd, b"h");
    }
}

// Says the number of a refusal, where it stands, and what it means.
fn say_found(
    host: HostRuntime,
    fd: i32,
    rt: u8,
    start: Feature,
    most: usize,
    refusal: Refusal,
    s: &[u8],
) {
    streams::say_decimal_to(host, fd, refusal.number as u64);
    if has_place(refusal.number) {
        say_place(host, fd, reading::stops(most, rt, start, s), s.len());
    }
    say(host, fd, b": ");
    say_meaning(host, fd, rt, start, most, refusal, s);
    say(host, fd, b"\n");
}

// The same behind `refused`.
pub fn say_refused(
    host: HostRuntime,
    fd: i32,
    rt: u8,
    start: Feature,
    most: usize,
    refusal: Refusal,
    s: &[u8],
) {
    say(host, fd, b"refused ");
    say_found(host, fd, rt, start, most, refusal, s);
}

// The same of a refusal that stands at a place, and nothing of any other.
pub fn say_placed(
    host: HostRuntime,
    fd: i32,
    rt: u8,
    start: Feature,
    most: usize,
    refusal: Refusal,
    s: &[u8],
) {
    if has_place(refusal.number) {
        say_found(host, fd, rt, start, most, refusal, s);
    }
}
