// What the programs tell of a sweep and of a capture: a line a round, the totals, the collected descriptors as one response, the line that a refusal names.
use super::{grounds, words};
use program_io::streams;
use program_io::streams::{STDERR_FILENO, STDOUT_FILENO, say, say_decimal};
use refusal::Refusal;
use text::{Feature, Header, Profile};

// The descriptor that a response goes to: the front-end has opened a file there.
const RESPONSE: i32 = 5;

// A round: the start of its command, the bytes that came, and what a reading of them gives.
pub fn say_round(host: HostRuntime, rt: u8, start: Feature, response: &[u8]) {
    let reading = reading::read(rt, start, response);
    say(host, b"start ");
    words::say_hex4(host, STDOUT_FILENO, start.0);
    say(host, b": bytes ");
    say_decimal(host, response.len() as u64);
    say(host, b", whole descriptors ");
    say_decimal(host, reading.count as u64);
    if reading.complete {
        say(host, b", complete\n");
        return;
    }
    say(host, b", cut\n");
}

// How many commands, and how many bytes were collected.
pub fn say_totals(host: HostRuntime, commands: u32, collected: usize) {
    say(host, b"commands ");
    say_decimal(host, commands as u64);
    say(host, b", bytes collected ");
    say_decimal(host, collected as u64);
    say(host, b"\n");
}

fn say_too_many(host: HostRuntime) {
    streams::mark_fault(host);
    streams::say_to(
        host,
        STDERR_FILENO,
        b"the collected descriptors and a header are over 65,534 bytes, more than a response may have: no response is written\n",
    );
}

// Writes collected descriptors as one complete response: Data Length counts all behind its own four bytes, then two zero bytes and the Current Profile.
pub fn put_response(host: HostRuntime, profile: Profile, descriptors: &[u8]) {
    let count = descriptors.len();
    if count > Header::RETURN_LIMIT - Header::LENGTH {
        say_too_many(host);
        return;
    }
    let mut header = [0u8; 8];
    lent::put4(&mut header, 0, count as u32 + 4);
    lent::put2(&mut header, 6, profile.0);
    streams::say_to(host, RESPONSE, &header);
    streams::say_to(host, RESPONSE, descriptors);
}

// A refusal of a command that was to be built.
pub fn say_not_built(host: HostRuntime, refusal: Refusal) {
    streams::mark_fault(host);
    words::say_refused(host, STDERR_FILENO, refusal, 0, 0);
}

// The feature number of an entry that the sheet would have, counted from 1: its descriptor stands as many places behind feature 0's.
fn feature_of(response: &[u8], entry: u16) -> Feature {
    let mut at = Header::LENGTH;
    let mut i = 0;
    while i < entry {
        at = reading::next_at(response, at);
        i += 1;
    }
    reading::number_at(response, at)
}

// A refusal of a capture, with the profile or the entry that it names, else with the place where the reading stops.
pub fn say_capture_refused(host: HostRuntime, refusal: Refusal, response: &[u8]) {
    streams::mark_fault(host);
    if refusal.place == 0 {
        grounds::say_refused(
            host,
            STDERR_FILENO,
            0,
            Feature(0),
            Header::RETURN_LIMIT,
            refusal,
            response,
        );
        return;
    }
    let profiles = reading::body_at(response, Header::LENGTH).len() / 4;
    let feature = feature_of(response, refusal.place);
    words::say_refused(host, STDERR_FILENO, refusal, profiles as u64, feature.0);
}
