// Shows a response in words, or as one JSON value: current profile, each whole descriptor with its name and flags, the profiles, the fields of the bodies, every body in hexadecimal. Of a
// response that is refused it shows what stands before the fault, and then the fault. Argument: whether JSON is wanted. Of its input only numbers and plain characters get into JSON, so
// that it is valid whatever comes.
use super::{HEX, ROOM, refusing, strays};
use program_io::streams::{STDOUT_FILENO, say};
use program_io::{asked, dumps, streams};
use program_words::{bodies, forms, grounds, words};
use reading::Stop;
use refusal::Refusal;
use text::{Flags, Header};

// The argument that says whether JSON is wanted.
const JSON: usize = 8;

fn bit(b: bool) -> u32 {
    if b {
        return 1;
    }
    0
}

fn say_comma(host: HostRuntime, json: bool, later: bool) {
    if later {
        forms::say_either(host, json, b",", b"");
    }
}

// ---- a descriptor

fn say_head(host: HostRuntime, json: bool, number: u16, flags: Flags, length: u8) {
    forms::fill(
        host,
        json,
        b"{\"feature\":%d,\"name\":\"%f\",\"version\":%d,\"persistent\":%b,\"current\":%b,\"length\":%d",
        b"%xh %f: Version %d, Persistent %d, Current %d, Additional Length %d\n",
        &[
            number as u32,
            number as u32,
            flags.version() as u32,
            bit(flags.persistent()),
            bit(flags.current()),
            length as u32,
        ],
    );
}

// The profiles of feature 0's body.
fn say_profiles(host: HostRuntime, json: bool, body: &[u8]) {
    let mut at = 0;
    while at < body.len() {
        let profile = fields::get2(body, at) as u32;
        let current = fields::byte(body, at + 2) % 2;
        say_comma(host, json, at > 0);
        forms::fill(
            host,
            json,
            b"{\"profile\":%d,\"name\":\"%p\",\"current\":%b}",
            b"    %xh %p%c\n",
            &[profile, profile, current as u32],
        );
        at += 4;
    }
}

// The bytes of a body, with what stands between two of them in words.
fn say_bytes(host: HostRuntime, json: bool, body: &[u8]) {
    let mut i = 0;
    while i < body.len() {
        if i > 0 {
            forms::say_either(host, json, b"", b" ");
        }
        words::say_byte(host, STDOUT_FILENO, body[i]);
        i += 1;
    }
}

// A body in words, and that it is not decoded where it has no fields here.
fn say_body(host: HostRuntime, decoded: bool, body: &[u8]) {
    if body.len() == 0 {
        return;
    }
    forms::say_either(host, decoded, b"    body ", b"    body, not decoded: ");
    say_bytes(host, false, body);
    say(host, b"\n");
}

// What stands behind the head, in words: the profiles, or the fields and the body.
fn say_inside(host: HostRuntime, number: u16, descriptor: &[u8], clean: &[u8], body: &[u8]) {
    if number == 0 {
        say_profiles(host, false, body);
        return;
    }
    let decoded = bodies::say_fields(host, false, number, descriptor, clean);
    say_body(host, decoded, body);
}

fn say_profiles_json(host: HostRuntime, number: u16, body: &[u8]) {
    say(host, b"\",\"profiles\":[");
    if number == 0 {
        say_profiles(host, true, body);
    }
    say(host, b"],\"fields\":[");
}

// Whether a body has profiles or fields here, or nothing at all.
fn is_decoded(said: bool, number: u16, body: &[u8]) -> bool {
    if said {
        return true;
    }
    if number == 0 {
        return true;
    }
    body.len() == 0
}

fn say_inside_json(host: HostRuntime, number: u16, descriptor: &[u8], clean: &[u8], body: &[u8]) {
    say(host, b",\"body\":\"");
    say_bytes(host, true, body);
    say_profiles_json(host, number, body);
    let said = bodies::say_fields(host, true, number, descriptor, clean);
    say(host, b"],\"link_sizes\":[");
    bodies::say_links(host, number, descriptor);
    forms::say_either(
        host,
        is_decoded(said, number, body),
        b"],\"decoded\":true}",
        b"],\"decoded\":false}",
    );
}

// The descriptor at a place, of which `clean` has a copy that the mender has been over.
fn say_descriptor(host: HostRuntime, json: bool, s: &[u8], clean: &[u8], at: usize) {
    let number = reading::number_at(s, at);
    let body = reading::body_at(s, at);
    let descriptor = fields::part(s, at, body.len() + 4);
    let same = fields::part(clean, at, body.len() + 4);
    say_head(
        host,
        json,
        number.0,
        reading::flags_at(s, at),
        reading::length_at(s, at),
    );
    if json {
        say_inside_json(host, number.0, descriptor, same, body);
        return;
    }
    say_inside(host, number.0, descriptor, same, body);
}

// Each descriptor before a place.
fn say_descriptors(host: HostRuntime, json: bool, s: &[u8], clean: &[u8], end: usize) {
    let mut at = Header::LENGTH;
    let mut i = 0;
    while i < s.len() {
        if end <= at {
            return;
        }
        say_comma(host, json, i > 0);
        say_descriptor(host, json, s, clean, at);
        at = reading::next_at(s, at);
        i += 1;
    }
}

// ---- the response

// What the header says, how many bytes came and, unless the response is refused, how many whole descriptors.
fn say_top(host: HostRuntime, json: bool, refused: bool, s: &[u8]) {
    let reading = reading::read(asked::rt(host), asked::from(host), s);
    let profile = fields::get2(s, 6) as u32;
    forms::fill(
        host,
        json,
        b",\"profile\":%d,\"profile_name\":\"%p\",\"data_length\":%d,\"received\":%d,\"complete\":%b,\"features\":[",
        b"Current Profile %xh %p\nData Length %d, bytes received %d",
        &[
            profile,
            profile,
            fields::get4(s, 0),
            (s.len() % 65536) as u32,
            bit(reading.complete),
        ],
    );
    if json {
        return;
    }
    if refused {
        say(host, b", refused\n");
        return;
    }
    forms::fill(
        host,
        reading.complete,
        b", whole descriptors %d, complete\n",
        b", whole descriptors %d, cut\n",
        &[reading.count],
    );
}

fn say_meaning(host: HostRuntime, fault: Refusal, s: &[u8]) {
    grounds::say_meaning(
        host,
        STDOUT_FILENO,
        asked::rt(host),
        asked::from(host),
        asked::most(host),
        fault,
        s,
    );
}

// Where a refused response is at fault, in JSON.
fn say_place_json(host: HostRuntime, stop: Stop, s: &[u8]) {
    let feature = stop.feature;
    let place = (stop.at % 65536) as u32;
    forms::fill(
        host,
        grounds::is_headed(stop.at, s.len()),
        b",\"byte\":%d,\"feature\":%d",
        b",\"byte\":%d",
        &[place, feature.0 as u32],
    );
}

// How the JSON value of a response begins.
fn open_json(host: HostRuntime, fault: Refusal, stop: Stop, s: &[u8]) {
    say(host, b"{\"refused\":");
    streams::say_decimal(host, fault.number as u64);
    if fault.number == 0 {
        return;
    }
    say(host, b",\"meaning\":\"");
    say_meaning(host, fault, s);
    say(host, b"\"");
    if stop.at > 0 {
        say_place_json(host, stop, s);
    }
}

// What stands before the place where the reading stops; nothing does where the header is refused, and the place is 0.
fn say_before(host: HostRuntime, json: bool, refused: bool, stop: Stop, s: &[u8], clean: &[u8]) {
    if stop.at == 0 {
        return;
    }
    say_top(host, json, refused, s);
    say_descriptors(host, json, s, clean, stop.at);
    forms::say_either(host, json, b"]", b"");
}

fn show_words(host: HostRuntime, fault: Refusal, stop: Stop, s: &[u8], clean: &[u8]) {
    say_before(host, false, fault.number != 0, stop, s, clean);
    if fault.number != 0 {
        refusing::say_asked(host, fault, s);
    }
}

fn show_json(host: HostRuntime, fault: Refusal, stop: Stop, s: &[u8], clean: &[u8]) {
    open_json(host, fault, stop, s);
    say_before(host, true, fault.number != 0, stop, s, clean);
    say(host, b"}\n");
}

fn show_either(host: HostRuntime, fault: Refusal, s: &[u8], clean: &[u8]) {
    let stop = reading::stops(asked::most(host), asked::rt(host), asked::from(host), s);
    if streams::given(host, JSON) {
        show_json(host, fault, stop, s, clean);
        return;
    }
    show_words(host, fault, stop, s, clean);
}

pub fn show(host: HostRuntime, s: &[u8]) {
    let mut copy = [0u8; ROOM];
    strays::put_clean(s, &mut copy);
    let fault = asked::fault(host, s);
    show_either(host, fault, s, &copy);
    if fault.number != 0 {
        streams::mark_fault(host);
        dumps::hint(host, HEX, s);
    }
}
