// Writes a captured response to RT 0 from 0 mended to descriptor 5, and says each change in words, or as a line that a program reads: the place, the feature, the byte of its descriptor, the
// old byte and the new one. A refusal is a line on standard error, and nothing is written then. Argument: whether such lines are printed.
use super::{HEX, ROOM};
use program_io::streams::{STDERR_FILENO, STDOUT_FILENO, say, say_decimal};
use program_io::{dumps, streams};
use program_words::{grounds, words};
use refusal::Refusal;
use text::{Feature, Header};

// A response has no more bytes that can change: 50 is never given.
const MOST: usize = Header::RETURN_LIMIT;

// The descriptor that the copy goes to: the front-end has opened a file there.
const COPY: i32 = 5;

// The argument that says whether lines for a program are printed.
const LIST: usize = 8;

// A change: the descriptor it is in begins at this place of the response and has this number, and byte k of it, counted from its start, was old and is new.
#[derive(Clone, Copy)]
struct Change {
    feature: Feature,
    place: usize,
    byte: usize,
    old: u8,
    new: u8,
}

// ---- a change

// The place of the descriptor that a place of a response lies in, looked for from an earlier one on. There are fewer descriptors than bytes.
fn descriptor_at(s: &[u8], from: usize, place: usize) -> usize {
    let mut at = from;
    let mut i = 0;
    while i < s.len() {
        let next = reading::next_at(s, at);
        if place < next {
            return at;
        }
        at = next;
        i += 1;
    }
    at
}

// The distance of two places; the first is not behind the second.
fn between(from: usize, to: usize) -> usize {
    if to < from {
        return 0;
    }
    to - from
}

// The place that a number of the list tells.
fn place_in(noted: u32) -> usize {
    (noted / 65536) as usize
}

// What a number of the list says of a response, in which its descriptor begins at a place.
fn change_in(s: &[u8], at: usize, noted: u32) -> Change {
    let place = place_in(noted);
    Change {
        feature: reading::number_at(s, at),
        place: place,
        byte: between(at, place),
        old: (noted / 256 % 256) as u8,
        new: (noted % 256) as u8,
    }
}

// ---- in words

fn is_cue_length(change: Change) -> bool {
    if change.feature.0 != 0x002E {
        return false;
    }
    if change.byte < 5 {
        return false;
    }
    change.byte <= 7
}

// The field that a change is in: the flags, the cue sheet length, or another byte of the body, of which only reserved bits and pads change.
fn say_field(host: HostRuntime, change: Change) {
    if change.byte == 2 {
        say(host, b"flags");
        return;
    }
    say(host, b"byte ");
    say_decimal(host, change.byte as u64);
    if is_cue_length(change) {
        say(host, b", cue sheet length");
        return;
    }
    say(host, b", reserved bits");
}

fn say_words(host: HostRuntime, change: Change) {
    say(host, b"feature ");
    words::say_hex4(host, STDOUT_FILENO, change.feature.0);
    say(host, b", ");
    say_field(host, change);
    say(host, b": ");
    words::say_byte(host, STDOUT_FILENO, change.old);
    say(host, b"h becomes ");
    words::say_byte(host, STDOUT_FILENO, change.new);
    say(host, b"h\n");
}

// ---- as lines that a program reads

fn say_line(host: HostRuntime, change: Change) {
    say_decimal(host, change.place as u64);
    say(host, b" ");
    words::say_hex4(host, STDOUT_FILENO, change.feature.0);
    say(host, b" ");
    say_decimal(host, change.byte as u64);
    say(host, b" ");
    words::say_byte(host, STDOUT_FILENO, change.old);
    say(host, b" ");
    words::say_byte(host, STDOUT_FILENO, change.new);
    say(host, b"\n");
}

// ---- both

fn say_change(host: HostRuntime, change: Change) {
    if streams::given(host, LIST) {
        say_line(host, change);
        return;
    }
    say_words(host, change);
}

// Their places rise, so that no descriptor is passed twice.
fn say_changes(host: HostRuntime, s: &[u8], list: &[u32], count: usize) {
    let mut at = Header::LENGTH;
    let mut i = 0;
    while i < list.len() {
        if i == count {
            return;
        }
        let noted = list[i];
        at = descriptor_at(s, at, place_in(noted));
        say_change(host, change_in(s, at, noted));
        i += 1;
    }
}

// How many changes there are, in words.
fn say_count(host: HostRuntime, count: usize) {
    if streams::given(host, LIST) {
        return;
    }
    say(host, b"changes ");
    say_decimal(host, count as u64);
    say(host, b"\n");
}

fn say_refused(host: HostRuntime, refusal: Refusal, s: &[u8]) {
    streams::mark_fault(host);
    grounds::say_refused(
        host,
        STDERR_FILENO,
        0,
        Feature(0),
        Header::RETURN_LIMIT,
        refusal,
        s,
    );
    dumps::hint(host, HEX, s);
}

// The copy has as much room as the input, so 49 is never given.
pub fn mend(host: HostRuntime, s: &[u8]) {
    let mut copy = [0u8; ROOM];
    let mut list = [0u32; MOST];
    let mended = mend::mend(s, &mut copy, &mut list);
    let refusal = mended.refusal;
    if refusal.number != 0 {
        say_refused(host, refusal, s);
        return;
    }
    streams::say_to(host, COPY, fields::part(&copy, 0, mended.length));
    say_changes(host, s, &list, mended.changes);
    say_count(host, mended.changes);
}
