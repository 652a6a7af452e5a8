// Prints the listing of a response.
use super::HEX;
use program_io::streams::STDERR_FILENO;
use program_io::{asked, dumps, streams};
use program_words::grounds;

// What is said on standard error of a response that is refused: where it is at fault, and what it may be.
fn say_more(host: HostRuntime, s: &[u8]) {
    streams::mark_fault(host);
    grounds::say_placed(
        host,
        STDERR_FILENO,
        asked::rt(host),
        asked::from(host),
        asked::most(host),
        asked::fault(host, s),
        s,
    );
    dumps::hint(host, HEX, s);
}

// A listing of a response that is read as RT 0 from 0, or the refusal of that reading, which alone begins with a small letter. What a reading of another RT or start
// accepts, that of RT 0 from 0 accepts too, with the same values.
fn say_listed(host: HostRuntime, s: &[u8]) {
    let mut text = [0u8; listing::LONGEST];
    let count = program_room::listed(s, &mut text);
    streams::say(host, &text[..count]);
    if text[0] == b'r' {
        say_more(host, s);
    }
}

fn say_refused(host: HostRuntime, number: u8) {
    streams::say(host, b"refused ");
    streams::say_decimal(host, number as u64);
    streams::say(host, b"\n");
}

fn say_asked(host: HostRuntime, s: &[u8]) {
    let fault = asked::fault(host, s);
    if fault.number != 0 {
        say_refused(host, fault.number);
        say_more(host, s);
        return;
    }
    say_listed(host, s);
}

pub fn list(host: HostRuntime, s: &[u8]) {
    if asked::plain(host) {
        say_listed(host, s);
        return;
    }
    say_asked(host, s);
}
