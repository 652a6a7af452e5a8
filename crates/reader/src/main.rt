// Reads a response, or sense data, from standard input and does with it what is asked, a module for each: it is listed, shown, checked, mended, imported, answered from as an image, or the bytes
// that it spells are written. Arguments: what is asked (`asked`), and how many bytes a command has (`packets`); whether hexadecimal text is read; whether padding is trimmed; what is done;
// and what that takes beyond, from the eighth on. With none the response is listed.
#![tactic(auto)]

mod checking;
mod imaging;
mod importing;
mod mending;
mod printing;
mod refusing;
mod sensing;
mod showing;
mod strays;

use program_io::streams::Input;
use program_io::{dumps, streams};
use text::Header;

// One byte more than a response may have: an input that fills it is refused, not shortened.
const ROOM: usize = Header::RETURN_LIMIT + 1;

// The argument that says whether hexadecimal text is read.
const HEX: usize = 5;

// The one that says what is done. Its numbers stand in `tell`, and in `gcf` as well.
const DONE: usize = 7;

const IMAGE: u16 = 5;

const SPELL: u16 = 6;

const SENSE: u16 = 7;

// An image, and a capture that is spelt, may be bytes though text is read.
fn read(host: HostRuntime, input: &mut [u8]) -> Input {
    match streams::arg(host, DONE) {
        IMAGE => dumps::read_either(host, HEX, input),
        SPELL => dumps::read_either(host, HEX, input),
        _ => dumps::read(host, HEX, input),
    }
}

fn tell(host: HostRuntime, s: &[u8]) {
    match streams::arg(host, DONE) {
        0 => printing::list(host, s),
        1 => showing::show(host, s),
        2 => checking::check(host, s),
        3 => mending::mend(host, s),
        4 => importing::import(host, s),
        IMAGE => imaging::answer(host, s),
        SPELL => streams::say(host, s),
        SENSE => sensing::say_sense(host, s),
        _ => {}
    }
}

fn tell_input(host: HostRuntime, input: &mut [u8]) {
    let got = read(host, input);
    if !got.failed {
        tell(host, fields::part(input, 0, got.count));
    }
    streams::mark_end(host);
}

fn tell_response(host: HostRuntime) {
    let mut input = [0u8; ROOM];
    tell_input(host, &mut input);
}

fn tell_sense(host: HostRuntime) {
    let mut input = [0u8; sensing::ROOM];
    tell_input(host, &mut input);
}

fn main(host: HostRuntime) {
    if streams::arg(host, DONE) == SENSE {
        tell_sense(host);
        return;
    }
    tell_response(host);
}
