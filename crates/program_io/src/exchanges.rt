// An exchange as the front-end spells it, all in hexadecimal digits: how many bytes the command has (two digits), how many the response has (four), the bytes of both, and a line
// end.
ghost use Rattle.std.specs.Counts.{IsPrefixLen};

use super::streams;

// The most bytes that a command and a response have here.
pub const COMMAND: usize = 255;

pub const RESPONSE: usize = 65535;

// The digits of the two counts, of a command, and of a response with the line end behind it.
const COUNTS: usize = 6;

const COMMAND_DIGITS: usize = 510;

const RESPONSE_DIGITS: usize = 131071;

// How many bytes command and response have.
#[derive(Clone, Copy)]
pub struct Exchange {
    pub command: usize,
    pub response: usize,
}

// Reads so many digits, if there is room for them.
fn read_digits(host: HostRuntime, count: usize, buf: &mut [u8]) -> usize {
    if buf.len() < count {
        return 0;
    }
    let got = streams::read(host, &mut buf[..count]);
    got.count
}

fn read_command(host: HostRuntime, count: usize, out: &mut [u8; COMMAND]) -> usize {
    let mut text = [0u8; COMMAND_DIGITS];
    let got = read_digits(host, count % 256 * 2, &mut text);
    streams::unpacked(fields::part(&text, 0, got), out)
}

fn read_response(host: HostRuntime, count: usize, out: &mut [u8; RESPONSE]) -> usize {
    let mut text = [0u8; RESPONSE_DIGITS];
    let got = read_digits(host, count % 65536 * 2 + 1, &mut text);
    streams::unpacked(fields::part(&text, 0, got), out)
}

// Reads the next exchange of standard input.
pub fn read_next(
    host: HostRuntime,
    command: &mut [u8; COMMAND],
    response: &mut [u8; RESPONSE],
) -> Exchange {
    let mut counts = [0u8; COUNTS];
    streams::read(host, &mut counts);
    let mut sizes = [0u8; 3];
    streams::unpacked(&counts, &mut sizes);
    Exchange {
        command: read_command(host, fields::byte(&sizes, 0) as usize, command),
        response: read_response(host, fields::get2(&sizes, 1) as usize, response),
    }
}
