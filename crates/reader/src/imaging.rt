// Writes what a box that holds an image, a complete response to RT 0 from 0, answers to a command to standard output. A refusal is a line on standard error, and nothing is written
// then. Arguments: all bytes of the command, two hexadecimal digits each, in place of what is asked for; and whether hexadecimal text is written.
use super::refusing;
use lent::Made;
use program_io::{dumps, packets};
use program_words::told;
use text::Header;

// The argument that has all bytes of the command.
const COMMAND: usize = 8;

// The argument that says whether hexadecimal text is written.
const HEX_OUT: usize = 9;

fn answer_command(host: HostRuntime, image: &[u8], command: &[u8]) {
    let mut response = [0u8; Header::RETURN_LIMIT];
    let reply = rom::respond(image, command, &mut response);
    let refusal = reply.refusal;
    if refusal.number != 0 {
        refusing::say_capture(host, refusal, image);
        return;
    }
    dumps::say(host, HEX_OUT, fields::part(&response, 0, reply.count));
}

fn answer_made(host: HostRuntime, image: &[u8], made: Made, command: &[u8; 64]) {
    let refusal = made.refusal;
    if refusal.number != 0 {
        told::say_not_built(host, refusal);
        return;
    }
    answer_command(host, image, fields::part(command, 0, made.count));
}

pub fn answer(host: HostRuntime, image: &[u8]) {
    let mut command = [0u8; 64];
    let made = packets::build_or_take(host, COMMAND, &mut command);
    answer_made(host, image, made, &command);
}
