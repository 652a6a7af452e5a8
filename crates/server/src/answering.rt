// Writes the box's answer to a command to standard output. A refusal is a line on standard error, and nothing is written then. Arguments: all bytes of the command, two
// hexadecimal digits each, in place of what is asked for; and whether hexadecimal text is written.
use layout::Layout;
use lent::Made;
use program_io::{dumps, packets};
use program_words::{sheets, told};
use text::Header;

// The argument that has all bytes of the command.
const COMMAND: usize = 8;

// The argument that says whether hexadecimal text is written.
const HEX_OUT: usize = 9;

fn answer_command(host: HostRuntime, lay: Layout, sheet: &[u8], command: &[u8]) {
    let mut response = [0u8; Header::RETURN_LIMIT];
    let reply = program_room::answer_of(lay, sheet, command, &mut response);
    let refusal = reply.refusal;
    if refusal.number != 0 {
        sheets::say_refused(host, refusal, lay, sheet);
        return;
    }
    let count = reply.count;
    dumps::say(host, HEX_OUT, &response[..count]);
}

fn answer_made(host: HostRuntime, lay: Layout, sheet: &[u8], made: Made, command: &[u8; 64]) {
    let refusal = made.refusal;
    if refusal.number != 0 {
        told::say_not_built(host, refusal);
        return;
    }
    answer_command(host, lay, sheet, fields::part(command, 0, made.count));
}

pub fn answer(host: HostRuntime, lay: Layout, sheet: &[u8]) {
    let mut command = [0u8; 64];
    let made = packets::build_or_take(host, COMMAND, &mut command);
    answer_made(host, lay, sheet, made, &command);
}
