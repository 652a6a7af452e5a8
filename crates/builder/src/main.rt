// Writes the command that the arguments ask for to standard output: RT, starting feature number, allocation length, how many bytes it has (`packets`), and whether hexadecimal
// text is written, a word for each byte. A refusal is a line on standard error, and nothing is written then.
#![tactic(auto)]

use command::Command;
use lent::Made;
use program_io::{dumps, packets, streams};
use program_words::told;

// The argument that says whether hexadecimal text is written.
const HEX_OUT: usize = 5;

fn say(host: HostRuntime, made: Made, command: &[u8]) {
    let refusal = made.refusal;
    if refusal.number != 0 {
        told::say_not_built(host, refusal);
        return;
    }
    let built = fields::part(command, 0, made.count);
    if streams::given(host, HEX_OUT) {
        dumps::say_words(host, built);
        return;
    }
    streams::say(host, built);
}

fn main(host: HostRuntime) {
    let mut command = [0u8; Command::PACKET];
    let made = packets::build(host, &mut command);
    say(host, made, &command);
    streams::mark_end(host);
}
