// The command that a program's arguments ask for: RT, starting feature number and allocation length, as `asked` takes them, then how many bytes it has.
use super::streams;
use command::Command;
use lent::Made;
use text::Feature;

// The argument that says how many bytes a command has.
pub const LENGTH: usize = 4;

// How many bytes argument i says that a command has; 10 where it is not given.
pub fn length(host: HostRuntime, i: usize) -> usize {
    if streams::given(host, i) {
        return streams::arg(host, i) as usize;
    }
    Command::LENGTH
}

// The allocation length, 65,535 where it is not given.
fn allocation(host: HostRuntime) -> u16 {
    if streams::given(host, 3) {
        return streams::arg(host, 3);
    }
    65535
}

// Writes the command that the arguments ask for to a lent buffer.
pub fn build(host: HostRuntime, command: &mut [u8]) -> Made {
    let rt = (streams::arg(host, 1) % 256) as u8;
    let start = Feature(streams::arg(host, 2));
    Command::build(length(host, LENGTH), rt, start, allocation(host), command)
}

// The same, or the bytes that argument i spells, which need not be a command.
pub fn build_or_take(host: HostRuntime, i: usize, command: &mut [u8; 64]) -> Made {
    if streams::given(host, i) {
        return Made::written(streams::arg_bytes(host, i, command));
    }
    build(host, command)
}
