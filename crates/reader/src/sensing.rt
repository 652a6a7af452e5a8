// Says in words what sense data means. A refusal is a line on standard error; of sense data in the fixed format its key and code are named before it, since any drive may have written it.
use super::HEX;
use program_io::streams::{STDERR_FILENO, STDOUT_FILENO};
use program_io::{dumps, streams};
use program_words::{tables, words};
use refusal::Refusal;
use sense::{Kind, Sense};

// One byte more than sense data has: an input that fills it is refused, not shortened.
pub const ROOM: usize = sense::LENGTH + 1;

// What each kind means, a line each.
fn say_kind(host: HostRuntime, kind: Kind) {
    match kind {
        Kind::Nothing => streams::say(host, b"NO SENSE: the command was accepted\n"),
        Kind::Operation => streams::say(
            host,
            b"ILLEGAL REQUEST, invalid command operation code: the command has neither 10 nor 12 bytes, or its first byte is not 46h\n",
        ),
        Kind::Field => streams::say(
            host,
            b"ILLEGAL REQUEST, invalid field in CDB, byte 1 bit 1: RT 3 is reserved\n",
        ),
        Kind::Trouble => streams::say(
            host,
            b"HARDWARE ERROR, internal target failure: the box's own trouble, a drive sheet or an image that is refused, or a response buffer that is too short\n",
        ),
    }
}

// ---- sense data that the box does not write: what any drive says by it

// The name of a sense key.
fn say_key(host: HostRuntime, key: u8) {
    let name = tables::text_of(
        b"0 NO SENSE\n\
        1 RECOVERED ERROR\n\
        2 NOT READY\n\
        3 MEDIUM ERROR\n\
        4 HARDWARE ERROR\n\
        5 ILLEGAL REQUEST\n\
        6 UNIT ATTENTION\n\
        7 DATA PROTECT\n\
        8 BLANK CHECK\n\
        9 VENDOR SPECIFIC\n\
        10 COPY ABORTED\n\
        11 ABORTED COMMAND\n\
        12 reserved\n\
        13 VOLUME OVERFLOW\n\
        14 MISCOMPARE\n\
        15 COMPLETED",
        false,
        key as u32,
    );
    streams::say(host, name);
}

// The name of an additional sense code and its qualifier, which are a byte each, of those that a drive gives for a command of this kind.
fn say_code(host: HostRuntime, code: u16) {
    let name = tables::text_of(
        b"0000 no additional sense information\n\
        0400 logical unit not ready, cause not reportable\n\
        0401 logical unit is in process of becoming ready\n\
        0402 logical unit not ready, initializing command required\n\
        0403 logical unit not ready, manual intervention required\n\
        0404 logical unit not ready, format in progress\n\
        0407 logical unit not ready, operation in progress\n\
        0408 logical unit not ready, long write in progress\n\
        0500 logical unit does not respond to selection\n\
        0800 logical unit communication failure\n\
        0801 logical unit communication time-out\n\
        1A00 parameter list length error\n\
        2000 invalid command operation code\n\
        2100 logical block address out of range\n\
        2400 invalid field in CDB\n\
        2500 logical unit not supported\n\
        2600 invalid field in parameter list\n\
        2800 not ready to ready change, medium may have changed\n\
        2900 power on, reset, or bus device reset occurred\n\
        2A00 parameters changed\n\
        2C00 command sequence error\n\
        2E00 insufficient time for operation\n\
        3000 incompatible medium installed\n\
        3A00 medium not present\n\
        3A01 medium not present, tray closed\n\
        3A02 medium not present, tray open\n\
        3E00 logical unit has not self-configured yet\n\
        4400 internal target failure\n\
        5A00 operator request or state change input\n\
        6F00 copy protection key exchange failure",
        true,
        code as u32,
    );
    streams::say(host, b", additional sense code ");
    words::say_hex4(host, STDOUT_FILENO, code);
    if name.len() > 0 {
        streams::say(host, b", ");
        streams::say(host, name);
    }
}

// Whether bytes are sense data in the fixed format, of a present or a deferred error, as far as key and codes.
fn is_fixed(s: &[u8]) -> bool {
    if s.len() < 14 {
        return false;
    }
    let format = fields::byte(s, 0) % 128;
    if format == 0x70 {
        return true;
    }
    format == 0x71
}

// The key and the codes of sense data in the fixed format, whoever wrote it.
fn say_fixed(host: HostRuntime, s: &[u8]) {
    if !is_fixed(s) {
        return;
    }
    let key = fields::byte(s, 2) % 16;
    streams::say(host, b"sense key ");
    streams::say_decimal(host, key as u64);
    streams::say(host, b" ");
    say_key(host, key);
    say_code(host, fields::get2(s, 12));
    streams::say(host, b"\n");
}

fn say_refused(host: HostRuntime, refusal: Refusal, s: &[u8]) {
    streams::mark_fault(host);
    say_fixed(host, s);
    words::say_refused(host, STDERR_FILENO, refusal, 0, 0);
    dumps::hint(host, HEX, s);
}

pub fn say_sense(host: HostRuntime, s: &[u8]) {
    match sense::read(s) {
        Sense::Means(kind) => say_kind(host, kind),
        Sense::Refused(refusal) => say_refused(host, refusal, s),
    }
}
