// Judges recorded exchanges with a box by the sheet: a line for each. Arguments: the file that has the sheet, and how many exchanges there are. Standard input has these (`exchanges`).
use command::Command;
use judge::{Mistake, Verdict};
use layout::Layout;
use program_io::exchanges::Exchange;
use program_io::streams::{STDOUT_FILENO, say, say_decimal};
use program_io::{exchanges, streams};
use program_words::{sheets, words};
use refusal::Refusal;
use text::Header;

// The argument that names the file, and the one that says how many exchanges there are.
pub const FILE: usize = 8;

const COUNT: usize = 9;

// ---- words

// Which field of a descriptor a byte of it belongs to.
fn say_field(host: HostRuntime, place: usize) {
    match place {
        0 | 1 => say(host, b"feature number"),
        2 => say(host, b"flags"),
        3 => say(host, b"Additional Length"),
        _ => say(host, b"body"),
    }
}

// The descriptor of a response that has a byte in it: where it starts. A response has fewer descriptors than there are turns.
fn descriptor_at(due: &[u8], at: usize) -> usize {
    let mut start = Header::LENGTH;
    let mut i: usize = 0;
    while i < 65536 {
        let next = reading::next_at(due, start);
        if at < next {
            return start;
        }
        start = next;
        i += 1;
    }
    start
}

fn say_in_descriptor(host: HostRuntime, due: &[u8], at: usize) {
    let start = descriptor_at(due, at);
    let number = reading::number_at(due, start);
    say(host, b"feature ");
    words::say_hex4(host, STDOUT_FILENO, number.0);
    say(host, b", ");
    if start <= at {
        say_field(host, at - start);
    }
}

// Which field a byte of the response that is due belongs to; behind its end there is none.
fn say_place(host: HostRuntime, due: &[u8], at: usize) {
    if due.len() <= at {
        say(host, b"behind the end");
        return;
    }
    match at {
        0..=3 => say(host, b"Data Length"),
        4 | 5 => say(host, b"reserved bytes of the header"),
        6 | 7 => say(host, b"Current Profile"),
        _ => say_in_descriptor(host, due, at),
    }
}

fn say_mistake(host: HostRuntime, why: Mistake) {
    match why {
        Mistake::OnlyAbove => say(
            host,
            b": it sends only the features above the starting feature number",
        ),
        Mistake::LengthCut => say(host, b": its Data Length is cut with the allocation length"),
        Mistake::LengthOfAll => say(
            host,
            b": its Data Length counts all features, not only those asked for",
        ),
        Mistake::HighestCurrent => say(
            host,
            b": its Current Profile is the highest of the current profiles, not the first",
        ),
        Mistake::HighestListed => say(
            host,
            b": its Current Profile is the highest of all profiles, not the first current one",
        ),
        Mistake::NotOnlyCurrent => say(
            host,
            b": it gives RT 1 what RT 0 gets, features that are not current too",
        ),
        Mistake::NotOnlyOne => say(host, b": it gives RT 2 what RT 0 gets, not the one feature"),
        Mistake::Unexplained => say(host, b""),
    }
}

// A byte that differs: what is due there, and what came.
fn say_bytes(host: HostRuntime, due: &[u8], response: &[u8], at: usize) {
    if at < due.len() {
        say(host, b", ");
        say_decimal(host, fields::byte(due, at) as u64);
        say(host, b" is due, ");
        say_decimal(host, fields::byte(response, at) as u64);
        say(host, b" came");
    }
}

fn say_wrong(host: HostRuntime, due: &[u8], response: &[u8], at: usize, why: Mistake) {
    say(host, b"wrong at byte ");
    say_decimal(host, at as u64);
    say(host, b", ");
    say_place(host, due, at);
    say_bytes(host, due, response, at);
    say_mistake(host, why);
}

fn say_counted(host: HostRuntime, what: &[u8], right: usize, all: usize) {
    say(host, what);
    say_decimal(host, right as u64);
    say(host, b" of ");
    say_decimal(host, all as u64);
    say(host, b" bytes");
}

fn say_answered(host: HostRuntime, fault: Refusal) {
    say(host, b"answered, though it is to be refused with ");
    say_decimal(host, fault.number as u64);
    say(host, b": ");
    words::say_meaning(host, STDOUT_FILENO, fault);
}

// How many bytes are due, where a scratch buffer has them in front: as many as their own Data Length and the allocation length say.
fn due_length(scratch: &[u8], command: &[u8]) -> usize {
    let c = Command::read(command);
    let most = text::most(c.allocation);
    let full = fields::get4(scratch, 0) as usize + 4;
    if full < most {
        return full;
    }
    most
}

// ---- the verdicts

fn say_verdict(host: HostRuntime, verdict: Verdict, due: &[u8], response: &[u8]) {
    match verdict {
        Verdict::Exact => say(host, b"exact"),
        Verdict::Padded(right) => say_counted(host, b"right but padded, ", right, response.len()),
        Verdict::Short(right) => say_counted(host, b"cut short, ", right, due.len()),
        Verdict::Wrong(at, why) => say_wrong(host, due, response, at, why),
        Verdict::Answered(fault) => say_answered(host, fault),
        Verdict::Refused(_) => say(host, b"not judged"),
    }
    say(host, b"\n");
}

fn is_exact(verdict: Verdict) -> bool {
    if let Verdict::Exact = verdict {
        true
    } else {
        false
    }
}

// The scratch buffer has room for what any box may send, so that 12 is never given.
fn judged(
    lay: Layout,
    sheet: &[u8],
    command: &[u8],
    response: &[u8],
    scratch: &mut [u8; Header::RETURN_LIMIT],
) -> Verdict {
    judge::judge(lay, sheet, command, response, scratch)
}

fn tell(
    host: HostRuntime,
    verdict: Verdict,
    scratch: &[u8; Header::RETURN_LIMIT],
    command: &[u8],
    response: &[u8],
) {
    let due = fields::part(scratch, 0, due_length(scratch, command));
    say_verdict(host, verdict, due, response);
    if !is_exact(verdict) {
        streams::mark_fault(host);
    }
}

fn judge_one(host: HostRuntime, lay: Layout, sheet: &[u8], command: &[u8], response: &[u8]) {
    let mut scratch = [0u8; Header::RETURN_LIMIT];
    let verdict = judged(lay, sheet, command, response, &mut scratch);
    tell(host, verdict, &scratch, command, response);
}

// ---- the program

// An exchange that was read: so many bytes of each buffer.
fn judge_read(
    host: HostRuntime,
    lay: Layout,
    sheet: &[u8],
    read: Exchange,
    command: &[u8; exchanges::COMMAND],
    response: &[u8; exchanges::RESPONSE],
) {
    judge_one(
        host,
        lay,
        sheet,
        fields::part(command, 0, read.command),
        fields::part(response, 0, read.response),
    );
}

// Reads an exchange and judges it.
fn judge_next(host: HostRuntime, lay: Layout, sheet: &[u8]) {
    let mut command = [0u8; exchanges::COMMAND];
    let mut response = [0u8; exchanges::RESPONSE];
    let read = exchanges::read_next(host, &mut command, &mut response);
    judge_read(host, lay, sheet, read, &command, &response);
}

fn judge_each(host: HostRuntime, lay: Layout, sheet: &[u8], count: u16) {
    let mut i = 0;
    while i < count {
        judge_next(host, lay, sheet);
        i += 1;
    }
}

pub fn judge(host: HostRuntime, lay: Layout, sheet: &[u8]) {
    let fault = sheet::check(lay, sheet);
    if fault.number != 0 {
        sheets::say_refused(host, fault, lay, sheet);
        return;
    }
    judge_each(host, lay, sheet, streams::arg(host, COUNT));
}
