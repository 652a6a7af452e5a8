// Sweeps over captured responses, in the order in which the arguments name them: each is taken as the answer to the sweep's next command. Tells the rounds and the
// totals. Arguments: RT, whether the collected descriptors are to be written as one response, allocation length, whether the files are hexadecimal text, whether padding is
// trimmed, then for each file its name and the name as it is printed. Without an allocation length it is that of the first response: of a sweep's responses only the
// last may be shorter. Each file is read once, so that it may be a pipe.
//
// That no response is left out is told by Data Length, which counts all that a drive has from the start on, however much of it is sent: of the responses of one
// drive each has that of the first less the bytes collected before it (`crates/demands/proofs/Following.antt`), and the first has feature 0.
#![tactic(auto)]

use program_io::streams::{STDERR_FILENO, STDOUT_FILENO, say};
use program_io::{asked, dumps, streams};
use program_words::{grounds, told, words};
use refusal::Refusal;
use sweep::{Step, Sweep};
use text::{Header, Profile};

// One byte more than a response may have: a file that fills it is refused, not shortened.
const ROOM: usize = Header::RETURN_LIMIT + 1;

// What is collected at most here.
const MOST: usize = 1048576;

// The argument that says whether hexadecimal text is read.
const HEX: usize = 4;

// The argument that names the first file.
const FIRST: usize = 6;

// The argument that has its name as it is printed.
const SHOWN: usize = 7;

// The first file behind that one, counted in pairs of arguments.
const SECOND: usize = 4;

// A sweep over files: whether all was taken, and the record then.
#[derive(Clone, Copy)]
struct Joined {
    failed: bool,
    sweep: Sweep,
}

fn failed(sweep: Sweep) -> Joined {
    Joined {
        failed: true,
        sweep: sweep,
    }
}

fn going(sweep: Sweep) -> Joined {
    Joined {
        failed: false,
        sweep: sweep,
    }
}

// ---- words

fn say_name(host: HostRuntime, shown: usize) {
    streams::mark_fault(host);
    streams::say_arg_to(host, STDERR_FILENO, shown);
    streams::say_to(host, STDERR_FILENO, b": ");
}

fn say_refused(host: HostRuntime, shown: usize, sweep: Sweep, refusal: Refusal, response: &[u8]) {
    say_name(host, shown);
    grounds::say_refused(
        host,
        STDERR_FILENO,
        sweep.rt,
        sweep.next,
        text::most(sweep.allocation),
        refusal,
        response,
    );
    dumps::hint(host, HEX, response);
}

fn say_open(host: HostRuntime, sweep: Sweep) {
    streams::mark_fault(host);
    let next = sweep.next;
    streams::say_to(
        host,
        STDERR_FILENO,
        b"the sweep has not ended: the response to a command from feature ",
    );
    words::say_hex4(host, STDERR_FILENO, next.0);
    streams::say_to(host, STDERR_FILENO, b" on is missing\n");
}

fn say_no_first(host: HostRuntime, shown: usize) {
    say_name(host, shown);
    streams::say_to(
        host,
        STDERR_FILENO,
        b"no response to the first command of a sweep: that one has feature 0\n",
    );
}

fn say_no_next(host: HostRuntime, shown: usize, stated: u32, sweep: Sweep) {
    let next = sweep.next;
    say_name(host, shown);
    streams::say_to(
        host,
        STDERR_FILENO,
        b"no response to a command from feature ",
    );
    words::say_hex4(host, STDERR_FILENO, next.0);
    streams::say_to(
        host,
        STDERR_FILENO,
        b" on, or of another drive: its Data Length is ",
    );
    streams::say_decimal_to(host, STDERR_FILENO, stated as u64);
}

// What Data Length is due where the first was so much; nothing where more was collected than that.
fn say_due(host: HostRuntime, first: u32, sweep: Sweep) {
    let collected = sweep.collected;
    if collected <= first as usize {
        streams::say_to(host, STDERR_FILENO, b", and ");
        streams::say_decimal_to(host, STDERR_FILENO, (first as usize - collected) as u64);
        streams::say_to(host, STDERR_FILENO, b" is due");
    }
    streams::say_to(host, STDERR_FILENO, b"\n");
}

// ---- the sweep

// Whether a Data Length is that of the first response less the bytes collected since.
fn follows(first: u32, collected: usize, stated: u32) -> bool {
    if (first as usize) < collected {
        return false;
    }
    first as usize - collected == stated as usize
}

// Whether a response that was taken has a whole descriptor, and first that of feature 0.
fn has_zero(after: Sweep, response: &[u8]) -> bool {
    if after.collected == 0 {
        return false;
    }
    let number = reading::number_at(response, Header::LENGTH);
    number.0 == 0
}

// Takes a response that was in a file.
fn take_file(
    host: HostRuntime,
    shown: usize,
    sweep: Sweep,
    response: &[u8],
    collected: &mut [u8],
) -> Joined {
    let step = sweep.take(response, collected);
    let fault = step.refusal;
    if fault.number != 0 {
        say_refused(host, shown, sweep, fault, response);
        return failed(step.sweep);
    }
    going(step.sweep)
}

// Tells a round: the record before it, and what it took.
fn say_round(host: HostRuntime, shown: usize, sweep: Sweep, response: &[u8]) {
    streams::say_arg_to(host, STDOUT_FILENO, shown);
    say(host, b": ");
    told::say_round(host, sweep.rt, sweep.next, response);
}

// Takes the first response.
fn take_first(host: HostRuntime, sweep: Sweep, response: &[u8], collected: &mut [u8]) -> Joined {
    let taken = take_file(host, SHOWN, sweep, response, collected);
    if taken.failed {
        return taken;
    }
    if !has_zero(taken.sweep, response) {
        say_no_first(host, SHOWN);
        return failed(taken.sweep);
    }
    say_round(host, SHOWN, sweep, response);
    taken
}

// Takes one behind it, where the first had this Data Length.
fn take_next(
    host: HostRuntime,
    first: u32,
    shown: usize,
    sweep: Sweep,
    response: &[u8],
    collected: &mut [u8],
) -> Joined {
    let taken = take_file(host, shown, sweep, response, collected);
    if taken.failed {
        return taken;
    }
    let stated = fields::get4(response, 0);
    if !follows(first, sweep.collected, stated) {
        say_no_next(host, shown, stated, sweep);
        say_due(host, first, sweep);
        return failed(taken.sweep);
    }
    say_round(host, shown, sweep, response);
    taken
}

// Takes the files behind the first, one after the other.
fn take_files(
    host: HostRuntime,
    first: u32,
    begun: Joined,
    input: &mut [u8],
    collected: &mut [u8],
) -> Joined {
    let pairs = streams::arg_count(host) / 2;
    let mut now = begun;
    let mut k = SECOND;
    while k < pairs {
        if now.failed {
            return now;
        }
        let got = dumps::read_named(host, HEX, 2 * k, 2 * k + 1, input);
        if got.failed {
            return failed(now.sweep);
        }
        now = take_next(
            host,
            first,
            2 * k + 1,
            now.sweep,
            fields::part(input, 0, got.count),
            collected,
        );
        k += 1;
    }
    now
}

// The allocation length: the one that is given, else the length of the first response, which has at most 65,535 bytes here.
fn allocation(host: HostRuntime, received: usize) -> u16 {
    if streams::given(host, 3) {
        return streams::arg(host, 3);
    }
    (received % 65536) as u16
}

fn finish(host: HostRuntime, joined: Joined, profile: Profile, collected: &[u8]) {
    if joined.failed {
        return;
    }
    let sweep = joined.sweep;
    told::say_totals(host, sweep.commands, sweep.collected);
    if !sweep.ended {
        say_open(host, sweep);
        return;
    }
    if streams::given(host, 2) {
        told::put_response(host, profile, fields::part(collected, 0, sweep.collected));
    }
}

// Starts the sweep, and takes the first response.
fn begin(host: HostRuntime, response: &[u8], collected: &mut [u8]) -> Joined {
    let step = Sweep::start(asked::rt(host), allocation(host, response.len()));
    let fault = step.refusal;
    if fault.number != 0 {
        say_refused(host, SHOWN, step.sweep, fault, response);
        return failed(step.sweep);
    }
    take_first(host, step.sweep, response, collected)
}

// The sweep, where the first response has so many bytes of the input.
fn join_from(host: HostRuntime, count: usize, input: &mut [u8], collected: &mut [u8]) {
    let profile = Profile(fields::get2(input, 6));
    let stated = fields::get4(input, 0);
    let begun = begin(host, fields::part(input, 0, count), collected);
    let all = take_files(host, stated, begun, input, collected);
    finish(host, all, profile, collected);
}

fn join(host: HostRuntime, input: &mut [u8], collected: &mut [u8]) {
    let got = dumps::read_named(host, HEX, FIRST, SHOWN, input);
    if !got.failed {
        join_from(host, got.count, input, collected);
    }
}

fn main(host: HostRuntime) {
    let mut input = [0u8; ROOM];
    let mut collected = [0u8; MOST];
    join(host, &mut input, &mut collected);
    streams::mark_end(host);
}
